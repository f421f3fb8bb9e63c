//! Texts of certificates: what a reader answers of each, call by call; what is put out and read back.

ghost use Rattle.std.specs.Prelude.{◌≡◌};
ghost use Rattle.hyd_cert.specs.RecordView.{header_of};

use crate::words::bytes_of;
use hyd_cert::{CertFault, CertNext, CertReader, Record, put_end, put_header, put_record};
use hyd_io::{Channel, Desk, MemDesk, OutFault, Pen};
use hyd_spec_certificates::{Problem, Side};
use std::alloc::{AllocError, Global};
use std::fmt::Write;

/// What a reader answers of a text with the header of version 1 for one junction and no tank.
pub(crate) fn put_first_version(
    alloc: Global,
    asked: &str,
    out: &mut String,
) -> Result<(), AllocError> {
    let mut row = Record::open(alloc, 1, 1, 0)?;
    put_answers(alloc, &bytes_of(alloc, asked)?, 0, &mut row, out)
}

/// What a reader answers of a text with the header of version 2 for one junction and one tank.
pub(crate) fn put_second_version(
    alloc: Global,
    asked: &str,
    out: &mut String,
) -> Result<(), AllocError> {
    let mut row = Record::open(alloc, 2, 1, 1)?;
    put_answers(alloc, &bytes_of(alloc, asked)?, 0, &mut row, out)
}

/// Writes what a reader answers, call by call, of at most 9 records, and whether it answers another thing behind the last. The
/// call of this number on the desk fails, if it isn't 0. Opening is the first call.
fn put_answers(
    alloc: Global,
    text: &[u8],
    failing: u32,
    row: &mut Record,
    out: &mut String,
) -> Result<(), AllocError> {
    let mut desk = MemDesk::new(alloc);
    desk.add("c", text)?;
    desk.fail(failing)?;
    if desk.open("c").is_err() {
        return out.push_str("not opened");
    }
    put_calls(&mut desk, row, out)
}

/// Writes what a reader answers of the file that is open.
fn put_calls(desk: &mut MemDesk, row: &mut Record, out: &mut String) -> Result<(), AllocError> {
    let mut reader = CertReader::new();
    for _ in 0..10 {
        let answer = reader.next(desk, row);
        put_next(answer, row, out)?;
        if !matches!(answer, Ok(CertNext::Record)) {
            let again = reader.next(desk, row);
            return if is_same(again, answer) {
                Ok(())
            } else {
                out.push_str(", then another")
            };
        }
    }
    Ok(())
}

/// Whether two answers are the same.
fn is_same(answer: Result<CertNext, CertFault>, other: Result<CertNext, CertFault>) -> bool {
    match (answer, other) {
        (Ok(CertNext::Record), Ok(CertNext::Record)) => true,
        (
            Ok(CertNext::End { periods, finished }),
            Ok(
                CertNext::End {
                    periods: records,
                    finished: whole,
                },
            ),
        ) => periods == records && finished == whole,
        (Err(fault), Err(another)) => fault == another,
        _ => false,
    }
}

/// Writes what a reader answers.
fn put_next(
    answer: Result<CertNext, CertFault>,
    row: &Record,
    out: &mut String,
) -> Result<(), AllocError> {
    match answer {
        Ok(CertNext::Record) => put_heads(row, out),
        Ok(CertNext::End { periods, finished }) => write!(out, "end {periods} {finished}"),
        Err(CertFault::Read) => out.push_str("read"),
        Err(CertFault::Grammar { line }) => write!(out, "grammar {line}"),
        Err(CertFault::Count { line }) => write!(out, "count {line}"),
    }
}

/// Writes the numbers and the heads of a record.
fn put_heads(row: &Record, out: &mut String) -> Result<(), AllocError> {
    write!(out, "{} {} {}:", row.number, row.time, row.length)?;
    for head in row.vectors.as_slice() {
        write!(out, " {head}")?;
    }
    out.push_str("; ")
}

/// The text of a record of two vectors for a junction, and two more where a tank is pinned, as it is put out.
const WHOLE: &str = "HYDCERT 2 1 1\nPERIOD 7 60 3600\nMU 5\nML 3\nPU 2\nPL -1\nEND 1 FINISHED\n";

/// What a reader answers of that text cut off behind so many bytes.
pub(crate) fn put_cut(alloc: Global, asked: &str, out: &mut String) -> Result<(), AllocError> {
    let mut row = Record::open(alloc, 2, 1, 1)?;
    let length = asked.parse::<usize>().unwrap_or(0);
    let front = WHOLE.as_bytes().get(..length).unwrap_or(b"");
    put_answers(alloc, front, 0, &mut row, out)
}

/// The text of a record of so many junctions without tanks, with heads of 17 digits.
fn long_text(alloc: Global, junctions: u32) -> Result<String, AllocError> {
    let mut text = String::new(alloc);
    write!(text, "HYDCERT 1 {junctions} 0\nPERIOD 0 0 0\n")?;
    for front in ["MU", "ML"] {
        for _ in 0..junctions {
            write!(text, "{front} 10000000000000000\n")?;
        }
    }
    text.push_str("END 1 FINISHED\n")?;
    Ok(text)
}

/// How what a reader answers of the text of 500 junctions ends, where the call of a number fails: behind the heads, if
/// there are some. Three reads give the text, and a fourth nothing.
pub(crate) fn put_failing_read(
    alloc: Global,
    asked: &str,
    out: &mut String,
) -> Result<(), AllocError> {
    let text = long_text(alloc, 500)?;
    let mut row = Record::open(alloc, 1, 500, 0)?;
    let mut answer = String::new(alloc);
    let call = asked.parse::<u32>().unwrap_or(0);
    put_answers(alloc, text.as_bytes(), call, &mut row, &mut answer)?;
    out.push_str(last_part(answer.as_str()))
}

/// What stands behind the last semicolon, or all.
fn last_part(text: &str) -> &str {
    match text.rsplit_once("; ") {
        Some((_, last)) => last,
        None => text,
    }
}

/// Puts the numbers and the heads of the text into a record, and tells whether they are found there.
fn is_written(row: &mut Record) -> bool
    requires { header_of row.old ≡ record { version = 2; junctions = 1; tanks = 1 } }
{
    row.number = 7;
    row.time = 60;
    row.length = 3600;
    row.set_vector(Problem::Main, Side::Upper, &[5]);
    row.set_vector(Problem::Main, Side::Lower, &[3]);
    row.set_vector(Problem::Pinned(0), Side::Upper, &[2]);
    row.set_vector(Problem::Pinned(0), Side::Lower, &[-1]);
    row.vector(Problem::Pinned(0), Side::Upper) == [2].as_slice()
        && row.start_of(Problem::Pinned(0), Side::Lower) == 3
}

/// Prints the header, the record and the end.
fn print_all(row: &Record, desk: &mut MemDesk) -> Result<(), OutFault> {
    let mut pen = Pen::new(Channel::Report);
    put_header(row, &mut pen, desk)?;
    put_record(row, &mut pen, desk)?;
    put_end(1, true, &mut pen, desk)?;
    pen.flush(desk)
}

/// Whether what is printed of a record is the text.
fn prints(alloc: Global, row: &Record) -> bool {
    let mut desk = MemDesk::new(alloc);
    print_all(row, &mut desk).is_ok() && desk.printed() == WHOLE.as_bytes()
}

/// Whether the record of the text is written and printed.
pub(crate) fn put_printed(alloc: Global, out: &mut String) -> Result<(), AllocError> {
    let mut row = Record::open(alloc, 2, 1, 1)?;
    let is_printed = is_written(&mut row) && prints(alloc, &row);
    write!(out, "{is_printed}")
}
