//! Stored certificates of version 4. Each row of `open_certificates.rows` has the numbers of junctions and tanks, a text
//! whose lines end by `/`, and behind ` : ` what a reader answers of it: whether its first line is that of such a text,
//! then call by call its records, its end or its fault; and whether what was read, put out again, is the text. The
//! program works out each anew, and says how many rows are as expected, and which are not.
#![tactic(auto)]

ghost use Rattle.std.specs.Prelude.{◌≡◌};
ghost use Rattle.hyd_io.specs.declared.output.Channel.TheVariants as channel;

use hyd_cert::{CertFault, CertNext, put_end};
use hyd_io::{Channel, Desk, MemDesk, Pen};
use hyd_open_certificates::{OpenCertReader, OpenRow, put_open_header, put_open_record};
use std::alloc::{AllocError, Global};
use std::fmt::Write;
use std::{fs, io};

/// Tries the rows.
fn main(rt: HostRuntime) -> io::Result<()> {
    let text = fs::read_to_string(&rt, "open_certificates.rows")?;
    let mut right = 0u32;
    for row in text.lines() {
        if is_right(&rt, row)? {
            right = right.saturating_add(1);
        }
    }
    println!(rt; "{right} rows as expected")
}

/// Whether a row is as expected. What is worked out is printed where it isn't.
fn is_right(rt: &HostRuntime, row: &str) -> io::Result<bool> {
    let (asked, expected) = row.split_once(" : ").unwrap_or((row, ""));
    let mut answer = String::new(rt.alloc());
    put_answers(rt.alloc(), asked, &mut answer)?;
    if answer.as_str() == expected {
        return Ok(true);
    }
    println!(rt; "NOT AS EXPECTED: {asked} : {answer}")?;
    Ok(false)
}

/// Writes what a reader answers of a text, for so many junctions and tanks.
fn put_answers(alloc: Global, asked: &str, out: &mut String) -> Result<(), AllocError> {
    let (junctions, rest) = asked.split_once(' ').unwrap_or((asked, ""));
    let (tanks, text) = rest.split_once(' ').unwrap_or((rest, ""));
    let bytes = with_line_feeds(alloc, text)?;
    let mut desk = MemDesk::new(alloc);
    desk.add("c", &bytes)?;
    if desk.open("c").is_err() {
        return out.push_str("not opened");
    }
    let mut found = OpenRow::open(alloc, number_of(junctions), number_of(tanks))?;
    put_calls(&mut desk, &mut found, out)?;
    if desk.printed() == bytes.as_slice() {
        return out.push_str(" as put");
    }
    Ok(())
}

/// The number that a word of a row spells.
fn number_of(word: &str) -> u32 {
    word.parse::<u32>().unwrap_or(0)
}

/// The bytes of the text, with a line feed for each `/`.
fn with_line_feeds(alloc: Global, text: &str) -> Result<Vec<u8>, AllocError> {
    let mut bytes = Vec::new(alloc);
    for byte in text.as_bytes() {
        bytes.push(if *byte == b'/' { b'\n' } else { *byte })?;
    }
    Ok(bytes)
}

/// Writes what a reader answers of the file that is open, of at most 9 records, and prints what it read.
fn put_calls(desk: &mut MemDesk, found: &mut OpenRow, out: &mut String) -> Result<(), AllocError> {
    let mut reader = OpenCertReader::new();
    match reader.has_open_header(desk) {
        Ok(true) => out.push_str("open: ")?,
        Ok(false) => out.push_str("other: ")?,
        Err(_) => out.push_str("unread: ")?,
    }
    let mut pen = Pen::new(Channel::Report);
    let _ = put_open_header(found, &mut pen, desk);
    for _ in 0..10u32 {
        let answer = reader.next(desk, found);
        put_next(answer, found, out)?;
        print_next(answer, found, &mut pen, desk);
        if !matches!(answer, Ok(CertNext::Record)) {
            let _ = pen.flush(desk);
            return Ok(());
        }
    }
    Ok(())
}

/// Writes what a reader answers.
fn put_next(
    answer: Result<CertNext, CertFault>,
    found: &OpenRow,
    out: &mut String,
) -> Result<(), AllocError> {
    match answer {
        Ok(CertNext::Record) => put_record(found, out),
        Ok(CertNext::End { periods, finished }) => write!(out, "end {periods} {finished}"),
        Err(CertFault::Read) => out.push_str("read"),
        Err(CertFault::Grammar { line }) => write!(out, "grammar {line}"),
        Err(CertFault::Count { line }) => write!(out, "count {line}"),
    }
}

/// Writes the numbers and the heads of a record.
fn put_record(found: &OpenRow, out: &mut String) -> Result<(), AllocError> {
    write!(
        out,
        "{} {} {} {} {}",
        found.row.number, found.row.time, found.late, found.shortest, found.row.length
    )?;
    for head in found.row.vectors.as_slice() {
        write!(out, " {head}")?;
    }
    out.push_str("; ")
}

/// Prints what a reader answered, if it is no fault.
fn print_next(
    answer: Result<CertNext, CertFault>,
    found: &OpenRow,
    pen: &mut Pen,
    desk: &mut MemDesk,
)
    requires { pen.old.to ≡ channel.Report }
    ensures { pen.new.to ≡ channel.Report }
{
    let _ = match answer {
        Ok(CertNext::Record) => put_open_record(found, pen, desk),
        Ok(CertNext::End { periods, finished }) => put_end(periods, finished, pen, desk),
        Err(_) => Ok(()),
    };
}
