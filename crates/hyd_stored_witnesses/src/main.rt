//! Stored witnesses. Each row of `witnesses.rows` has the number of tanks of a network of one junction and one link, a
//! text whose lines end by `/`, and what a reader answers of it, call by call, behind ` : `. The program works out each
//! anew, and says how many rows are as expected, and which are not.
#![tactic(auto)]

ghost use Rattle.hyd_witness_texts.specs.MomentView.{counts_in, moment_of, HasCounts};

use hyd_io::{Desk, MemDesk};
use hyd_net::List;
use hyd_witness_texts::{Moment, NetworkCounts, WitnessFault, WitnessNext, WitnessReader};
use std::alloc::{AllocError, Global};
use std::fmt::Write;
use std::{fs, io};

/// Tries the rows.
fn main(rt: HostRuntime) -> io::Result<()> {
    let text = fs::read_to_string(&rt, "witnesses.rows")?;
    let mut right = 0u32;
    for row in text.lines() {
        if is_right(&rt, row)? {
            right = right.saturating_add(1);
        }
    }
    println!(rt; "{right} rows as expected")
}

/// Whether a row is as expected. What is worked out is printed where it isn't.
fn is_right(rt: &HostRuntime, row: &str) -> io::Result<bool> {
    let (asked, expected) = row.split_once(" : ").unwrap_or((row, ""));
    let mut answer = String::new(rt.alloc());
    put_answers(rt.alloc(), asked, &mut answer)?;
    if answer.as_str() == expected {
        return Ok(true);
    }
    println!(rt; "NOT AS EXPECTED: {asked} : {answer}")?;
    Ok(false)
}

/// Writes what a reader answers of a text, for so many tanks.
fn put_answers(alloc: Global, asked: &str, out: &mut String) -> Result<(), AllocError> {
    let (tanks, text) = asked.split_once(' ').unwrap_or((asked, ""));
    let counts = NetworkCounts {
        junctions: 1,
        links: 1,
        tanks: tanks.parse::<u32>().unwrap_or(0),
    };
    let bytes = with_line_feeds(alloc, text)?;
    let mut desk = MemDesk::new(alloc);
    desk.add("w", &bytes)?;
    if desk.open("w").is_err() {
        return out.push_str("not opened");
    }
    let mut moment = Moment::open(alloc, counts)?;
    put_calls(&mut desk, counts, &mut moment, out)
}

/// The bytes of the text, with a line feed for each `/`.
fn with_line_feeds(alloc: Global, text: &str) -> Result<Vec<u8>, AllocError> {
    let mut bytes = Vec::new(alloc);
    for byte in text.as_bytes() {
        bytes.push(if *byte == b'/' { b'\n' } else { *byte })?;
    }
    Ok(bytes)
}

/// Writes what a reader answers of the file that is open, of at most 9 periods.
fn put_calls(
    desk: &mut MemDesk,
    counts: NetworkCounts,
    into: &mut Moment,
    out: &mut String,
) -> Result<(), AllocError>
    requires { HasCounts (counts_in counts) (moment_of into.old) }
{
    let mut reader = WitnessReader::open(counts);
    for _ in 0..10u32 {
        let answer = reader.next(desk, into);
        put_next(answer, into, out)?;
        if !matches!(answer, Ok(WitnessNext::Moment(_))) {
            return Ok(());
        }
    }
    Ok(())
}

/// Writes what a reader answers.
fn put_next(
    answer: Result<WitnessNext, WitnessFault>,
    moment: &Moment,
    out: &mut String,
) -> Result<(), AllocError> {
    match answer {
        Ok(WitnessNext::Moment(reached)) => {
            write!(out, "{}: ", reached.scale)?;
            put_moment(moment, out)
        }
        Ok(WitnessNext::End(reached)) => write!(out, "end {}", reached.periods),
        Err(WitnessFault::Read) => out.push_str("read"),
        Err(WitnessFault::Grammar { line }) => write!(out, "grammar {line}"),
    }
}

/// Writes the numbers and the lists of a moment.
fn put_moment(moment: &Moment, out: &mut String) -> Result<(), AllocError> {
    write!(out, "{} {} {}", moment.number, moment.time, moment.length)?;
    put_list("H", &moment.heads, out)?;
    put_list("Q", &moment.flows, out)?;
    put_list("D", &moment.demands, out)?;
    put_list("E", &moment.emitters, out)?;
    put_list("L", &moment.levels, out)?;
    put_list("V", &moment.volumes, out)?;
    out.push_str("; ")
}

/// Writes the values of a list behind its name.
fn put_list(name: &str, values: &List<i128>, out: &mut String) -> Result<(), AllocError> {
    write!(out, " {name}")?;
    for value in values.as_slice() {
        write!(out, " {value}")?;
    }
    Ok(())
}
