//! Stored spreads. Each row of `spreads.rows` has a text whose lines end by `/`, and what the reader answers of it over
//! the network of `net.inp`, behind ` : `: the two ends for each node, or the line and the cause of the first fault.
//! The
//! program works out each anew, and says how many rows are as expected, and which are not.
#![tactic(auto)]

ghost use Rattle.hyd_net.specs.Sound.{IsSound};

use hyd_inp::read_project;
use hyd_net::{Cause, Project};
use hyd_spread_rows::{Ends, SpreadFault, SpreadRefused, SpreadRows, read_spread};
use std::alloc::{AllocError, Global};
use std::fmt::Write;
use std::{fs, io};

/// Tries the rows.
fn main(rt: HostRuntime) -> io::Result<()> {
    let network = fs::read_to_string(&rt, "net.inp")?;
    let rows = fs::read_to_string(&rt, "spreads.rows")?;
    match read_project(rt.alloc(), network.as_bytes()) {
        Ok(project) => try_rows(&rt, &project, rows.as_str()),
        Err(_) => println!(rt; "net.inp is refused"),
    }
}

/// Tries each row over a network.
fn try_rows(rt: &HostRuntime, project: &Project, rows: &str) -> io::Result<()>
    requires { IsSound project.now }
{
    let mut right = 0u32;
    for row in rows.lines() {
        if is_right(rt, project, row)? {
            right = right.saturating_add(1);
        }
    }
    println!(rt; "{right} rows as expected")
}

/// Whether a row is as expected. What is worked out is printed where it isn't.
fn is_right(rt: &HostRuntime, project: &Project, row: &str) -> io::Result<bool>
    requires { IsSound project.now }
{
    let (asked, expected) = row.split_once(" : ").unwrap_or((row, ""));
    let mut answer = String::new(rt.alloc());
    put_answer(rt.alloc(), project, asked, &mut answer)?;
    if answer.as_str() == expected {
        return Ok(true);
    }
    println!(rt; "NOT AS EXPECTED: {asked} : {answer}")?;
    Ok(false)
}

/// Writes what the reader answers of a text.
fn put_answer(
    alloc: Global,
    project: &Project,
    asked: &str,
    out: &mut String,
) -> Result<(), AllocError>
    requires { IsSound project.now }
{
    let bytes = with_line_feeds(alloc, asked)?;
    match read_spread(alloc, project, &bytes) {
        Ok(rows) => put_rows(&rows, out),
        Err(SpreadRefused::Fault(fault)) => put_fault(fault, out),
        Err(SpreadRefused::OutOfMemory) => out.push_str("out of memory"),
    }
}

/// The bytes of the text, with a line feed for each `/`.
fn with_line_feeds(alloc: Global, text: &str) -> Result<Vec<u8>, AllocError> {
    let mut bytes = Vec::new(alloc);
    for byte in text.as_bytes() {
        bytes.push(if *byte == b'/' { b'\n' } else { *byte })?;
    }
    Ok(bytes)
}

/// Writes the ends for all nodes.
fn put_rows(rows: &SpreadRows, out: &mut String) -> Result<(), AllocError> {
    put_ends("D", &rows.demands, out)?;
    put_ends(" E", &rows.emitters, out)?;
    put_ends(" H", &rows.heads, out)?;
    put_ends(" L", &rows.levels, out)
}

/// Writes ends behind a name.
fn put_ends(name: &str, each: &Vec<Ends>, out: &mut String) -> Result<(), AllocError> {
    write!(out, "{name}")?;
    for ends in each.as_slice() {
        write!(out, " {} {}", ends.low, ends.high)?;
    }
    Ok(())
}

/// Writes a line and a cause.
fn put_fault(fault: SpreadFault, out: &mut String) -> Result<(), AllocError> {
    write!(out, "line {} ", fault.line)?;
    match fault.cause {
        Cause::Syntax => out.push_str("SYNTAX"),
        Cause::Number => out.push_str("NUMBER"),
        Cause::Range => out.push_str("RANGE"),
        Cause::UnknownName => out.push_str("UNKNOWN"),
        Cause::Limit(number) => write!(out, "LIMIT {number}"),
        _ => out.push_str("ANOTHER"),
    }
}
