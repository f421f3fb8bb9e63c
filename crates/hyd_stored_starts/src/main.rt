//! Stored starts of runs for spreads. Each row of `starts.rows` has a text whose lines end by `/`, and behind ` : ` what
//! a run for its spread over the network of `net.inp` begins with: levels, volumes and states of tanks, or the line and
//! the cause of the fault. The program works out each anew, and says how many rows are as expected, and which are not.
#![tactic(auto)]

ghost use Rattle.hyd_net.specs.Sound.{IsSound};

use hyd_inp::read_project;
use hyd_net::{Cause, Project};
use hyd_period_facts::TankStart;
use hyd_spec::TankState;
use hyd_spread_rows::{SpreadFault, SpreadRefused};
use hyd_spread_start::read_start;
use std::alloc::{AllocError, Global};
use std::fmt::Write;
use std::{fs, io};

/// Tries the rows.
fn main(rt: HostRuntime) -> io::Result<()> {
    let network = fs::read_to_string(&rt, "net.inp")?;
    let rows = fs::read_to_string(&rt, "starts.rows")?;
    match read_project(rt.alloc(), network.as_bytes()) {
        Ok(project) => try_rows(&rt, &project, rows.as_str()),
        Err(_) => println!(rt; "net.inp is refused"),
    }
}

/// Tries each row over a network.
fn try_rows(rt: &HostRuntime, project: &Project, rows: &str) -> io::Result<()>
    requires { IsSound project.now }
{
    let mut right = 0u32;
    for row in rows.lines() {
        if is_right(rt, project, row)? {
            right = right.saturating_add(1);
        }
    }
    println!(rt; "{right} rows as expected")
}

/// Whether a row is as expected. What is worked out is printed where it isn't.
fn is_right(rt: &HostRuntime, project: &Project, row: &str) -> io::Result<bool>
    requires { IsSound project.now }
{
    let (asked, expected) = row.split_once(" : ").unwrap_or((row, ""));
    let mut answer = String::new(rt.alloc());
    put_answer(rt.alloc(), project, asked, &mut answer)?;
    if answer.as_str() == expected {
        return Ok(true);
    }
    println!(rt; "NOT AS EXPECTED: {asked} : {answer}")?;
    Ok(false)
}

/// Writes what a run for the spread of a text begins with.
fn put_answer(
    alloc: Global,
    project: &Project,
    asked: &str,
    out: &mut String,
) -> Result<(), AllocError>
    requires { IsSound project.now }
{
    let bytes = with_line_feeds(alloc, asked)?;
    match read_start(alloc, project, &bytes) {
        Ok(start) => put_stocks(&start.standing.stocks, out),
        Err(SpreadRefused::Fault(fault)) => put_fault(fault, out),
        Err(SpreadRefused::OutOfMemory) => out.push_str("out of memory"),
    }
}

/// The bytes of the text, with a line feed for each `/`.
fn with_line_feeds(alloc: Global, text: &str) -> Result<Vec<u8>, AllocError> {
    let mut bytes = Vec::new(alloc);
    for byte in text.as_bytes() {
        bytes.push(if *byte == b'/' { b'\n' } else { *byte })?;
    }
    Ok(bytes)
}

/// Writes the levels, volumes and states of tanks.
fn put_stocks(stocks: &TankStart, out: &mut String) -> Result<(), AllocError> {
    out.push_str("L")?;
    for level in stocks.levels.as_slice() {
        write!(out, " {} {}", level.lo, level.hi)?;
    }
    out.push_str(" V")?;
    for volume in stocks.volumes.as_slice() {
        write!(out, " {} {}", volume.lo, volume.hi)?;
    }
    out.push_str(" S")?;
    for state in stocks.tanks.as_slice() {
        match state {
            TankState::Full => out.push_str(" FULL")?,
            TankState::Between => out.push_str(" BETWEEN")?,
            TankState::Empty => out.push_str(" EMPTY")?,
        }
    }
    Ok(())
}

/// Writes a line and a cause.
fn put_fault(fault: SpreadFault, out: &mut String) -> Result<(), AllocError> {
    write!(out, "line {} ", fault.line)?;
    match fault.cause {
        Cause::Range => out.push_str("RANGE"),
        Cause::UnknownName => out.push_str("UNKNOWN"),
        _ => out.push_str("ANOTHER"),
    }
}
