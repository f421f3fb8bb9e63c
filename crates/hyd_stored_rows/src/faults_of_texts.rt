//! The fault of a text: the first row that is wrong by itself, and the fault of the text as a whole.

use crate::lines::GREATEST_TEXT;
use crate::words::{bytes_of, put_cause};
use hyd_inp::find_fault;
use hyd_lex::Lines;
use hyd_net::Cause;
use hyd_network_rows::{first_by_itself, has_hazen_williams};
use hyd_rows_and_tables::{Found, gather, kept, least};
use std::alloc::{AllocError, Global};
use std::fmt::Write;

/// The line and the cause of the fault of a text, or `none`.
fn put_fault(alloc: Global, text: &[u8], out: &mut String) -> Result<(), AllocError> {
    match find_fault(alloc, text) {
        Ok(Some(fault)) => {
            write!(out, "{} ", fault.line)?;
            put_cause(out, fault.cause)
        }
        Ok(None) => out.push_str("none"),
        Err(_) => out.push_str("out of memory"),
    }
}

/// The fault of a text.
pub(crate) fn put_text_fault(
    alloc: Global,
    asked: &str,
    out: &mut String,
) -> Result<(), AllocError> {
    put_fault(alloc, &bytes_of(alloc, asked)?, out)
}

/// A text of 17 lines without a fault: a junction, a reservoir, a tank, a pipe, a pump and a throttle control valve.
const BASE: &str =
    "[OPTIONS]\nUNITS CMD\nHEADLOSS C-M\n[JUNCTIONS]\nJ 0 1000\n[RESERVOIRS]\nR 100\n[TANKS]\n\
      T 90 2 0 5 20\n[CURVES]\nC 1000 30\n[PIPES]\nP R J 1000 300 0.012\n[PUMPS]\nU R T HEAD C\n[VALVES]\n\
      V R J 300 TCV 10 0\n";

/// The fault of that text with further lines behind it.
pub(crate) fn put_fault_behind(
    alloc: Global,
    asked: &str,
    out: &mut String,
) -> Result<(), AllocError> {
    let mut text = bytes_of(alloc, BASE)?;
    let behind = bytes_of(alloc, asked)?;
    text.extend_from_slice(&behind)?;
    put_fault(alloc, &text, out)
}

/// The fault of that text with a heading and so many rows behind it, each of which has its number between two parts:
/// `HEADING|FRONT|BACK|ROWS`.
pub(crate) fn put_fault_of_many(
    alloc: Global,
    asked: &str,
    out: &mut String,
) -> Result<(), AllocError> {
    let (heading, rest) = asked.split_once('|').unwrap_or((asked, ""));
    let (front, rest) = rest.split_once('|').unwrap_or((rest, ""));
    let (back, count) = rest.split_once('|').unwrap_or((rest, ""));
    let mut text = bytes_of(alloc, BASE)?;
    let heading = bytes_of(alloc, heading)?;
    text.extend_from_slice(&heading)?;
    let back = bytes_of(alloc, back)?;
    add_rows(
        alloc,
        front,
        &back,
        count.parse::<u32>().unwrap_or(0),
        &mut text,
    )?;
    put_fault(alloc, &text, out)
}

/// Adds so many rows behind a text.
fn add_rows(
    alloc: Global,
    front: &str,
    back: &[u8],
    count: u32,
    text: &mut Vec<u8>,
) -> Result<(), AllocError> {
    let mut row = String::new(alloc);
    for number in 0..count {
        row.clear();
        write!(row, "{front}{number}")?;
        text.extend_from_slice(row.as_bytes())?;
        text.extend_from_slice(back)?;
    }
    Ok(())
}

/// The fault of a text of so many of the same byte: `BYTE COUNT`.
pub(crate) fn put_fault_of_bytes(
    alloc: Global,
    asked: &str,
    out: &mut String,
) -> Result<(), AllocError> {
    let (byte, count) = asked.split_once(' ').unwrap_or((asked, ""));
    let byte = bytes_of(alloc, byte)?;
    let count = count.parse::<usize>().unwrap_or(0);
    let text = vec![in alloc; byte.first().copied().unwrap_or(0); count]?;
    put_fault(alloc, &text, out)
}

/// The line and the cause of the first row of a text that is wrong by itself, or else how its lines end.
pub(crate) fn put_first_row(
    alloc: Global,
    asked: &str,
    out: &mut String,
) -> Result<(), AllocError> {
    let text = bytes_of(alloc, asked)?;
    if text.len() > GREATEST_TEXT {
        return Ok(());
    }
    let Ok(gathered) = gather(alloc, &text) else {
        return out.push_str("out of memory");
    };
    let lines = Lines::new(&text);
    let rows = gathered.lines.as_slice();
    let by_power = has_hazen_williams(&lines, rows);
    match first_by_itself(&lines, rows, by_power) {
        Some(found) => {
            write!(out, "{} ", found.line)?;
            put_cause(out, found.cause)
        }
        None if gathered.fault.is_none() => out.push_str("none"),
        None => out.push_str("a fault of lines"),
    }
}

/// Whether this fault was found.
fn is_found(found: Option<Found>, expected: Found) -> bool {
    match found {
        Some(fault) => {
            fault.place == expected.place
                && fault.line == expected.line
                && fault.cause == expected.cause
        }
        None => false,
    }
}

/// Whether of two faults that are found the first one is kept, and the one that stands first is the least.
pub(crate) fn put_kept(out: &mut String) -> Result<(), AllocError> {
    let early = Found {
        place: 1,
        line: 3,
        cause: Cause::Syntax,
    };
    let late = Found {
        place: 4,
        line: 9,
        cause: Cause::Range,
    };
    let is_kept = is_found(kept(None, 1, 3, Some(Cause::Syntax)), early)
        && is_found(kept(Some(early), 4, 9, Some(Cause::Range)), early)
        && kept(None, 4, 9, None).is_none();
    let is_least = is_found(least(Some(late), Some(early)), early)
        && is_found(least(None, Some(late)), late);
    write!(out, "{is_kept} {is_least}")
}
