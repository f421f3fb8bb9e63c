//! Texts that are refused, and what is said of them.
//!
//! The list begins with the text to which most cases add lines. Behind it each case begins with a line of its own: `== add`
//! for lines behind that text, `== whole` for a text, `== said` for lines behind that text of which the reader isn't asked;
//! then the line, the number of the cause, and the detail.

use crate::causes::{cause_of, numbers_of};
use hyd_inp::find_fault;
use hyd_net::Cause;
use hyd_sentences::RefusedText;
use std::io;

/// What stands before each case.
pub(crate) const MARK: &str = "\n== ";

/// A case of the list.
#[derive(Clone, Copy)]
pub(crate) struct Case<'a> {
    /// Where its lines stand: `add`, `whole` or `said`.
    pub kind: &'a str,
    /// The line that is named.
    pub line: u32,
    /// The cause.
    pub cause: Cause,
    /// Its lines.
    pub lines: &'a str,
}

/// The case that a part of the list is, if it is one.
pub(crate) fn case_of(part: &str) -> Option<Case<'_>> {
    let (first, lines) = part.split_once('\n').unwrap_or((part, ""));
    let mut words = first.split_whitespace();
    let kind = words.next()?;
    let line = words.next()?.parse::<u32>().ok()?;
    let number = words.next()?.parse::<u8>().ok()?;
    let detail = words.next()?.parse::<u8>().ok()?;
    Some(Case {
        kind,
        line,
        cause: cause_of(number, detail),
        lines,
    })
}

/// Says of a text why it is refused, and tells where the reader answers something else.
fn say(rt: &HostRuntime, case: &Case<'_>, text: &str) -> io::Result<()> {
    println!(rt;
        "{}",
        RefusedText {
            file: "n.inp",
            text: text.as_bytes(),
            line: case.line,
            cause: case.cause
        }
    )?;
    if case.kind == "said" {
        return Ok(());
    }
    match find_fault(rt.alloc(), text.as_bytes()) {
        Ok(Some(fault))
            if fault.line == case.line && numbers_of(fault.cause) == numbers_of(case.cause) => Ok(
            (),
        ),
        Ok(Some(fault)) => {
            let (number, detail) = numbers_of(fault.cause);
            println!(rt;
                "THE READER ANSWERS line {} cause {number} detail {detail}",
                fault.line
            )
        }
        Ok(None) => rt.println("THE READER FINDS NO FAULT"),
        Err(_) => rt.println("out of memory"),
    }
}

/// Says of a case why its text is refused.
fn say_case(rt: &HostRuntime, front: &str, case: &Case<'_>) -> io::Result<()> {
    if case.kind == "whole" {
        return say(rt, case, case.lines);
    }
    let text = format!(in rt.alloc(); "{front}\n{}", case.lines)?;
    say(rt, case, text.as_str())
}

/// A text of two bytes for each letter, of which the list has none.
const TWO_BYTES: &[u8] = &[0xFF, 0xFE, b'[', 0, b'J', 0, b'\n', 0];

/// Says why a text of two bytes for each letter is refused.
pub(crate) fn say_two_bytes(rt: &HostRuntime) -> io::Result<()> {
    println!(rt;
        "{}",
        RefusedText {
            file: "n.inp",
            text: TWO_BYTES,
            line: 1,
            cause: Cause::Syntax
        }
    )
}

/// Says of each case of a list why its text is refused.
pub(crate) fn say_all(rt: &HostRuntime, list: &str) -> io::Result<()> {
    let (front, _) = list.split_once(MARK).unwrap_or((list, ""));
    for part in list.split(MARK) {
        if let Some(case) = case_of(part) {
            say_case(rt, front, &case)?;
        }
    }
    Ok(())
}
