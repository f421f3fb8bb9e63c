//! The causes for which a text is refused, by their numbers.

use crate::texts::{MARK, case_of};
use hyd_net::Cause;
use std::io;

/// The parts that aren't supported, and the limits, by their numbers.
const PARTS: [u8; 11] = [1, 2, 3, 4, 5, 6, 7, 8, 10, 11, 13];

const LIMITS: [u8; 13] = [1, 2, 3, 4, 5, 6, 7, 8, 9, 10, 11, 12, 13];

/// The cause of a number and a detail, as the line of a refused text has them.
pub(crate) fn cause_of(number: u8, detail: u8) -> Cause {
    match number {
        1 => Cause::Syntax,
        2 => Cause::Number,
        3 => Cause::Range,
        4 => Cause::DuplicateId,
        5 => Cause::UnknownName,
        6 => Cause::Unsupported(detail),
        7 => Cause::Limit(detail),
        _ => Cause::Missing,
    }
}

/// Its number and its detail.
pub(crate) fn numbers_of(cause: Cause) -> (u8, u8) {
    match cause {
        Cause::Syntax => (1, 0),
        Cause::Number => (2, 0),
        Cause::Range => (3, 0),
        Cause::DuplicateId => (4, 0),
        Cause::UnknownName => (5, 0),
        Cause::Unsupported(part) => (6, part),
        Cause::Limit(limit) => (7, limit),
        Cause::Missing => (8, 0),
    }
}

/// Whether a list has a case of a cause.
fn has_case(list: &str, number: u8, detail: u8) -> bool {
    list.split(MARK).any(|part| match case_of(part) {
        Some(case) => numbers_of(case.cause) == (number, detail),
        None => false,
    })
}

/// Tells a cause without a case.
fn tell_if_lacking(rt: &HostRuntime, list: &str, number: u8, detail: u8) -> io::Result<()> {
    if has_case(list, number, detail) {
        return Ok(());
    }
    println!(rt; "cause {number} detail {detail} HAS NO CASE")
}

/// Tells each cause and detail without a case.
pub(crate) fn tell_lacking(rt: &HostRuntime, list: &str) -> io::Result<()> {
    for number in [1_u8, 2, 3, 4, 5, 8] {
        tell_if_lacking(rt, list, number, 0)?;
    }
    for part in PARTS {
        tell_if_lacking(rt, list, 6, part)?;
    }
    for limit in LIMITS {
        tell_if_lacking(rt, list, 7, limit)?;
    }
    Ok(())
}
