//! The words of what is asked, and how values are written as words.

use hyd_net::Cause;
use hyd_num::{Decimal, FlowUnit, Scaled};
use std::alloc::{AllocError, Global};
use std::fmt::Write;

/// The word at a place, or an empty one.
pub(crate) fn word_at(asked: &str, place: usize) -> &str {
    asked.split_ascii_whitespace().nth(place).unwrap_or("")
}

/// The word at a place as a whole number, or 0.
pub(crate) fn number_at(asked: &str, place: usize) -> i128 {
    word_at(asked, place).parse::<i128>().unwrap_or(0)
}

/// The word at a place as a whole number that isn't negative, or 0.
pub(crate) fn natural_at(asked: &str, place: usize) -> u128 {
    word_at(asked, place).parse::<u128>().unwrap_or(0)
}

/// The word at a place as a whole number of 32 bits that isn't negative, or 0.
pub(crate) fn small_at(asked: &str, place: usize) -> u32 {
    word_at(asked, place).parse::<u32>().unwrap_or(0)
}

/// The word at a place as a decimal, given in billionths, or 0.
pub(crate) fn decimal_at(asked: &str, place: usize) -> Decimal {
    let nano = number_at(asked, place);
    if nano.unsigned_abs() > 1_000_000_000_000_000_000_000 {
        return Decimal { nano: 0 };
    }
    Decimal { nano }
}

/// Whether the word at a place says that units are US customary.
pub(crate) fn is_us_at(asked: &str, place: usize) -> bool {
    word_at(asked, place) == "us"
}

/// The word at a place as a unit of flows.
pub(crate) fn unit_at(asked: &str, place: usize) -> FlowUnit {
    let word = word_at(asked, place);
    for unit in UNITS {
        if unit_word(unit) == word {
            return unit;
        }
    }
    FlowUnit::Cmd
}

/// All units of flows.
pub(crate) const UNITS: [FlowUnit; 10] = [
    FlowUnit::Cfs,
    FlowUnit::Gpm,
    FlowUnit::Mgd,
    FlowUnit::Imgd,
    FlowUnit::Afd,
    FlowUnit::Lps,
    FlowUnit::Lpm,
    FlowUnit::Mld,
    FlowUnit::Cmh,
    FlowUnit::Cmd,
];

/// The word of a unit of flows.
pub(crate) fn unit_word(unit: FlowUnit) -> &'static str {
    match unit {
        FlowUnit::Cfs => "cfs",
        FlowUnit::Gpm => "gpm",
        FlowUnit::Mgd => "mgd",
        FlowUnit::Imgd => "imgd",
        FlowUnit::Afd => "afd",
        FlowUnit::Lps => "lps",
        FlowUnit::Lpm => "lpm",
        FlowUnit::Mld => "mld",
        FlowUnit::Cmh => "cmh",
        FlowUnit::Cmd => "cmd",
    }
}

/// Writes two binary numbers, as the ends of an interval.
pub(crate) fn put_ends(out: &mut String, lo: Scaled, hi: Scaled) -> Result<(), AllocError> {
    write!(out, "{}*2^{}..", lo.mant, lo.exp)?;
    write!(out, "{}*2^{}", hi.mant, hi.exp)
}

/// Writes bytes of printing ASCII as they are.
pub(crate) fn put_bytes(out: &mut String, bytes: &[u8]) -> Result<(), AllocError> {
    for byte in bytes {
        out.push(*byte as char)?;
    }
    Ok(())
}

/// Writes a word and an ID behind it.
pub(crate) fn put_id(out: &mut String, word: &str, id: &[u8]) -> Result<(), AllocError> {
    write!(out, " {word} ")?;
    put_bytes(out, id)
}

/// Writes a word and an ID behind it, if there is one.
pub(crate) fn put_some_id(
    out: &mut String,
    word: &str,
    id: Option<&[u8]>,
) -> Result<(), AllocError> {
    match id {
        Some(id) => put_id(out, word, id),
        None => write!(out, " {word} none"),
    }
}

/// Writes a cause, with its number if it has one.
pub(crate) fn put_cause(out: &mut String, cause: Cause) -> Result<(), AllocError> {
    match cause {
        Cause::Syntax => out.push_str("syntax"),
        Cause::Number => out.push_str("number"),
        Cause::Range => out.push_str("range"),
        Cause::DuplicateId => out.push_str("duplicate id"),
        Cause::UnknownName => out.push_str("unknown name"),
        Cause::Unsupported(part) => write!(out, "unsupported {part}"),
        Cause::Limit(limit) => write!(out, "limit {limit}"),
        Cause::Missing => out.push_str("missing"),
    }
}

/// Writes that something is refused for a cause.
pub(crate) fn put_refused(out: &mut String, cause: Cause) -> Result<(), AllocError> {
    out.push_str("refused: ")?;
    put_cause(out, cause)
}

/// The bytes of a text in which `\n`, `\r`, `\t` and `\xHH` stand for single bytes.
pub(crate) fn bytes_of(alloc: Global, text: &str) -> Result<Vec<u8>, AllocError> {
    let mut bytes = Vec::new(alloc);
    let mut rest = text.as_bytes();
    for _ in 0..text.len() {
        let [first, behind @ ..] = rest else {
            break;
        };
        let (byte, length) = byte_at(*first, behind);
        bytes.push(byte)?;
        rest = behind.get(length..).unwrap_or(&[]);
    }
    Ok(bytes)
}

/// The byte that stands at the front, and how many bytes of what is behind its first one belong to it.
fn byte_at(first: u8, behind: &[u8]) -> (u8, usize) {
    match (first, behind) {
        (b'\\', [b'n', ..]) => (b'\n', 1),
        (b'\\', [b'r', ..]) => (b'\r', 1),
        (b'\\', [b't', ..]) => (b'\t', 1),
        (b'\\', [b'x', high, low, ..]) => (
            digit(*high).wrapping_mul(16).wrapping_add(digit(*low)),
            3,
        ),
        _ => (first, 0),
    }
}

/// The value of a hexadecimal digit in small letters.
fn digit(byte: u8) -> u8 {
    match byte {
        b'0'..=b'9' => byte - b'0',
        b'a'..=b'f' => byte - b'a' + 10,
        _ => 0,
    }
}
