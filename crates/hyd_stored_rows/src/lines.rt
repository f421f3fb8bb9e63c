//! Lines and words of small texts. A row of a text shows as its number, its section and its words, a fault as its line
//! and cause.

ghost use Rattle.std.specs.Prelude.{◌≤◌, ◌^◌, length};
ghost use Rattle.hyd_spec_lines.specs.Lines.{LiesIn};

use crate::words::{bytes_of, put_bytes, small_at, word_at};
use hyd_lex::{Line, Lines, Section, split_word};
use hyd_spec_lines::LexCause;
use std::alloc::{AllocError, Global};
use std::fmt::Write;

/// The most bytes of a text that is read.
pub(crate) const GREATEST_TEXT: usize = 67_108_864;

/// The rows and the fault of a text.
pub(crate) fn put_lines(alloc: Global, asked: &str, out: &mut String) -> Result<(), AllocError> {
    let text = bytes_of(alloc, asked)?;
    if text.len() > GREATEST_TEXT {
        return Ok(());
    }
    put_rows(&text, out)
}

/// The same of a heading and a line of so many of the same byte behind it, and of a text behind that: `HEADING BYTE COUNT
/// BEHIND`.
pub(crate) fn put_long_line(
    alloc: Global,
    asked: &str,
    out: &mut String,
) -> Result<(), AllocError> {
    let mut text = bytes_of(alloc, word_at(asked, 0))?;
    let byte = bytes_of(alloc, word_at(asked, 1))?;
    for _ in 0..small_at(asked, 2) {
        text.extend_from_slice(&byte)?;
    }
    let behind = bytes_of(alloc, word_at(asked, 3))?;
    text.extend_from_slice(&behind)?;
    if text.len() > GREATEST_TEXT {
        return Ok(());
    }
    put_rows(&text, out)
}

/// Writes the rows and the fault of a text.
fn put_rows(text: &[u8], out: &mut String) -> Result<(), AllocError>
    requires { length text.now ≤ 2 ^ 26 }
{
    let mut lines = Lines::new(text);
    for _ in 0..=text.len() {
        match lines.next() {
            None if out.is_empty() => return out.push_str("none"),
            None => return Ok(()),
            Some(Err(fault)) => write!(out, "{} {};", fault.line, cause_word(fault.cause))?,
            Some(Ok(line)) => put_row(&lines, &line, out)?,
        }
    }
    Ok(())
}

/// Writes a row.
fn put_row(lines: &Lines<'_>, line: &Line, out: &mut String) -> Result<(), AllocError>
    requires { LiesIn lines.now.text line.now }
{
    write!(out, "{} {}", line.number, section_word(line.section))?;
    for number in 0..1_024 {
        let Some(word) = lines.word(line, number) else {
            break;
        };
        out.push(' ')?;
        put_bytes(out, word)?;
    }
    out.push(';')
}

/// The word of the cause of a fault of lines.
fn cause_word(cause: LexCause) -> &'static str {
    match cause {
        LexCause::LongLine => "long line",
        LexCause::UnknownSection => "unknown section",
        LexCause::NotAscii => "not ascii",
        LexCause::NoSection => "no section",
    }
}

/// The word of a section.
fn section_word(section: Section) -> &'static str {
    match section {
        Section::Junctions => "junctions",
        Section::Reservoirs => "reservoirs",
        Section::Tanks => "tanks",
        Section::Pipes => "pipes",
        Section::Pumps => "pumps",
        Section::Valves => "valves",
        Section::Demands => "demands",
        Section::Emitters => "emitters",
        Section::Curves => "curves",
        Section::Patterns => "patterns",
        Section::Status => "status",
        Section::Controls => "controls",
        Section::Rules => "rules",
        Section::Options => "options",
        Section::Times => "times",
    }
}

/// The first word of a body, in brackets, and what stands behind it, in brackets too.
pub(crate) fn put_first_word(
    alloc: Global,
    asked: &str,
    out: &mut String,
) -> Result<(), AllocError> {
    let body = bytes_of(alloc, asked)?;
    match split_word(&body) {
        None => out.push_str("none"),
        Some((word, behind)) => {
            out.push('(')?;
            put_bytes(out, word)?;
            out.push_str(")(")?;
            put_bytes(out, behind)?;
            out.push(')')
        }
    }
}
