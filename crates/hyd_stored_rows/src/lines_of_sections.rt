//! A line of a section by itself, and what a reader of such lines says of it.

use crate::lines::GREATEST_TEXT;
use crate::network_rows::put_network_row;
use crate::option_and_rule_lines::put_line_of;
use hyd_lex::Lines;
use std::alloc::{AllocError, Global};

/// What the reader of lines of a kind says of a line.
#[derive(Clone, Copy, Drop)]
pub(crate) enum Reader {
    /// The one of its section.
    OfSection,
    Time,
    Clock,
    BeforeThen,
    AfterThen,
}

/// Writes what a reader says of a line under a heading.
pub(crate) fn put_line(
    alloc: Global,
    heading: &str,
    reader: Reader,
    asked: &str,
    out: &mut String,
) -> Result<(), AllocError> {
    let mut text = String::from_str(alloc, heading)?;
    text.push('\n')?;
    text.push_str(asked)?;
    put_only_line(text.as_bytes(), reader, out)
}

/// Writes what a reader says of the only line of a text.
fn put_only_line(text: &[u8], reader: Reader, out: &mut String) -> Result<(), AllocError> {
    if text.len() > GREATEST_TEXT {
        return Ok(());
    }
    let mut lines = Lines::new(text);
    let Some(Ok(line)) = lines.next() else {
        return out.push_str("none");
    };
    match reader {
        Reader::OfSection => put_network_row(&lines, &line, out),
        _ => put_line_of(&lines, &line, reader, out),
    }
}
