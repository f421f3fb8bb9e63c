//! Why a text is refused.

use crate::numbers::wrong_number;
use crate::parts_and_limits::{wrong_part, wrong_size};
use crate::ranges::wrong_range;
use crate::remedies::remedy_of;
use crate::rows::{Row, row_at};
use crate::sentences::{NO_BYTES, RemedyFor, Said, whole};
use crate::shown::Shown;
use crate::syntax::syntax_fault;
use crate::unknown_names::{earlier_owner, wrong_name};
use hyd_net::Cause;
use std::fmt::{self, Display, Formatter};

/// Why a text is refused: the file, the line, what is wrong with it and what mends it, and beneath it the row as it
/// stands in the file, of which a very long one is cut, and bytes that aren't printing ASCII are shown as `?`. What is
/// wrong is looked for again in the text; where nothing certain is found, the sentence is the general one of the cause.
#[derive(Clone, Copy)]
pub struct RefusedText<'a> {
    /// The file's name.
    pub file: &'a str,
    /// The text.
    pub text: &'a [u8],
    /// The line of the fault, counted from 1, or 0 where the file as a whole is meant.
    pub line: u32,
    /// The cause for which it is refused.
    pub cause: Cause,
}

// What is found of a row, for a cause.
fn found<'a>(text: &'a [u8], row: &Row<'a>, cause: Cause) -> Option<Said<'a>> {
    match cause {
        Cause::Syntax => syntax_fault(text, row),
        Cause::Number => Some(Said::WrongNumber(wrong_number(text, row)?)),
        Cause::Range => Some(Said::WrongRange(wrong_range(text, row)?)),
        Cause::DuplicateId => Some(Said::Duplicate(earlier_owner(text, row)?)),
        Cause::UnknownName => Some(Said::WrongName(wrong_name(text, row)?)),
        Cause::Unsupported(part) => Some(Said::WrongPart(wrong_part(text, row, part)?)),
        Cause::Limit(limit) => Some(Said::WrongSize(wrong_size(text, row, limit)?)),
        Cause::Missing => None,
    }
}

// What is said of a row, for a cause.
fn said_of<'a>(text: &'a [u8], row: &Row<'a>, cause: Cause) -> Said<'a> {
    match found(text, row, cause) {
        Some(said) => said,
        None => Said::General(cause),
    }
}

// Whether a text was read that has no byte. One that is too long is handed in as none.
fn is_without_bytes(text: &[u8], cause: Cause) -> bool {
    text.is_empty() && !matches!(cause, Cause::Limit(_))
}

// Says what a cause means of a file as a whole.
fn write_whole<W: fmt::Write>(refused: &RefusedText<'_>, f: &mut Formatter<W>) -> fmt::Result {
    let RefusedText {
        file,
        text,
        cause,
        ..
    } = *refused;
    if is_without_bytes(text, cause) {
        return write!(f, "{file}: {NO_BYTES}");
    }
    write!(f, "{file}: {}", whole(cause))
}

impl Display for RefusedText<'_> {
    fn fmt<W: fmt::Write>(&self, f: &mut Formatter<W>) -> fmt::Result {
        let RefusedText {
            file,
            text,
            line,
            cause,
        } = *self;
        if line == 0 {
            return write_whole(self, f);
        }
        match row_at(text, line) {
            Some(row) => {
                let said = said_of(text, &row, cause);
                let remedy = RemedyFor {
                    remedy: remedy_of(text, &row, said),
                    file,
                };
                write!(f, "{file}:{line}: {said}{remedy}\n  {}", Shown(row.line))
            }
            None => write!(f, "{file}:{line}: {}", Said::General(cause)),
        }
    }
}
