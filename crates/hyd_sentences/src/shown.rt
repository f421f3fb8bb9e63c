//! Bytes of a file, and lists of keywords, as they are shown.

use crate::rows::words_of;
use std::fmt::{self, Display, Formatter};

// The most bytes of a row that are shown.
const LONGEST_ROW: usize = 120;

/// Bytes of a file: those that aren't printing ASCII are shown as `?`, tabs as they are.
#[derive(Clone, Copy)]
pub(crate) struct Name<'a>(pub &'a [u8]);

/// A row as it stands in the file, cut where it is very long.
#[derive(Clone, Copy)]
pub(crate) struct Shown<'a>(pub &'a [u8]);

/// Keywords, parted by spaces, as `A, B or C`.
#[derive(Clone, Copy)]
pub(crate) struct OneOf(pub &'static str);

// A byte as it is shown.
fn shown_byte(byte: u8) -> char {
    if byte == b'\t' || (b' ' <= byte && byte <= b'~') {
        return char::from(byte);
    }
    '?'
}

impl Display for Name<'_> {
    fn fmt<W: fmt::Write>(&self, f: &mut Formatter<W>) -> fmt::Result {
        for byte in self.0 {
            f.write_char(shown_byte(*byte))?;
        }
        Ok(())
    }
}

impl Display for Shown<'_> {
    fn fmt<W: fmt::Write>(&self, f: &mut Formatter<W>) -> fmt::Result {
        match self.0.get(..LONGEST_ROW) {
            Some(front) if LONGEST_ROW < self.0.len() => write!(f, "{} ..", Name(front)),
            _ => write!(f, "{}", Name(self.0)),
        }
    }
}

impl Display for OneOf {
    fn fmt<W: fmt::Write>(&self, f: &mut Formatter<W>) -> fmt::Result {
        let mut left = words_of(self.0.as_bytes()).count();
        for word in words_of(self.0.as_bytes()) {
            left = left.saturating_sub(1);
            write!(f, "{}{}", Name(word), joint(left))?;
        }
        Ok(())
    }
}

// What stands behind a keyword, before so many others.
fn joint(left: usize) -> &'static str {
    match left {
        0 => "",
        1 => " or ",
        _ => ", ",
    }
}
