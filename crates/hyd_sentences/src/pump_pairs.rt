//! The pairs of a keyword and a value in a pump's row.

ghost use Rattle.std.specs.Prelude.{length};
ghost use Rattle.std.specs.Iterator.{at_most};

use crate::rows::{Row, body_of};
use hyd_lex::{is_keyword, split_word};

/// A keyword and the word behind it.
#[derive(Clone, Copy)]
pub(crate) struct Pair<'a> {
    /// The keyword.
    pub key: &'a [u8],
    /// The word behind it, empty where there is none.
    pub value: &'a [u8],
}

/// The pairs in turn.
#[derive(Clone, Copy)]
pub(crate) struct Pairs<'a> {
    rest: &'a [u8],
}

// What stands behind a word, or nothing.
fn behind_word(rest: &[u8]) -> &[u8] {
    match split_word(rest) {
        Some((_, behind)) => behind,
        None => b"",
    }
}

/// The pairs behind the ID and the two nodes of a pump.
pub(crate) fn pairs_of<'a>(row: &Row<'a>) -> Pairs<'a> {
    let body = body_of(row.line);
    Pairs {
        rest: behind_word(behind_word(behind_word(body))),
    }
}

/// The value of a keyword, empty where there is none.
pub(crate) fn value_of<'a>(row: &Row<'a>, keyword: &str) -> &'a [u8] {
    match pairs_of(row).find(|pair| is_keyword(pair.key, keyword.as_bytes())) {
        Some(pair) => pair.value,
        None => b"",
    }
}

impl<'a> Iterator for Pairs<'a> {
    type Item = Pair<'a>;

    ghost remaining = { λ s. at_most (length s.rest.now) };

    fn next(&mut self) -> Option<Pair<'a>> {
        let (key, behind) = split_word(self.rest)?;
        match split_word(behind) {
            Some((value, rest)) => {
                self.rest = rest;
                Some(Pair { key, value })
            }
            None => {
                self.rest = b"";
                Some(Pair { key, value: b"" })
            }
        }
    }
}
