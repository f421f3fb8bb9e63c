//! The lines of a text, each with what it stands under, and the words of a line.

ghost use Rattle.std.specs.Prelude.{length};
ghost use Rattle.std.specs.Iterator.{at_most};

use crate::forms::HEADINGS;
use hyd_lex::{is_keyword, split_word};
use hyd_spec_lines::{Region, Section};

/// A line of a text.
#[derive(Clone, Copy)]
pub(crate) struct Row<'a> {
    /// Its number, counted from 1.
    pub number: u32,
    /// What it stands under.
    pub region: Region,
    /// Its bytes, without its end.
    pub line: &'a [u8],
}

/// The lines of a text in turn.
#[derive(Clone, Copy)]
pub(crate) struct Rows<'a> {
    rest: &'a [u8],
    number: u32,
    region: Region,
}

/// The words of a line in turn.
#[derive(Clone, Copy)]
pub(crate) struct Words<'a> {
    rest: &'a [u8],
}

// A line without the carriage return at its end.
fn without_carriage_return(line: &[u8]) -> &[u8] {
    match line {
        [front @ .., b'\r'] => front,
        _ => line,
    }
}

// What a heading opens.
fn opened(heading: &[u8]) -> Region {
    for known in HEADINGS {
        if is_keyword(heading, known.text.as_bytes()) {
            return known.region;
        }
    }
    Region::PassedOver
}

// What stands behind a line, which stands under a region.
fn region_behind(region: Region, line: &[u8]) -> Region {
    if let Region::Ended = region {
        return region;
    }
    match words_of(line).next() {
        Some(word) if word.starts_with(b"[") => opened(word),
        _ => region,
    }
}

/// The words of a line before its comment.
pub(crate) fn words_of(line: &[u8]) -> Words<'_> {
    Words {
        rest: body_of(line),
    }
}

/// A line before its comment.
pub(crate) fn body_of(line: &[u8]) -> &[u8] {
    match line.iter().position(|byte| *byte == b';') {
        Some(place) => line.get(..place).unwrap_or(line),
        None => line,
    }
}

/// The lines of a text.
pub(crate) fn rows_of(text: &[u8]) -> Rows<'_> {
    Rows {
        rest: text,
        number: 0,
        region: Region::BeforeHeadings,
    }
}

/// The line of a number, counted from 1.
pub(crate) fn row_at(text: &[u8], line: u32) -> Option<Row<'_>> {
    rows_of(text).find(|row| row.number == line)
}

impl<'a> Iterator for Rows<'a> {
    type Item = Row<'a>;

    ghost remaining = { λ s. at_most (length s.rest.now) };

    fn next(&mut self) -> Option<Row<'a>> {
        if self.rest.is_empty() {
            return None;
        }
        let mut parts = self.rest.splitn(2, |byte| *byte == b'\n');
        let line = without_carriage_return(parts.next()?);
        self.rest = match parts.next() {
            Some(rest) => rest,
            None => &[],
        };
        self.number = self.number.wrapping_add(1);
        let region = self.region;
        self.region = region_behind(region, line);
        Some(Row {
            number: self.number,
            region,
            line,
        })
    }
}

impl<'a> Iterator for Words<'a> {
    type Item = &'a [u8];

    ghost remaining = { λ s. at_most (length s.rest.now) };

    fn next(&mut self) -> Option<&'a [u8]> {
        let (word, rest) = split_word(self.rest)?;
        self.rest = rest;
        Some(word)
    }
}

impl<'a> Row<'a> {
    /// Its words.
    pub(crate) fn words(&self) -> Words<'a> {
        words_of(self.line)
    }

    /// The word of a number, counted from 0; empty where there is none.
    pub(crate) fn word(&self, number: usize) -> &'a [u8] {
        self.words().nth(number).unwrap_or(b"")
    }

    /// Whether the word of a number is a keyword.
    pub(crate) fn has(&self, number: usize, keyword: &str) -> bool {
        is_keyword(self.word(number), keyword.as_bytes())
    }

    /// How many words it has.
    pub(crate) fn count(&self) -> usize {
        self.words().count()
    }

    /// Whether it is a heading, right or wrong.
    pub(crate) fn is_heading(&self) -> bool {
        self.word(0).starts_with(b"[")
    }

    /// The section of which it is a row.
    pub(crate) fn section(&self) -> Option<Section> {
        match self.region {
            Region::Read(section) if !self.is_heading() => Some(section),
            _ => None,
        }
    }
}

/// Whether a word is one of some keywords, which are parted by spaces.
pub(crate) fn is_one_of(word: &[u8], keywords: &'static str) -> bool {
    words_of(keywords.as_bytes()).any(|keyword| is_keyword(word, keyword))
}
