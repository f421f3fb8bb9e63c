//! The reader of lines.
#![tactic(auto)]

ghost use Rattle.std.specs.Prelude.{◌≡◌, ◌+◌, ◌-◌, ◌<◌, ◌≤◌, ◌^◌, [], ◌∷◌, length, drop, slice_get, IfSome, IfNone};
ghost use Rattle.std.specs.Prelude.{IfOk};
ghost use Rattle.hyd_spec_lines.specs.WordsOfLines as form;
ghost use Rattle.hyd_spec_lines.specs.WordsOfLines.{words_in, text_of};
ghost use Rattle.hyd_spec_lines.specs.Lines.{items_of, item_of, row_of, LiesIn, IsLineOf};
ghost use Rattle.hyd_spec_lines.specs.Lines as lines_form;
ghost use Rattle.hyd_lex.specs.FirstWords.{AreFirst};
ghost use Rattle.hyd_lex.specs.RemainingRows as walk;

use crate::first_words::{FirstWords, first_words};
use crate::headings::heading_kind;
use crate::lines_and_words_split::{body, first_line, is_plain, word};
use hyd_spec_lines::{Kind, LexCause, LexFault, Line, Region};
use std::marker::Model;

// The most bytes of a line.
const LONGEST: usize = 1_024;

/// The reader of a text's lines. It stands for the text and for what is still to come: the rows of its sections that
/// are read, and the lines that break a rule of lines.
#[derive(Drop)]
pub struct Lines<'a> {
    text: &'a [u8],
    at: usize,
    number: u32,
    region: Region,
}

impl<'a> Model for Lines<'a> {
    ghost use Rattle.std.specs.Prelude.{◌≤◌, ◌^◌, ◌+◌, length, drop};
    ghost use Rattle.hyd_spec_lines.specs.Lines.{Reading};
    ghost use Rattle.hyd_lex.specs.RemainingRows.{Stands, items};
    ghost use Rattle.hyd_spec_lines.specs.WordsOfLines.{text_lines};

    ghost Value = { Reading };

    ghost view = { λ s. record {
      text = s.text.now;
      rest =
          items s.region (s.number + 1) (text_lines (drop s.at s.text.now));
    } };

    ghost invariant = { λ s.
        (length s.text.now ≤ 2 ^ 26) × (s.at ≤ length s.text.now) × (s.number ≤ s.at)
        × Stands s.text.now s.at s.number };
}

// What a line with a word that is no heading is.
fn row_kind(region: Region, body: &[u8]) -> Kind
    ensures { result ≡ lines_form.row_kind region body.now }
{
    match region {
        Region::BeforeHeadings => Kind::Wrong(LexCause::NoSection),
        Region::Read(section) => {
            if is_plain(body) {
                Kind::Row(section)
            } else {
                Kind::Wrong(LexCause::NotAscii)
            }
        }
        Region::PassedOver => Kind::Nothing,
        Region::Ended => Kind::Nothing,
    }
}

// What a line is by its body, which is what stands before its comment.
fn body_kind(region: Region, body: &[u8]) -> Kind
    ensures { result ≡ lines_form.body_kind region body.now (words_in body.now) }
{
    let Some(first) = word(body, 0) else {
        return Kind::Nothing;
    };
    if first.is_empty() || first[0] != b'[' {
        return row_kind(region, body);
    }
    if !is_plain(body) {
        return Kind::Wrong(LexCause::NotAscii);
    }
    if word(body, 1).is_some() {
        return Kind::Wrong(LexCause::UnknownSection);
    }
    heading_kind(first)
}

// What a line is in a region that is read.
fn line_kind(region: Region, line: &[u8]) -> Kind
    ensures { result ≡ lines_form.line_kind region line.now }
{
    if line.len() > LONGEST {
        return Kind::Wrong(LexCause::LongLine);
    }
    body_kind(region, body(line))
}

/// What a line is in a region.
#[tactic(auto, unfolding(hyd_spec_lines::specs::Lines::kind_of))]
fn kind_of(region: Region, line: &[u8]) -> Kind
    ensures { result ≡ lines_form.kind_of region line.now }
{
    match region {
        Region::Ended => Kind::Nothing,
        _ => line_kind(region, line),
    }
}

// Whether a line's first word begins a heading.
fn is_heading(line: &[u8]) -> bool
    ensures { result ≡ lines_form.is_heading line.now }
{
    let Some(first) = word(body(line), 0) else {
        return false;
    };
    !first.is_empty() && first[0] == b'['
}

// The region after a line that breaks a rule of lines.
fn region_behind(region: Region, line: &[u8]) -> Region
    ensures { result ≡ walk.region_behind (lines_form.is_heading line.now) region }
{
    if is_heading(line) {
        return Region::PassedOver;
    }
    region
}

/// The region after a line of a kind.
fn region_after(region: Region, line: &[u8], kind: Kind) -> Region
    ensures { result ≡ walk.region_after (lines_form.is_heading line.now) region kind }
{
    match kind {
        Kind::Nothing => region,
        Kind::Wrong(_) => region_behind(region, line),
        Kind::Row(_) => region,
        Kind::Opens(next) => next,
    }
}

impl<'a> Lines<'a> {
    /// The reader at the start of a text of at most 64 MiB.
    pub fn new(text: &'a [u8]) -> Lines<'a>
        requires { length text.now ≤ 2 ^ 26 }
        ensures text { result.text ≡ text.now }
        ensures rest { result.rest ≡ items_of text.now }
        ensures few { length result.rest ≤ length text.now }
    {
        Lines {
            text,
            at: 0,
            number: 0,
            region: Region::BeforeHeadings,
        }
    }

    /// The reader at the start of the same text.
    pub fn again(&self) -> Lines<'a>
        ensures text { result.text ≡ self.now.text }
        ensures rest { result.rest ≡ items_of self.now.text }
        ensures few { length result.rest ≤ length self.now.text }
    {
        Lines::new(self.text)
    }

    /// The next line that has a word in a section that is read. A fault comes exactly at a line that breaks a rule of
    /// lines, and the lines behind it come after it: those behind a wrong heading are passed over. `None` comes exactly
    /// after the last line to give. Blank lines, headings and the lines of sections that are passed over aren't given.
    pub fn next(&mut self) -> Option<Result<Line, LexFault>>
        ensures text { self.new.text ≡ self.old.text }
        ensures none { IfNone result ((self.old.rest ≡ []) × (self.new.rest ≡ [])) }
        ensures some { IfSome result (λ item. self.old.rest ≡ item_of self.old.text item ∷ self.new.rest) }
        ensures lies { IfSome result (λ item. IfOk item (LiesIn self.old.text)) }
        ensures place { IfSome result (λ item. IfOk item (IsLineOf self.old.text)) }
    {
        while self.at < self.text.len() {
            let from = self.at;
            let (line, used) = first_line(&self.text[from..]);
            self.number += 1;
            self.at += used;
            let kind = kind_of(self.region, line);
            self.region = region_after(self.region, line, kind);
            match kind {
                Kind::Nothing => {}
                Kind::Wrong(cause) => {
                    return Some(Err(LexFault {
                        line: self.number,
                        cause,
                    }));
                }
                Kind::Row(section) => {
                    return Some(Ok(Line {
                        number: self.number,
                        section,
                        from: from as u32,
                        to: (from + body(line).len()) as u32,
                    }));
                }
                Kind::Opens(_) => {}
            }
        }
        None
    }

    /// The word of a line by its number, counted from 0. `None` comes exactly where the line has no such word; a text
    /// of 64 MiB has fewer words than bytes. The line is read anew for each word.
    pub fn word(&self, line: &Line, number: u32) -> Option<&'a [u8]>
        requires { LiesIn self.now.text line.now }
        ensures word { text_of result ≡ slice_get (row_of self.now.text line.now).words number }
        ensures few { IfSome result (λ word. number < 2 ^ 26) }
    {
        word(&self.text[line.from as usize..line.to as usize], number)
    }

    /// The first eight words of a line, in one pass over it.
    pub fn first_words(&self, line: &Line) -> FirstWords<'a>
        requires { LiesIn self.now.text line.now }
        ensures { AreFirst (row_of self.now.text line.now).words result }
    {
        first_words(&self.text[line.from as usize..line.to as usize])
    }

    /// A line before its comment, for lines of many words.
    pub fn body(&self, line: &Line) -> &'a [u8]
        requires { LiesIn self.now.text line.now }
        ensures { words_in result.now ≡ (row_of self.now.text line.now).words }
    {
        &self.text[line.from as usize..line.to as usize]
    }
}
