//! Lines of a text without headings, and their words. Each function goes over its bytes once.
#![tactic(auto)]

ghost use Rattle.std.specs.Prelude.{◌≡◌, ◌+◌, ◌-◌, ◌<◌, ◌≤◌, ◌∷◌, length, take, drop, nat_le, position, slice_get};
ghost use Rattle.std.specs.List.{list_all, position_or_len};
ghost use Rattle.std.specs.Str.Lines.{strip_carriage_return};
ghost use Rattle.hyd_spec_lines.specs.WordsOfLines as form;
ghost use Rattle.hyd_spec_lines.specs.WordsOfLines.{is_line_feed, is_semicolon, text_lines, words_in, text_of};

use hyd_num::before;

// The place of the first line feed.
fn line_feed(text: &[u8]) -> Option<usize>
    ensures { result ≡ position is_line_feed text.now }
{
    text.iter().position(|byte| *byte == b'\n')
}

// How many bytes stand before the first line feed.
fn line_length(text: &[u8]) -> usize
    ensures { result ≡ position_or_len is_line_feed text.now }
{
    match line_feed(text) {
        Some(place) => place,
        None => text.len(),
    }
}

// A line without the carriage return at its end.
fn without_carriage_return(line: &[u8]) -> &[u8]
    ensures { result.now ≡ strip_carriage_return line.now }
{
    match line {
        [front @ .., b'\r'] => front,
        _ => line,
    }
}

/// The first line of a text, and how many bytes it takes with its end.
pub(crate) fn first_line(text: &[u8]) -> (&[u8], usize)
    requires { 0 < length text.now }
    ensures lines { text_lines text.now ≡ result.0.now ∷ text_lines (drop result.1 text.now) }
    ensures some { 0 < result.1 }
    ensures within { result.1 ≤ length text.now }
{
    let length = line_length(text);
    let line = without_carriage_return(&text[..length]);
    if length < text.len() {
        (line, length + 1)
    } else {
        (line, length)
    }
}

// The place of the first comment.
fn semicolon(line: &[u8]) -> Option<usize>
    ensures { result ≡ position is_semicolon line.now }
{
    line.iter().position(|byte| *byte == b';')
}

/// A line before its comment.
#[tactic(auto, using(hyd_num::proofs::Digits::place_is))]
pub(crate) fn body(line: &[u8]) -> &[u8]
    ensures { result.now ≡ form.body line.now }
{
    before(line, semicolon(line))
}

// Printing ASCII, a space or a tab.
fn is_plain_byte(byte: u8) -> bool
    ensures { result ≡ form.is_plain byte }
{
    byte == b'\t' || (b' ' <= byte && byte <= b'~')
}

/// Whether all bytes are printing ASCII, spaces and tabs.
pub(crate) fn is_plain(body: &[u8]) -> bool
    ensures { result ≡ list_all form.is_plain body.now }
{
    body.iter().all(|byte| is_plain_byte(*byte))
}

// A piece between blanks is a word unless it's empty.
fn is_word(piece: &[u8]) -> bool
    ensures { result ≡ nat_le 1 (length piece.now) }
{
    !piece.is_empty()
}

/// The word of a number, counted from 0.
pub(crate) fn word_at(body: &[u8], number: u32) -> Option<&[u8]>
    ensures { text_of result ≡ slice_get (words_in body.now) number }
{
    body.split(|byte| *byte == b' ' || *byte == b'\t')
        .filter(|piece| is_word(piece))
        .nth(number as usize)
}
