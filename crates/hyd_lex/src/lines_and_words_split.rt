//! Lines and words split off a text, and words compared with keywords. Each function goes over its bytes once.
#![tactic(auto)]

ghost use Rattle.std.specs.Prelude.{not, [], ◌≡◌, ◌+◌, ◌-◌, ◌<◌, ◌≤◌, length, take, drop, ◌∷◌, filter, nat_le};
ghost use Rattle.std.specs.Prelude.{slice_get, position, unwrap_or, IfSome, IfNone};
ghost use Rattle.std.specs.List.{list_all, position_or_len};
ghost use Rattle.std.specs.Str.Lines.{strip_carriage_return};
ghost use Rattle.hyd_spec_lines.specs.WordsOfLines as form;
ghost use Rattle.hyd_spec_lines.specs.WordsOfLines.{is_line_feed, is_semicolon, is_blank, words_in, text_of};
ghost use Rattle.hyd_spec_lines.specs.WordsOfLines.{text_lines};

use hyd_num::before;

/// Whether a word is a keyword, in any letter case.
pub fn is_keyword(word: &[u8], keyword: &[u8]) -> bool
    ensures { result ≡ form.is_keyword keyword.now word.now }
{
    keyword.eq_ignore_ascii_case(word)
}

// The place of the first line feed.
fn line_feed(text: &[u8]) -> Option<usize>
    ensures { result ≡ position is_line_feed text.now }
{
    text.iter().position(|byte| *byte == b'\n')
}

// How many bytes stand before the first line feed.
fn line_length(text: &[u8]) -> usize
    ensures { result ≡ position_or_len is_line_feed text.now }
{
    match line_feed(text) {
        Some(place) => place,
        None => text.len(),
    }
}

// A line without the carriage return at its end.
fn without_carriage_return(line: &[u8]) -> &[u8]
    ensures { result.now ≡ strip_carriage_return line.now }
{
    match line {
        [front @ .., b'\r'] => front,
        _ => line,
    }
}

/// The first line of a text, and how many bytes it takes with its end.
#[tactic(auto, using(crate::proofs::FrontsOfTexts::front_of_strip, crate::proofs::FrontsOfTexts::length_of_strip))]
pub(crate) fn first_line(text: &[u8]) -> (&[u8], usize)
    requires { 0 < length text.now }
    ensures lines { text_lines text.now ≡ result.0.now ∷ text_lines (drop result.1 text.now) }
    ensures front { result.0.now ≡ take (length result.0.now) text.now }
    ensures shorter { length result.0.now ≤ result.1 }
    ensures some { 0 < result.1 }
    ensures within { result.1 ≤ length text.now }
    ensures feed { result.1 < length text.now → result.1 ≡ position_or_len is_line_feed text.now + 1 }
{
    let length = line_length(text);
    let line = without_carriage_return(&text[..length]);
    if length < text.len() {
        (line, length + 1)
    } else {
        (line, length)
    }
}

// The place of the first comment.
fn semicolon(line: &[u8]) -> Option<usize>
    ensures { result ≡ position is_semicolon line.now }
{
    line.iter().position(|byte| *byte == b';')
}

/// A line before its comment.
#[tactic(auto, using(hyd_num::proofs::Digits::place_is, crate::proofs::FrontsOfTexts::front_of_take, crate::proofs::FrontsOfTexts::length_of_take))]
pub(crate) fn body(line: &[u8]) -> &[u8]
    ensures body { result.now ≡ form.body line.now }
    ensures front { result.now ≡ take (length result.now) line.now }
    ensures shorter { length result.now ≤ length line.now }
{
    before(line, semicolon(line))
}

// Printing ASCII, a space or a tab.
fn is_plain_byte(byte: u8) -> bool
    ensures { result ≡ form.is_plain byte }
{
    byte == b'\t' || (b' ' <= byte && byte <= b'~')
}

/// Whether all bytes are printing ASCII, spaces and tabs.
pub(crate) fn is_plain(body: &[u8]) -> bool
    ensures { result ≡ list_all form.is_plain body.now }
{
    body.iter().all(|byte| is_plain_byte(*byte))
}

// A piece between blanks is a word unless it's empty.
fn is_word(piece: &[u8]) -> bool
    ensures { result ≡ nat_le 1 (length piece.now) }
{
    !piece.is_empty()
}

/// The word of a number, counted from 0.
pub(crate) fn word(body: &[u8], number: u32) -> Option<&[u8]>
    ensures { text_of result ≡ slice_get (words_in body.now) number }
{
    body.split(|byte| *byte == b' ' || *byte == b'\t')
        .filter(|piece| is_word(piece))
        .nth(number as usize)
}

// The place of the first byte of a word.
fn not_blank(body: &[u8]) -> Option<usize>
    ensures { result ≡ position (λ byte. not (form.is_blank byte)) body.now }
{
    body.iter()
        .position(|byte| !(*byte == b' ' || *byte == b'\t'))
}

// The place of the first space or tab.
fn blank(body: &[u8]) -> Option<usize>
    ensures { result ≡ position form.is_blank body.now }
{
    body.iter().position(|byte| *byte == b' ' || *byte == b'\t')
}

// What stands behind a place, or nothing.
fn behind(text: &[u8], place: Option<usize>) -> &[u8]
    ensures { result.now ≡ drop (unwrap_or place (length text.now)) text.now }
{
    match place {
        Some(place) if place < text.len() => &text[place..],
        _ => &[],
    }
}

/// The first word, and what stands behind it, for lines of many words. `None` comes exactly where there is no word.
pub fn split_word(body: &[u8]) -> Option<(&[u8], &[u8])>
    ensures some { IfSome result (λ p. words_in body.now ≡ p.0.now ∷ words_in p.1.now) }
    ensures shorter { IfSome result (λ p. length p.1.now < length body.now) }
    ensures none { IfNone result (words_in body.now ≡ []) }
{
    let rest = behind(body, not_blank(body));
    if rest.is_empty() {
        return None;
    }
    let end = blank(rest);
    Some((before(rest, end), behind(rest, end)))
}
