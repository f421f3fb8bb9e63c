//! Whether a text has rows at all.
#![tactic(auto)]

ghost use Rattle.std.specs.Prelude.{◌≡◌};
ghost use Rattle.hyd_spec_lines.specs.WordsOfLines.{words_in};
ghost use Rattle.hyd_spread_rows.specs.TextsWithoutRows as texts;

use crate::lines::{body, first_line, word_at};

// Whether there are words.
fn has_words(body: &[u8]) -> bool
    ensures { result ≡ texts.has_words (words_in body.now) }
{
    word_at(body, 0).is_some()
}

/// Whether a line of a text has a word before its comment. A text without one is no spread.
pub fn has_rows(text: &[u8]) -> bool
    ensures { result ≡ texts.has_rows text.now }
{
    let mut left = text;
    while !left.is_empty() {
        let (line, used) = first_line(left);
        if has_words(body(line)) {
            return true;
        }
        left = &left[used..];
    }
    false
}
