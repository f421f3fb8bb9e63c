//! What each word behind a command's name is.

ghost use Rattle.std.specs.Prelude.{length};
ghost use Rattle.std.specs.Iterator.{at_most};

use crate::usages::{is_value, takes_value};

/// What a word behind a command's name is.
#[derive(Clone, Copy)]
pub(crate) enum Spoken<'a> {
    /// A word by its position.
    Word(&'a str),
    /// An option, with its value where it has one.
    Option(&'a str, Option<&'a str>),
    /// The word `--`, behind which all words stand by their positions.
    Mark,
}

/// What the words behind a command's name are, in turn.
#[derive(Clone, Copy)]
pub(crate) struct SpokenWords<'a> {
    rest: &'a [String],
    behind_mark: bool,
}

/// What the words behind a command's name are.
pub(crate) fn spoken_in(words: &[String]) -> SpokenWords<'_> {
    SpokenWords {
        rest: words,
        behind_mark: false,
    }
}

// An option with a value behind `=` in the same word, or with none.
fn option_in(word: &str) -> Spoken<'_> {
    match word.split_once('=') {
        Some((name, value)) => Spoken::Option(name, Some(value)),
        None => Spoken::Option(word, None),
    }
}

impl<'a> Iterator for SpokenWords<'a> {
    type Item = Spoken<'a>;

    ghost remaining = { λ s. at_most (length s.rest.now) };

    fn next(&mut self) -> Option<Spoken<'a>> {
        let (first, rest) = self.rest.split_first()?;
        self.rest = rest;
        let word = first.as_str();
        if self.behind_mark || word == "-" || !word.starts_with('-') {
            return Some(Spoken::Word(word));
        }
        if word == "--" {
            self.behind_mark = true;
            return Some(Spoken::Mark);
        }
        if takes_value(word) {
            if let Some((value, behind)) = rest.split_first() {
                if is_value(word, value.as_str()) {
                    self.rest = behind;
                    return Some(Spoken::Option(word, Some(value.as_str())));
                }
            }
        }
        Some(option_in(word))
    }
}

/// The word at a position, counted from 0.
pub(crate) fn word_at(words: &[String], place: usize) -> Option<&str> {
    let mut left = place;
    for one in spoken_in(words) {
        if let Spoken::Word(word) = one {
            if left == 0 {
                return Some(word);
            }
            left = left.saturating_sub(1);
        }
    }
    None
}

/// How many words stand by their positions.
pub(crate) fn word_count(words: &[String]) -> usize {
    let mut count = 0_usize;
    for one in spoken_in(words) {
        if let Spoken::Word(_) = one {
            count = count.saturating_add(1);
        }
    }
    count
}

/// Whether an option stands twice or more.
pub(crate) fn is_repeated(words: &[String], option: &str) -> bool {
    let mut count = 0_usize;
    for one in spoken_in(words) {
        match one {
            Spoken::Option(name, _) if name == option => count = count.saturating_add(1),
            _ => {}
        }
    }
    count > 1
}
