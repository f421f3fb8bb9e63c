//! The first words of a line, found in one pass over it.
#![tactic(auto)]

ghost use Rattle.std.specs.Prelude.{◌≡◌, ◌<◌, ℕ, List, slice_get};
ghost use Rattle.hyd_spec_lines.specs.WordsOfLines.{text_of, words_in};
ghost use Rattle.hyd_lex.specs.FirstWords.{AreFirst};

use crate::lines_and_words_split::split_word;

// How many words are kept: as many as rows of links and nodes have.
const COUNT: usize = 8;

/// The first eight words of a line. What stands behind them is left out.
#[derive(Clone, Copy, Drop)]
pub struct FirstWords<'a> {
    words: [Option<&'a [u8]>; COUNT],
}

/// The first words of a line before its comment.
pub(crate) fn first_words(body: &[u8]) -> FirstWords<'_>
    ensures { AreFirst (words_in body.now) result }
{
    let mut words = [None; COUNT];
    let mut rest = body;
    for place in 0..COUNT {
        if let Some((word, behind)) = split_word(rest) {
            words[place] = Some(word);
            rest = behind;
        }
    }
    FirstWords { words }
}

impl<'a> FirstWords<'a> {
    /// The word of a number below 8, counted from 0. `None` comes exactly where the line has no such word.
    pub fn word(&self, number: usize) -> Option<&'a [u8]>
        requires { number < 8 }
        ensures { (words : List (List ℕ)) → AreFirst words self.now → text_of result ≡ slice_get words number }
    {
        self.words[number]
    }
}
