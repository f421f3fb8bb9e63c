//! Counts and their limits.
#![tactic(auto)]

ghost use Rattle.std.specs.Prelude.{◌≡◌, ◌+◌, min, length};
ghost use Rattle.hyd_spec_lines.specs.WordsOfLines.{words_in};
ghost use Rattle.hyd_spec_input.specs.FaultsWithOtherRows as others;

use hyd_lex::split_word;
use hyd_net::Cause;

/// The cause Limit `number` exactly where a count is above the most that is allowed.
pub fn limit(most: usize, number: u8, count: usize) -> Option<Cause>
    ensures { result ≡ others.passes most number count }
{
    if count > most {
        return Some(Cause::Limit(number));
    }
    None
}

/// How many words a body has, or a greatest count that is passed or reached.
pub fn count_words(body: &[u8], greatest: usize) -> usize
    ensures { result ≡ min (length (words_in body.now)) greatest }
{
    let mut rest = body;
    let mut count = 0;
    while let Some((_, behind)) = split_word(rest) {
        if count >= greatest {
            return greatest;
        }
        count += 1;
        rest = behind;
    }
    count
}
