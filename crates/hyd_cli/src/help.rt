//! The command of the words, and what is said where they aren't one: the page of help that they ask for, or which word is
//! wrong.

ghost use Rattle.std.specs.Prelude.{◌≡◌, map, option_map, string_bytes, IfOk};
ghost use Rattle.hyd_command_words.specs.CommandGrammar.{order_of};
ghost use Rattle.hyd_command_words.specs.CommandView.{order_seen};

use hyd_command_words::{Command, read_words};
use hyd_help::{Help, WrongWords};
use hyd_io::Desk;
use std::alloc::{AllocError, Global};

// The command whose page these words ask for, or none for the page of all; `None` where they ask for no help.
fn topic_asked(words: &[String]) -> Option<Option<&str>> {
    match words {
        [] => Some(None),
        [only] => is_help(only).then_some(None),
        [first, second] if is_help(first) => Some(Some(second.as_str())),
        [first, second] if is_help(second) => Some(Some(first.as_str())),
        _ => None,
    }
}

// Whether a word asks for help.
fn is_help(word: &str) -> bool {
    word == "help" || word == "--help" || word == "-h"
}

/// Says the page of help that the words ask for: `help`, `--help` or `-h` alone, or beside a command; no words ask for it too. Of
/// other words it says which is wrong.
fn say_help<D: Desk>(words: &[String], desk: &D) {
    match topic_asked(words) {
        Some(topic) => desk.say(&Help { topic }),
        None => desk.say(&WrongWords { words }),
    }
}

/// The command of the words, or none exactly where they aren't one, and then a person is told what helps.
///
/// The error: memory ran out.
pub(crate) fn read_command<'a, D: Desk>(
    alloc: Global,
    words: &'a [String],
    desk: &D,
) -> Result<Option<Command<'a>>, AllocError>
    ensures command { IfOk result (λ found. option_map order_seen found ≡ order_of (map string_bytes words.now)) }
{
    match read_words(alloc, words) {
        Ok(found) => {
            if found.is_none() {
                say_help(words, desk);
            }
            Ok(found)
        }
        Err(fault) => Err(fault),
    }
}
