//! The reader of a command's words.

ghost use Rattle.std.specs.Prelude.{◌≡◌, map, option_map, string_bytes, false, IfOk};
ghost use Rattle.hyd_command_words.specs.ClapParser.{has_dash_behind_flows};
ghost use Rattle.hyd_command_words.specs.CommandGrammar.{order_of};
ghost use Rattle.hyd_command_words.specs.CommandView.{order_seen};

use crate::clap_parser::matches_in;
use crate::command::Command;
use crate::named_commands::order_named;
use crate::said_words::said_by;
use std::alloc::{AllocError, Global};

/// The command of the words behind the program's name, or `None` exactly where they aren't one. The
/// names in it are the words' own.
///
/// The first word is the command's, in lower case. Of the others, from left to right, `--sweeps`,
/// `--width`, `--slack`, `--flows` and `--spread` take the next word as value, which doesn't begin with `-`, or have it
/// behind `=` in the same word. Behind a word `--` every word stands by its position, and before it each word that
/// doesn't begin with `-` or is `-` alone. Each option stands once at most: `--sweeps` for `run`, `fire` and
/// `closures`, `--spread` for these and `check`, the others for `run` alone.
///
/// The error: memory ran out.
pub fn read_words(alloc: Global, words: &[String]) -> Result<Option<Command<'_>>, AllocError>
    ensures command { IfOk result (λ found. option_map order_seen found ≡ order_of (map string_bytes words.now)) }
{
    let Some((name, behind)) = words.split_first() else {
        return Ok(None);
    };
    if has_dash_behind_flows(behind) {
        return Ok(None);
    }
    match matches_in(alloc, behind)? {
        Some(matches) => Ok(order_named(name.as_str(), said_by(&matches))),
        None => Ok(None),
    }
}

// Whether `-` stands right behind `--flows`, before a word `--`. clap takes it for the option's value; for the other
// options it is no value in any case, since it is no number, and no name of a file for `--spread`.
fn has_dash_behind_flows(words: &[String]) -> bool
    ensures { result ≡ has_dash_behind_flows false (map string_bytes words.now) }
{
    let mut behind_flows = false;
    for word in words {
        if word.as_str() == "--" {
            return false;
        }
        if behind_flows && word.as_str() == "-" {
            return true;
        }
        behind_flows = word.as_str() == "--flows";
    }
    false
}
