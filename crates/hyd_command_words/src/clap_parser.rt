//! The parser of the words behind a command's name.

ghost use Rattle.std.specs.Prelude.{◌≡◌, ◌≢◌, [], map, false, string_bytes, IfOk, MatchOption};
ghost use Rattle.clap.specs.Words.{app_of, fault_of, found_of, matches_of, rows_of, rule_of};
ghost use Rattle.hyd_command_words.specs.ClapParser as parser;

use clap::error::ErrorKind;
use clap::{Arg, ArgAction, ArgMatches, Command};
use std::alloc::{AllocError, Global};

/// What clap finds in the words behind a command's name, or `None` where it refuses them.
pub(crate) fn matches_in(
    alloc: Global,
    words: &[String],
) -> Result<Option<ArgMatches<'_>>, AllocError>
    ensures { IfOk result (λ found. MatchOption found (fault_of parser.words_command (map string_bytes words.now) ≢ [])
        (λ m. (fault_of parser.words_command (map string_bytes words.now) ≡ [])
        × (rows_of (found_of m) ≡ matches_of parser.words_command (map string_bytes words.now)))) }
{
    let command = words_command(alloc)?;
    match command.try_get_matches_from(words) {
        Ok(matches) => Ok(Some(matches)),
        Err(error) => {
            if error.kind() == ErrorKind::OutOfMemory {
                return Err(AllocError);
            }
            Ok(None)
        }
    }
}

// The options as often as they stand, and the words by their positions.
fn words_command<'a>(alloc: Global) -> Result<Command<'a>, AllocError>
    ensures { IfOk result (λ command. app_of command ≡ parser.words_command) }
{
    let command = with_options(alloc)?;
    command.arg(names(alloc))
}

fn with_options<'a>(alloc: Global) -> Result<Command<'a>, AllocError>
    ensures { IfOk result (λ command. app_of command ≡ parser.with_options) }
{
    let command = with_sharpness(alloc)?;
    let command = command.arg(valued(alloc, "slack"))?;
    let command = command.arg(valued(alloc, "flows"))?;
    command.arg(valued(alloc, "spread"))
}

// The options on how sharp vectors are.
fn with_sharpness<'a>(alloc: Global) -> Result<Command<'a>, AllocError>
    ensures { IfOk result (λ command. app_of command ≡ parser.with_sharpness) }
{
    let command = bare(alloc).arg(tight(alloc))?;
    let command = command.arg(valued(alloc, "sweeps"))?;
    command.arg(valued(alloc, "width"))
}

fn bare<'a>(alloc: Global) -> Command<'a>
    ensures { app_of result ≡ parser.bare }
{
    Command::new(alloc, "hyd")
        .no_binary_name(true)
        .disable_help_flag(true)
        .disable_version_flag(true)
}

fn valued<'a>(alloc: Global, name: &'a str) -> Arg<'a>
    ensures rule { rule_of result ≡ parser.valued_rule name.entry.now }
    ensures local { result.global ≡ false }
{
    Arg::new(alloc, name).long(name).action(ArgAction::Append)
}

fn tight<'a>(alloc: Global) -> Arg<'a>
    ensures rule { rule_of result ≡ parser.tight_rule }
    ensures local { result.global ≡ false }
{
    Arg::new(alloc, "tight")
        .long("tight")
        .action(ArgAction::Append)
        .num_args(0)
        .default_missing_value("")
}

fn names<'a>(alloc: Global) -> Arg<'a>
    ensures rule { rule_of result ≡ parser.names_rule }
    ensures local { result.global ≡ false }
{
    Arg::new(alloc, "names").action(ArgAction::Append)
}
