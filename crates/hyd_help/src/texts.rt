//! The texts of what is wrong with the words of the command line.

use crate::usages::{Usage, is_below_0};
use std::fmt::{self, Display, Formatter};

/// What is said where nothing more is known.
pub(crate) const GENERAL: &str =
    "these words aren't a command: one is missing, too many or misspelt, or a pressure below 0 lacks a word -- before it. hyd --help shows all commands, and hyd help run explains the words of one";

/// What is wrong with the words of the command line.
#[derive(Clone, Copy)]
pub(crate) enum WrongWord<'a> {
    /// No command.
    NoCommand(&'a str),
    /// No option of a command.
    NoOption(&'a str, Usage),
    /// An option without its value.
    ValueLacks(&'a str),
    /// A value of an option that takes none.
    NoValueThere(&'a str, &'a str),
    /// A word that can't stand for what is asked for: that, and the word.
    Value(&'a str, &'a str),
    /// An option that stands twice.
    Twice(&'a str),
    /// So many words, and fewer than a command has.
    TooFew(usize, Usage),
    /// A word too many for a command.
    TooMany(&'a str, Usage),
    /// Two options that don't go together.
    NotTogether(&'static str, &'static str),
    /// One name for two files: what the earlier word stands for, what the later one does, and the name.
    OneName(&'static str, &'static str, &'a str),
}

/// The words of a command, each behind a space.
#[derive(Clone, Copy)]
struct Words(&'static [&'static str]);

// What may stand for what is asked for.
fn values_of(asked: &str) -> &'static str {
    match asked {
        "--sweeps" => "a whole number from 0 to 100000",
        "--width" =>
            "a number of metres above 0 and at most 1000, with a point before its decimals, as 0.01",
        "--slack" => "a whole number of seconds from 0 to 86400",
        "--flows" => "up to 16 IDs of links in one word, parted by commas without spaces, as P1,P2",
        "--spread" => "the name of a file that doesn't begin with -",
        "SEED" => "a whole number from 0 to 2147483647",
        "JUNCTIONS" => "a whole number from 1 to 10000",
        "P" =>
            "a pressure of at most 10000 in magnitude, in the unit of NET, with a point before its decimals, as 20.5",
        _ => "another word",
    }
}

// What a file is that isn't the first one of its command.
fn file_named(asked: &str) -> &'static str {
    match asked {
        "CERT" => "the certificate",
        "--spread" => "the spread",
        _ => "the witness",
    }
}

// The options of a command.
fn options_of(usage: Usage) -> &'static str {
    match usage.name {
        "run" => "--sweeps N, --width W, --tight, --flows IDS, --slack N and --spread FILE",
        "check" => "--spread FILE alone",
        "fire" | "closures" => "--sweeps N and --spread FILE",
        _ => "none",
    }
}

// What is said of a word that is no option of a command.
fn write_no_option<W: fmt::Write>(word: &str, usage: Usage, f: &mut Formatter<W>) -> fmt::Result {
    if is_below_0(word) {
        return write!(
            f,
            "{word} is read as an option: a number below 0 stands behind a word --, as in -- {word}"
        );
    }
    let name = usage.name;
    let options = options_of(usage);
    write!(f, "{word} is no option of hyd {name}, which has {options}")
}

// Whether a word seems to be a part of a list in which spaces stand.
fn is_part_of_list(word: &str) -> bool {
    word.starts_with(',') || word.ends_with(',')
}

// What is said of a word too many.
fn write_too_many<W: fmt::Write>(word: &str, usage: Usage, f: &mut Formatter<W>) -> fmt::Result {
    let name = usage.name;
    let words = Words(usage.words);
    write!(
        f,
        "{word} is a word too many. The command is hyd {name}{words}"
    )?;
    if is_part_of_list(word) {
        return f.write_str(", and names of --flows stand in one word, without spaces, as P1,P2");
    }
    Ok(())
}

// What is said of too few words.
fn write_too_few<W: fmt::Write>(count: usize, usage: Usage, f: &mut Formatter<W>) -> fmt::Result {
    let missing = Words(usage.words.get(count..).unwrap_or(&[]));
    let name = usage.name;
    let words = Words(usage.words);
    write!(f, "missing:{missing}. The command is hyd {name}{words}")
}

impl Display for Words {
    fn fmt<W: fmt::Write>(&self, f: &mut Formatter<W>) -> fmt::Result {
        for word in self.0 {
            write!(f, " {word}")?;
        }
        Ok(())
    }
}

impl Display for WrongWord<'_> {
    fn fmt<W: fmt::Write>(&self, f: &mut Formatter<W>) -> fmt::Result {
        match *self {
            WrongWord::NoCommand(word) => write!(
                f,
                "{word} is no command: the first word is run, check, gen, fire, closures, witness or meet. hyd --help shows all commands"
            ),
            WrongWord::NoOption(word, usage) => write_no_option(word, usage, f),
            WrongWord::ValueLacks(option) => write!(
                f,
                "{option} has no value behind it: {}",
                values_of(option)
            ),
            WrongWord::NoValueThere(option, value) => {
                write!(f, "{option} takes no value, and has {value}")
            }
            WrongWord::Value(asked, word) => write!(
                f,
                "{word} can't stand for {asked}, which is {}",
                values_of(asked)
            ),
            WrongWord::Twice(option) => write!(f, "{option} stands twice"),
            WrongWord::NotTogether(one, other) => {
                write!(f, "{one} and {other} don't go together")
            }
            WrongWord::TooFew(count, usage) => write_too_few(count, usage, f),
            WrongWord::TooMany(word, usage) => write_too_many(word, usage, f),
            WrongWord::OneName(one, other, name) => write!(
                f,
                "{one} and {other} are both called {name}: {} is another file",
                file_named(other)
            ),
        }
    }
}
