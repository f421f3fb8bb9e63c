//! Why the words of the command line aren't a command.

use crate::spoken_words::{Spoken, is_repeated, spoken_in, word_at, word_count};
use crate::texts::{GENERAL, WrongWord};
use crate::usages::{Usage, fits, is_file, is_some_slack, takes_value, usage_of};
use std::fmt::{self, Display, Formatter};

/// Why words aren't a command, and where help is. Where nothing certain is found, the sentence is a general one.
#[derive(Clone, Copy)]
pub struct WrongWords<'a> {
    /// The words behind the program's name.
    pub words: &'a [String],
}

// Whether a word is one of some.
fn is_among(word: &str, words: &[&str]) -> bool {
    for one in words {
        if *one == word {
            return true;
        }
    }
    false
}

// What is wrong with an option.
fn option_fault<'a>(usage: Usage, name: &'a str, value: Option<&'a str>) -> Option<WrongWord<'a>> {
    if !is_among(name, usage.options) {
        return Some(WrongWord::NoOption(name, usage));
    }
    match value {
        Some(value) if !takes_value(name) => Some(WrongWord::NoValueThere(name, value)),
        Some(value) if !fits(name, value) => Some(WrongWord::Value(name, value)),
        None if takes_value(name) => Some(WrongWord::ValueLacks(name)),
        _ => None,
    }
}

// The first option with which something is wrong.
fn first_option_fault<'a>(usage: Usage, words: &'a [String]) -> Option<WrongWord<'a>> {
    for one in spoken_in(words) {
        if let Spoken::Option(name, value) = one {
            if let Some(fault) = option_fault(usage, name, value) {
                return Some(fault);
            }
        }
    }
    None
}

// An option that stands twice.
fn repeated_option<'a>(usage: Usage, words: &[String]) -> Option<WrongWord<'a>> {
    for option in usage.options {
        if is_repeated(words, option) {
            return Some(WrongWord::Twice(option));
        }
    }
    None
}

// The first word that can't stand for what is asked for there.
fn place_fault<'a>(usage: Usage, words: &'a [String]) -> Option<WrongWord<'a>> {
    for (place, asked) in usage.words.iter().enumerate() {
        let word = word_at(words, place)?;
        if !fits(asked, word) {
            return Some(WrongWord::Value(asked, word));
        }
    }
    None
}

// Too many words, or too few.
fn count_fault<'a>(usage: Usage, words: &'a [String]) -> Option<WrongWord<'a>> {
    if let Some(word) = word_at(words, usage.words.len()) {
        return Some(WrongWord::TooMany(word, usage));
    }
    let count = word_count(words);
    if count < usage.words.len() {
        return Some(WrongWord::TooFew(count, usage));
    }
    None
}

// What the first file of a name stands for, among those before a place.
fn file_before(usage: Usage, words: &[String], place: usize, name: &str) -> Option<&'static str> {
    for (before, asked) in usage.words.iter().take(place).enumerate() {
        if is_file(asked) && word_at(words, before)? == name {
            return Some(asked);
        }
    }
    None
}

// One name for two files.
fn name_fault<'a>(usage: Usage, words: &'a [String]) -> Option<WrongWord<'a>> {
    for (place, asked) in usage.words.iter().enumerate() {
        let name = word_at(words, place)?;
        if is_file(asked) {
            if let Some(before) = file_before(usage, words, place, name) {
                return Some(WrongWord::OneName(before, asked, name));
            }
        }
    }
    None
}

// The value of an option, where it stands with one.
fn value_of<'a>(words: &'a [String], option: &str) -> Option<&'a str> {
    for one in spoken_in(words) {
        match one {
            Spoken::Option(name, Some(value)) if name == option => return Some(value),
            _ => {}
        }
    }
    None
}

// One name for the spread and another file.
fn spread_fault<'a>(usage: Usage, words: &'a [String]) -> Option<WrongWord<'a>> {
    let name = value_of(words, "--spread")?;
    let before = file_before(usage, words, usage.words.len(), name)?;
    Some(WrongWord::OneName(before, "--spread", name))
}

// Whether an option stands among the words.
fn stands(words: &[String], option: &str) -> bool {
    for one in spoken_in(words) {
        if let Spoken::Option(name, _) = one {
            if name == option {
                return true;
            }
        }
    }
    false
}

// Whether some slack is asked for.
fn has_slack(words: &[String]) -> bool {
    match value_of(words, "--slack") {
        Some(value) => is_some_slack(value),
        None => false,
    }
}

// Two options that don't go together: flows aren't told where ends of periods may be open, nor for a spread.
fn pair_fault<'a>(words: &[String]) -> Option<WrongWord<'a>> {
    if !stands(words, "--flows") {
        return None;
    }
    if has_slack(words) {
        return Some(WrongWord::NotTogether("--flows", "--slack"));
    }
    if stands(words, "--spread") {
        return Some(WrongWord::NotTogether("--flows", "--spread"));
    }
    None
}

// What is wrong with the number of words, with the names among them, or with two options.
fn late_fault<'a>(usage: Usage, words: &'a [String]) -> Option<WrongWord<'a>> {
    if let Some(fault) = count_fault(usage, words) {
        return Some(fault);
    }
    if let Some(fault) = name_fault(usage, words) {
        return Some(fault);
    }
    match spread_fault(usage, words) {
        Some(fault) => Some(fault),
        None => pair_fault(words),
    }
}

// What is wrong with the words behind a command's name.
fn fault_behind<'a>(usage: Usage, words: &'a [String]) -> Option<WrongWord<'a>> {
    if let Some(fault) = first_option_fault(usage, words) {
        return Some(fault);
    }
    if let Some(fault) = repeated_option(usage, words) {
        return Some(fault);
    }
    match place_fault(usage, words) {
        Some(fault) => Some(fault),
        None => late_fault(usage, words),
    }
}

// What is said of a first word that is no command's name; `help` with more than one word is told in general.
fn write_no_command<W: fmt::Write>(name: &str, f: &mut Formatter<W>) -> fmt::Result {
    if is_among(name, &["help", "--help", "-h"]) {
        return f.write_str(GENERAL);
    }
    write!(f, "{}", WrongWord::NoCommand(name))
}

impl Display for WrongWords<'_> {
    fn fmt<W: fmt::Write>(&self, f: &mut Formatter<W>) -> fmt::Result {
        let Some((first, behind)) = self.words.split_first() else {
            return f.write_str(GENERAL);
        };
        let name = first.as_str();
        let Some(usage) = usage_of(name) else {
            return write_no_command(name, f);
        };
        match fault_behind(usage, behind) {
            Some(fault) => write!(f, "{fault}. hyd help {name} explains its words"),
            None => f.write_str(GENERAL),
        }
    }
}
