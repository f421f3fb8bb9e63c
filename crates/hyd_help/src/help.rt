//! The page of help.

use crate::pages as say;
use std::fmt::{self, Display, Formatter};

/// The page of help: all commands, or one of them with its words explained.
#[derive(Clone, Copy)]
pub struct Help<'a> {
    /// The command; where it is none of them, that is said, and the page is that of all.
    pub topic: Option<&'a str>,
}

// The page of a command.
fn page_of(topic: &str) -> Option<&'static str> {
    match topic {
        "run" => Some(say::HELP_OF_RUN),
        "check" => Some(say::HELP_OF_CHECK),
        "gen" => Some(say::HELP_OF_GEN),
        "fire" => Some(say::HELP_OF_FIRE),
        "closures" => Some(say::HELP_OF_CLOSURES),
        "witness" => Some(say::HELP_OF_WITNESS),
        "meet" => Some(say::HELP_OF_MEET),
        _ => None,
    }
}

// Writes the page of a command, or that of all behind a word on what is none.
fn write_page<W: fmt::Write>(topic: &str, f: &mut Formatter<W>) -> fmt::Result {
    match page_of(topic) {
        Some(page) => f.write_str(page),
        None => write!(
            f,
            "there is no command {topic}: those are run, check, gen, fire, closures, witness and meet\n\n{}",
            say::HELP
        ),
    }
}

impl Display for Help<'_> {
    fn fmt<W: fmt::Write>(&self, f: &mut Formatter<W>) -> fmt::Result {
        match self.topic {
            Some(topic) => write_page(topic, f),
            None => f.write_str(say::HELP),
        }
    }
}
