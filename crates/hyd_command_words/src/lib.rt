//! The words of the command line of `hyd`: `run NET CERT`, `check NET CERT`, `gen SEED JUNCTIONS NET CERT`,
//! `fire NET J P`, `closures NET P`, `witness NET CERT OUT` and `meet NET FILE`, with their options.
//!
//! Tested by the words of `hyd_stored_runs`.
#![tactic(auto)]

mod clap_parser;
mod command;
mod command_of_words;
mod commands_on_targets;
mod named_commands;
mod names_of_links;
mod numbers;
mod said_words;
mod spread_file;

pub use command::{
    ClosuresWords, Command, Files, FireWords, GenWords, LinkNames, MeetWords, RunWords,
    SpreadCheckWords, SpreadClosuresWords, SpreadFireWords, SpreadRunWords, WitnessWords,
};
pub use command_of_words::read_words;
pub use names_of_links::MOST_NAMES;
pub use numbers::{DEFAULT_ROUNDS, DEFAULT_WIDTH};
