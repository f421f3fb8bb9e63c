//! What helps a person with the words of the command line, on standard error: which word is wrong where they aren't a
//! command, and the pages of help. What is wrong is looked for again in the words, and nothing is claimed of it. No memory
//! is taken.
//!
//! Tested by `hyd_stored_sentences`.
#![tactic(auto)]

mod help;
mod pages;
mod spoken_words;
mod texts;
mod usages;
mod wrong_words;

pub use help::Help;
pub use wrong_words::WrongWords;
