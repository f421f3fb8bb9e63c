//! How much may be drawn at a junction with a target pressure, and which junctions keep it while a pipe is shut: a
//! bracket of two edges, and a word for each junction.
#![tactic(auto)]

mod answers;
mod brackets;
mod closures;
mod proposed_starts;
mod searches;
mod study;
mod words;

pub use answers::{Found, Sides};
pub use brackets::available;
pub use closures::close;
pub use study::Study;
pub use words::word_of;
