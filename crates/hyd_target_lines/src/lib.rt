//! What puts out the lines of a bracket and of closures.
#![tactic(auto)]

mod closure_lines;
mod edge_texts;
mod fire_line;
mod ids;
mod line_pieces;

pub use closure_lines::{put_shut, put_word};
pub use fire_line::put_fire;
