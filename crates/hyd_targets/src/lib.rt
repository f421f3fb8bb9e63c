//! Questions about a target pressure in the first period of a network, and what is printed of their answers.
#![tactic(auto)]

mod bracket;
mod closures;
mod inquiry;
mod one_closure;
mod signs_of_life;
mod target_heads;

pub use bracket::put_bracket;
pub use closures::{is_pipe, pipe_count, put_closures};
pub use inquiry::{Inquiry, targets_at};
pub use one_closure::put_words;
pub use signs_of_life::Signs;
