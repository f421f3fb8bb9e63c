//! The sentences that the program says to a person on standard error of files and runs: why a text is refused, with
//! the line, the row as it stands there, what is wrong with it and what mends it; why the name of a link is refused;
//! what a stop means and what to try; what of a certificate isn't so; and how far long work has come. What they say is
//! worked out from the text or the network again, and nothing is claimed of it: where nothing certain is found, the
//! sentence is the general one of the cause. No memory is taken.
//!
//! All texts stand in `sentences.rt`.
//!
//! Tested by `hyd_stored_sentences`.
#![tactic(auto)]

mod cut_off_together;
mod filled_slots;
mod forms;
mod forms_of_options_and_times;
mod forms_of_rows;
mod forms_of_rules;
mod formulas;
mod links_around;
mod names;
mod no_junction;
mod numbers;
mod parts_and_limits;
mod progress;
mod pump_pairs;
mod quantities;
mod ranges;
mod refused_certificates;
mod refused_names;
mod refused_text;
mod remedies;
mod rows;
mod rule_lines;
mod sentences;
mod shown;
mod stopped;
mod syntax;
mod tanks_at_bounds;
mod undecided_end;
mod unknown_names;

pub use no_junction::NoJunction;
pub use progress::{PipesDone, Progress};
pub use refused_certificates::{LineFault, RefusedFlow, RefusedLine, RefusedRecord};
pub use refused_names::RefusedName;
pub use refused_text::RefusedText;
pub use stopped::{DuePeriod, Stopped};
