//! The lines of options, times, controls and rules of an input file (EPANET 2.2 User Manual, appendix C), each read by
//! itself: what it says, or the first thing that is wrong with it, word by word from the left.
//!
//! The words of a row of an input file, of any section: an ID, a number, a number within a range, each its value or
//! what is wrong with it (EPANET 2.2 User Manual, appendix C).
//!
//! Tested by the rows of `hyd_stored_rows`.
#![tactic(auto)]

mod controls;
mod hours_minutes_seconds;
mod keywords;
mod options;
mod rules;
mod times;
mod word_values;
mod words_of_times_and_clock_times;

pub use controls::{Asked, ControlLine, WhenLine, asked_at, read_control};
pub use hyd_net::Relation;
pub use hyd_spec_input::{Attribute, LinkWord, NodeWord};
pub use keywords::{flow_unit, rule_word};
pub use options::{OptionSet, read_option};
pub use rules::{ActionLine, ClauseLine, Object, RuleLine, Value, read_rule_line};
pub use times::{TimeSet, read_time_line};
pub use word_values::{
    check_id, either_keyword, ends, id, keyword, needed, needed_id, needed_number, needed_within,
    no_word, not_negative, number, number_of, number_within, or_empty, word_is,
};
pub use words_of_times_and_clock_times::{read_clock, read_time};
