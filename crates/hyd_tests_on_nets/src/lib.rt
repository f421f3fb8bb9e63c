//! The tests of a net in its periods, on a network read from a text, against values worked out by an independent
//! program.
#![tactic(auto)]

#[cfg(test)]
mod four_periods;
#[cfg(test)]
mod nets;
#[cfg(test)]
mod networks_from_texts;
