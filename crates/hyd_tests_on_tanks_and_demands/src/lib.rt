//! The tests of demands and of tanks over time, on networks read from texts, against an independent program.
#![tactic(auto)]

#[cfg(test)]
mod demand;
#[cfg(test)]
mod networks_from_texts;
#[cfg(test)]
mod stocks;
