//! The tests of crates that reckon with a network in a period: certificates, sweeps, proposals and boxes, on
//! networks read from texts, against values worked out by an independent program.
#![tactic(auto)]

#[cfg(test)]
mod boxes;
#[cfg(test)]
mod network_tests;
#[cfg(test)]
mod networks;
#[cfg(test)]
mod networks_from_texts;
#[cfg(test)]
mod tight;
