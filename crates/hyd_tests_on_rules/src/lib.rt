//! The tests of simple controls and rules, on networks read from texts, against an independent program.
#![tactic(auto)]

#[cfg(test)]
mod changes_by_rules;
#[cfg(test)]
mod networks_states_and_changes;
#[cfg(test)]
mod starts;
#[cfg(test)]
mod table_tests;
#[cfg(test)]
mod truths_at_instants;
