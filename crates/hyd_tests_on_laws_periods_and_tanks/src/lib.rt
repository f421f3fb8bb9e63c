//! The tests of crates that reckon with networks: laws, demands and tanks against values worked out by an independent
//! program, and on small examples the periods of a net, sweeps, lists, IDs and comparisons of networks.
#![tactic(auto)]

#[cfg(test)]
mod demand;
#[cfg(test)]
mod law;
#[cfg(test)]
mod lists_and_projects;
#[cfg(test)]
mod periods;
#[cfg(test)]
mod sweeps;
#[cfg(test)]
mod tank;
