//! Tests of Hazen-Williams losses: capacities and flows of pipes against values worked out by an independent program.
#![tactic(auto)]

#[cfg(test)]
mod pipes;
