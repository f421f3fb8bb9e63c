//! The tests of what another program can do with a run: finders of its own, records handed in, and the calls of the
//! example library.
#![tactic(auto)]

#[cfg(test)]
mod accepts;
#[cfg(test)]
mod each_public_call;
#[cfg(test)]
mod finder_proposals;
#[cfg(test)]
mod finders;
#[cfg(test)]
mod printer_in_memory;
#[cfg(test)]
mod runs_at_start;
#[cfg(test)]
mod vectors;
