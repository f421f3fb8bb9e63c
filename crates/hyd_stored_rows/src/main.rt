//! Stored rows. Each file of `rows/` has rows of one kind, what is asked and what is expected, parted by ` : `; each network of
//! `networks/` has what is read from it in a file beside it. The program works out each anew, and says how many rows of a file
//! are as expected, and which are not.
#![tactic(auto)]

mod capacities;
mod certificates;
mod desks_and_pens;
mod faults_of_texts;
mod kinds;
mod lines;
mod lines_of_sections;
mod lists_and_factors;
mod network_rows;
mod networks;
mod numbers;
mod option_and_rule_lines;
mod quantities;
mod rows;
mod shown_networks;
mod town;
mod words;

use std::io;

/// Tries the rows and the networks.
fn main(rt: HostRuntime) -> io::Result<()> {
    rows::try_all(&rt)?;
    networks::try_all(&rt)?;
    town::try_all(&rt)
}
