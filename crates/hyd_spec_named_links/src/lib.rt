//! Definitions alone: the links that a run is asked to name, by the names and by the numbers of links, and the first
//! name that is refused. No function here has a body.
#![tactic(auto)]

/// Why a name is refused (this program's own).
#[derive(Clone, Copy, Drop)]
pub enum NameFails {
    /// No link of the network has it.
    NoLink,
    /// The link that has it doesn't join two junctions.
    NotBetweenJunctions,
}
