//! What a run is asked for.
#![tactic(auto)]

use hyd_sim::Settings;

/// How far a run searches, how sharp its records are to be, and by how many seconds its ends of periods may be open.
#[derive(Clone, Copy, Drop)]
pub struct OpenSettings {
    /// How far it searches, and how sharp its records are to be.
    pub search: Settings,
    /// By how many seconds the end of a period may be open at most.
    pub slack: u32,
}
