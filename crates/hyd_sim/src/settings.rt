//! What a run is asked for.
#![tactic(auto)]

/// How far a run searches, and how sharp its records are to be.
#[derive(Clone, Copy, Drop)]
pub struct Settings {
    /// The most rounds of raises toward one vector.
    pub rounds: u32,
    /// A record is narrow where its head intervals are at most so many head ticks wide, beside the widths of levels.
    pub width: i64,
    /// Whether every vector is to be the tight one.
    pub tight: bool,
}
