//! Lengths of a period, and levels that have just been reached at its end.
#![tactic(auto)]

/// How long a period lasts, in seconds: from the shortest length to the longest.
#[derive(Clone, Copy, Drop)]
pub struct Lengths {
    pub shortest: u32,
    pub longest: u32,
}

/// A level of a tank that has been reached at the end of a period, from below where the tank rises to it, else from
/// above.
#[derive(Clone, Copy, Drop)]
pub struct Arrival {
    /// The level, in head ticks above the bottom.
    pub target: i64,
    /// Whether the tank rises to it.
    pub rising: bool,
    /// Whether a second before it had not been reached.
    pub not_before: bool,
}
