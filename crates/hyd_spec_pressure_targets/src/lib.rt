//! Definitions alone: a target pressure in the first period, how much may be drawn at a junction with it, and which
//! junctions keep it while a pipe is shut. No function here has a body.
#![tactic(auto)]

/// One edge of the bracket of what may be drawn at a junction.
#[derive(Clone, Copy, Drop)]
pub enum Edge {
    /// The draw of the tight vector that holds the junction, in flow ticks.
    Flow(i128),
    /// No vector that holds the junction is a certificate.
    NoCertificate,
    /// The rounds that a search may take exist, and lead to no certificate.
    RoundsSpent,
}

/// How much may be drawn at a junction beside its demand, with a target pressure there (available fire flow, AWWA
/// Manual M31).
#[derive(Clone, Copy, Drop)]
pub struct Bracket {
    /// With a draw from 0 to this the pressure is above the target.
    pub below: Edge,
    /// With a draw of this, or more, it is below the target.
    pub above: Edge,
}

/// What is known of the pressure at a junction while a pipe is shut.
#[derive(Clone, Copy, Drop)]
pub enum ClosureWord {
    /// It is above the target.
    Safe,
    /// It is below the target.
    Low,
    /// Neither is shown, and no vector is a certificate of one side.
    NoCertificate,
    /// Neither is shown, and the rounds that a search may take are spent.
    RoundsSpent,
    /// The tight vectors show neither.
    Unsure,
}
