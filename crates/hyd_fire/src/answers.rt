//! What is found on the two sides of a period with a pipe shut.
#![tactic(auto)]

/// What was found on a side.
#[derive(Clone, Copy, Drop)]
pub enum Found {
    /// The tight vector.
    Tight,
    /// A certificate, with which each junction's word is shown, or behind which the rounds were spent.
    Passing,
    /// No vector is a certificate.
    NoCertificate,
    /// The rounds that a search may take exist, and lead to no certificate.
    RoundsSpent,
}

/// What was found on both sides.
#[derive(Clone, Copy, Drop)]
pub struct Sides {
    pub upper: Found,
    pub lower: Found,
}
