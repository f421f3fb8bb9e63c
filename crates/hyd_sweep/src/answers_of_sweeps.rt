//! What raises and sweeps answer.
#![tactic(auto)]

/// What a raise, or raises in an order, did.
#[derive(Clone, Copy, Drop)]
pub enum Raised {
    /// No head moved.
    Passed,
    /// Some head moved.
    Moved,
    /// A junction had no value in the box that it could be put to. A single raise then leaves all heads as they were,
    /// raises in an order stop there.
    NoValue,
}

/// What a sweep found.
#[derive(Clone, Copy, Drop)]
pub enum Swept {
    /// The heads are the tight vector.
    Least,
    /// No vector in the box is a certificate, since at the heads that were reached this junction has no value.
    NoCertificate {
        /// Its number among the junctions, counted from 0.
        junction: u32,
    },
    /// So many rounds of raises exist, and their result is no certificate, nor are the heads that were reached. The
    /// heads are a start as far out as it, or farther.
    RoundsSpent,
}
