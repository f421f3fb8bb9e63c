//! How long the two ends of a period are open.

/// How many seconds the start and the end of a period are open: 0 where it is known to the second.
#[derive(Clone, Copy, Drop)]
pub struct Late {
    /// The seconds after the first one in which the period may begin, in which it may still begin.
    pub start: u32,
    /// The seconds after the first one in which it may end, in which it may still end.
    pub end: u32,
}
