//! How far long work has come.

/// How far a run has come.
#[derive(Clone, Copy)]
pub struct Progress {
    /// The time of the next period, in seconds.
    pub time: u32,
    /// The time at which the run ends, in seconds.
    pub duration: u32,
    /// How many periods are done.
    pub periods: u32,
}

/// How many pipes were closed in turn.
#[derive(Clone, Copy)]
pub struct PipesDone {
    /// How many are done.
    pub done: u32,
    /// How many there are.
    pub pipes: u32,
}
