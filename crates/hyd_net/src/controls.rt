//! Simple controls (EPANET 2.2 User Manual, [CONTROLS]).
#![tactic(auto)]

use crate::links::LinkState;

/// When a control acts.
#[derive(Debug, Clone, Copy, PartialEq, Eq, Drop)]
pub enum When {
    /// At the start of a period at which a tank's level is at least (`above`) or at most a level
    /// in ticks; a period ends where that begins to hold. The tank is given by its number among
    /// the tanks.
    Level { tank: u32, above: bool, ticks: i64 },
    /// At a time in seconds.
    Time(u32),
    /// At a time of day in seconds.
    Clock(u32),
}

/// A simple control: it sets one link to a state.
#[derive(Debug, Clone, Copy, Drop)]
pub struct Control {
    pub link: u32,
    pub to: LinkState,
    pub when: When,
}
