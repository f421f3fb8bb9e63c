//! Definitions alone: what a network is, what its laws say, and what a history of it is. No function here has a
//! body.
#![tactic(auto)]

use hyd_net::LinkState;

/// What a flow, a demand or a balance may miss, in flow ticks of 10^-7 cubic metres a day.
pub const MISSED_FLOW_TICKS: i64 = 10;

/// What the level or the volume of a tank's next stock may miss, in level ticks of 10^-13 m or volume ticks of 10^-9
/// cubic metres.
pub const MISSED_STOCK_TICKS: i64 = 10;

/// How far below its maximum a tank counts as full, and above its minimum as empty, in head ticks of 10^-13 m: 0.0005
/// foot.
pub const STATE_BAND: i64 = 1_524_000_000;

/// How full a tank is at the start of a period (EPANET 2.2 User Manual, chapter 3, tanks).
#[derive(Clone, Copy, Drop)]
pub enum TankState {
    /// At or near its minimum level: nothing flows out.
    Empty,
    /// Neither empty nor full.
    Between,
    /// At or near its maximum level: nothing flows in, unless it overflows.
    Full,
}

/// What changed the state of a link (EPANET 2.2 User Manual, chapter 3, controls). Numbers count from 0.
#[derive(Clone, Copy, Drop)]
pub enum Source {
    /// The simple control of this number.
    Control(u32),
    /// The rule of this number.
    Rule(u32),
}

/// A change of the state of a link.
#[derive(Clone, Copy, Drop)]
pub struct Change {
    /// What changed it.
    pub source: Source,
    /// The number of the link, counted from 0.
    pub link: u32,
    /// The state that it was given.
    pub to: LinkState,
}
