//! Why a network has no nets for a spread, and why they can't be put into a period.
#![tactic(auto)]

ghost use Rattle.std.specs.Prelude.{◌≡◌};
ghost use Rattle.hyd_spread_networks.specs.declared.fault.SpreadNetsRefused.TheVariants.{OutOfMemory as NoMemory};

use hyd_net::OutOfMemory;

/// Why a network has no nets for a spread.
#[derive(Clone, Copy, Drop)]
pub enum SpreadNetsRefused {
    /// There was no memory for them.
    OutOfMemory,
    /// The first junction whose emitter has no outermost one: its least or its greatest coefficient is 0, above a
    /// million, or of a capacity out of range.
    Emitter(u32),
    /// The first reservoir that has a head which leaves the range of heads by its offsets.
    Head(u32),
}

impl From<OutOfMemory> for SpreadNetsRefused {
    ghost from_gives = { λ _ e. e ≡ NoMemory };

    fn from(_error: OutOfMemory) -> SpreadNetsRefused {
        SpreadNetsRefused::OutOfMemory
    }
}

/// The first junction of whose demand an end is above 10^8 cubic metres a day in magnitude, and the demand that the
/// network gives it then, in flow ticks.
#[derive(Clone, Copy, Drop)]
pub struct DemandOver {
    pub junction: u32,
    pub value: i128,
}
