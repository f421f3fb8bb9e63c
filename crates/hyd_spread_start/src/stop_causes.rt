//! The stop of a run for a spread at a demand.
#![tactic(auto)]

ghost use Rattle.std.specs.Prelude.{◌≡◌};

use hyd_spec_certificates::StopCause;
use hyd_spread_networks::DemandOver;

/// The stop at the period of a number of which an end of a demand is out of range.
pub fn demand_stop(number: u32, fault: DemandOver) -> StopCause
    ensures { result ≡ StopCause.Demand number fault.junction fault.value }
{
    StopCause::Demand {
        period: number,
        junction: fault.junction,
        value: fault.value,
    }
}
