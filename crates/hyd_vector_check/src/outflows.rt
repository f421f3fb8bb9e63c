//! Outflows of a junction.
#![tactic(auto)]

ghost use Rattle.std.specs.Prelude.{◌≡◌, ◌<◌, ◌≤◌, ◌*◌, ◌^◌, true, false, length, unsigned_abs, Some, slice_get};
ghost use Rattle.std.specs.Option.{option_map, option_copied, IfSome};
ghost use Rattle.hyd_spec_certificates.specs.EnclosingFunctions.{emitter_low, emitter_high};
ghost use Rattle.hyd_spec_certificates.specs.PeriodNetwork.{GridJunction};
ghost use Rattle.hyd_spec_certificates.specs.Certificate.{box_limit, IsInBox};
ghost use Rattle.hyd_theorems_on_definitions.specs.SoundLawsAndGrids.{IsSoundCapacity};
ghost use Rattle.hyd_period_network.specs.PassedOn.{IsSoundOut, OutAccepts, out_low, out_high};
ghost use Rattle.hyd_period_network.specs.NetAsPeriodNetwork.{grid_of, capacity_of};
ghost use Rattle.hyd_vector_check.specs.NetOutflowBySide.{outflow};

use crate::flows::is_lower;
use crate::heads::difference;
use hyd_period_network::{Law, Net, OutLaw, Quad};
use hyd_spec_certificates::Side;

// The high demand flow at a pressure, or the low one.
fn demand_flow(law: &OutLaw, high: bool, pressure: i64) -> i128
    requires sound { IsSoundOut law.now }
    requires accepted { OutAccepts law.now pressure }
    ensures low { high ≡ false → result ≡ out_low law.now pressure }
    ensures high { high ≡ true → result ≡ out_high law.now pressure }
    ensures small { unsigned_abs result ≤ 2 ^ 65 }
{
    if high {
        return law.high(pressure);
    }
    law.low(pressure)
}

// The high emitter flow at a pressure, or the low one.
fn emitter_flow(law: Option<&Quad>, high: bool, pressure: i64) -> i128
    requires sound { IfSome (option_copied law) (λ quad. IsSoundCapacity (capacity_of quad)) }
    requires accepted { unsigned_abs pressure ≤ 2 * box_limit }
    ensures low { high ≡ false → result ≡ emitter_low (option_map capacity_of (option_copied law.entry)) pressure }
    ensures high { high ≡ true → result ≡ emitter_high (option_map capacity_of (option_copied law.entry)) pressure }
    ensures small { unsigned_abs result ≤ 2 ^ 65 }
{
    let Some(law) = law else {
        return 0;
    };
    if high {
        return law.high(pressure);
    }
    law.low(pressure)
}

/// What leaves junction i at a head (head ticks) beside its links, in flow ticks: for UPPER at most, for LOWER at
/// least.
pub fn outflow(net: &Net, side: Side, i: u32, head: i64) -> i128
    requires inside { i < length net.now.junctions }
    requires in_box { IsInBox head }
    ensures value { (junction : GridJunction) → slice_get (grid_of net.now).junctions i ≡ Some junction
        → result ≡ outflow side junction head }
    ensures small { unsigned_abs result ≤ 2 ^ 66 }
{
    let pressure = difference(head, net.elevation(i));
    demand_flow(net.demand_law(i), is_lower(side), pressure)
        + emitter_flow(net.emitter_law(i), is_lower(side), pressure)
}
