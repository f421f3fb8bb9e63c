//! Whether a flow is met, by the low and the high flow of its law.
#![tactic(auto)]

ghost use Rattle.std.specs.Prelude.{◌≡◌, ◌≤◌, ℤ, unsigned_abs};
ghost use Rattle.std.specs.Bool.{OnTrue, OnFalse};
ghost use Rattle.hyd_spec.specs.Law.{Law};
ghost use Rattle.hyd_spec.specs.Scale.{tolerance};
ghost use Rattle.hyd_spec_certificates.specs.EnclosingFunctions.{DemandLaw};
ghost use Rattle.hyd_spec_witnesses.specs.MetFlows.{IsNearBoth, IsMetBy, IsDemandMetBy};
ghost use Rattle.hyd_laws_at_scale.specs.Scales.{parts_of};
ghost use Rattle.hyd_laws_at_scale.specs.Windows.{IsAnswer, IsDemandAnswer};
ghost use Rattle.hyd_met_flows.specs.Periods.{flow_limit};

use hyd_laws_at_scale::{Scale, Window};
use hyd_spec::MISSED_FLOW_TICKS;

/// What flows may miss, in parts of a flow tick.
pub(crate) fn tolerance(scale: Scale) -> i128
    ensures value { result ≡ tolerance (parts_of scale) }
    ensures small { unsigned_abs result ≤ 10240 }
{
    scale.in_parts(i128::from(MISSED_FLOW_TICKS))
}

// Whether a flow lies near both ends of a window.
fn is_near(window: Window, scale: Scale, flow: i128) -> bool
    ensures yes { OnTrue result (IsNearBoth (parts_of scale) window.low window.high flow) }
    ensures no { OnFalse result (IsNearBoth (parts_of scale) window.low window.high flow → ⊥) }
    ensures small { OnTrue result (unsigned_abs flow ≤ flow_limit) }
{
    let tolerance = tolerance(scale);
    window.high - tolerance <= flow && flow <= window.low + tolerance
}

/// Whether a flow is met by a law with this window at a head difference, where it has one there.
pub(crate) fn is_met(window: Option<Window>, scale: Scale, flow: i128) -> bool
    ensures yes { (law : Law) (d : ℤ) → IsAnswer (parts_of scale) law d window
        → OnTrue result (IsMetBy law (parts_of scale) d flow) }
    ensures no { (law : Law) (d : ℤ) → IsAnswer (parts_of scale) law d window
        → OnFalse result (IsMetBy law (parts_of scale) d flow → ⊥) }
    ensures small { OnTrue result (unsigned_abs flow ≤ flow_limit) }
{
    match window {
        Some(window) => is_near(window, scale, flow),
        None => false,
    }
}

/// Whether a demand flow is met by a demand with this window at a pressure, where it has one there.
pub(crate) fn is_demand_met(window: Option<Window>, scale: Scale, flow: i128) -> bool
    ensures yes { (law : DemandLaw) (p : ℤ) → IsDemandAnswer (parts_of scale) law p window
        → OnTrue result (IsDemandMetBy law (parts_of scale) p flow) }
    ensures no { (law : DemandLaw) (p : ℤ) → IsDemandAnswer (parts_of scale) law p window
        → OnFalse result (IsDemandMetBy law (parts_of scale) p flow → ⊥) }
{
    match window {
        Some(window) => is_near(window, scale, flow),
        None => false,
    }
}
