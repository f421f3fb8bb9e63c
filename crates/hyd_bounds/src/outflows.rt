//! Outflows of junctions.
#![tactic(auto)]

ghost use Rattle.std.specs.Prelude.{◌≡◌, ◌<◌, ◌≤◌, ◌*◌, ◌^◌, ◌≤ℤ◌, pos, is_some, slice_get, length, unsigned_abs};
ghost use Rattle.std.specs.Prelude.{if◌then◌else◌};
ghost use Rattle.std.specs.Option.{IfSome, option_map, option_copied};
ghost use Rattle.hyd_spec.specs.Scale.{missed_flow_ticks};
ghost use Rattle.hyd_spec_certificates.specs.Certificate.{IsInBox};
ghost use Rattle.hyd_spec_certificates.specs.FlowIntervals.{out_box};
ghost use Rattle.hyd_period_network.specs.NetAsPeriodNetwork.{grid_of, capacity_of};
ghost use Rattle.hyd_bounds.specs.VectorsInOrder.{IsSpan};
ghost use Rattle.hyd_bounds.specs.FlowsAndStatusesOfAssignments.{HoldsOutflow};

use crate::flows::TOLERANCE;
use hyd_law::Quad;
use hyd_num::Span;
use hyd_period_network::Net;
use hyd_spec_certificates::Side;
use hyd_vector_check::outflow;

// By how much the outflows of a junction may miss, in flow ticks: the tolerance, once more where there is an emitter.
fn missed(emitter: Option<&Quad>) -> i128
    ensures value { result ≡ (if is_some (option_map capacity_of (option_copied emitter.entry))
        then pos (2 * missed_flow_ticks)
        else pos missed_flow_ticks) }
    ensures least { pos 0 ≤ℤ result }
    ensures small { unsigned_abs result ≤ 2 * missed_flow_ticks }
{
    match emitter {
        Some(_) => 2 * TOLERANCE,
        None => TOLERANCE,
    }
}

/// What leaves a junction beside its links between two of its heads (head ticks), in flow ticks: its demand flow,
/// widened by the tolerance, and its emitter flow, widened by it where there is an emitter. Of heads of a LOWER and an
/// UPPER certificate the span holds what leaves in every assignment, at every scale.
pub fn out_box(net: &Net, junction: u32, low: i64, high: i64) -> Span
    requires in_range { junction < length net.now.junctions }
    requires low { IsInBox low }
    requires high { IsInBox high }
    requires ordered { low ≤ℤ high }
    ensures outflow { IfSome (slice_get (grid_of net.now).junctions junction)
        (λ j. IsSpan result (out_box j low high)) }
    ensures holds { HoldsOutflow (grid_of net.now) junction low high result }
    ensures small_lo { unsigned_abs result.lo ≤ 10 ^ 27 }
    ensures small_hi { unsigned_abs result.hi ≤ 10 ^ 27 }
{
    let _junctions = net.junctions();
    let missed = missed(net.emitter_law(junction));
    Span {
        lo: outflow(net, Side::Upper, junction, low) - missed,
        hi: outflow(net, Side::Lower, junction, high) + missed,
    }
}
