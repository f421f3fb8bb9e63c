//! The flow of a named link by its vectors.

ghost use Rattle.std.specs.Prelude.{◌≡◌, ℤ, ◌<◌, ◌≤◌, ◌^◌, ◌*◌, ◌≤ℤ◌, ◌+ℤ◌, ◌-ℤ◌, pos, length, All, unsigned_abs, Some};
ghost use Rattle.std.specs.Prelude.{slice_get};
ghost use Rattle.hyd_bounds.specs.VectorsInOrder.{IsSpan};
ghost use Rattle.hyd_cert.specs.FlowPartView.{named_of};
ghost use Rattle.hyd_cert.specs.RecordView.{row_of};
ghost use Rattle.hyd_law.specs.LinkLaws.{link_low, link_high, IsSoundLink, LinkAccepts};
ghost use Rattle.hyd_period_network.specs.NetAsPeriodNetwork.{grid_of};
ghost use Rattle.hyd_spec.specs.Assignment.{head_at};
ghost use Rattle.hyd_spec.specs.Scale.{missed_flow_ticks};
ghost use Rattle.hyd_spec_certificates.specs.Certificate.{box_limit, IsInBox};
ghost use Rattle.hyd_spec_certificates.specs.PeriodNetwork.{GridLink};
ghost use Rattle.hyd_spec_certificates.specs.declared.Side.{Side};
ghost use Rattle.hyd_spec_flows.specs.FlowParts.{JoinsJunctions, HasItsVector, flow_interval};
ghost use Rattle.hyd_flow.specs.GivenRecords.{IsGiven};

use hyd_cert::{NamedVectors, Record};
use hyd_law::{Law, LinkLaw};
use hyd_num::Span;
use hyd_period_network::Net;
use hyd_spec::MISSED_FLOW_TICKS;
use hyd_spec_certificates::Side;
use hyd_vector_check::{difference, head_of};

/// By how much every flow may miss its law, in flow ticks.
const TOLERANCE: i128 = MISSED_FLOW_TICKS as i128;

/// The low flow at one head difference and the high flow at another, widened by the tolerance.
fn between(law: &LinkLaw, low_at: i64, high_at: i64) -> Span
    requires sound { IsSoundLink law.now }
    requires low_at { LinkAccepts law.now low_at }
    requires high_at { LinkAccepts law.now high_at }
    requires ordered { (link_low law.now low_at -ℤ pos missed_flow_ticks)
        ≤ℤ (link_high law.now high_at +ℤ pos missed_flow_ticks) }
    ensures lo { result.lo ≡ (link_low law.now low_at -ℤ pos missed_flow_ticks) }
    ensures hi { result.hi ≡ (link_high law.now high_at +ℤ pos missed_flow_ticks) }
    ensures small_lo { unsigned_abs result.lo ≤ 2 ^ 82 }
    ensures small_hi { unsigned_abs result.hi ≤ 2 ^ 82 }
{
    Span {
        lo: law.low(low_at) - TOLERANCE,
        hi: law.high(high_at) + TOLERANCE,
    }
}

/// The head difference along a link in a vector, in head ticks.
fn along(u: &[i64], from: u32, to: u32) -> i64
    requires from { from < length u.now }
    requires to { to < length u.now }
    requires in_box { All IsInBox u.now }
    ensures value { result ≡ head_at u.now from -ℤ head_at u.now to }
    ensures small { unsigned_abs result ≤ 2 * box_limit }
{
    difference(head_of(u, from), head_of(u, to))
}

/// What flows in a named link from its first node to its second, in flow ticks: of every assignment of the period, at
/// every scale, the flow lies in it. The record is certified, and the link has its vectors.
pub fn flow_of(net: &Net, row: &Record, named: &NamedVectors) -> Span
    requires given { IsGiven net.now row.now }
    requires joins { JoinsJunctions (grid_of net.now) named.now.link }
    requires vectors { (side : Side) → HasItsVector (grid_of net.now) (row_of row.now) (named_of named.now) side }
    ensures flow { (link : GridLink) → slice_get (grid_of net.now).links named.now.link ≡ Some link
        → IsSpan result (flow_interval link (named_of named.now)) }
    ensures small_lo { unsigned_abs result.lo ≤ 10 ^ 27 }
    ensures small_hi { unsigned_abs result.hi ≤ 10 ^ 27 }
{
    let _junctions = net.junctions();
    let _links = net.links();
    let _row = row;
    let ends = net.ends(named.link);
    let low_at = along(named.vector(Side::Upper), ends.from, ends.to);
    let high_at = along(named.vector(Side::Lower), ends.from, ends.to);
    between(net.law(named.link), low_at, high_at)
}
