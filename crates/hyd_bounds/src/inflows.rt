//! Inflows of tanks.
#![tactic(auto)]

ghost use Rattle.std.specs.Prelude.{◌≡◌, ◌<◌, ◌≤◌, ◌*◌, ◌^◌, ℕ, ℤ, List, length, unsigned_abs};
ghost use Rattle.hyd_spec_certificates.specs.declared.Problem.TheVariants.{Pinned};
ghost use Rattle.hyd_spec_certificates.specs.declared.Side.TheVariants.{Upper, Lower};
ghost use Rattle.hyd_spec_certificates.specs.PeriodNetwork.{Grid, all_heads};
ghost use Rattle.hyd_spec_certificates.specs.FlowIntervals.{inflow_box};
ghost use Rattle.hyd_period_network.specs.NetAsPeriodNetwork.{grid_of};
ghost use Rattle.hyd_bounds.specs.VectorsInOrder.{IsSpan, IsVector, AreInOrder, tank_width, tank_node_of};
ghost use Rattle.hyd_bounds.specs.FlowsAndStatusesOfAssignments.{HoldsInflow};
ghost use Rattle.hyd_spec_certificates.specs.Certificate.{IsCertificate};
ghost use Rattle.hyd_theorems_on_definitions.specs.SoundLawsAndGrids.{IsSteady, TanksInOrder};
ghost use Rattle.hyd_vector_check.specs.NetOutflowBySide.{flows_out};
ghost use Rattle.hyd_vector_check.specs.ComparisonPrinciple.{FixedWithin};

use crate::flows::TOLERANCE;
use hyd_num::Span;
use hyd_period_network::Net;
use hyd_spec_certificates::{Problem, Side};
use hyd_vector_check::flows_out;

/// The flows of links out of a tank, less those into it, with that tank pinned, in flow ticks: for UPPER at most, for
/// LOWER at least.
pub fn tank_flows(net: &Net, tank: u32, side: Side, u: &[i64], node: u32) -> i128
    requires in_range { tank < length net.now.tanks }
    requires vector { IsVector net.now u.now }
    requires node { node ≡ tank_node_of net.now tank }
    ensures value { result ≡ flows_out side (all_heads (grid_of net.now) (Pinned tank) side u.now) node
        (grid_of net.now).links }
    ensures small { unsigned_abs result ≤ 964 * 10 ^ 24 }
{
    let problem = Problem::Pinned(tank);
    flows_out(net, problem, side, u, node, net.fixed(problem, side, node))
}

/// What flows into a tank, in flow ticks: from the LOWER vector the flows toward it at least, from the UPPER one at
/// most, widened by the tolerance for each of its link ends. `low` and `high` are heads of the junctions with that tank
/// pinned, as certificates of `Problem::Pinned`, which are in order by `pinned_in_order`: of such the span holds the
/// inflow of every assignment, at every scale.
pub fn tank_inflow(net: &Net, tank: u32, low: &[i64], high: &[i64]) -> Span
    requires in_range { tank < length net.now.tanks }
    requires low { IsVector net.now low.now }
    requires high { IsVector net.now high.now }
    requires ordered { AreInOrder (tank_width (grid_of net.now) tank)
        (all_heads (grid_of net.now) (Pinned tank) Lower low.now) (all_heads (grid_of net.now) (Pinned tank) Upper
        high.now) }
    ensures inflow { IsSpan result (inflow_box (grid_of net.now) tank (tank_node_of net.now tank) low.now high.now) }
    ensures holds { HoldsInflow (grid_of net.now) tank low.now high.now result }
    ensures small_lo { unsigned_abs result.lo ≤ 10 ^ 27 }
    ensures small_hi { unsigned_abs result.hi ≤ 10 ^ 27 }
{
    let _junctions = net.junctions();
    let node = net.nodes() - net.tanks() + tank;
    let missed = TOLERANCE * net.row(node).len() as i128;
    let least = -tank_flows(net, tank, Side::Lower, low, node);
    let greatest = -tank_flows(net, tank, Side::Upper, high, node);
    Span {
        lo: least - missed,
        hi: greatest + missed,
    }
}

/// Certificates that pin a tank are in order, up to the width of its level interval, where each tank's interval is: so
/// are the fixed heads, and with them the heads of all nodes.
pub fn pinned_in_order()
    ensures fixed { (grid : Grid) (tank : ℕ) → tank < length grid.tanks → TanksInOrder grid
        → FixedWithin grid (Pinned tank) (Pinned tank) (tank_width grid tank) }
    ensures heads { (grid : Grid) → IsSteady grid → (tank : ℕ) (low high : List ℤ) → tank < length grid.tanks
        → TanksInOrder grid → IsCertificate grid (Pinned tank) Lower low → IsCertificate grid (Pinned tank) Upper high
        → AreInOrder (tank_width grid tank)
        (all_heads grid (Pinned tank) Lower low) (all_heads grid (Pinned tank) Upper high) }
{}
