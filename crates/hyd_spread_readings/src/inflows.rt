//! Inflows of all tanks.
#![tactic(auto)]

ghost use Rattle.std.specs.Prelude.{◌≡◌, ◌<◌, ◌≤◌, ◌+◌, ◌++◌, ◌∷◌, [], length, map, All};
ghost use Rattle.hyd_net.specs.Sound.{IsSound};
ghost use Rattle.hyd_spec.specs.Lists.{map_from};
ghost use Rattle.hyd_spec.specs.NodeNumbers.{tank_count};
ghost use Rattle.hyd_spec_certificates.specs.SpansAsIntervals.{flows_of};
ghost use Rattle.hyd_spec_certificates.specs.declared.Problem.TheVariants.{Pinned};
ghost use Rattle.hyd_spec_certificates.specs.declared.Side.TheVariants.{Upper, Lower};
ghost use Rattle.hyd_spec_certificates.specs.Certificate.{IsCertificate};
ghost use Rattle.hyd_spec_certificates.specs.FlowIntervals.{inflow_box};
ghost use Rattle.hyd_spec_certificates.specs.RecordAndStanding.{vector_of};
ghost use Rattle.hyd_spec_certificates.specs.Decided.{inflow_of_tank};
ghost use Rattle.hyd_spec_spread_runs.specs.OutermostPairs.{spanned, spanning};
ghost use Rattle.hyd_spec_spread_runs.specs.RunsForSpreads.{AreCertificatesOver};
ghost use Rattle.hyd_cert.specs.RecordView.{row_of};
ghost use Rattle.hyd_period_network.specs.NetAsPeriodNetwork.{grid_of};
ghost use Rattle.hyd_theorems_on_definitions.specs.SoundLawsAndGrids.{TanksInOrder};
ghost use Rattle.hyd_bounds.specs.VectorsInOrder.{IsSpan, tank_node_of};
ghost use Rattle.hyd_tank.specs.StockIntervals.{IsInflow};
ghost use Rattle.hyd_spread_bounds.specs.BothSides.{pair_of, IsOrderedPair};
ghost use Rattle.hyd_spread_readings.specs.NetsInPeriods.{AreInPeriod};

use hyd_cert::Record;
use hyd_net::{List, Project};
use hyd_num::Span;
use hyd_period_network::Net;
use hyd_spec_certificates::{Problem, Side};
use hyd_spread_bounds::{heads_in_order, tank_inflow};

// What flows into one tank, by the vectors that pin it, each on the net of its side.
fn inflow_of(upper: &Net, lower: &Net, row: &Record, tank: u32) -> Span
    requires pair { IsOrderedPair (pair_of upper.now lower.now) }
    requires levels { TanksInOrder (grid_of lower.now) }
    requires tanks { row.now.tanks ≡ length upper.now.tanks }
    requires in_range { tank < length upper.now.tanks }
    requires low { IsCertificate (grid_of lower.now) (Pinned tank) Lower (vector_of (row_of row.now) (Pinned tank)
        Lower) }
    requires high { IsCertificate (grid_of upper.now) (Pinned tank) Upper (vector_of (row_of row.now) (Pinned tank)
        Upper) }
    ensures inflow { IsSpan result (inflow_box (spanned (pair_of upper.now lower.now)) tank
        (tank_node_of upper.now tank)
        (vector_of (row_of row.now) (Pinned tank) Lower ++ lower.now.reservoirs)
        (vector_of (row_of row.now) (Pinned tank) Upper ++ upper.now.reservoirs)) }
    ensures small { IsInflow result }
{
    let _above = upper.junctions();
    let _below = lower.junctions();
    let _tanks = lower.tanks();
    heads_in_order();
    tank_inflow(
        upper,
        lower,
        tank,
        row.vector(Problem::Pinned(tank), Side::Lower),
        row.vector(Problem::Pinned(tank), Side::Upper),
    )
}

// Appends an inflow, for which there is room.
fn append(inflows: &mut List<Span>, inflow: Span)
    requires { 0 < inflows.old.spare }
    ensures list { inflows.new.list ≡ inflows.old.list ++ inflow ∷ [] }
    ensures spare { inflows.old.spare ≤ inflows.new.spare + 1 }
{
    inflows.push(inflow).unwrap();
}

/// Puts what flows into each tank of a period, in flow ticks: the inflow interval by the vectors of the record that pin
/// the tank, each on the net of its side. What the list held before goes. It has room for an item for each tank, so no
/// memory is taken.
pub fn put_inflows(
    project: &Project,
    upper: &Net,
    lower: &Net,
    row: &Record,
    inflows: &mut List<Span>,
)
    requires sound { IsSound project.now }
    requires nets { AreInPeriod project.now upper.now lower.now }
    requires certificates { AreCertificatesOver project.now (pair_of upper.now lower.now) (row_of row.now) }
    requires tanks { row.now.tanks ≡ tank_count project.now }
    requires room { tank_count project.now ≤ length inflows.old.list + inflows.old.spare }
    ensures inflows { map flows_of inflows.new.list ≡ map_from (λ k tank. inflow_of_tank project.now
        (spanned (pair_of upper.now lower.now))
        (spanning (pair_of upper.now lower.now) (row_of row.now)) k) 0 project.now.tanks.list }
    ensures small { All IsInflow inflows.new.list }
    ensures room { length inflows.old.list + inflows.old.spare ≤ length inflows.new.list + inflows.new.spare }
{
    inflows.clear();
    for tank in 0..project.tanks.len() {
        append(inflows, inflow_of(upper, lower, row, tank as u32));
    }
}
