//! Inflows of all tanks.
#![tactic(auto)]

ghost use Rattle.std.specs.Prelude.{◌≡◌, ◌<◌, ◌≤◌, ◌+◌, ◌++◌, ◌∷◌, [], length, map, All};
ghost use Rattle.hyd_net.specs.Sound.{IsSound};
ghost use Rattle.hyd_spec.specs.Lists.{map_from};
ghost use Rattle.hyd_spec.specs.NodeNumbers.{tank_count};
ghost use Rattle.hyd_spec_certificates.specs.SpansAsIntervals.{flows_of};
ghost use Rattle.hyd_spec_certificates.specs.declared.Problem.TheVariants.{Pinned};
ghost use Rattle.hyd_spec_certificates.specs.declared.Side.TheVariants.{Upper, Lower};
ghost use Rattle.hyd_spec_certificates.specs.FlowIntervals.{inflow_box};
ghost use Rattle.hyd_spec_certificates.specs.RecordAndStanding.{vector_of};
ghost use Rattle.hyd_spec_certificates.specs.Decided.{inflow_of_tank};
ghost use Rattle.hyd_cert.specs.RecordView.{row_of};
ghost use Rattle.hyd_period_network.specs.NetAsPeriodNetwork.{grid_of};
ghost use Rattle.hyd_period_network.specs.NetsSetToPeriods.{IsNetOf};
ghost use Rattle.hyd_theorems_on_definitions.specs.SoundLawsAndGrids.{TanksInOrder};
ghost use Rattle.hyd_bounds.specs.VectorsInOrder.{IsSpan, tank_node_of};
ghost use Rattle.hyd_tank.specs.StockIntervals.{IsInflow};
ghost use Rattle.hyd_period_facts.specs.CertificatesPinningTanks.{ArePinned};

use hyd_bounds::{pinned_in_order, tank_inflow};
use hyd_cert::Record;
use hyd_net::{List, Project};
use hyd_num::Span;
use hyd_period_network::Net;
use hyd_spec_certificates::{Problem, Side};

// What flows into one tank, by the vectors that pin it.
fn inflow_of(net: &Net, row: &Record, tank: u32) -> Span
    requires in_range { tank < length net.now.tanks }
    requires pinned { ArePinned (grid_of net.now) row.now }
    requires levels { TanksInOrder (grid_of net.now) }
    ensures inflow { IsSpan result (inflow_box (grid_of net.now) tank (tank_node_of net.now tank)
        (vector_of (row_of row.now) (Pinned tank) Lower) (vector_of (row_of row.now) (Pinned tank) Upper)) }
    ensures small { IsInflow result }
{
    let _junctions = net.junctions();
    let _tanks = net.tanks();
    pinned_in_order();
    tank_inflow(
        net,
        tank,
        row.vector(Problem::Pinned(tank), Side::Lower),
        row.vector(Problem::Pinned(tank), Side::Upper),
    )
}

// Appends an inflow, for which there is room.
fn append(inflows: &mut List<Span>, inflow: Span)
    requires { 0 < inflows.old.spare }
    ensures list { inflows.new.list ≡ inflows.old.list ++ inflow ∷ [] }
    ensures spare { inflows.old.spare ≤ inflows.new.spare + 1 }
{
    inflows.push(inflow).unwrap();
}

/// Puts what flows into each tank of a period, in flow ticks: the inflow interval by the vectors of the record that pin
/// the tank. What the list held before goes. It has room for an item for each tank, so no memory is taken.
pub fn put_inflows(project: &Project, net: &Net, row: &Record, inflows: &mut List<Span>)
    requires sound { IsSound project.now }
    requires of { IsNetOf project.now net.now }
    requires pinned { ArePinned (grid_of net.now) row.now }
    requires levels { TanksInOrder (grid_of net.now) }
    requires room { tank_count project.now ≤ length inflows.old.list + inflows.old.spare }
    ensures inflows { map flows_of inflows.new.list
        ≡ map_from (λ k tank. inflow_of_tank project.now (grid_of net.now)
        (row_of row.now) k) 0 project.now.tanks.list }
    ensures small { All IsInflow inflows.new.list }
    ensures room { length inflows.old.list + inflows.old.spare ≤ length inflows.new.list + inflows.new.spare }
{
    inflows.clear();
    for tank in 0..project.tanks.len() {
        append(inflows, inflow_of(net, row, tank as u32));
    }
}
