//! Heads of nodes, in parts of a head tick.
#![tactic(auto)]

ghost use Rattle.std.specs.Prelude.{◌≡◌, ◌*◌, ◌^◌, ◌<◌, ◌≤◌, Some, length, slice_get, unsigned_abs, ◌+ℤ◌};
ghost use Rattle.hyd_net.specs.Sound.{IsSound};
ghost use Rattle.hyd_net.specs.ControlsAndRules.{node_count};
ghost use Rattle.hyd_spec.specs.ProgramTypes.{Reservoir, Tank};
ghost use Rattle.hyd_spec.specs.Scale.{at_scale};
ghost use Rattle.hyd_spec.specs.Assignment.{node_heads, head_at};
ghost use Rattle.hyd_spec.specs.DemandsHeadsAndPumpLifts.{reservoir_head};
ghost use Rattle.hyd_laws_at_scale.specs.Scales.{parts_of};
ghost use Rattle.hyd_witness_texts.specs.MomentView.{moment_of};
ghost use Rattle.hyd_met_flows.specs.Periods.{IsMomentOf};

use crate::values::value_at;
use hyd_laws_at_scale::Scale;
use hyd_net::Project;
use hyd_witness_texts::Moment;

// The head of a reservoir at a time.
fn head_of_reservoir(project: &Project, scale: Scale, time: u32, reservoir: u32) -> i128
    requires sound { IsSound project.now }
    requires there { reservoir < length project.now.reservoirs.list }
    ensures value { (each : Reservoir) → slice_get project.now.reservoirs.list reservoir ≡ Some each
        → result ≡ at_scale (parts_of scale) (reservoir_head project.now time each) }
    ensures small { unsigned_abs result ≤ 10 ^ 24 }
{
    let head = hyd_demands_and_reservoir_heads::head_at(project, reservoir, time);
    scale.in_parts(i128::from(head))
}

// The head of a tank at a level.
fn head_of_tank(project: &Project, scale: Scale, tank: usize, level: i128) -> i128
    requires sound { IsSound project.now }
    requires there { tank < length project.now.tanks.list }
    requires level { unsigned_abs level ≤ 10 ^ 24 }
    ensures value { (each : Tank) → slice_get project.now.tanks.list tank ≡ Some each
        → result ≡ at_scale (parts_of scale) each.bottom +ℤ level }
    ensures small { unsigned_abs result ≤ 2 * 10 ^ 24 }
{
    let bottom = project.tanks.as_slice()[tank].bottom;
    scale.in_parts(i128::from(bottom)) + level
}

/// The head of a node: a junction's as the moment has it, a reservoir's at the moment's time, and of a tank its bottom
/// plus its level. (EPANET 2.2 User Manual, chapter 3, reservoirs and tanks.)
pub fn head_of(project: &Project, scale: Scale, moment: &Moment, node: u32) -> i128
    requires sound { IsSound project.now }
    requires there { node < node_count project.now }
    requires moment { IsMomentOf project.now (moment_of moment.now) }
    ensures value { result ≡ head_at (node_heads project.now (parts_of scale) moment.now.time moment.now.levels.list
        moment.now.heads.list) node }
    ensures small { unsigned_abs result ≤ 2 * 10 ^ 24 }
{
    let node = node as usize;
    let junctions = project.junctions.len();
    if node < junctions {
        return value_at(moment.heads.as_slice(), node);
    }
    let behind = node - junctions;
    let reservoirs = project.reservoirs.len();
    if behind < reservoirs {
        return head_of_reservoir(project, scale, moment.time, behind as u32);
    }
    let tank = behind - reservoirs;
    let level = value_at(moment.levels.as_slice(), tank);
    head_of_tank(project, scale, tank, level)
}
