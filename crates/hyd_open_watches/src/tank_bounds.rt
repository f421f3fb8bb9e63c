//! Bounds of tanks that may have been reached.
#![tactic(auto)]

ghost use Rattle.std.specs.Prelude.{◌≡◌, ◌<◌, ◌≤◌, ◌^◌, ◌++◌, List, Some, length, slice_get};
ghost use Rattle.hyd_net.specs.Sound.{IsSound};
ghost use Rattle.hyd_spec.specs.ProgramTypes.{Tank};
ghost use Rattle.hyd_spec.specs.declared.TankState.{TankState as State};
ghost use Rattle.hyd_spec.specs.LinkLaw as states;
ghost use Rattle.hyd_spec_certificates.specs.Decided.{Watch as Watched, tank_watches};
ghost use Rattle.hyd_period_facts.specs.FactsBeforeEnd.{HaveTanks};
ghost use Rattle.hyd_period_facts.specs.Watched.{most_of, least_of};
ghost use Rattle.hyd_open_watches.specs.Candidates.{AreNearest};

use crate::nearest::{Candidates, with_watch};
use crate::watches::Watch;
use hyd_net::Project;
use hyd_period_facts::Facts;
use hyd_spec::TankState;
use hyd_tank::tank_at;

fn is_full(facts: &Facts, tank: u32) -> bool
    requires { tank < length facts.now.tanks.list }
    ensures { (state : State) → slice_get facts.now.tanks.list tank ≡ Some state → result ≡ states.is_full state }
{
    matches!(facts.tanks.as_slice()[tank as usize], TankState::Full)
}

fn is_empty(facts: &Facts, tank: u32) -> bool
    requires { tank < length facts.now.tanks.list }
    ensures { (state : State) → slice_get facts.now.tanks.list tank ≡ Some state → result ≡ states.is_empty state }
{
    matches!(facts.tanks.as_slice()[tank as usize], TankState::Empty)
}

// The candidates where the maximum of a tank that isn't full is watched besides.
fn with_most(
    project: &Project,
    facts: &Facts,
    tank: u32,
    latest: u32,
    all: Candidates,
) -> Candidates
    requires sound { IsSound project.now }
    requires tanks { HaveTanks project.now facts.now }
    requires in_range { tank < length project.now.tanks.list }
    requires latest { latest ≤ 10 ^ 8 }
    ensures { (watched : List Watched) (each : Tank) (state : State) → slice_get project.now.tanks.list tank ≡ Some each
        → slice_get facts.now.tanks.list tank ≡ Some state → AreNearest project.now facts.now latest watched all
        → AreNearest project.now facts.now latest (watched ++ most_of tank each state) result }
{
    if is_full(facts, tank) {
        return all;
    }
    let watch = Watch {
        tank,
        target: tank_at(project, tank).maximum,
        rising: true,
    };
    with_watch(project, facts, watch, latest, all)
}

// The candidates where the minimum of a tank that isn't empty is watched besides.
fn with_least(
    project: &Project,
    facts: &Facts,
    tank: u32,
    latest: u32,
    all: Candidates,
) -> Candidates
    requires sound { IsSound project.now }
    requires tanks { HaveTanks project.now facts.now }
    requires in_range { tank < length project.now.tanks.list }
    requires latest { latest ≤ 10 ^ 8 }
    ensures { (watched : List Watched) (each : Tank) (state : State) → slice_get project.now.tanks.list tank ≡ Some each
        → slice_get facts.now.tanks.list tank ≡ Some state → AreNearest project.now facts.now latest watched all
        → AreNearest project.now facts.now latest (watched ++ least_of tank each state) result }
{
    if is_empty(facts, tank) {
        return all;
    }
    let watch = Watch {
        tank,
        target: tank_at(project, tank).minimum,
        rising: false,
    };
    with_watch(project, facts, watch, latest, all)
}

/// The candidates among the bounds of tanks.
pub(crate) fn among_bounds(project: &Project, facts: &Facts, latest: u32) -> Candidates
    requires sound { IsSound project.now }
    requires tanks { HaveTanks project.now facts.now }
    requires latest { latest ≤ 10 ^ 8 }
    ensures { AreNearest project.now facts.now latest (tank_watches 0 project.now.tanks.list facts.now.tanks.list)
        result }
{
    let mut all = Candidates::None;
    for tank in 0..project.tanks.len() {
        all = with_most(project, facts, tank as u32, latest, all);
        all = with_least(project, facts, tank as u32, latest, all);
    }
    all
}
