//! Bounds of tanks.
#![tactic(auto)]

ghost use Rattle.std.specs.Prelude.{◌≡◌, ◌<◌, ◌++◌, List, Some, length, slice_get};
ghost use Rattle.hyd_net.specs.Sound.{IsSound};
ghost use Rattle.hyd_spec.specs.ProgramTypes.{Tank};
ghost use Rattle.hyd_spec.specs.declared.TankState.{TankState as State};
ghost use Rattle.hyd_spec.specs.LinkLaw as states;
ghost use Rattle.hyd_spec_certificates.specs.Decided.{Watch as Watched, tank_watches};
ghost use Rattle.hyd_period_facts.specs.FactsBeforeEnd.{HaveTanks};
ghost use Rattle.hyd_period_facts.specs.Watched.{AreEnds, most_of, least_of};

use crate::facts::Facts;
use crate::watch::{Ends, Watch, with_watch};
use hyd_net::Project;
use hyd_spec::TankState;

fn is_full(facts: &Facts, tank: u32) -> bool
    requires { tank < length facts.now.tanks.list }
    ensures { (state : State) → slice_get facts.now.tanks.list tank ≡ Some state → result ≡ states.is_full state }
{
    matches!(facts.tanks.as_slice()[tank as usize], TankState::Full)
}

fn is_empty(facts: &Facts, tank: u32) -> bool
    requires { tank < length facts.now.tanks.list }
    ensures { (state : State) → slice_get facts.now.tanks.list tank ≡ Some state → result ≡ states.is_empty state }
{
    matches!(facts.tanks.as_slice()[tank as usize], TankState::Empty)
}

// The ends where the maximum of a tank that isn't full is watched besides.
fn with_most(project: &Project, facts: &Facts, tank: u32, cap: u32, ends: Ends) -> Ends
    requires sound { IsSound project.now }
    requires tanks { HaveTanks project.now facts.now }
    requires in_range { tank < length project.now.tanks.list }
    ensures { (watched : List Watched) (each : Tank) (state : State) → slice_get project.now.tanks.list tank ≡ Some each
        → slice_get facts.now.tanks.list tank ≡ Some state → AreEnds project.now facts.now cap watched ends
        → AreEnds project.now facts.now cap (watched ++ most_of tank each state) result }
{
    if is_full(facts, tank) {
        return ends;
    }
    let watch = Watch {
        tank,
        target: project.tanks.as_slice()[tank as usize].maximum,
        rising: true,
    };
    with_watch(project, facts, watch, cap, ends)
}

// The ends where the minimum of a tank that isn't empty is watched besides.
fn with_least(project: &Project, facts: &Facts, tank: u32, cap: u32, ends: Ends) -> Ends
    requires sound { IsSound project.now }
    requires tanks { HaveTanks project.now facts.now }
    requires in_range { tank < length project.now.tanks.list }
    ensures { (watched : List Watched) (each : Tank) (state : State) → slice_get project.now.tanks.list tank ≡ Some each
        → slice_get facts.now.tanks.list tank ≡ Some state → AreEnds project.now facts.now cap watched ends
        → AreEnds project.now facts.now cap (watched ++ least_of tank each state) result }
{
    if is_empty(facts, tank) {
        return ends;
    }
    let watch = Watch {
        tank,
        target: project.tanks.as_slice()[tank as usize].minimum,
        rising: false,
    };
    with_watch(project, facts, watch, cap, ends)
}

/// The ends where the bounds of tanks are watched.
pub(crate) fn bound_ends(project: &Project, facts: &Facts, cap: u32) -> Ends
    requires sound { IsSound project.now }
    requires tanks { HaveTanks project.now facts.now }
    ensures { AreEnds project.now facts.now cap (tank_watches 0 project.now.tanks.list facts.now.tanks.list) result }
{
    let mut ends = Ends {
        earliest: cap,
        latest: cap,
    };
    for tank in 0..project.tanks.len() {
        ends = with_most(project, facts, tank as u32, cap, ends);
        ends = with_least(project, facts, tank as u32, cap, ends);
    }
    ends
}
