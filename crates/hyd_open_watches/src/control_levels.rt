//! Levels of controls that may have been reached.
#![tactic(auto)]

ghost use Rattle.std.specs.Prelude.{◌≡◌, ◌<◌, ◌≤◌, ◌^◌, ◌++◌, ◌∷◌, [], List, length, map, IfSome};
ghost use Rattle.std.specs.Option.{option_map};
ghost use Rattle.hyd_net.specs.Sound.{IsSound};
ghost use Rattle.hyd_net.specs.ControlsAndRules.{IsControl};
ghost use Rattle.hyd_spec.specs.Lists.{present};
ghost use Rattle.hyd_spec_certificates.specs.SpansAsIntervals.{levels_of};
ghost use Rattle.hyd_spec_certificates.specs.Decided as decided;
ghost use Rattle.hyd_period_facts.specs.FactsBeforeEnd.{HaveTanks};
ghost use Rattle.hyd_open_watches.specs.Candidates.{IsWatch, StartsShort, AreNearest, watch_for};

use crate::nearest::{Candidates, with_watch};
use crate::watches::Watch;
use hyd_net::{Control, Project, When};
use hyd_period_facts::{Facts, control_holds, level_at};

// Whether a level control holds at the start.
fn acts(facts: &Facts, tank: u32, above: bool, ticks: i64) -> bool
    requires { tank < length facts.now.levels.list }
    ensures { result ≡ decided.acts_on (map levels_of facts.now.levels.list) tank above ticks }
{
    let level = level_at(facts.levels.as_slice(), tank);
    control_holds(&level, above, ticks)
}

// The level of a level control that doesn't hold at the start.
fn watch_of(project: &Project, facts: &Facts, control: &Control) -> Option<Watch>
    requires control { IsControl project.now control.now }
    requires tanks { HaveTanks project.now facts.now }
    ensures value { option_map watch_for result
        ≡ decided.watch_of (map levels_of facts.now.levels.list) control.now }
    ensures watch { IfSome result (IsWatch project.now) }
    ensures short { IfSome result (StartsShort project.now) }
{
    let When::Level { tank, above, ticks } = control.when else {
        return None;
    };
    if acts(facts, tank, above, ticks) {
        return None;
    }
    Some(Watch {
        tank,
        target: ticks,
        rising: above,
    })
}

// The candidates where the level of a control is watched besides, where it doesn't hold at the start.
fn with_control(
    project: &Project,
    facts: &Facts,
    control: &Control,
    latest: u32,
    all: Candidates,
) -> Candidates
    requires sound { IsSound project.now }
    requires tanks { HaveTanks project.now facts.now }
    requires control { IsControl project.now control.now }
    requires latest { latest ≤ 10 ^ 8 }
    ensures { (watched : List decided.Watch) → AreNearest project.now facts.now latest watched all
        → AreNearest project.now facts.now latest
        (watched ++ present (decided.watch_of (map levels_of facts.now.levels.list) control.now ∷ [])) result }
{
    match watch_of(project, facts, control) {
        Some(watch) => with_watch(project, facts, watch, latest, all),
        None => all,
    }
}

/// The candidates where the levels of controls that don't hold at the start are watched besides.
pub(crate) fn with_controls(
    project: &Project,
    facts: &Facts,
    latest: u32,
    bounds: Candidates,
) -> Candidates
    requires sound { IsSound project.now }
    requires tanks { HaveTanks project.now facts.now }
    requires latest { latest ≤ 10 ^ 8 }
    ensures { (watched : List decided.Watch) → AreNearest project.now facts.now latest watched bounds
        → AreNearest project.now facts.now latest
        (watched ++ present (map (decided.watch_of
        (map levels_of facts.now.levels.list)) project.now.controls.list)) result }
{
    let mut all = bounds;
    for control in project.controls.as_slice() {
        all = with_control(project, facts, control, latest, all);
    }
    all
}
