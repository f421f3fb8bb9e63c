//! Levels of controls.
#![tactic(auto)]

ghost use Rattle.std.specs.Prelude.{◌≡◌, ◌<◌, ◌++◌, ◌∷◌, [], List, length, map, IfSome};
ghost use Rattle.std.specs.Option.{option_map};
ghost use Rattle.hyd_net.specs.Sound.{IsSound};
ghost use Rattle.hyd_net.specs.ControlsAndRules.{IsControl};
ghost use Rattle.hyd_spec.specs.Lists.{present};
ghost use Rattle.hyd_spec_certificates.specs.SpansAsIntervals.{levels_of};
ghost use Rattle.hyd_spec_certificates.specs.Decided as decided;
ghost use Rattle.hyd_period_facts.specs.FactsBeforeEnd.{HaveTanks};
ghost use Rattle.hyd_period_facts.specs.Watched.{IsWatch, AreEnds, watch_for};

use crate::facts::Facts;
use crate::levels_and_level_controls::{control_holds, level_at};
use crate::watch::{Ends, Watch, with_watch};
use hyd_net::{Control, Project, When};

// Whether a level control holds at the start.
fn acts(facts: &Facts, tank: u32, above: bool, ticks: i64) -> bool
    requires { tank < length facts.now.levels.list }
    ensures { result ≡ decided.acts_on (map levels_of facts.now.levels.list) tank above ticks }
{
    let level = level_at(facts.levels.as_slice(), tank);
    control_holds(&level, above, ticks)
}

// The level of a level control that doesn't hold at the start.
fn watch_of(project: &Project, facts: &Facts, control: &Control) -> Option<Watch>
    requires control { IsControl project.now control.now }
    requires tanks { HaveTanks project.now facts.now }
    ensures value { option_map watch_for result
        ≡ decided.watch_of (map levels_of facts.now.levels.list) control.now }
    ensures watch { IfSome result (IsWatch project.now) }
{
    let When::Level { tank, above, ticks } = control.when else {
        return None;
    };
    if acts(facts, tank, above, ticks) {
        return None;
    }
    Some(Watch {
        tank,
        target: ticks,
        rising: above,
    })
}

// The ends where the level of a control is watched besides, where it doesn't hold at the start.
fn with_control(project: &Project, facts: &Facts, control: &Control, cap: u32, ends: Ends) -> Ends
    requires sound { IsSound project.now }
    requires tanks { HaveTanks project.now facts.now }
    requires control { IsControl project.now control.now }
    ensures { (watched : List decided.Watch) → AreEnds project.now facts.now cap watched ends
        → AreEnds project.now facts.now cap
        (watched ++ present (decided.watch_of (map levels_of facts.now.levels.list) control.now ∷ [])) result }
{
    match watch_of(project, facts, control) {
        Some(watch) => with_watch(project, facts, watch, cap, ends),
        None => ends,
    }
}

/// The ends where the levels of controls that don't hold at the start are watched besides.
pub(crate) fn with_controls(project: &Project, facts: &Facts, cap: u32, ends: Ends) -> Ends
    requires sound { IsSound project.now }
    requires tanks { HaveTanks project.now facts.now }
    ensures { (watched : List decided.Watch) → AreEnds project.now facts.now cap watched ends
        → AreEnds project.now facts.now cap
        (watched ++ present (map (decided.watch_of
        (map levels_of facts.now.levels.list)) project.now.controls.list)) result }
{
    let mut all = ends;
    for control in project.controls.as_slice() {
        all = with_control(project, facts, control, cap, all);
    }
    all
}
