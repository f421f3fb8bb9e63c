//! Trials of the rules at instants of a period.
#![tactic(auto)]

ghost use Rattle.std.specs.Prelude.{◌≡◌, ◌≢◌, ◌<◌, ◌≤◌, ◌+◌, ◌⊎◌, [], length};
ghost use Rattle.std.specs.Bool.{OnTrue, OnFalse};
ghost use Rattle.hyd_net.specs.Sound.{IsSound};
ghost use Rattle.hyd_spec.specs.NodeNumbers.{tank_count};
ghost use Rattle.hyd_spec.specs.Rules.{rule_changes, acted};
ghost use Rattle.hyd_spec.specs.PeriodLength.{values_at, IsLeast, EndsByRules};
ghost use Rattle.hyd_laws_at_scale.specs.Scales.{parts_of};
ghost use Rattle.hyd_length_at_scale.specs.MetPeriods.{IsMetPeriod, told};
ghost use Rattle.hyd_length_at_scale.specs.ReservedMemory.{IsRoomFor, IsTrialRoomFor};

use crate::carried::put_carried;
use crate::periods::MetPeriod;
use crate::room::{EndRoom, TrialRoom};
use hyd_controls_and_rules::{Changes, act};
use hyd_net::{LinkState, Project};
use hyd_rules_at_scale::{Instant, put_values};
use hyd_stocks_at_scale::ExactLevel;

// Puts which rules are true at an instant, by the levels of tanks carried to it.
fn try_rules(period: &MetPeriod<'_>, instant: u32, levels: &mut [ExactLevel], values: &mut [bool])
    requires period { IsMetPeriod period.now }
    requires from { period.now.moment.now.time ≤ instant }
    requires each_level { length levels.old ≡ tank_count period.now.project.now }
    requires each_value { length values.old ≡ length period.now.project.now.rules.list }
    ensures { values.new ≡ values_at period.now.project.now (parts_of period.now.scale) (told period.now) instant }
{
    put_carried(period, instant - period.moment.time, levels);
    let instant = Instant {
        project: period.project,
        scale: period.scale,
        moment: period.moment,
        links: period.links,
        levels,
        time: instant,
    };
    put_values(&instant, values);
}

// Carries out what rules with these values change, and tells whether that is anything.
fn changes_any(
    project: &Project,
    values: &[bool],
    links: &mut [LinkState],
    changes: &mut Changes,
) -> bool
    requires sound { IsSound project.now }
    requires each_value { length values.now ≡ length project.now.rules.list }
    requires each_link { length links.old ≡ length project.now.links.list }
    requires room { length project.now.links.list ≤ changes.old.spare + length changes.old.list }
    ensures yes { OnTrue result (rule_changes project.now values.now links.old ≢ []) }
    ensures no { OnFalse result (rule_changes project.now values.now links.old ≡ []) }
    ensures links { links.new ≡ acted project.now values.now links.old }
    ensures stays { OnFalse result (links.new ≡ links.old) }
    ensures room { length project.now.links.list ≤ changes.new.spare + length changes.new.list }
{
    changes.clear();
    act(project, values, links, changes);
    !changes.rows().is_empty()
}

/// Tries the rules at an instant of a period and carries out what they change, on links that are in its states. Tells
/// whether they change the state of a link.
pub(crate) fn act_at(
    period: &MetPeriod<'_>,
    instant: u32,
    room: &mut TrialRoom,
    links: &mut [LinkState],
) -> bool
    requires period { IsMetPeriod period.now }
    requires from { period.now.moment.now.time ≤ instant }
    requires room { IsTrialRoomFor period.now.project.now room.old }
    requires links { links.old ≡ period.now.links.now }
    ensures yes { OnTrue result (rule_changes period.now.project.now (values_at period.now.project.now
        (parts_of period.now.scale) (told period.now) instant) period.now.links.now ≢ []) }
    ensures no { OnFalse result (rule_changes period.now.project.now (values_at period.now.project.now
        (parts_of period.now.scale) (told period.now) instant) period.now.links.now ≡ []) }
    ensures links { links.new ≡ acted period.now.project.now (values_at period.now.project.now
        (parts_of period.now.scale) (told period.now) instant) period.now.links.now }
    ensures stays { OnFalse result (links.new ≡ period.now.links.now) }
    ensures room { IsTrialRoomFor period.now.project.now room.new }
{
    try_rules(period, instant, &mut room.levels, &mut room.values);
    changes_any(period.project, &room.values, links, &mut room.changes)
}

/// Puts the states of links of a period.
pub(crate) fn copy_states(from: &[LinkState], into: &mut [LinkState])
    requires { length into.old ≡ length from.now }
    ensures { into.new ≡ from.now }
{
    into.copy_from_slice(from);
}

/// The first instant after the start at which the rules change the state of a link, or the cap where there is none
/// before that. They are tried at each multiple of the rule step (EPANET 2.2 User Manual, chapter 3, rule-based
/// controls).
pub(crate) fn first_by_rules(period: &MetPeriod<'_>, cap: u32, room: &mut EndRoom) -> u32
    requires period { IsMetPeriod period.now }
    requires later { period.now.moment.now.time < cap }
    requires cap { cap ≤ period.now.project.now.times.duration }
    requires room { IsRoomFor period.now.project.now room.old }
    ensures first { IsLeast (λ e. (e ≡ cap) ⊎ EndsByRules period.now.project.now (parts_of period.now.scale)
        (told period.now) e) result }
    ensures room { IsRoomFor period.now.project.now room.new }
{
    copy_states(period.links, &mut room.links);
    let step = period.project.times.rule;
    let mut instant = period.moment.time + (step - period.moment.time % step);
    while instant < cap {
        if act_at(period, instant, &mut room.trial, &mut room.links) {
            return instant;
        }
        instant += step;
    }
    cap
}
