//! When a period ends first, and what happens there.
#![tactic(auto)]

ghost use Rattle.std.specs.Prelude.{◌≡◌, ◌<◌, ◌≤◌, ◌+◌, ◌^◌, ℕ, [], length};
ghost use Rattle.std.specs.Option.{option_map};
ghost use Rattle.hyd_net.specs.Sound.{IsSound};
ghost use Rattle.hyd_spec.specs.NodeNumbers.{tank_count};
ghost use Rattle.hyd_spec_certificates.specs.PeriodNetwork.{Grid};
ghost use Rattle.hyd_spec_certificates.specs.RecordAndStanding.{Standing};
ghost use Rattle.hyd_spec_open_ends.specs.OpenStandings.{OpenRecord};
ghost use Rattle.hyd_spec_open_reports.specs.OpenReport.{events_left};
ghost use Rattle.hyd_period_facts.specs.ReservedMemory.{Takes};
ghost use Rattle.hyd_period_facts.specs.FactsBeforeEnd.{AreStarted, HaveTanks};
ghost use Rattle.hyd_open_watches.specs.Candidates.{watch_for};
ghost use Rattle.hyd_open_tanks.specs.StocksLeft.{IsInReachOf};

use crate::carried_at_end::put_carried_at_end;
use hyd_net::{List, Project};
use hyd_open_stocks::Lengths;
use hyd_open_watches::Watch;
use hyd_period_end::put_events;
use hyd_period_facts::Facts;
use hyd_spec_certificates::{Event, LevelSpan};
use std::mem::swap;

// Puts the events of a period's end, where this level has just been reached there, if any.
fn put_events_left(
    project: &Project,
    facts: &mut Facts,
    lengths: Lengths,
    reached: Option<Watch>,
    carried: &mut List<LevelSpan>,
)
    requires sound { IsSound project.now }
    requires tanks { HaveTanks project.now facts.old }
    requires shortest { lengths.shortest ≤ 10 ^ 8 }
    requires longest { lengths.longest ≤ 10 ^ 8 }
    requires reach { IsInReachOf project.now facts.old reached }
    requires carried { Takes carried.old (tank_count project.now) }
    requires events { Takes facts.old.events (tank_count project.now + length project.now.controls.list) }
    ensures events { (grid : Grid) (standing : Standing) (found : OpenRecord)
        → AreStarted project.now grid standing found.row facts.old → found.shortest ≡ lengths.shortest
        → found.row.length ≡ lengths.longest
        → facts.new.events.list ≡ events_left project.now grid standing found (option_map watch_for reached) }
    ensures keeps { facts.new ≡ record facts.old { events = facts.new.events } }
    ensures events_room { Takes facts.new.events (tank_count project.now + length project.now.controls.list) }
    ensures room { Takes carried.new (tank_count project.now) }
{
    put_carried_at_end(project, facts, lengths, reached, carried);
    put_events(
        project,
        facts.tanks.as_slice(),
        facts.levels.as_slice(),
        carried.as_slice(),
        &mut facts.events,
    );
}

// Parts the events of an end that is open by some seconds from the facts: they are left in a list of their own, where
// there are none of an end that is known to the second.
fn part_events(late: u32, events: &mut List<Event>, opened: &mut List<Event>)
    ensures known { late ≡ 0 → (events.new.list ≡ events.old.list) × (opened.new.list ≡ []) }
    ensures open { 0 < late → (events.new.list ≡ []) × (opened.new.list ≡ events.old.list) }
    ensures events_room { (n : ℕ) → Takes events.old n → Takes opened.old n → Takes events.new n }
    ensures opened_room { (n : ℕ) → Takes events.old n → Takes opened.old n → Takes opened.new n }
{
    opened.clear();
    if 0 < late {
        swap(events, opened);
    }
}

/// Puts when a period's end comes first, and the events of the end, which is open by `late` seconds, where this level
/// has just been reached there, if any: among the facts where it is known to the second, else in a list of their own.
pub(crate) fn tell_end(
    project: &Project,
    facts: &mut Facts,
    lengths: Lengths,
    reached: Option<Watch>,
    first: u32,
    late: u32,
    carried: &mut List<LevelSpan>,
    opened: &mut List<Event>,
)
    requires sound { IsSound project.now }
    requires tanks { HaveTanks project.now facts.old }
    requires shortest { lengths.shortest ≤ 10 ^ 8 }
    requires longest { lengths.longest ≤ 10 ^ 8 }
    requires reach { IsInReachOf project.now facts.old reached }
    requires carried { Takes carried.old (tank_count project.now) }
    requires events { Takes facts.old.events (tank_count project.now + length project.now.controls.list) }
    requires opened { Takes opened.old (tank_count project.now + length project.now.controls.list) }
    ensures known { late ≡ 0 → (grid : Grid) (standing : Standing) (found : OpenRecord)
        → AreStarted project.now grid standing found.row facts.old → found.shortest ≡ lengths.shortest
        → found.row.length ≡ lengths.longest
        → (facts.new.events.list ≡ events_left project.now grid standing found (option_map watch_for reached))
        × (opened.new.list ≡ []) }
    ensures open { 0 < late → (grid : Grid) (standing : Standing) (found : OpenRecord)
        → AreStarted project.now grid standing found.row facts.old → found.shortest ≡ lengths.shortest
        → found.row.length ≡ lengths.longest
        → (facts.new.events.list ≡ [])
        × (opened.new.list ≡ events_left project.now grid standing found (option_map watch_for reached)) }
    ensures keeps { facts.new ≡ record facts.old { length = first; events = facts.new.events } }
    ensures events_room { Takes facts.new.events (tank_count project.now + length project.now.controls.list) }
    ensures opened_room { Takes opened.new (tank_count project.now + length project.now.controls.list) }
    ensures room { Takes carried.new (tank_count project.now) }
{
    put_events_left(project, facts, lengths, reached, carried);
    part_events(late, &mut facts.events, opened);
    facts.length = first;
}
