//! How long a period lasts, and what happens at its end.
#![tactic(auto)]

ghost use Rattle.std.specs.Prelude.{◌≡◌, ◌≤◌, ◌+◌, ◌^◌, length};
ghost use Rattle.hyd_net.specs.Sound.{IsSound};
ghost use Rattle.hyd_spec.specs.NodeNumbers.{tank_count};
ghost use Rattle.hyd_spec_certificates.specs.PeriodNetwork.{Grid};
ghost use Rattle.hyd_spec_certificates.specs.RecordAndStanding.{Record, Standing};
ghost use Rattle.hyd_spec_certificates.specs.EndsOfPeriods.{events_of};
ghost use Rattle.hyd_period_facts.specs.ReservedMemory.{Takes};
ghost use Rattle.hyd_period_facts.specs.FactsBeforeEnd.{AreStarted, HaveTanks};

use crate::events::put_events;
use hyd_net::{List, Project};
use hyd_period_facts::{Facts, put_carried};
use hyd_spec_certificates::LevelSpan;

/// Puts how long a period lasts, and the events of its end.
pub(crate) fn tell_end(
    project: &Project,
    facts: &mut Facts,
    seconds: u32,
    carried: &mut List<LevelSpan>,
)
    requires sound { IsSound project.now }
    requires tanks { HaveTanks project.now facts.old }
    requires seconds { seconds ≤ 10 ^ 8 }
    requires carried { Takes carried.old (tank_count project.now) }
    requires events { Takes facts.old.events (tank_count project.now + length project.now.controls.list) }
    ensures events { (grid : Grid) (standing : Standing) (row : Record)
        → AreStarted project.now grid standing row facts.old → row.length ≡ seconds
        → facts.new.events.list ≡ events_of project.now grid standing row }
    ensures keeps { facts.new ≡ record facts.old { length = seconds; events = facts.new.events } }
    ensures events_room { Takes facts.new.events (tank_count project.now + length project.now.controls.list) }
    ensures room { Takes carried.new (tank_count project.now) }
{
    put_carried(project, facts, seconds, carried);
    put_events(
        project,
        facts.tanks.as_slice(),
        facts.levels.as_slice(),
        carried.as_slice(),
        &mut facts.events,
    );
    facts.length = seconds;
}
