//! The end of a period that is due, by what was looked at in it.
#![tactic(auto)]

ghost use Rattle.std.specs.Prelude.{◌≡◌, ℕ, ◌≤◌, ◌^◌, IfErr, OnErr, OnOk};
ghost use Rattle.hyd_net.specs.Sound.{IsSound};
ghost use Rattle.hyd_spec_certificates.specs.Stops.{IsTightRow};
ghost use Rattle.hyd_spec_open_refusals.specs.RefusedOpenRecords.{LeavesMatterOpen, HasLengths, HasOtherLengths};
ghost use Rattle.hyd_period_facts.specs.FactsBeforeEnd.{HaveTanks};
ghost use Rattle.hyd_period_facts.specs.ReservedMemory.{HasRoom};
ghost use Rattle.hyd_period_end.specs.FactsBeforeVectors.{AreBegun, AreReady};
ghost use Rattle.hyd_open_period_end.specs.EndOfOpenPeriod.{HasRoom as HasCloseRoom};
ghost use Rattle.hyd_open_period_end.specs.LookedAt.{AreReadings, AreOfSomeRecord, ForRecord};
ghost use Rattle.hyd_open_period_end.specs.OpenMatters.{IsOpenlyOpenAt, IsLeftOpen};
ghost use Rattle.hyd_open_sim_start.specs.StandingsOfOpenRuns.{IsStanding, known_for, standing_for};
ghost use Rattle.hyd_open_sim.specs.EndedPeriods.{IsOverBy};

use hyd_cert::Record;
use hyd_net::Project;
use hyd_open_certificates::OpenRow;
use hyd_open_period_end::OpenPeriodEnd;
use hyd_open_sim_start::Standing;
use hyd_period_end::Open;
use hyd_period_facts::Facts;

// Puts into a record that its period lasts no time. All else of it stays.
fn put_no_length(row: &mut Record)
    ensures { row.new ≡ record row.old { length = 0 } }
{
    row.length = 0;
}

// Ends the period at the end of the run, which lasts no time and brings nothing.
fn end_run(
    project: &Project,
    standing: &Standing,
    found: &mut OpenRow,
    facts: &mut Facts,
    close: &mut OpenPeriodEnd,
)
    requires standing { IsStanding project.now standing.now }
    requires last { standing.now.time ≡ project.now.times.duration }
    requires begun { AreBegun project.now (known_for standing.now) facts.old }
    requires ready { AreReady project.now facts.old }
    requires have { HaveTanks project.now facts.old }
    requires close { HasCloseRoom project.now close.old }
    ensures over { (slack : ℕ) → ForRecord project.now facts.old close.old.readings
        (λ grid other. other.shortest ≡ 0 → other.row.length ≡ 0
        → IsOverBy project.now slack standing.now grid other facts.new close.new) }
    ensures found { found.new ≡ record found.old {
      row = record found.old.row { length = found.new.row.length };
      shortest = found.new.shortest;
    } }
    ensures shortest { found.new.shortest ≡ 0 }
    ensures length { found.new.row.length ≡ 0 }
    ensures facts { HasRoom project.now facts.new }
    ensures links { facts.new.links ≡ facts.old.links }
    ensures close { HasCloseRoom project.now close.new }
{
    let _project = project;
    let _standing = standing;
    facts.events.clear();
    facts.length = 0;
    put_no_length(&mut found.row);
    found.shortest = 0;
    close.opened.clear();
    close.first = 0;
    close.late = 0;
}

/// Ends a period by what was looked at: what flows into its tanks, among the facts, and the readings, in the room of its
/// end. The end may be open by at most the slack; at the end of the run the period lasts no time and brings nothing.
/// Contracts speak of any grid and record of which inflows and readings are. Fails with the first matter that is left
/// open.
pub fn end_by_readings(
    project: &Project,
    standing: &Standing,
    slack: u32,
    found: &mut OpenRow,
    facts: &mut Facts,
    close: &mut OpenPeriodEnd,
) -> Result<(), Open>
    requires sound { IsSound project.now }
    requires standing { IsStanding project.now standing.now }
    requires begun { AreBegun project.now (known_for standing.now) facts.old }
    requires ready { AreReady project.now facts.old }
    requires have { HaveTanks project.now facts.old }
    requires readings { AreReadings project.now close.old.readings }
    requires looked { AreOfSomeRecord project.now facts.old close.old.readings }
    requires close { HasCloseRoom project.now close.old }
    ensures over { OnOk result (ForRecord project.now facts.old close.old.readings
        (λ grid other. other.shortest ≡ found.new.shortest → other.row.length ≡ found.new.row.length
        → IsOverBy project.now slack standing.now grid other facts.new close.new)) }
    ensures open { IfErr result (λ what. ForRecord project.now facts.old close.old.readings
        (λ grid other. IsOpenlyOpenAt project.now grid (standing_for standing.now) slack other what)) }
    ensures stops { IfErr result (λ what. ForRecord project.now facts.old close.old.readings
        (λ grid other. IsTightRow project.now (known_for standing.now) grid other.row
        → IsLeftOpen project.now (standing_for standing.now) slack what)) }
    ensures matter { 10 ^ 8 ≤ slack → OnErr result (ForRecord project.now facts.old close.old.readings
        (λ grid other. LeavesMatterOpen project.now grid (standing_for standing.now) other)) }
    ensures decided { OnOk result (ForRecord project.now facts.old close.old.readings
        (λ grid other. LeavesMatterOpen project.now grid (standing_for standing.now) other → ⊥)) }
    ensures lengths { OnOk result (ForRecord project.now facts.old close.old.readings
        (λ grid other. (HasLengths other found.new.shortest found.new.row.length → ⊥)
        → HasOtherLengths project.now grid (standing_for standing.now) other)) }
    ensures found { found.new ≡ record found.old {
      row = record found.old.row { length = found.new.row.length };
      shortest = found.new.shortest;
    } }
    ensures facts { HasRoom project.now facts.new }
    ensures links { facts.new.links ≡ facts.old.links }
    ensures close { HasCloseRoom project.now close.new }
{
    if standing.time == project.times.duration {
        end_run(project, standing, found, facts, close);
        return Ok(());
    }
    close.finish(project, standing.late, slack, found, facts)
}
