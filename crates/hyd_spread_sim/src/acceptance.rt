//! A record taken as that of the period that is due in a run for a spread.
#![tactic(auto)]

ghost use Rattle.std.specs.Prelude.{◌≡◌, Err, None, IfErr, OnErr, OnOk};
ghost use Rattle.hyd_net.specs.Sound.{IsSound};
ghost use Rattle.hyd_spec_spread.specs.Spreads.{IsSpread};
ghost use Rattle.hyd_spec_spread_refusals.specs.RefusedSpreadRecords.{IsRefusedOver};
ghost use Rattle.hyd_open_certificates.specs.OpenRowView.{open_header_of, open_record_of};
ghost use Rattle.hyd_period_facts.specs.ReservedMemory.{HasRoom};
ghost use Rattle.hyd_open_period_end.specs.EndOfOpenPeriod.{HasRoom as HasCloseRoom};
ghost use Rattle.hyd_open_sim_start.specs.StandingsOfOpenRuns.{IsStanding, standing_for};
ghost use Rattle.hyd_open_sim.specs.RunView.{header_for};
ghost use Rattle.hyd_spread_networks.specs.NetsOfSpreads.{AreNetsOf};
ghost use Rattle.hyd_spread_sim.specs.SpreadRunView.{standing_of};
ghost use Rattle.hyd_spread_sim.specs.SpreadSteps.{IsAcceptedOver, LeadsOver};

use crate::handed_in_record::{check_due, check_place};
use crate::moving_on::go_on;
use crate::spread_sim::SpreadSim;
use hyd_net::Project;
use hyd_open_certificates::OpenRow;
use hyd_open_period_end::OpenPeriodEnd;
use hyd_open_sim_start::Standing;
use hyd_period_facts::Facts;
use hyd_spec_certificates::CertRefused;
use hyd_spread_networks::SpreadNets;

// Checks a record as that of the period that is due at a standing, and moves on behind it. Where it is refused, the
// standing stays.
fn take(
    project: &Project,
    standing: &mut Standing,
    nets: &mut SpreadNets,
    found: &mut OpenRow,
    facts: &mut Facts,
    close: &mut OpenPeriodEnd,
    given: &OpenRow,
) -> Result<(), CertRefused>
    requires sound { IsSound project.now }
    requires spread { IsSpread project.now nets.old.spread }
    requires standing { IsStanding project.now standing.old }
    requires of { AreNetsOf project.now nets.old }
    requires header { open_header_of found.old ≡ header_for project.now }
    requires given { open_header_of given.now ≡ header_for project.now }
    requires facts { HasRoom project.now facts.old }
    requires close { HasCloseRoom project.now close.old }
    ensures taken { OnOk result (LeadsOver project.now (standing_for standing.old) nets.new found.new facts.new
        close.new.first close.new.late close.new.opened.list (standing_for standing.new)) }
    ensures found { OnOk result (open_record_of found.new ≡ open_record_of given.now) }
    ensures refused { IfErr result (IsRefusedOver project.now nets.old.spread (standing_for standing.old)
        (open_record_of given.now)) }
    ensures exactly { (cause : CertRefused)
        → IsRefusedOver project.now nets.old.spread (standing_for standing.old) (open_record_of given.now) cause
        → result ≡ Err cause }
    ensures stays { OnErr result (standing.new ≡ standing.old) }
    ensures standing { IsStanding project.now standing.new }
    ensures of { AreNetsOf project.now nets.new }
    ensures spread { nets.new.spread ≡ nets.old.spread }
    ensures header { open_header_of found.new ≡ open_header_of found.old }
    ensures facts { HasRoom project.now facts.new }
    ensures close { HasCloseRoom project.now close.new }
{
    check_place(project, standing, nets, given)?;
    check_due(project, standing, nets, found, facts, close, given)?;
    go_on(standing, project, nets, found, facts, close);
    Ok(())
}

impl SpreadSim {
    /// Checks a record as that of the period that is due, in place of finding one, and moves on behind it: each of its
    /// vectors is to be a certificate on the net of its side. It takes no memory. Fails with the first of
    /// [`CertRefused`] that holds, in the order After, Place, Demand, Fails, Open, Length; the standing then stays, and
    /// nets, record and facts are of no period. By how many seconds an end is open is no cause. (This is for a run that
    /// hasn't stopped, and a record with the network's counts of junctions and tanks.)
    pub fn accept(&mut self, given: &OpenRow) -> Result<(), CertRefused>
        requires running { self.old.stopped ≡ None }
        requires header { open_header_of given.now ≡ header_for self.old.project }
        ensures accepted { OnOk result (IsAcceptedOver self.old self.new) }
        ensures found { OnOk result (open_record_of self.new.found ≡ open_record_of given.now) }
        ensures refused { IfErr result (IsRefusedOver self.old.project self.old.nets.spread (standing_of self.old)
            (open_record_of given.now)) }
        ensures exactly { (cause : CertRefused) → IsRefusedOver self.old.project self.old.nets.spread
            (standing_of self.old) (open_record_of given.now) cause → result ≡ Err cause }
        ensures standing { OnErr result (standing_of self.new ≡ standing_of self.old) }
        ensures running { self.new.stopped ≡ None }
        ensures project { self.new.project ≡ self.old.project }
        ensures settings { self.new.settings ≡ self.old.settings }
        ensures spread { self.new.nets.spread ≡ self.old.nets.spread }
    {
        take(
            &self.project,
            &mut self.standing,
            &mut self.nets,
            &mut self.found,
            &mut self.facts,
            &mut self.close,
            given,
        )
    }
}
