//! A record handed in as that of the period that is due.
#![tactic(auto)]

ghost use Rattle.std.specs.Prelude.{◌≡◌, ℕ, Err, None, true, false, IfErr, OnErr, OnOk};
ghost use Rattle.hyd_net.specs.Sound.{IsSound};
ghost use Rattle.hyd_spec_certificates.specs.Valid.{AreCertificates};
ghost use Rattle.hyd_spec_open_refusals.specs.RefusedOpenRecords.{HasItsGridOpenly, IsInPlaceOpenly, IsRefusedOpenly};
ghost use Rattle.hyd_cert.specs.RecordView.{row_of};
ghost use Rattle.hyd_open_certificates.specs.OpenRowView.{open_header_of, open_record_of};
ghost use Rattle.hyd_period_facts.specs.ReservedMemory.{HasRoom};
ghost use Rattle.hyd_period_network.specs.NetAsPeriodNetwork.{grid_of};
ghost use Rattle.hyd_period_network.specs.NetsSetToPeriods.{IsNetOf};
ghost use Rattle.hyd_period_end.specs.OpenMatters.{SharesVectors};
ghost use Rattle.hyd_period_vectors.specs.SoughtVectors.{Stays};
ghost use Rattle.hyd_open_period_end.specs.EndOfOpenPeriod.{HasRoom as HasCloseRoom};
ghost use Rattle.hyd_open_sim_start.specs.StandingsOfOpenRuns.{IsStanding, standing_for};
ghost use Rattle.hyd_open_sim_start.specs.StartedPeriods.{IsStarted};
ghost use Rattle.hyd_open_sim.specs.Acceptance.{IsAccepted, IsTaken};
ghost use Rattle.hyd_open_sim.specs.EndedPeriods.{IsMade};
ghost use Rattle.hyd_open_sim.specs.RunView.{header_for, standing_of};

use crate::end_of_due_period::end_period;
use crate::moving_on::move_on;
use crate::open_sim::OpenSim;
use hyd_net::Project;
use hyd_open_certificates::OpenRow;
use hyd_open_period_end::{ANY_SLACK, OpenPeriodEnd};
use hyd_open_sim_start::{Standing, check_vectors, start_period, take_vectors};
use hyd_period_facts::Facts;
use hyd_period_network::Net;
use hyd_spec_certificates::CertRefused;

// Decides whether a record is the one that is due: the run isn't over, its number and its first start are the next, and
// that is open by as many seconds.
fn check_place(project: &Project, standing: &Standing, given: &OpenRow) -> Result<(), CertRefused>
    ensures in_place { OnOk result (IsInPlaceOpenly (standing_for standing.now) (open_record_of given.now)) }
    ensures refused { IfErr result (IsRefusedOpenly project.now (standing_for standing.now)
        (open_record_of given.now)) }
{
    let _project = project;
    let period = standing.number;
    if standing.finished {
        return Err(CertRefused::After { period });
    }
    if given.row.number != standing.number
        || given.row.time != standing.time
        || given.late != standing.late
    {
        return Err(CertRefused::Place { period });
    }
    Ok(())
}

// Checks the vectors of a record, and takes them.
fn certify(
    project: &Project,
    standing: &Standing,
    net: &Net,
    found: &mut OpenRow,
    given: &OpenRow,
) -> Result<(), CertRefused>
    requires of { IsNetOf project.now net.now }
    requires header { open_header_of found.old ≡ header_for project.now }
    requires given { open_header_of given.now ≡ header_for project.now }
    requires has_grid { HasItsGridOpenly project.now (standing_for standing.now) (grid_of net.now)
        (open_record_of given.now) }
    ensures certificates { OnOk result (AreCertificates project.now (grid_of net.now) (row_of given.now.row)) }
    ensures shares { OnOk result (SharesVectors (row_of given.now.row) (row_of found.new.row)) }
    ensures refused { IfErr result (IsRefusedOpenly project.now (standing_for standing.now)
        (open_record_of given.now)) }
    ensures stays { Stays found.old.row found.new.row }
    ensures same { found.new ≡ record found.old { row = found.new.row } }
{
    let _project = project;
    if let Err(failing) = check_vectors(net, &given.row) {
        return Err(CertRefused::Fails {
            period: standing.number,
            problem: failing.problem,
            side: failing.side,
            junction: failing.junction,
        });
    }
    take_vectors(&mut found.row, &given.row);
    Ok(())
}

// Whether a record has other lengths than another.
fn has_other_lengths(found: &OpenRow, given: &OpenRow) -> bool
    ensures same { result ≡ false
        → (found.now.shortest ≡ given.now.shortest) × (found.now.row.length ≡ given.now.row.length) }
    ensures other { result ≡ true
        → ((found.now.shortest ≡ given.now.shortest) × (found.now.row.length ≡ given.now.row.length)) → ⊥ }
{
    found.shortest != given.shortest || found.row.length != given.row.length
}

// Checks a record of a period that was started, and ends the period by its vectors, its end open by any seconds.
fn end_by(
    project: &Project,
    standing: &Standing,
    net: &Net,
    found: &mut OpenRow,
    facts: &mut Facts,
    close: &mut OpenPeriodEnd,
    given: &OpenRow,
) -> Result<(), CertRefused>
    requires sound { IsSound project.now }
    requires standing { IsStanding project.now standing.now }
    requires of { IsNetOf project.now net.now }
    requires header { open_header_of found.old ≡ header_for project.now }
    requires given { open_header_of given.now ≡ header_for project.now }
    requires started { IsStarted project.now (standing_for standing.now) net.now found.old facts.old }
    requires close { HasCloseRoom project.now close.old }
    requires in_place { IsInPlaceOpenly (standing_for standing.now) (open_record_of given.now) }
    ensures made { OnOk result ((slack : ℕ)
        × IsMade project.now slack standing.now net.now found.new facts.new close.new) }
    ensures found { OnOk result (open_record_of found.new ≡ open_record_of given.now) }
    ensures refused { IfErr result (IsRefusedOpenly project.now (standing_for standing.now)
        (open_record_of given.now)) }
    ensures header { open_header_of found.new ≡ open_header_of found.old }
    ensures facts { HasRoom project.now facts.new }
    ensures close { HasCloseRoom project.now close.new }
{
    certify(project, standing, net, found, given)?;
    let period = standing.number;
    if end_period(project, standing, net, ANY_SLACK, found, facts, close).is_err() {
        return Err(CertRefused::Open { period });
    }
    if has_other_lengths(found, given) {
        return Err(CertRefused::Length { period });
    }
    Ok(())
}

// Checks a record that is due: starts its period, and ends it by the record's vectors. The states of links at the start
// are made in the room of those at the end.
fn check_due(
    project: &Project,
    standing: &Standing,
    net: &mut Net,
    found: &mut OpenRow,
    facts: &mut Facts,
    close: &mut OpenPeriodEnd,
    given: &OpenRow,
) -> Result<(), CertRefused>
    requires sound { IsSound project.now }
    requires standing { IsStanding project.now standing.now }
    requires of { IsNetOf project.now net.old }
    requires header { open_header_of found.old ≡ header_for project.now }
    requires given { open_header_of given.now ≡ header_for project.now }
    requires facts { HasRoom project.now facts.old }
    requires close { HasCloseRoom project.now close.old }
    requires in_place { IsInPlaceOpenly (standing_for standing.now) (open_record_of given.now) }
    ensures made { OnOk result ((slack : ℕ)
        × IsMade project.now slack standing.now net.new found.new facts.new close.new) }
    ensures found { OnOk result (open_record_of found.new ≡ open_record_of given.now) }
    ensures refused { IfErr result (IsRefusedOpenly project.now (standing_for standing.now)
        (open_record_of given.now)) }
    ensures of { IsNetOf project.now net.new }
    ensures header { open_header_of found.new ≡ open_header_of found.old }
    ensures facts { HasRoom project.now facts.new }
    ensures close { HasCloseRoom project.now close.new }
{
    if start_period(project, standing, net, found, facts, &mut close.commanded).is_err() {
        return Err(CertRefused::Demand {
            period: standing.number,
        });
    }
    end_by(project, standing, net, found, facts, close, given)
}

// Checks a record as that of the period that is due at a standing, and moves on behind it. Where it is refused, the
// standing stays.
fn take(
    project: &Project,
    standing: &mut Standing,
    net: &mut Net,
    found: &mut OpenRow,
    facts: &mut Facts,
    close: &mut OpenPeriodEnd,
    given: &OpenRow,
) -> Result<(), CertRefused>
    requires sound { IsSound project.now }
    requires standing { IsStanding project.now standing.old }
    requires of { IsNetOf project.now net.old }
    requires header { open_header_of found.old ≡ header_for project.now }
    requires given { open_header_of given.now ≡ header_for project.now }
    requires facts { HasRoom project.now facts.old }
    requires close { HasCloseRoom project.now close.old }
    ensures taken { OnOk result (IsTaken project.now (standing_for standing.old) net.new found.new facts.new
        close.new.first close.new.late close.new.opened.list (standing_for standing.new)) }
    ensures found { OnOk result (open_record_of found.new ≡ open_record_of given.now) }
    ensures refused { IfErr result (IsRefusedOpenly project.now (standing_for standing.old)
        (open_record_of given.now)) }
    ensures exactly { (cause : CertRefused)
        → IsRefusedOpenly project.now (standing_for standing.old) (open_record_of given.now) cause
        → result ≡ Err cause }
    ensures stays { OnErr result (standing.new ≡ standing.old) }
    ensures standing { IsStanding project.now standing.new }
    ensures of { IsNetOf project.now net.new }
    ensures header { open_header_of found.new ≡ open_header_of found.old }
    ensures facts { HasRoom project.now facts.new }
    ensures close { HasCloseRoom project.now close.new }
{
    check_place(project, standing, given)?;
    check_due(project, standing, net, found, facts, close, given)?;
    move_on(standing, project, close);
    Ok(())
}

impl OpenSim {
    /// Checks a record as that of the period that is due, in place of finding one, and moves on behind it. It takes no
    /// memory. Fails with the first of [`CertRefused`] that holds, in the order After, Place, Demand, Fails, Open,
    /// Length; the standing then stays, and net, record and facts are of no period. By how many seconds an end is open
    /// is no cause. (This is for a run that hasn't stopped, and a record with the network's counts of junctions and
    /// tanks.)
    pub fn accept(&mut self, given: &OpenRow) -> Result<(), CertRefused>
        requires running { self.old.stopped ≡ None }
        requires header { open_header_of given.now ≡ header_for self.old.project }
        ensures accepted { OnOk result (IsAccepted self.old self.new) }
        ensures found { OnOk result (open_record_of self.new.found ≡ open_record_of given.now) }
        ensures refused { IfErr result (IsRefusedOpenly self.old.project (standing_of self.old)
            (open_record_of given.now)) }
        ensures exactly { (cause : CertRefused)
            → IsRefusedOpenly self.old.project (standing_of self.old) (open_record_of given.now) cause
            → result ≡ Err cause }
        ensures standing { OnErr result (standing_of self.new ≡ standing_of self.old) }
        ensures running { self.new.stopped ≡ None }
        ensures project { self.new.project ≡ self.old.project }
        ensures settings { self.new.settings ≡ self.old.settings }
    {
        take(
            &self.project,
            &mut self.standing,
            &mut self.net,
            &mut self.found,
            &mut self.facts,
            &mut self.close,
            given,
        )
    }
}
