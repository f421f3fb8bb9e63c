//! A record handed in as that of the period that is due.
#![tactic(auto)]

ghost use Rattle.std.specs.Prelude.{◌≡◌, Err, None, length, IfErr, OnErr, OnOk};
ghost use Rattle.hyd_net.specs.Sound.{IsSound};
ghost use Rattle.hyd_spec.specs.NodeNumbers.{tank_count};
ghost use Rattle.hyd_spec_certificates.specs.Valid.{AreCertificates};
ghost use Rattle.hyd_spec_certificates.specs.RefusedRecords.{HasItsGrid, IsInPlace, IsRefused};
ghost use Rattle.hyd_cert.specs.RecordView.{header_of, row_of};
ghost use Rattle.hyd_period_facts.specs.ReservedMemory.{HasRoom};
ghost use Rattle.hyd_period_network.specs.NetAsPeriodNetwork.{grid_of};
ghost use Rattle.hyd_period_network.specs.NetsSetToPeriods.{IsNetOf};
ghost use Rattle.hyd_period_end.specs.EndOfPeriod.{HasRoom as HasCloseRoom};
ghost use Rattle.hyd_period_end.specs.OpenMatters.{SharesVectors};
ghost use Rattle.hyd_period_vectors.specs.SoughtVectors.{Stays};
ghost use Rattle.hyd_sim.specs.Acceptance.{IsAccepted, IsTaken};
ghost use Rattle.hyd_sim.specs.PeriodAttempt.{IsMade, IsStarted};
ghost use Rattle.hyd_sim.specs.RunView.{IsStanding, header_for, standing_for, standing_of};

use crate::due_period::start_period;
use crate::end_of_due_period::end_period;
use crate::given_vectors::{check_vectors, take_vectors};
use crate::sim::Sim;
use crate::standing_between_periods::Standing;
use hyd_cert::Record;
use hyd_net::Project;
use hyd_period_end::PeriodEnd;
use hyd_period_facts::Facts;
use hyd_period_network::Net;
use hyd_spec_certificates::CertRefused;

// Decides whether a record is the one that is due: the run isn't over, and its number and its time are the next.
fn check_place(project: &Project, standing: &Standing, given: &Record) -> Result<(), CertRefused>
    ensures in_place { OnOk result (IsInPlace (standing_for standing.now) (row_of given.now)) }
    ensures refused { IfErr result (IsRefused project.now (standing_for standing.now) (row_of given.now)) }
{
    let _project = project;
    let period = standing.number;
    if standing.finished {
        return Err(CertRefused::After { period });
    }
    if given.number != standing.number || given.time != standing.time {
        return Err(CertRefused::Place { period });
    }
    Ok(())
}

// Checks the vectors of a record, and takes them.
fn certify(
    project: &Project,
    standing: &Standing,
    net: &Net,
    row: &mut Record,
    given: &Record,
) -> Result<(), CertRefused>
    requires of { IsNetOf project.now net.now }
    requires header { header_of row.old ≡ header_for project.now }
    requires junctions { given.now.junctions ≡ length project.now.junctions.list }
    requires tanks { given.now.tanks ≡ tank_count project.now }
    requires has_grid { HasItsGrid project.now (standing_for standing.now) (grid_of net.now) (row_of given.now) }
    ensures certificates { OnOk result (AreCertificates project.now (grid_of net.now) (row_of given.now)) }
    ensures shares { OnOk result (SharesVectors (row_of given.now) (row_of row.new)) }
    ensures refused { IfErr result (IsRefused project.now (standing_for standing.now) (row_of given.now)) }
    ensures stays { Stays row.old row.new }
{
    let _project = project;
    if let Err(failing) = check_vectors(net, given) {
        return Err(CertRefused::Fails {
            period: standing.number,
            problem: failing.problem,
            side: failing.side,
            junction: failing.junction,
        });
    }
    take_vectors(row, given);
    Ok(())
}

// Checks a record of a period that was started, and ends the period by its vectors.
fn end_by(
    project: &Project,
    standing: &Standing,
    net: &Net,
    row: &mut Record,
    facts: &mut Facts,
    close: &mut PeriodEnd,
    given: &Record,
) -> Result<(), CertRefused>
    requires sound { IsSound project.now }
    requires standing { IsStanding project.now standing.now }
    requires of { IsNetOf project.now net.now }
    requires header { header_of row.old ≡ header_for project.now }
    requires started { IsStarted project.now standing.now net.now row.old facts.old }
    requires close { HasCloseRoom project.now close.old }
    requires junctions { given.now.junctions ≡ length project.now.junctions.list }
    requires tanks { given.now.tanks ≡ tank_count project.now }
    requires in_place { IsInPlace (standing_for standing.now) (row_of given.now) }
    ensures made { OnOk result (IsMade project.now standing.now net.now row.new facts.new close.new) }
    ensures row { OnOk result (row_of row.new ≡ row_of given.now) }
    ensures refused { IfErr result (IsRefused project.now (standing_for standing.now) (row_of given.now)) }
    ensures header { header_of row.new ≡ header_of row.old }
    ensures facts { HasRoom project.now facts.new }
    ensures close { HasCloseRoom project.now close.new }
{
    certify(project, standing, net, row, given)?;
    let period = standing.number;
    if end_period(project, standing, net, row, facts, close).is_err() {
        return Err(CertRefused::Open { period });
    }
    if row.length != given.length {
        return Err(CertRefused::Length { period });
    }
    Ok(())
}

// Checks a record that is due: starts its period, and ends it by the record's vectors. The states of links at the start
// are made in the room of those at the end.
fn check_due(
    project: &Project,
    standing: &Standing,
    net: &mut Net,
    row: &mut Record,
    facts: &mut Facts,
    close: &mut PeriodEnd,
    given: &Record,
) -> Result<(), CertRefused>
    requires sound { IsSound project.now }
    requires standing { IsStanding project.now standing.now }
    requires of { IsNetOf project.now net.old }
    requires header { header_of row.old ≡ header_for project.now }
    requires facts { HasRoom project.now facts.old }
    requires close { HasCloseRoom project.now close.old }
    requires junctions { given.now.junctions ≡ length project.now.junctions.list }
    requires tanks { given.now.tanks ≡ tank_count project.now }
    requires in_place { IsInPlace (standing_for standing.now) (row_of given.now) }
    ensures made { OnOk result (IsMade project.now standing.now net.new row.new facts.new close.new) }
    ensures row { OnOk result (row_of row.new ≡ row_of given.now) }
    ensures refused { IfErr result (IsRefused project.now (standing_for standing.now) (row_of given.now)) }
    ensures of { IsNetOf project.now net.new }
    ensures header { header_of row.new ≡ header_of row.old }
    ensures facts { HasRoom project.now facts.new }
    ensures close { HasCloseRoom project.now close.new }
{
    if start_period(project, standing, net, row, facts, &mut close.commanded).is_err() {
        return Err(CertRefused::Demand {
            period: standing.number,
        });
    }
    end_by(project, standing, net, row, facts, close, given)
}

// Checks a record as that of the period that is due at a standing, and moves on behind it. Where it is refused, the
// standing stays.
fn take(
    project: &Project,
    standing: &mut Standing,
    net: &mut Net,
    row: &mut Record,
    facts: &mut Facts,
    close: &mut PeriodEnd,
    given: &Record,
) -> Result<(), CertRefused>
    requires sound { IsSound project.now }
    requires standing { IsStanding project.now standing.old }
    requires of { IsNetOf project.now net.old }
    requires header { header_of row.old ≡ header_for project.now }
    requires facts { HasRoom project.now facts.old }
    requires close { HasCloseRoom project.now close.old }
    requires junctions { given.now.junctions ≡ length project.now.junctions.list }
    requires tanks { given.now.tanks ≡ tank_count project.now }
    ensures taken { OnOk result (IsTaken project.now (standing_for standing.old) net.new row.new facts.new
        (standing_for standing.new)) }
    ensures row { OnOk result (row_of row.new ≡ row_of given.now) }
    ensures refused { IfErr result (IsRefused project.now (standing_for standing.old) (row_of given.now)) }
    ensures exactly { (cause : CertRefused)
        → IsRefused project.now (standing_for standing.old) (row_of given.now) cause → result ≡ Err cause }
    ensures stays { OnErr result (standing.new ≡ standing.old) }
    ensures standing { IsStanding project.now standing.new }
    ensures of { IsNetOf project.now net.new }
    ensures header { header_of row.new ≡ header_of row.old }
    ensures facts { HasRoom project.now facts.new }
    ensures close { HasCloseRoom project.now close.new }
{
    check_place(project, standing, given)?;
    check_due(project, standing, net, row, facts, close, given)?;
    standing.move_on(project, net, row, facts, close);
    Ok(())
}

impl Sim {
    /// Checks a record as that of the period that is due, in place of finding one, and moves on behind it. It takes no
    /// memory. Fails with the first of [`CertRefused`] that holds, in the order After, Place, Demand, Fails, Open,
    /// Length; the standing then stays, and net, record and facts are of no period. (This is for a run that hasn't
    /// stopped, and a record with the network's counts of junctions and tanks.)
    pub fn accept(&mut self, row: &Record) -> Result<(), CertRefused>
        requires running { self.old.stopped ≡ None }
        requires junctions { row.now.junctions ≡ length self.old.project.junctions.list }
        requires tanks { row.now.tanks ≡ tank_count self.old.project }
        ensures accepted { OnOk result (IsAccepted self.old self.new) }
        ensures row { OnOk result (row_of self.new.row ≡ row_of row.now) }
        ensures refused { IfErr result (IsRefused self.old.project (standing_of self.old) (row_of row.now)) }
        ensures exactly { (cause : CertRefused)
            → IsRefused self.old.project (standing_of self.old) (row_of row.now) cause → result ≡ Err cause }
        ensures standing { OnErr result (standing_of self.new ≡ standing_of self.old) }
        ensures running { self.new.stopped ≡ None }
        ensures project { self.new.project ≡ self.old.project }
        ensures settings { self.new.settings ≡ self.old.settings }
    {
        take(
            &self.project,
            &mut self.standing,
            &mut self.net,
            &mut self.row,
            &mut self.facts,
            &mut self.close,
            row,
        )
    }
}
