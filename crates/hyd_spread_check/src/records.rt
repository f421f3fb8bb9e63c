//! The records of a certificate of version 4, one after another.
#![tactic(auto)]

ghost use Rattle.std.specs.Prelude.{◌≡◌, None, OnOk, []};
ghost use Rattle.hyd_cert.specs.ReaderView.{ReaderView};
ghost use Rattle.hyd_open_certificates.specs.OpenRowView.{open_header_of, open_record_of};
ghost use Rattle.hyd_spec_open_checks.specs.OpenChecks.{open_header_for};
ghost use Rattle.hyd_spread_run.specs.PeriodsOfSpreadRuns.{standing_of};
ghost use Rattle.hyd_run.specs.Pens.{told};
ghost use Rattle.hyd_cert_check.specs.ReaderAndPen.{CheckMoment, moment, IsOpen, PutIn};
ghost use Rattle.hyd_cert_check.specs.RecordByRecord.{CanGoOn};
ghost use Rattle.hyd_spread_check_so_far.specs.SpreadCheckSoFar.{IsRead, TurnGives, TurnsGive};

use hyd_cert_check::CheckFault;
use hyd_io::{Desk, Pen};
use hyd_open_certificates::{OpenCertReader, OpenRow};
use hyd_spread_check_so_far::{SpreadConclusion, read_record};
use hyd_spread_run::{SpreadSim, put_period_lines};

// Tries a record as that of the period that is due, and puts its report. Answers why it is refused.
fn try_record<D: Desk>(
    sim: &mut SpreadSim,
    given: &OpenRow,
    pen: &mut Pen,
    desk: &mut D,
) -> Result<Option<SpreadConclusion>, CheckFault>
    requires running { sim.old.stopped ≡ None }
    requires header { open_header_of given.now ≡ open_header_for sim.old.project }
    requires unbroken { IsOpen pen.old }
    ensures tries { (before : CheckMoment) (reader : ReaderView)
        → IsRead (open_header_for sim.old.project) (open_record_of given.now) before
        (moment reader pen.old
        (told D.files D.rest D.written D.printed D.target D.ready D.counts D.openings desk.old))
        → PutIn [] before (moment reader pen.old
        (told D.files D.rest D.written D.printed D.target D.ready D.counts D.openings desk.old))
        → TurnGives result sim.old.project sim.old.nets.spread (standing_of sim.old) (standing_of sim.new) before
        (moment reader pen.new
        (told D.files D.rest D.written D.printed D.target D.ready D.counts D.openings desk.new)) }
    ensures running { sim.new.stopped ≡ None }
    ensures project { sim.new.project ≡ sim.old.project }
    ensures settings { sim.new.settings ≡ sim.old.settings }
    ensures spread { sim.new.nets.spread ≡ sim.old.nets.spread }
{
    match sim.accept(given) {
        Ok(()) => {}
        Err(cause) => return Ok(Some(SpreadConclusion::Refused(cause))),
    }
    // The run stands behind a period for its spread.
    let _project = sim.project();
    match put_period_lines(sim, pen, desk) {
        Ok(()) => Ok(None),
        Err(fault) => Err(CheckFault::Output(fault)),
    }
}

// Reads the next record, tries it as that of the period that is due, and puts its report. Answers what is found where
// there is none.
fn take_record<D: Desk>(
    sim: &mut SpreadSim,
    reader: &mut OpenCertReader,
    row: &mut OpenRow,
    pen: &mut Pen,
    desk: &mut D,
) -> Result<Option<SpreadConclusion>, CheckFault>
    requires running { sim.old.stopped ≡ None }
    requires header { open_header_of row.old ≡ open_header_for sim.old.project }
    requires going { CanGoOn (moment reader.old pen.old
        (told D.files D.rest D.written D.printed D.target D.ready D.counts D.openings desk.old)) }
    ensures gives { TurnGives result sim.old.project sim.old.nets.spread (standing_of sim.old) (standing_of sim.new)
        (moment reader.old pen.old
        (told D.files D.rest D.written D.printed D.target D.ready D.counts D.openings desk.old))
        (moment reader.new pen.new
        (told D.files D.rest D.written D.printed D.target D.ready D.counts D.openings desk.new)) }
    ensures running { sim.new.stopped ≡ None }
    ensures project { sim.new.project ≡ sim.old.project }
    ensures settings { sim.new.settings ≡ sim.old.settings }
    ensures spread { sim.new.nets.spread ≡ sim.old.nets.spread }
    ensures header { open_header_of row.new ≡ open_header_of row.old }
{
    // So many periods aren't done.
    let _project = sim.project();
    if let Some(conclusion) = read_record(sim.number(), sim.is_finished(), reader, row, desk)? {
        return Ok(Some(conclusion));
    }
    try_record(sim, row, pen, desk)
}

/// Takes the records of a certificate, as many as are accepted. Answers what is found where they end.
pub(crate) fn take_records<D: Desk>(
    sim: &mut SpreadSim,
    reader: &mut OpenCertReader,
    row: &mut OpenRow,
    pen: &mut Pen,
    desk: &mut D,
) -> Result<SpreadConclusion, CheckFault>
    requires running { sim.old.stopped ≡ None }
    requires header { open_header_of row.old ≡ open_header_for sim.old.project }
    requires going { CanGoOn (moment reader.old pen.old
        (told D.files D.rest D.written D.printed D.target D.ready D.counts D.openings desk.old)) }
    ensures give { TurnsGive result sim.old.project sim.old.nets.spread (standing_of sim.old) (standing_of sim.new)
        (moment reader.old pen.old
        (told D.files D.rest D.written D.printed D.target D.ready D.counts D.openings desk.old))
        (moment reader.new pen.new
        (told D.files D.rest D.written D.printed D.target D.ready D.counts D.openings desk.new)) }
    ensures unbroken { OnOk result (IsOpen pen.new) }
    ensures project { sim.new.project ≡ sim.old.project }
    ensures settings { sim.new.settings ≡ sim.old.settings }
    ensures spread { sim.new.nets.spread ≡ sim.old.nets.spread }
{
    // The network is sound, and the spread is one of it.
    let _project = sim.project();
    loop {
        if let Some(conclusion) = take_record(sim, reader, row, pen, desk)? {
            return Ok(conclusion);
        }
    }
}
