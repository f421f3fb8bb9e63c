//! The records of a certificate, one after another, each with the moment that is found for it.

ghost use Rattle.std.specs.Prelude.{◌≡◌, ℕ, [], None, IsTrue, IfOk, IfErr, IfNone, OnOk, List, All, length};
ghost use Rattle.hyd_spec_certificates.specs.Valid.{DemandsAreInRange};
ghost use Rattle.hyd_spec_flows.specs.FlowParts.{IsFlowPart, IsRefusedPart};
ghost use Rattle.hyd_spec_flows.specs.FlowTexts.{IsNamed};
ghost use Rattle.hyd_spec_witnesses.specs.MetPeriods.{Moment as Row};
ghost use Rattle.hyd_cert.specs.FlowPartView.{part_of};
ghost use Rattle.hyd_cert.specs.ReaderView.{ReaderView, IsGoing};
ghost use Rattle.hyd_cert.specs.RecordView.{row_of};
ghost use Rattle.hyd_period_network.specs.NetAsPeriodNetwork.{grid_of};
ghost use Rattle.hyd_run.specs.Pens.{told};
ghost use Rattle.hyd_sim.specs.RunView.{header_for, standing_of};
ghost use Rattle.hyd_cert_check.specs.ReaderAndPen.{CheckMoment, moment};
ghost use Rattle.hyd_cert_check.specs.RecordByRecord.{IsEnd, IsOfPeriod, IsRead};
ghost use Rattle.hyd_witness_stream.specs.Benches.{IsEntryFor, AreFor};
ghost use Rattle.hyd_witness_stream.specs.SearchSoFar.{checking, checks_at, IsFoundSoFar, IsHalt, JudgesSo, FindsSo};
ghost use Rattle.hyd_witness_stream.specs.SearchSoFar.{TryGives, IsOneMore, TurnGives, TurnsGive};
ghost use Rattle.hyd_witness_stream.specs.WitnessPen.{IsWriting, WrittenIn};

use crate::bench::{Entry, MomentSearch};
use crate::ending::{Halt, SearchEnd, SearchFault};
use crate::signs_of_life::Signs;
use hyd_cert::{CertFault, CertNext, CertReader, FlowPart};
use hyd_flow::check_flows;
use hyd_found_moments::find_moment;
use hyd_io::{Desk, OutFault, Pen};
use hyd_sim::Sim;
use hyd_spec_flows::FlowFails;
use hyd_witness_texts::put_moment;

// What an END line, the line of this number, says of the records before it.
fn judge_end(sim: &Sim, line: u64, periods: u32, finished: bool) -> Halt
    ensures { (before now : CheckMoment) → IsEnd sim.now.project periods finished before now → line ≡ now.reader.line
        → (moments : List Row) (S : ℕ) → IsHalt result sim.now.project S (standing_of sim.now) moments before now }
{
    // A run has fewer than 2^32 periods.
    let _project = sim.project();
    if periods != sim.number() {
        return Halt::OtherEnd(line);
    }
    if finished != sim.is_finished() {
        return Halt::OtherEnd(line);
    }
    Halt::Accepted
}

// Checks the part behind the record of the last period of a run.
fn check_part(sim: &Sim, part: &FlowPart) -> Result<(), FlowFails>
    requires period { IsOfPeriod sim.now }
    requires named { All (IsNamed (length sim.now.project.junctions.list)) (part_of part.now) }
    ensures good { OnOk result (IsFlowPart (grid_of sim.now.net) (row_of sim.now.row) (part_of part.now)) }
    ensures refused { IfErr result (IsRefusedPart (grid_of sim.now.net) (row_of sim.now.row) (part_of part.now)) }
{
    // The net is of its network.
    let _project = sim.project();
    let net = sim.net();
    // Certificates are ordered where the net is steady.
    let _junctions = net.junctions();
    check_flows(net, sim.row(), part)
}

// Tries a record as that of the period that is due, and then the part behind it. Answers why one of them is refused.
fn judge_entry(sim: &mut Sim, entry: &Entry) -> Option<Halt>
    requires running { sim.old.stopped ≡ None }
    requires entry { IsEntryFor sim.old.project entry.now }
    requires named { All (IsNamed entry.now.row.junctions) (part_of entry.now.part) }
    ensures judges { JudgesSo result sim.old sim.new (row_of entry.now.row) (part_of entry.now.part) }
    ensures running { sim.new.stopped ≡ None }
    ensures project { sim.new.project ≡ sim.old.project }
    ensures settings { sim.new.settings ≡ sim.old.settings }
{
    match sim.accept(&entry.row) {
        Ok(()) => {}
        Err(cause) => return Some(Halt::Refused(cause)),
    }
    // The run stands behind a period of its network.
    let _project = sim.project();
    match check_part(sim, &entry.part) {
        Ok(()) => None,
        Err(cause) => Some(Halt::RefusedPart(sim.row().number, cause)),
    }
}

// Finds a moment for the record of the last period of a run.
fn find_next(sim: &Sim, moments: &mut MomentSearch) -> bool
    requires demands { DemandsAreInRange sim.now.project sim.now.row.time }
    requires moments { AreFor sim.now.project moments.old }
    ensures finds { FindsSo result sim.now.project (row_of sim.now.row) moments.old.course moments.new }
    ensures moments { AreFor sim.now.project moments.new }
{
    let project = sim.project();
    let row = sim.row();
    find_moment(
        &mut moments.course,
        project,
        row,
        &mut moments.search,
        &mut moments.moment,
    )
}

// Tries a record as that of the period that is due, then the part behind it, finds a moment for it and puts it out.
// Answers why there is none.
fn try_record<D: Desk>(
    sim: &mut Sim,
    entry: &Entry,
    moments: &mut MomentSearch,
    pen: &mut Pen,
    desk: &mut D,
) -> Result<Option<Halt>, OutFault>
    requires running { sim.old.stopped ≡ None }
    requires entry { IsEntryFor sim.old.project entry.now }
    requires named { All (IsNamed entry.now.row.junctions) (part_of entry.now.part) }
    requires moments { AreFor sim.old.project moments.old }
    requires writing { IsWriting pen.old }
    requires ready { IsTrue (D.ready desk.old) }
    ensures tries { (S : ℕ) (start before : CheckMoment) (reader : ReaderView)
        → (so : IsFoundSoFar sim.old.project S (standing_of sim.old) moments.old.course start before)
        → IsRead (header_for sim.old.project) (record { row = row_of entry.now.row; part = part_of entry.now.part })
        (checks_at before so.held) (checking reader (D.rest desk.old) so.held)
        → WrittenIn [] before (moment reader pen.old
        (told D.files D.rest D.written D.printed D.target D.ready D.counts D.openings desk.old))
        → TryGives result sim.old.project S (standing_of sim.old) (standing_of sim.new) moments.new.course start
        (moment reader pen.new
        (told D.files D.rest D.written D.printed D.target D.ready D.counts D.openings desk.new)) }
    ensures one_more { IfOk result (λ answer. IfNone answer (IsOneMore sim.old sim.new)) }
    ensures writing { OnOk result (IsWriting pen.new) }
    ensures ready { D.ready desk.new ≡ D.ready desk.old }
    ensures running { sim.new.stopped ≡ None }
    ensures project { sim.new.project ≡ sim.old.project }
    ensures settings { sim.new.settings ≡ sim.old.settings }
    ensures moments { AreFor sim.old.project moments.new }
{
    if let Some(halt) = judge_entry(sim, entry) {
        // The run is still one of its network.
        let _refused = sim.project();
        return Ok(Some(halt));
    }
    // The run stands behind a period of its network, and has fewer than 2^32.
    let _project = sim.project();
    if !find_next(sim, moments) {
        return Ok(Some(Halt::NoMoment));
    }
    match put_moment(&moments.moment, pen, desk) {
        Ok(()) => Ok(None),
        Err(fault) => Err(fault),
    }
}

// Reads the next record and the part behind it, tries them as those of the period that is due, and finds a moment for
// the record. Answers why the witness has no further periods.
fn take_record<D: Desk>(
    sim: &mut Sim,
    reader: &mut CertReader,
    entry: &mut Entry,
    moments: &mut MomentSearch,
    pen: &mut Pen,
    desk: &mut D,
) -> Result<Option<SearchEnd>, SearchFault>
    requires running { sim.old.stopped ≡ None }
    requires entry { IsEntryFor sim.old.project entry.old }
    requires moments { AreFor sim.old.project moments.old }
    requires going { IsGoing reader.old.stand }
    requires writing { IsWriting pen.old }
    requires ready { IsTrue (D.ready desk.old) }
    ensures gives { TurnGives result sim.old.project (standing_of sim.old) (standing_of sim.new) moments.old.course
        moments.new.course
        (moment reader.old pen.old
        (told D.files D.rest D.written D.printed D.target D.ready D.counts D.openings desk.old))
        (moment reader.new pen.new
        (told D.files D.rest D.written D.printed D.target D.ready D.counts D.openings desk.new)) }
    ensures one_more { IfOk result (λ answer. IfNone answer (IsOneMore sim.old sim.new)) }
    ensures going { IfOk result (λ answer. IfNone answer (IsGoing reader.new.stand)) }
    ensures writing { OnOk result (IsWriting pen.new) }
    ensures ready { D.ready desk.new ≡ D.ready desk.old }
    ensures running { sim.new.stopped ≡ None }
    ensures project { sim.new.project ≡ sim.old.project }
    ensures settings { sim.new.settings ≡ sim.old.settings }
    ensures entry { IsEntryFor sim.old.project entry.new }
    ensures moments { AreFor sim.old.project moments.new }
{
    // A run has fewer than 2^32 periods.
    let _project = sim.project();
    let periods = sim.number();
    match reader.next_with(desk, &mut entry.row, &mut entry.part) {
        Ok(CertNext::Record) => {}
        Ok(
            CertNext::End {
                periods: said,
                finished,
            },
        ) => {
            let halt = judge_end(sim, reader.line(), said, finished);
            return Ok(Some(SearchEnd { periods, halt }));
        }
        Err(CertFault::Read) => return Err(SearchFault::Read),
        Err(CertFault::Grammar { line }) => {
            let halt = Halt::Grammar(line);
            return Ok(Some(SearchEnd { periods, halt }));
        }
        Err(CertFault::Count { line }) => {
            let halt = Halt::Counts(line);
            return Ok(Some(SearchEnd { periods, halt }));
        }
    }
    match try_record(sim, entry, moments, pen, desk) {
        Ok(None) => Ok(None),
        Ok(Some(halt)) => Ok(Some(SearchEnd { periods, halt })),
        Err(fault) => Err(SearchFault::Output(fault)),
    }
}

/// Takes the records of a certificate, as many as are accepted and have a moment. Answers why the witness has no
/// further periods.
pub(crate) fn take_records<D: Desk>(
    sim: &mut Sim,
    reader: &mut CertReader,
    entry: &mut Entry,
    moments: &mut MomentSearch,
    pen: &mut Pen,
    desk: &mut D,
) -> Result<SearchEnd, SearchFault>
    requires running { sim.old.stopped ≡ None }
    requires entry { IsEntryFor sim.old.project entry.old }
    requires moments { AreFor sim.old.project moments.old }
    requires going { IsGoing reader.old.stand }
    requires writing { IsWriting pen.old }
    requires ready { IsTrue (D.ready desk.old) }
    ensures give { TurnsGive result sim.old.project (standing_of sim.old) moments.old.course
        (moment reader.old pen.old
        (told D.files D.rest D.written D.printed D.target D.ready D.counts D.openings desk.old))
        (moment reader.new pen.new
        (told D.files D.rest D.written D.printed D.target D.ready D.counts D.openings desk.new)) }
    ensures writing { OnOk result (IsWriting pen.new) }
    ensures ready { D.ready desk.new ≡ D.ready desk.old }
    ensures project { sim.new.project ≡ sim.old.project }
    ensures entry { IsEntryFor sim.old.project entry.new }
    ensures moments { AreFor sim.old.project moments.new }
{
    let mut signs = Signs::new(desk);
    loop {
        if let Some(end) = take_record(sim, reader, entry, moments, pen, desk)? {
            return Ok(end);
        }
        signs.show(sim, desk);
    }
}
