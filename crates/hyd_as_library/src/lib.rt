//! Callers of the crates of `hyd`, without its command: with a run at its start they do a period and print its heads,
//! or run the network whole at a desk in memory, or check the certificate that a run left there.
#![tactic(auto)]

ghost use Rattle.std.specs.Prelude.{◌≡◌, ◌≢◌, ◌⊎◌, ℕ, List, Some, None, IsTrue, IsFalse, IfOk, IfErr, OnOk, IsErrOf};
ghost use Rattle.hyd_net.specs.Sound.{IsSound};
ghost use Rattle.hyd_io.specs.DeskCounts.{with_opened, with_created};
ghost use Rattle.hyd_io.specs.DeskInMemoryView.{memory};
ghost use Rattle.hyd_spec_certificates.specs.RecordAndStanding.{initial_standing};
ghost use Rattle.hyd_cert.specs.RecordView.{header_of};
ghost use Rattle.hyd_sim.specs.Steps.{IsPeriod};
ghost use Rattle.hyd_sim.specs.RunView.{header_for, standing_of};
ghost use Rattle.hyd_run.specs.Pens.{told, LeavesRest, OneRose};
ghost use Rattle.hyd_run.specs.Runs.{IsPutOut, IsBrokenOff, outcome_of};
ghost use Rattle.hyd_cert_check.specs.Checks.{CheckEnds, CheckBreaksOff};
ghost use Rattle.hyd_cert_check.specs.ReaderAndPen.{Rose};
ghost use Rattle.hyd_cert_check.specs.RecordByRecord.{IsPrinted};
ghost use Rattle.hyd_as_library.specs.Periods.{HasNoPeriod, PeriodFails};
ghost use Rattle.hyd_as_library.specs.AtDesk.{IsRunAt, RunFails, RunHasCause, ChangesOnly};
ghost use Rattle.hyd_as_library.specs.AtDesk.{IsCheckAt, CheckFails, CheckHasCause, LeavesFiles};

use hyd_cert::{CertReader, FlowPart, Record, version_of};
use hyd_cert_check::{CheckEnd, CheckFault, check};
use hyd_finders::Gradient;
use hyd_io::{Channel, Desk, MemDesk, OutFault, Pen};
use hyd_net::{OutOfMemory, Project};
use hyd_run::{RunEnd, run};
use hyd_sim::{Sim, Step};
use hyd_spec_certificates::{Problem, Side};
use std::alloc::Global;
use std::io;

/// The name of the certificate at the desk.
pub const CERTIFICATE: &str = "one-valve.cert";

/// Why nothing more is done.
#[derive(Clone, Copy)]
pub enum Ended {
    /// There was no memory.
    OutOfMemory,
    /// No period was done.
    NoPeriod,
    /// A call on the desk failed.
    Desk,
    /// A print failed.
    Print,
}

/// Prints the head interval of each junction, in ticks of 10^-13 m.
fn print_heads(rt: &impl Print, row: &Record) -> io::Result<()> {
    let lower = row.vector(Problem::Main, Side::Lower);
    let upper = row.vector(Problem::Main, Side::Upper);
    for (junction, (low, high)) in lower.iter().zip(upper).enumerate() {
        println!(rt; "junction {junction} head {low} {high}")?;
    }
    Ok(())
}

/// Does the period that is due, and tells whether one was. Its record is valid then where the run stood, and as sharp
/// as the settings ask.
fn does_period(sim: &mut Sim, finder: &mut Gradient) -> bool
    ensures period { IsTrue result → IsPeriod sim.old sim.new }
    ensures no_period { IsFalse result → HasNoPeriod sim.old sim.new }
    ensures project { sim.new.project ≡ sim.old.project }
    ensures settings { sim.new.settings ≡ sim.old.settings }
{
    matches!(sim.step(finder), Step::Period)
}

/// Does the period that is due, and prints its heads.
fn print_period(rt: &impl Print, sim: &mut Sim, finder: &mut Gradient) -> Result<(), Ended>
    ensures period { OnOk result (IsPeriod sim.old sim.new) }
    ensures fails { IfErr result (λ why. PeriodFails why sim.old sim.new) }
    ensures project { sim.new.project ≡ sim.old.project }
    ensures settings { sim.new.settings ≡ sim.old.settings }
{
    if !does_period(sim, finder) {
        return Err(Ended::NoPeriod);
    }
    match print_heads(rt, sim.row()) {
        Ok(()) => Ok(()),
        Err(_) => Err(Ended::Print),
    }
}

/// Does and prints the period that is due, with proposals of the gradient method. Its record is valid where the run
/// stood, and as sharp as the settings ask.
///
/// - `OutOfMemory`: the run is as it was.
/// - `NoPeriod`: the run is over, or it can't go on from where it stood.
/// - `Print`: the period was done, and a print failed (the printer tells nothing, so no clause says that one did).
pub fn print_due_period(alloc: Global, rt: &impl Print, sim: &mut Sim) -> Result<(), Ended>
    ensures period { OnOk result (IsPeriod sim.old sim.new) }
    ensures fails { IfErr result (λ why. PeriodFails why sim.old sim.new) }
    ensures project { sim.new.project ≡ sim.old.project }
    ensures settings { sim.new.settings ≡ sim.old.settings }
{
    match Gradient::open(alloc, sim.net()) {
        Ok(mut finder) => print_period(rt, sim, &mut finder),
        Err(_) => Err(Ended::OutOfMemory),
    }
}

/// Puts a run out: its certificate into the file that was created, and its report. Every history that obeys the network
/// lies inside, as `whole` says. What a fault leaves are fronts of both.
fn put_run<D: Desk>(sim: &mut Sim, finder: &mut Gradient, desk: &mut D) -> Result<RunEnd, OutFault>
    requires start { standing_of sim.old ≡ initial_standing sim.old.project }
    requires ready { IsTrue (D.ready desk.old) }
    ensures whole { IfOk result (λ end. IsPutOut sim.old.project sim.old.settings (outcome_of end)
        (told D.files D.rest D.written D.printed D.target D.ready D.counts D.openings desk.old)
        (told D.files D.rest D.written D.printed D.target D.ready D.counts D.openings desk.new)) }
    ensures broken_off { IfErr result (λ fault. IsBrokenOff sim.old.project sim.old.settings
        (told D.files D.rest D.written D.printed D.target D.ready D.counts D.openings desk.old)
        (told D.files D.rest D.written D.printed D.target D.ready D.counts D.openings desk.new)) }
    ensures cause { IfErr result (λ fault. OneRose fault (D.counts desk.old) (D.counts desk.new)) }
    ensures steady { OnOk result (D.counts desk.new ≡ D.counts desk.old) }
    ensures leaves { LeavesRest
        (told D.files D.rest D.written D.printed D.target D.ready D.counts D.openings desk.old)
        (told D.files D.rest D.written D.printed D.target D.ready D.counts D.openings desk.new) }
    ensures project { sim.new.project ≡ sim.old.project }
    ensures settings { sim.new.settings ≡ sim.old.settings }
{
    let mut certificate = Pen::new(Channel::Cert);
    let mut report = Pen::new(Channel::Report);
    run(sim, finder, &mut certificate, &mut report, desk)
}

/// Runs the network at a desk, with a finder.
fn run_with(sim: &mut Sim, finder: &mut Gradient, desk: &mut MemDesk) -> Result<RunEnd, Ended>
    requires start { standing_of sim.old ≡ initial_standing sim.old.project }
    ensures whole { IfOk result (λ end. IsRunAt sim.old.project sim.old.settings CERTIFICATE.now end
        (memory desk.old) (memory desk.new)) }
    ensures fails { IfErr result (λ why. RunFails sim.old.project sim.old.settings CERTIFICATE.now why
        (memory desk.old) (memory desk.new)) }
    ensures cause { IfErr result (λ why. RunHasCause why (memory desk.old).counts (memory desk.new).counts) }
    ensures steady { OnOk result ((memory desk.new).counts ≡ (memory desk.old).counts) }
    ensures others { ChangesOnly CERTIFICATE.now (memory desk.old) (memory desk.new) }
    ensures creates_once { (memory desk.new).openings ≡ with_created (memory desk.old).openings }
    ensures takes_no_memory { result ≢ Err Ended.OutOfMemory }
    ensures project { sim.new.project ≡ sim.old.project }
    ensures settings { sim.new.settings ≡ sim.old.settings }
{
    if desk.create(CERTIFICATE).is_err() {
        return Err(Ended::Desk);
    }
    match put_run(sim, finder, desk) {
        Ok(end) => Ok(end),
        Err(_) => Err(Ended::Desk),
    }
}

/// Runs the network at a desk: its certificate goes to the file `CERTIFICATE`, and its report is printed behind what
/// was printed before. Every history that obeys the network lies inside.
///
/// - `OutOfMemory`: the run and the desk are as they were.
/// - `Desk`: the file couldn't be created, or a call broke the run off, and both are beginnings of such texts.
pub fn run_at(alloc: Global, sim: &mut Sim, desk: &mut MemDesk) -> Result<RunEnd, Ended>
    requires start { standing_of sim.old ≡ initial_standing sim.old.project }
    ensures whole { IfOk result (λ end. IsRunAt sim.old.project sim.old.settings CERTIFICATE.now end
        (memory desk.old) (memory desk.new)) }
    ensures fails { IfErr result (λ why. RunFails sim.old.project sim.old.settings CERTIFICATE.now why
        (memory desk.old) (memory desk.new)) }
    ensures cause { IfErr result (λ why. RunHasCause why (memory desk.old).counts (memory desk.new).counts) }
    ensures steady { OnOk result ((memory desk.new).counts ≡ (memory desk.old).counts) }
    ensures others { ChangesOnly CERTIFICATE.now (memory desk.old) (memory desk.new) }
    ensures creates_once { IsErrOf result Ended.OutOfMemory
        ⊎ ((memory desk.new).openings ≡ with_created (memory desk.old).openings) }
    ensures untouched { IsErrOf result Ended.OutOfMemory → sim.new ≡ sim.old }
    ensures project { sim.new.project ≡ sim.old.project }
    ensures settings { sim.new.settings ≡ sim.old.settings }
{
    match Gradient::open(alloc, sim.net()) {
        Ok(mut finder) => run_with(sim, &mut finder, desk),
        Err(_) => Err(Ended::OutOfMemory),
    }
}

/// A record for the certificates of a network.
fn record_for(alloc: Global, project: &Project) -> Result<Record, OutOfMemory>
    requires { IsSound project.now }
    ensures { IfOk result (λ row. header_of row ≡ header_for project.now) }
{
    let junctions = project.junctions.len() as u32;
    let tanks = project.tanks.len() as u32;
    Record::open(alloc, version_of(project), junctions, tanks)
}

/// Checks the certificate in the file that was opened. One that is accepted is that of a run of the network, whoever
/// wrote it, and every history that obeys the network lies inside. A fault leaves a front of the report printed.
fn check_opened<D: Desk>(
    sim: &mut Sim,
    row: &mut Record,
    part: &mut FlowPart,
    desk: &mut D,
) -> Result<CheckEnd, CheckFault>
    requires start { standing_of sim.old ≡ initial_standing sim.old.project }
    requires running { sim.old.stopped ≡ None }
    requires header { header_of row.old ≡ header_for sim.old.project }
    requires part { part.old.junctions ≡ row.old.junctions }
    ensures whole { (text : List ℕ) → D.rest desk.old ≡ Some text → IfOk result (λ end.
        IsPrinted (λ printed. CheckEnds sim.old.project text printed end)
        (D.printed desk.old) (D.printed desk.new)) }
    ensures broken_off { (text : List ℕ) → D.rest desk.old ≡ Some text → IfErr result (λ fault.
        IsPrinted (CheckBreaksOff sim.old.project text) (D.printed desk.old) (D.printed desk.new)) }
    ensures cause { IfErr result (λ fault. Rose fault (D.counts desk.old) (D.counts desk.new)) }
    ensures steady { OnOk result (D.counts desk.new ≡ D.counts desk.old) }
    ensures files_stay { D.files desk.new ≡ D.files desk.old }
    ensures target_stays { D.target desk.new ≡ D.target desk.old }
    ensures ready_stays { D.ready desk.new ≡ D.ready desk.old }
    ensures openings_stay { D.openings desk.new ≡ D.openings desk.old }
    ensures project { sim.new.project ≡ sim.old.project }
    ensures settings { sim.new.settings ≡ sim.old.settings }
{
    let mut reader = CertReader::new();
    let mut report = Pen::new(Channel::Report);
    check(sim, &mut reader, row, part, &mut report, desk)
}

/// Checks the certificate at a desk, with a record and a part.
fn check_with(
    sim: &mut Sim,
    row: &mut Record,
    part: &mut FlowPart,
    desk: &mut MemDesk,
) -> Result<CheckEnd, Ended>
    requires start { standing_of sim.old ≡ initial_standing sim.old.project }
    requires running { sim.old.stopped ≡ None }
    requires header { header_of row.old ≡ header_for sim.old.project }
    requires part { part.old.junctions ≡ row.old.junctions }
    ensures whole { IfOk result (λ end. IsCheckAt sim.old.project CERTIFICATE.now end
        (memory desk.old) (memory desk.new)) }
    ensures fails { IfErr result (λ why. CheckFails sim.old.project CERTIFICATE.now why
        (memory desk.old) (memory desk.new)) }
    ensures cause { IfErr result (λ why. CheckHasCause why (memory desk.old).counts (memory desk.new).counts) }
    ensures steady { OnOk result ((memory desk.new).counts ≡ (memory desk.old).counts) }
    ensures files { LeavesFiles (memory desk.old) (memory desk.new) }
    ensures opens_once { (memory desk.new).openings ≡ with_opened (memory desk.old).openings }
    ensures takes_no_memory { result ≢ Err Ended.OutOfMemory }
    ensures project { sim.new.project ≡ sim.old.project }
    ensures settings { sim.new.settings ≡ sim.old.settings }
{
    if desk.open(CERTIFICATE).is_err() {
        return Err(Ended::Desk);
    }
    match check_opened(sim, row, part, desk) {
        Ok(end) => Ok(end),
        Err(_) => Err(Ended::Desk),
    }
}

/// Opens room for the parts of a certificate with flows, and checks the certificate at a desk, with a record.
fn check_with_room(
    alloc: Global,
    sim: &mut Sim,
    row: &mut Record,
    desk: &mut MemDesk,
) -> Result<CheckEnd, Ended>
    requires start { standing_of sim.old ≡ initial_standing sim.old.project }
    requires running { sim.old.stopped ≡ None }
    requires header { header_of row.old ≡ header_for sim.old.project }
    ensures whole { IfOk result (λ end. IsCheckAt sim.old.project CERTIFICATE.now end
        (memory desk.old) (memory desk.new)) }
    ensures fails { IfErr result (λ why. CheckFails sim.old.project CERTIFICATE.now why
        (memory desk.old) (memory desk.new)) }
    ensures cause { IfErr result (λ why. CheckHasCause why (memory desk.old).counts (memory desk.new).counts) }
    ensures steady { OnOk result ((memory desk.new).counts ≡ (memory desk.old).counts) }
    ensures files { LeavesFiles (memory desk.old) (memory desk.new) }
    ensures opens_once { IsErrOf result Ended.OutOfMemory
        ⊎ ((memory desk.new).openings ≡ with_opened (memory desk.old).openings) }
    ensures untouched { IsErrOf result Ended.OutOfMemory → sim.new ≡ sim.old }
    ensures project { sim.new.project ≡ sim.old.project }
    ensures settings { sim.new.settings ≡ sim.old.settings }
{
    match FlowPart::open(alloc, row.junctions) {
        Ok(mut part) => check_with(sim, row, &mut part, desk),
        Err(_) => Err(Ended::OutOfMemory),
    }
}

/// Checks the certificate in the file `CERTIFICATE` at a desk, and prints the report behind what was printed before.
/// One that is accepted is that of a run of the network, whoever wrote it, and every history that obeys the network
/// lies inside. One that is refused is wrong in a line, a record, a part with flows or the END line, and the last line
/// printed says which.
///
/// - `OutOfMemory`: the run and the desk are as they were.
/// - `Desk`: the file couldn't be opened, or a call broke the check off, and a beginning of such a report was printed.
pub fn check_at(alloc: Global, sim: &mut Sim, desk: &mut MemDesk) -> Result<CheckEnd, Ended>
    requires start { standing_of sim.old ≡ initial_standing sim.old.project }
    requires running { sim.old.stopped ≡ None }
    ensures whole { IfOk result (λ end. IsCheckAt sim.old.project CERTIFICATE.now end
        (memory desk.old) (memory desk.new)) }
    ensures fails { IfErr result (λ why. CheckFails sim.old.project CERTIFICATE.now why
        (memory desk.old) (memory desk.new)) }
    ensures cause { IfErr result (λ why. CheckHasCause why (memory desk.old).counts (memory desk.new).counts) }
    ensures steady { OnOk result ((memory desk.new).counts ≡ (memory desk.old).counts) }
    ensures files { LeavesFiles (memory desk.old) (memory desk.new) }
    ensures opens_once { IsErrOf result Ended.OutOfMemory
        ⊎ ((memory desk.new).openings ≡ with_opened (memory desk.old).openings) }
    ensures untouched { IsErrOf result Ended.OutOfMemory → sim.new ≡ sim.old }
    ensures project { sim.new.project ≡ sim.old.project }
    ensures settings { sim.new.settings ≡ sim.old.settings }
{
    match record_for(alloc, sim.project()) {
        Ok(mut row) => check_with_room(alloc, sim, &mut row, desk),
        Err(_) => Err(Ended::OutOfMemory),
    }
}
