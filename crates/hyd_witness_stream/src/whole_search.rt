//! A whole search for a witness at one scale.

ghost use Rattle.std.specs.Prelude.{◌≡◌, ℕ, List, Some, IsTrue, IfOk, IfErr, OnOk};
ghost use Rattle.hyd_spec_certificates.specs.RecordAndStanding.{initial_standing};
ghost use Rattle.hyd_spec_witnesses.specs.MetPeriods.{at_start};
ghost use Rattle.hyd_spec_witness_answers.specs.PromisesOfWitnesses.{IsWrittenScale};
ghost use Rattle.hyd_cert.specs.ReaderView.{ReaderView, fresh};
ghost use Rattle.hyd_cert_check.specs.ReaderAndPen.{CheckMoment, moment};
ghost use Rattle.hyd_course.specs.Courses.{IsCourseOf};
ghost use Rattle.hyd_run.specs.Pens.{told};
ghost use Rattle.hyd_sim.specs.RunView.{standing_of};
ghost use Rattle.hyd_spec.specs.ProgramTypes.{Project};
ghost use Rattle.hyd_witness_stream.specs.Benches.{AreFor, IsAtStart, IsBench, IsEntryFor};
ghost use Rattle.hyd_witness_stream.specs.RefusedCertificates.{BeginsWitness};
ghost use Rattle.hyd_witness_stream.specs.SearchEnds.{EndsSo, halt_line};
ghost use Rattle.hyd_witness_stream.specs.SearchSoFar.{IsHalted, SearchPuts};
ghost use Rattle.hyd_witness_stream.specs.WitnessPen.{IsWriting, IsWritten, LeavesOthers, Rose};

use crate::bench::{Bench, Entry, MomentSearch};
use crate::ending::{SearchEnd, SearchFault};
use crate::records::take_records;
use hyd_cert::CertReader;
use hyd_io::{Channel, Desk, Pen};
use hyd_run::empty;
use hyd_sim::Sim;
use hyd_witness_texts::{put_witness_end, put_witness_header};
use hyd_witness_trials::counts_of;

// Puts the END line behind the periods of a witness, and puts out all that the pen holds.
fn put_end<D: Desk>(end: SearchEnd, pen: &mut Pen, desk: &mut D) -> Result<SearchEnd, SearchFault>
    requires writing { IsWriting pen.old }
    requires ready { IsTrue (D.ready desk.old) }
    ensures { (S : ℕ) (project : Project) (start : CheckMoment) (reader : ReaderView)
        → IsHalted end project S start (moment reader pen.old
        (told D.files D.rest D.written D.printed D.target D.ready D.counts D.openings desk.old))
        → SearchPuts result project S start (moment reader pen.new
        (told D.files D.rest D.written D.printed D.target D.ready D.counts D.openings desk.new)) }
{
    match put_witness_end(end.periods, pen, desk) {
        Ok(()) => {}
        Err(fault) => return Err(SearchFault::Output(fault)),
    }
    match empty(pen, desk) {
        Ok(()) => Ok(end),
        Err(fault) => Err(SearchFault::Output(fault)),
    }
}

// Puts a witness in at the pen, from its header line to its END line.
fn put_search<D: Desk>(
    sim: &mut Sim,
    entry: &mut Entry,
    moments: &mut MomentSearch,
    reader: &mut CertReader,
    pen: &mut Pen,
    desk: &mut D,
) -> Result<SearchEnd, SearchFault>
    requires standing { standing_of sim.old ≡ initial_standing sim.old.project }
    requires running { sim.old.stopped ≡ None }
    requires entry { IsEntryFor sim.old.project entry.old }
    requires moments { AreFor sim.old.project moments.old }
    requires reader { reader.old ≡ fresh }
    requires writing { IsWriting pen.old }
    requires ready { IsTrue (D.ready desk.old) }
    ensures puts { (S : ℕ) → IsCourseOf sim.old.project S at_start moments.old.course
        → SearchPuts result sim.old.project S
        (moment reader.old pen.old
        (told D.files D.rest D.written D.printed D.target D.ready D.counts D.openings desk.old))
        (moment reader.new pen.new
        (told D.files D.rest D.written D.printed D.target D.ready D.counts D.openings desk.new)) }
    ensures project { sim.new.project ≡ sim.old.project }
    ensures entry { IsEntryFor sim.old.project entry.new }
    ensures moments { AreFor sim.old.project moments.new }
{
    // The network is sound.
    let project = sim.project();
    let counts = counts_of(project);
    let parts = moments.course.standing.scale.parts();
    match put_witness_header(parts, &counts, pen, desk) {
        Ok(()) => {}
        Err(fault) => return Err(SearchFault::Output(fault)),
    }
    match take_records(sim, reader, entry, moments, pen, desk) {
        Ok(end) => put_end(end, pen, desk),
        Err(fault) => Err(fault),
    }
}

/// Searches a witness for the certificate in the file that is being read: its records are accepted one after another as
/// a check does, and a moment is found for each. The witness is written to the file created last, whole, whatever the
/// end is. Takes no memory.
///
/// - `Read`: a read failed, and the read faults rose by one.
/// - `Output`: a call that writes failed or took nothing, and its faults or the stalls rose by one.
///
/// After either fault nothing more is called, and what was written is a front of a witness.
pub fn search_witness<D: Desk>(bench: &mut Bench, desk: &mut D) -> Result<SearchEnd, SearchFault>
    requires bench { (S : ℕ) × IsAtStart S bench.old }
    requires ready { IsTrue (D.ready desk.old) }
    ensures ends { (S : ℕ) → IsAtStart S bench.old → IsWrittenScale S → (text : List ℕ) → D.rest desk.old ≡ Some text
        → IfOk result (λ end. IsWritten (λ written. EndsSo end.halt bench.old.sim.project S text written
        (halt_line bench.old.sim.project end.periods end.halt)) (D.written desk.old) (D.written desk.new)) }
    ensures witness { (S : ℕ) → IsAtStart S bench.old → IsWrittenScale S
        → IsWritten (BeginsWitness bench.old.sim.project S) (D.written desk.old) (D.written desk.new) }
    ensures cause { IfErr result (λ fault. Rose fault (D.counts desk.old) (D.counts desk.new)) }
    ensures steady { OnOk result (D.counts desk.new ≡ D.counts desk.old) }
    ensures leaves { LeavesOthers
        (told D.files D.rest D.written D.printed D.target D.ready D.counts D.openings desk.old)
        (told D.files D.rest D.written D.printed D.target D.ready D.counts D.openings desk.new) }
    ensures project { bench.new.sim.project ≡ bench.old.sim.project }
    ensures bench { IsBench bench.new }
{
    let mut reader = CertReader::new();
    let mut pen = Pen::new(Channel::Cert);
    put_search(
        &mut bench.sim,
        &mut bench.entry,
        &mut bench.moments,
        &mut reader,
        &mut pen,
        desk,
    )
}
