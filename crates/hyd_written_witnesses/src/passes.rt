//! Passes over a certificate: each reads it from its first line, and writes a witness from its header line.

ghost use Rattle.std.specs.Prelude.{◌≡◌, ◌≢◌, IsTrue};
ghost use Rattle.std.specs.Bool.{OnTrue, OnFalse};
ghost use Rattle.hyd_laws_at_scale.specs.Scales.{parts_of};
ghost use Rattle.hyd_spec_witness_answers.specs.PromisesOfWitnesses.{IsWrittenScale};
ghost use Rattle.hyd_command_answers.specs.DeskContents.{seen};
ghost use Rattle.hyd_witness_stream.specs.Benches.{IsBench};
ghost use Rattle.hyd_witness_stream.specs.declared.ending.Halt.TheVariants.{NoMoment};
ghost use Rattle.hyd_written_witnesses.specs.WrittenPasses.{Passed, OpensInPasses};
ghost use Rattle.hyd_written_witnesses.specs.WitnessAnswers.{ends_at, ends_with_answer};

use crate::statuses::status_of_fault;
use hyd_command_answers::Status;
use hyd_io::Desk;
use hyd_laws_at_scale::Scale;
use hyd_stocks_below::halves;
use hyd_witness_stream::{Bench, Halt, SearchEnd, fine, search_witness};

// Whether a search ended for want of a moment.
fn lacks_moment(halt: Halt) -> bool
    ensures yes { OnTrue result (halt ≡ NoMoment) }
    ensures no { OnFalse result (halt ≢ NoMoment) }
{
    match halt {
        Halt::NoMoment => true,
        _ => false,
    }
}

// One pass at a scale: opens CERT, creates OUT, and searches.
fn write_pass<D: Desk>(
    bench: &mut Bench,
    scale: Scale,
    cert: &str,
    out: &str,
    desk: &mut D,
) -> Result<SearchEnd, Status>
    requires bench { IsBench bench.old }
    requires scale { IsWrittenScale (parts_of scale) }
    requires opens { IsTrue (D.may_open cert.now) }
    requires creates { IsTrue (D.may_create out.now) }
    requires apart { cert.now ≢ out.now }
    ensures passed { Passed bench.old.sim.project cert.now out.now (ends_at bench.old.sim.project (parts_of scale)) result
        (seen D.files D.written D.printed desk.old) (seen D.files D.written D.printed desk.new)
        (D.counts desk.old) (D.counts desk.new) }
    ensures opens { OpensInPasses 1 result (D.openings desk.old) (D.openings desk.new) }
    ensures bench { IsBench bench.new }
    ensures project { bench.new.sim.project ≡ bench.old.sim.project }
{
    bench.begin(scale);
    if desk.open(cert).is_err() {
        return Err(Status::ReadFault);
    }
    if desk.create(out).is_err() {
        return Err(Status::WriteFault);
    }
    match search_witness(bench, desk) {
        Ok(end) => Ok(end),
        Err(fault) => Err(status_of_fault(fault)),
    }
}

// A pass in finer parts of ticks and, where that ends for want of a moment, one in halves, which answers.
fn write_finer<D: Desk>(
    bench: &mut Bench,
    cert: &str,
    out: &str,
    desk: &mut D,
) -> Result<SearchEnd, Status>
    requires bench { IsBench bench.old }
    requires opens { IsTrue (D.may_open cert.now) }
    requires creates { IsTrue (D.may_create out.now) }
    requires apart { cert.now ≢ out.now }
    ensures passed { Passed bench.old.sim.project cert.now out.now (ends_with_answer bench.old.sim.project) result
        (seen D.files D.written D.printed desk.old) (seen D.files D.written D.printed desk.new)
        (D.counts desk.old) (D.counts desk.new) }
    ensures opens { OpensInPasses 2 result (D.openings desk.old) (D.openings desk.new) }
    ensures bench { IsBench bench.new }
    ensures project { bench.new.sim.project ≡ bench.old.sim.project }
{
    let end = write_pass(bench, fine(), cert, out, desk)?;
    if !lacks_moment(end.halt) {
        return Ok(end);
    }
    write_pass(bench, halves(), cert, out, desk)
}

/// Writes a witness of a certificate to OUT: in halves of ticks or, where one pass ends for want of a moment in these, in
/// finer parts. The last pass answers, and OUT has what it wrote. Takes no memory.
///
/// - `ReadFault`: CERT couldn't be opened, or a read failed.
/// - `WriteFault`, `Stalled`: OUT couldn't be created, or a write failed or took nothing.
///
/// After a fault nothing more is called.
pub(crate) fn write_passes<D: Desk>(
    bench: &mut Bench,
    cert: &str,
    out: &str,
    desk: &mut D,
) -> Result<SearchEnd, Status>
    requires bench { IsBench bench.old }
    requires opens { IsTrue (D.may_open cert.now) }
    requires creates { IsTrue (D.may_create out.now) }
    requires apart { cert.now ≢ out.now }
    ensures passed { Passed bench.old.sim.project cert.now out.now (ends_with_answer bench.old.sim.project) result
        (seen D.files D.written D.printed desk.old) (seen D.files D.written D.printed desk.new)
        (D.counts desk.old) (D.counts desk.new) }
    ensures opens { OpensInPasses 3 result (D.openings desk.old) (D.openings desk.new) }
    ensures project { bench.new.sim.project ≡ bench.old.sim.project }
    ensures sound { IsBench bench.new }
{
    let end = write_pass(bench, halves(), cert, out, desk)?;
    if !lacks_moment(end.halt) {
        return Ok(end);
    }
    write_finer(bench, cert, out, desk)
}
