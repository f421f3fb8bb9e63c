//! A witness is written for a network's certificate, and the line of its end printed.

ghost use Rattle.std.specs.Prelude.{◌≡◌, ◌≢◌, ℕ, IsTrue};
ghost use Rattle.hyd_net.specs.Sound.{IsSound};
ghost use Rattle.hyd_command_answers.specs.DeskContents.{seen};
ghost use Rattle.hyd_command_answers.specs.FaultsAndRefusals.{HasCause};
ghost use Rattle.hyd_witness_stream.specs.Benches.{IsBench};
ghost use Rattle.hyd_written_witnesses.specs.CommandWitness.{SearchesWitness};

use crate::answer::answer_end;
use crate::passes::write_passes;
use hyd_command_answers::Status;
use hyd_io::Desk;
use hyd_net::Project;
use hyd_stocks_below::halves;
use hyd_witness_stream::Bench;
use std::alloc::Global;

// Writes the witness, and prints the line of its end.
fn write_and_answer<D: Desk>(bench: &mut Bench, cert: &str, out: &str, desk: &mut D) -> Status
    requires bench { IsBench bench.old }
    requires opens { IsTrue (D.may_open cert.now) }
    requires creates { IsTrue (D.may_create out.now) }
    requires apart { cert.now ≢ out.now }
    ensures cause { HasCause result (D.counts desk.old) (D.counts desk.new) }
    ensures searches { SearchesWitness bench.old.sim.project cert.now out.now result
        (seen D.files D.written D.printed desk.old) (seen D.files D.written D.printed desk.new)
        (D.openings desk.old) (D.openings desk.new) }
    ensures project { bench.new.sim.project ≡ bench.old.sim.project }
{
    match write_passes(bench, cert, out, desk) {
        Ok(end) => answer_end(bench.sim.project(), end, desk),
        Err(status) => status,
    }
}

/// Takes all memory that the search needs, writes the witness to OUT, and prints the line of its end.
pub(crate) fn write_of_network<D: Desk>(
    alloc: Global,
    project: Project,
    cert: &str,
    out: &str,
    desk: &mut D,
) -> Status
    requires sound { IsSound project }
    requires opens { IsTrue (D.may_open cert.now) }
    requires creates { IsTrue (D.may_create out.now) }
    requires apart { cert.now ≢ out.now }
    ensures cause { HasCause result (D.counts desk.old) (D.counts desk.new) }
    ensures searches { SearchesWitness project cert.now out.now result
        (seen D.files D.written D.printed desk.old) (seen D.files D.written D.printed desk.new)
        (D.openings desk.old) (D.openings desk.new) }
{
    match Bench::open(alloc, project, halves()) {
        Ok(mut bench) => {
            let status = write_and_answer(&mut bench, cert, out, desk);
            bench.close();
            status
        }
        Err(_) => Status::OutOfMemory,
    }
}
