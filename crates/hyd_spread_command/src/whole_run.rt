//! A run for the spread of a text, from the memory that it takes to its last line.

ghost use Rattle.std.specs.Prelude.{◌≡◌, true, IsTrue};
ghost use Rattle.hyd_net.specs.Sound.{IsSound};
ghost use Rattle.hyd_spec_open_spreads.specs.OpenRunsForSpreads.{open_standing_within};
ghost use Rattle.hyd_spec_spread_reports.specs.TextsOfSpreadReports.{says_nothing};
ghost use Rattle.hyd_spec_spread_rows.specs.TextsOfSpreads.{spread_in};
ghost use Rattle.hyd_spread_check.specs.PassedOn.{asked_of, standing_of};
ghost use Rattle.hyd_command_answers.specs.DeskContents.{seen, ChangesOnly};
ghost use Rattle.hyd_command_answers.specs.FaultsAndRefusals.{HasCause};
ghost use Rattle.hyd_command_answers.specs.OpeningsOfRuns.{OpensCert};
ghost use Rattle.hyd_spread_command.specs.SpreadAnswers.{AnswersRunOver, AnswersWithin};

use crate::opened_run::open_run;
use crate::run_ends::say_end;
use hyd_command_answers::{Status, fault_status};
use hyd_finders::{Finder, Gradient};
use hyd_io::{Channel, Desk, Pen};
use hyd_naming_command::status_of_end;
use hyd_net::{OutOfMemory, Project};
use hyd_spec_certificates::Side;
use hyd_spread_check::{OpenSettings, SpreadSim, run_over};
use hyd_spread_files::refuse_spread;
use hyd_spread_networks::SpreadNets;
use hyd_spread_rows::SpreadRefused;
use std::alloc::Global;

/// The names of the files of a run for a spread.
#[derive(Clone, Copy)]
pub struct SpreadNames<'a> {
    /// FILE, which gave the spread.
    pub spread: &'a str,
    /// CERT, which is written or checked.
    pub cert: &'a str,
}

// The gradient method for the nets of both sides.
#[derive(Drop)]
struct Finders {
    above: Gradient,
    below: Gradient,
}

// Creates CERT, and puts a run out, the certificate into it and the report on standard output.
fn put_run<D: Desk, F: Finder, G: Finder>(
    sim: &mut SpreadSim,
    above: &mut F,
    below: &mut G,
    cert: &str,
    desk: &mut D,
) -> Status
    requires start { standing_of sim.old ≡ open_standing_within sim.old.project sim.old.nets.spread }
    requires told { says_nothing sim.old.nets.spread ≡ true → G.told below.old ≡ F.told above.old }
    requires creates { IsTrue (D.may_create cert.now) }
    ensures cause { HasCause result (D.counts desk.old) (D.counts desk.new) }
    ensures answers { AnswersRunOver sim.old.project (asked_of sim.old.settings sim.old.nets.spread) cert.now result
        (seen D.files D.written D.printed desk.old) (seen D.files D.written D.printed desk.new) }
    ensures others { ChangesOnly cert.now
        (seen D.files D.written D.printed desk.old) (seen D.files D.written D.printed desk.new) }
    ensures opens { OpensCert result (D.openings desk.old) (D.openings desk.new) }
{
    if desk.create(cert).is_err() {
        return Status::WriteFault;
    }
    let mut certificate = Pen::new(Channel::Cert);
    let mut report = Pen::new(Channel::Report);
    match run_over(sim, above, below, &mut certificate, &mut report, desk) {
        Ok(end) => {
            say_end(sim, end, desk);
            status_of_end(end)
        }
        Err(fault) => fault_status(fault),
    }
}

fn open_finders(alloc: Global, nets: &SpreadNets) -> Result<Finders, OutOfMemory> {
    let above = Gradient::open(alloc, nets.on(Side::Upper))?;
    let below = Gradient::open(alloc, nets.on(Side::Lower))?;
    Ok(Finders { above, below })
}

// Opens the gradient method for both nets of a run at its start, and puts the run out.
fn run_by_gradients<D: Desk>(alloc: Global, sim: &mut SpreadSim, cert: &str, desk: &mut D) -> Status
    requires start { standing_of sim.old ≡ open_standing_within sim.old.project sim.old.nets.spread }
    requires creates { IsTrue (D.may_create cert.now) }
    ensures cause { HasCause result (D.counts desk.old) (D.counts desk.new) }
    ensures answers { AnswersRunOver sim.old.project (asked_of sim.old.settings sim.old.nets.spread) cert.now result
        (seen D.files D.written D.printed desk.old) (seen D.files D.written D.printed desk.new) }
    ensures others { ChangesOnly cert.now
        (seen D.files D.written D.printed desk.old) (seen D.files D.written D.printed desk.new) }
    ensures opens { OpensCert result (D.openings desk.old) (D.openings desk.new) }
{
    match open_finders(alloc, sim.nets()) {
        Ok(mut finders) => put_run(sim, &mut finders.above, &mut finders.below, cert, desk),
        Err(_) => Status::OutOfMemory,
    }
}

/// Runs a network for the spread of a text: writes CERT, of version 4, and prints the report. All memory is taken
/// before CERT is created.
///
/// - `Done`, `Undecided`, `RoundsSpent`, `Demand`: how the run ended.
/// - `InputRefused`: the text has a fault, which the one line that is printed names.
/// - `OutOfMemory`: nothing was created or printed.
/// - `WriteFault`, `Stalled`: a call on the desk failed or took nothing.
pub fn run_within<D: Desk>(
    alloc: Global,
    project: Project,
    text: &[u8],
    settings: OpenSettings,
    names: SpreadNames<'_>,
    desk: &mut D,
) -> Status
    requires sound { IsSound project }
    requires creates { IsTrue (D.may_create names.cert.now) }
    ensures cause { HasCause result (D.counts desk.old) (D.counts desk.new) }
    ensures answers { AnswersWithin project text.now (asked_of settings (spread_in project text.now))
        names.entry.cert.now result
        (seen D.files D.written D.printed desk.old) (seen D.files D.written D.printed desk.new) }
    ensures others { ChangesOnly names.entry.cert.now
        (seen D.files D.written D.printed desk.old) (seen D.files D.written D.printed desk.new) }
    ensures opens { OpensCert result (D.openings desk.old) (D.openings desk.new) }
{
    match open_run(alloc, project, text, settings) {
        Ok(mut sim) => {
            let status = run_by_gradients(alloc, &mut sim, names.cert, desk);
            sim.close();
            status
        }
        Err(SpreadRefused::OutOfMemory) => Status::OutOfMemory,
        Err(SpreadRefused::Fault(fault)) => refuse_spread(names.spread, text, fault, desk),
    }
}
