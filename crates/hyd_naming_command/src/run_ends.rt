//! What the end of a run means to who called for it.

ghost use Rattle.std.specs.Prelude.{◌≡◌};
ghost use Rattle.hyd_net.specs.Sound.{IsSound};
ghost use Rattle.hyd_run.specs.Runs.{outcome_of};
ghost use Rattle.hyd_command_answers.specs.Statuses.{status_of_outcome};

use hyd_command_answers::Status;
use hyd_io::Desk;
use hyd_net::Project;
use hyd_run::RunEnd;
use hyd_sentences::{DuePeriod, Stopped};
use hyd_sim::Sim;
use hyd_spec_certificates::StopCause;

/// The status of the end of a run.
pub fn status_of_end(end: RunEnd) -> Status
    ensures { result ≡ status_of_outcome (outcome_of end) }
{
    match end {
        RunEnd::Finished => Status::Done,
        RunEnd::Stopped(StopCause::RoundsSpent { .. }) => Status::RoundsSpent,
        RunEnd::Stopped(StopCause::Demand { .. }) => Status::Demand,
        RunEnd::Stopped(_) => Status::Undecided,
    }
}

// Says what a stop of a run means, and what to try.
fn say_stop<D: Desk>(project: &Project, time: u32, cause: StopCause, due: DuePeriod<'_>, desk: &D)
    requires { IsSound project.now }
{
    desk.say(&Stopped {
        project,
        time,
        cause,
        due,
    });
}

// What is known of the period in which a run stopped.
fn due_period(sim: &Sim) -> DuePeriod<'_> {
    let facts = sim.facts();
    DuePeriod {
        levels: facts.levels.as_slice(),
        inflows: facts.inflows.as_slice(),
        links: facts.links.as_slice(),
    }
}

/// Says of a run that stopped what that means, and what to try.
pub fn say_end<D: Desk>(sim: &Sim, end: RunEnd, desk: &D) {
    if let RunEnd::Stopped(cause) = end {
        say_stop(sim.project(), sim.time(), cause, due_period(sim), desk);
    }
}
