//! What is tried with a run of a text's network at its start. One function owns the run, as such a function is slow to
//! prove.

ghost use Rattle.std.specs.Prelude.{◌≡◌, None};
ghost use Rattle.hyd_net.specs.Sound.{IsSound};
ghost use Rattle.hyd_spec_certificates.specs.RecordAndStanding.{initial_standing};
ghost use Rattle.hyd_sim.specs.RunView.{standing_of};

use hyd_inp::read_project;
use hyd_net::Project;
use hyd_sim::{Settings, Sim};
use std::alloc::Global;

/// What a test does with a run.
pub(crate) trait Trial {
    /// Whether the run does what it is to do.
    fn passes(&mut self, sim: &mut Sim) -> bool
        requires start { standing_of sim.old ≡ initial_standing sim.old.project }
        requires running { sim.old.stopped ≡ None };
}

/// Whether a trial passes with a run of a network.
fn passes_in<T: Trial>(alloc: Global, project: Project, settings: Settings, trial: &mut T) -> bool
    requires { IsSound project }
{
    match Sim::open(alloc, project, settings) {
        Ok(mut sim) => {
            let passes = trial.passes(&mut sim);
            sim.close();
            passes
        }
        Err(_) => false,
    }
}

/// Whether a trial passes with a run of the text's network.
pub(crate) fn passes<T: Trial>(
    alloc: Global,
    text: &str,
    settings: Settings,
    trial: &mut T,
) -> bool {
    match read_project(alloc, text.as_bytes()) {
        Ok(project) => passes_in(alloc, project, settings, trial),
        Err(_) => false,
    }
}
