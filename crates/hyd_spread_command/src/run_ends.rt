//! What is said of a run that stopped.

use hyd_io::Desk;
use hyd_run::RunEnd;
use hyd_sentences::{DuePeriod, Stopped};
use hyd_spread_check::SpreadSim;

// What is known of the period in which a run stopped.
fn due_period(sim: &SpreadSim) -> DuePeriod<'_> {
    let facts = sim.facts();
    DuePeriod {
        levels: facts.levels.as_slice(),
        inflows: facts.inflows.as_slice(),
        links: facts.links.as_slice(),
    }
}

/// Says of a run that stopped what that means, and what to try. The time is the first second of its period.
pub(crate) fn say_end<D: Desk>(sim: &SpreadSim, end: RunEnd, desk: &D) {
    if let RunEnd::Stopped(cause) = end {
        desk.say(&Stopped {
            project: sim.project(),
            time: sim.time(),
            cause,
            due: due_period(sim),
        });
    }
}
