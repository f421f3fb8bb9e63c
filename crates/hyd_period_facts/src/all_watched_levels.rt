//! All watched levels of a period.
#![tactic(auto)]

ghost use Rattle.std.specs.Prelude.{◌<◌, ◌≤◌};
ghost use Rattle.hyd_net.specs.Sound.{IsSound};
ghost use Rattle.hyd_spec_certificates.specs.PeriodNetwork.{Grid};
ghost use Rattle.hyd_spec_certificates.specs.RecordAndStanding.{Record, Standing};
ghost use Rattle.hyd_spec_certificates.specs.Decided.{IsClockLength, IsEarliestEnd, IsLatestEnd};
ghost use Rattle.hyd_period_facts.specs.FactsBeforeEnd.{HaveTanks, AreStarted};

use crate::controls::with_controls;
use crate::facts::Facts;
use crate::tank_bounds::bound_ends;
use crate::watch::Ends;
use hyd_net::Project;

/// The earliest and the latest end of a period, in seconds after its start, which the clock ends after `cap` seconds:
/// the first second by which a watched level may, or must, have been reached, or the cap where that comes first. The
/// bounds of tanks are watched, the maximum of one that isn't full and the minimum of one that isn't empty, and the
/// levels of controls that don't hold at the start (EPANET 2.2 User Manual, chapter 3, tanks and controls).
///
/// The facts hold what is known at the start of the period and what flows into its tanks.
pub fn level_ends(project: &Project, facts: &Facts, cap: u32) -> Ends
    requires sound { IsSound project.now }
    requires tanks { HaveTanks project.now facts.now }
    ensures earliest { (grid : Grid) (standing : Standing) (row : Record)
        → AreStarted project.now grid standing row facts.now
        → IsClockLength project.now standing.time cap → IsEarliestEnd project.now grid standing row result.earliest }
    ensures latest { (grid : Grid) (standing : Standing) (row : Record)
        → AreStarted project.now grid standing row facts.now
        → IsClockLength project.now standing.time cap → IsLatestEnd project.now grid standing row result.latest }
    ensures within { result.earliest ≤ cap }
    ensures some { 0 < cap → 0 < result.earliest }
{
    let bounds = bound_ends(project, facts, cap);
    with_controls(project, facts, cap, bounds)
}
