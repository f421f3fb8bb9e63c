//! The earliest and the latest second of what is watched.
#![tactic(auto)]

ghost use Rattle.std.specs.Prelude.{ℕ, ◌+◌, ◌<◌, ◌≤◌};
ghost use Rattle.hyd_net.specs.Sound.{IsSound};
ghost use Rattle.hyd_spec_certificates.specs.PeriodNetwork.{Grid};
ghost use Rattle.hyd_spec_certificates.specs.RecordAndStanding.{Record, Standing};
ghost use Rattle.hyd_spec_open_ends.specs.OpenEnds.{AreSeconds};
ghost use Rattle.hyd_theorems_on_definitions.specs.LyingInIntervals.{HasStock};
ghost use Rattle.hyd_period_facts.specs.FactsBeforeEnd.{HaveTanks, AreStarted, stocks_in};

use crate::instants::seconds_to_instant;
use hyd_net::Project;
use hyd_period_facts::{Facts, level_ends};
use hyd_period_length::clock_length;

/// Seconds of a period that begins before the end of the run.
#[derive(Clone, Copy, Drop)]
pub struct Seconds {
    /// From its first start to the next instant of the clock.
    pub cap: u32,
    /// After its own start the earliest at which a watched level or the hydraulic step may end it; the cap where that
    /// is no later.
    pub earliest: u32,
    /// The first by which it must have ended so.
    pub latest: u32,
}

/// The seconds to the next instant of the clock, and the earliest and the latest of what is watched: bounds of tanks
/// and levels of controls that don't hold at the start (EPANET 2.2 User Manual, chapter 3, tanks and controls), and the
/// hydraulic step.
///
/// The facts hold what is known at the start of the period and what flows into its tanks; some stock lies between the
/// ends of each interval.
pub fn find_seconds(project: &Project, facts: &Facts) -> Seconds
    requires sound { IsSound project.now }
    requires tanks { HaveTanks project.now facts.now }
    requires there { (k : ℕ) → HasStock (stocks_in facts.now k) }
    requires before_end { facts.now.time < project.now.times.duration }
    ensures seconds { (grid : Grid) (standing : Standing) (row : Record)
        → AreStarted project.now grid standing row facts.now
        → AreSeconds project.now grid standing row result.cap result.earliest result.latest }
    ensures some { 0 < result.earliest }
    ensures in_time { result.earliest ≤ result.cap }
    ensures late_in_time { result.latest ≤ result.cap }
    ensures within { facts.now.time + result.cap ≤ project.now.times.duration }
{
    let ends = level_ends(project, facts, clock_length(project, facts.time));
    let cap = seconds_to_instant(project, facts.time);
    Seconds {
        cap,
        earliest: ends.earliest,
        latest: ends.latest.min(cap),
    }
}
