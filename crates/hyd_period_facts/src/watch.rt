//! One watched level.
#![tactic(auto)]

ghost use Rattle.std.specs.Prelude.{◌<◌, ◌≤◌, ◌++◌, ◌∷◌, [], List};
ghost use Rattle.hyd_net.specs.Sound.{IsSound};
ghost use Rattle.hyd_spec_certificates.specs.Stocks.{may_reach, must_reach};
ghost use Rattle.hyd_spec_certificates.specs.Decided as decided;
ghost use Rattle.hyd_period_facts.specs.FactsBeforeEnd.{HaveTanks};
ghost use Rattle.hyd_period_facts.specs.Watched.{IsWatch, IsReachedFirst, AreEnds, watch_for};

use crate::facts::Facts;
use crate::stocks_and_inflows::{inflow_at, stock_at};
use hyd_net::Project;
use hyd_tank::first_stock;

/// A level of a tank that is watched, in head ticks above its bottom, and whether the tank rises to it or falls to it.
#[derive(Clone, Copy, Drop)]
pub(crate) struct Watch {
    pub(crate) tank: u32,
    pub(crate) target: i64,
    pub(crate) rising: bool,
}

/// The earliest and the latest second after the start of a period at which it may end.
#[derive(Clone, Copy, Drop)]
pub struct Ends {
    pub earliest: u32,
    pub latest: u32,
}

// The earliest and the latest first second at which a watched level is reached, each the cap where it isn't up to that.
fn first_of(project: &Project, facts: &Facts, watch: Watch, cap: u32) -> Ends
    requires sound { IsSound project.now }
    requires tanks { HaveTanks project.now facts.now }
    requires watch { IsWatch project.now watch }
    ensures earliest { IsReachedFirst may_reach project.now facts.now cap (watch_for watch) result.earliest }
    ensures latest { IsReachedFirst must_reach project.now facts.now cap (watch_for watch) result.latest }
    ensures within { result.earliest ≤ cap }
    ensures some { 0 < cap → 0 < result.earliest }
{
    let stock = stock_at(facts, watch.tank);
    let inflow = inflow_at(facts, watch.tank);
    let (earliest, latest) = first_stock(
        project,
        watch.tank,
        stock,
        inflow,
        watch.target,
        watch.rising,
        cap,
    );
    Ends { earliest, latest }
}

/// The ends where one more level is watched.
pub(crate) fn with_watch(
    project: &Project,
    facts: &Facts,
    watch: Watch,
    cap: u32,
    ends: Ends,
) -> Ends
    requires sound { IsSound project.now }
    requires tanks { HaveTanks project.now facts.now }
    requires watch { IsWatch project.now watch }
    ensures { (watched : List decided.Watch) → AreEnds project.now facts.now cap watched ends
        → AreEnds project.now facts.now cap (watched ++ watch_for watch ∷ []) result }
{
    let own = first_of(project, facts, watch, cap);
    Ends {
        earliest: own.earliest.min(ends.earliest),
        latest: own.latest.min(ends.latest),
    }
}
