//! Watched levels, and whether one may have been reached by a second.
#![tactic(auto)]

ghost use Rattle.std.specs.Prelude.{◌^◌, ◌≤◌, ◌↔◌, IsTrue};
ghost use Rattle.hyd_net.specs.Sound.{IsSound};
ghost use Rattle.hyd_period_facts.specs.FactsBeforeEnd.{HaveTanks};
ghost use Rattle.hyd_open_watches.specs.Candidates.{IsWatch, ComesBy, watch_for};

use hyd_net::Project;
use hyd_period_facts::{Facts, inflow_at, stock_at};
use hyd_tank::first_stock;

/// A level of a tank that is watched, in head ticks above its bottom, and whether the tank rises to it or falls to it.
#[derive(Clone, Copy, Drop)]
pub struct Watch {
    pub tank: u32,
    pub target: i64,
    pub rising: bool,
}

/// Whether a watched level may have been reached by a latest second after the start.
pub(crate) fn comes_by(project: &Project, facts: &Facts, watch: Watch, latest: u32) -> bool
    requires sound { IsSound project.now }
    requires tanks { HaveTanks project.now facts.now }
    requires watch { IsWatch project.now watch }
    requires latest { latest ≤ 10 ^ 8 }
    ensures { IsTrue result ↔ ComesBy project.now facts.now latest (watch_for watch) }
{
    let stock = stock_at(facts, watch.tank);
    let inflow = inflow_at(facts, watch.tank);
    let (earliest, _) = first_stock(
        project,
        watch.tank,
        stock,
        inflow,
        watch.target,
        watch.rising,
        latest + 1,
    );
    earliest <= latest
}
