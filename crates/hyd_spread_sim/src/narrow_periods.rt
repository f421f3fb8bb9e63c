//! Whether a period is narrow.
#![tactic(auto)]

ghost use Rattle.std.specs.Prelude.{◌≡◌, ◌≢◌, length, map, true};
ghost use Rattle.hyd_spec_certificates.specs.SpansAsIntervals.{levels_of};
ghost use Rattle.hyd_spec_spread_promises.specs.SharpOverSpreads.{StaysNarrow};
ghost use Rattle.hyd_spec_spread_reports.specs.TextsOfSpreadReports.{says_nothing};
ghost use Rattle.hyd_open_sim.specs.EndedPeriods.{next_standing};
ghost use Rattle.hyd_open_sim_start.specs.StandingsOfOpenRuns.{standing_for};
ghost use Rattle.hyd_spread_vectors.specs.NarrowForSpreads.{HoldsClose};

use crate::without_spread::says_nothing;
use hyd_net::Project;
use hyd_open_period_end::OpenPeriodEnd;
use hyd_open_sim::has_steady_levels;
use hyd_open_sim_start::Standing;
use hyd_spread_networks::SpreadNets;
use hyd_spread_vectors::SpreadSearch;

/// Whether a period that is over is narrow for a width in head ticks: its vectors on each network, and where there is
/// no spread, its levels.
pub(crate) fn is_narrow(
    project: &Project,
    standing: &Standing,
    nets: &SpreadNets,
    search: &SpreadSearch,
    close: &OpenPeriodEnd,
    width: i64,
) -> bool
    requires levels { standing.now.time ≢ project.now.times.duration
        → length close.now.next.levels.list ≡ length standing.now.stocks.levels.list }
    ensures vectors { result ≡ true
        → HoldsClose width (map levels_of standing.now.stocks.levels.list) search.now.held }
    ensures levels { result ≡ true → says_nothing nets.now.spread ≡ true → StaysNarrow width
        (standing_for standing.now) (next_standing project.now standing.now close.now) }
{
    if !search.is_narrow(standing.stocks.levels.as_slice(), width) {
        return false;
    }
    !says_nothing(nets.spread()) || has_steady_levels(project, standing, close, width)
}
