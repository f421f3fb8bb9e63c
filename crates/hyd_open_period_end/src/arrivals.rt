//! What has just been reached at the end of a period.
#![tactic(auto)]

ghost use Rattle.std.specs.Prelude.{◌≡◌, ◌^◌, ◌≤◌, IfSome};
ghost use Rattle.std.specs.Option.{option_map};
ghost use Rattle.hyd_net.specs.Sound.{IsSound};
ghost use Rattle.hyd_spec_certificates.specs.PeriodNetwork.{Grid};
ghost use Rattle.hyd_spec_certificates.specs.RecordAndStanding.{Record, Standing};
ghost use Rattle.hyd_spec_open_ends.specs.Arrivals as reached_levels;
ghost use Rattle.hyd_spec_open_ends.specs.OpenEnds.{longest_length};
ghost use Rattle.hyd_period_facts.specs.FactsBeforeEnd.{HaveTanks, AreStarted};
ghost use Rattle.hyd_open_stocks.specs.EndsOfContents.{arrival_of};
ghost use Rattle.hyd_open_watches.specs.Candidates.{watch_for};
ghost use Rattle.hyd_open_tanks.specs.StocksLeft.{IsInReachOf, ComesFrom};
ghost use Rattle.hyd_open_ends.specs.Ways.{way_of};

use hyd_net::Project;
use hyd_open_ends::Way;
use hyd_open_stocks::Arrival;
use hyd_open_watches::{Watch, just_reached};
use hyd_period_facts::Facts;

/// The level that each history has just reached at the end of a period that ends in this way: none at an end by rules
/// or by the clock. It is in its tank's reach.
///
/// The facts hold what is known at the start of the period and what flows into its tanks.
pub(crate) fn reached_at(project: &Project, facts: &Facts, way: Way) -> Option<Watch>
    requires sound { IsSound project.now }
    requires tanks { HaveTanks project.now facts.now }
    requires longest { longest_length (way_of way) ≤ 10 ^ 8 }
    ensures arrives { (grid : Grid) (standing : Standing) (row : Record)
        → AreStarted project.now grid standing row facts.now
        → reached_levels.Arrives project.now grid standing row (way_of way) (option_map watch_for result) }
    ensures reach { IsInReachOf project.now facts.now result }
{
    match way {
        Way::ByRules(_) => None,
        Way::ByInstant(_) => None,
        Way::ByWatched { latest, .. } => just_reached(project, facts, latest),
    }
}

/// What has just been reached of a tank, at the end of a period of a shortest length, where this level has been: a
/// second before it had not been where the period has lasted two seconds at least.
pub(crate) fn arrival_at(shortest: u32, reached: Option<Watch>, tank: u32) -> Option<Arrival>
    ensures value { option_map arrival_of result
        ≡ reached_levels.arrival_of shortest (option_map watch_for reached) tank }
    ensures from { IfSome result (ComesFrom reached tank) }
{
    match reached {
        None => None,
        Some(watch) => {
            if watch.tank == tank {
                Some(Arrival {
                    target: watch.target,
                    rising: watch.rising,
                    not_before: 2 <= shortest,
                })
            } else {
                None
            }
        }
    }
}
