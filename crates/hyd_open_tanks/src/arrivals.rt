//! What has just been reached of a tank.
#![tactic(auto)]

ghost use Rattle.std.specs.Prelude.{◌≡◌, IfSome};
ghost use Rattle.std.specs.Option.{option_map};
ghost use Rattle.hyd_spec_open_ends.specs.Arrivals as reached_levels;
ghost use Rattle.hyd_open_stocks.specs.EndsOfContents.{arrival_of};
ghost use Rattle.hyd_open_watches.specs.Candidates.{watch_for};
ghost use Rattle.hyd_open_tanks.specs.StocksLeft.{ComesFrom};

use hyd_open_stocks::Arrival;
use hyd_open_watches::Watch;

/// What has just been reached of a tank, at the end of a period of a shortest length, where this level has been: a
/// second before it had not been where the period has lasted two seconds at least.
pub(crate) fn arrival_at(shortest: u32, reached: Option<Watch>, tank: u32) -> Option<Arrival>
    ensures value { option_map arrival_of result
        ≡ reached_levels.arrival_of shortest (option_map watch_for reached) tank }
    ensures from { IfSome result (ComesFrom reached tank) }
{
    match reached {
        None => None,
        Some(watch) => {
            if watch.tank == tank {
                Some(Arrival {
                    target: watch.target,
                    rising: watch.rising,
                    not_before: 2 <= shortest,
                })
            } else {
                None
            }
        }
    }
}
