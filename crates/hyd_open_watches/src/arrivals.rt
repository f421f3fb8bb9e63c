//! The level that has just been reached where a period ends by what is watched.
#![tactic(auto)]

ghost use Rattle.std.specs.Prelude.{ℕ, ◌≡◌, ◌^◌, ◌<◌, ◌≤◌, Some, IfSome, length, slice_get};
ghost use Rattle.std.specs.Option.{option_map};
ghost use Rattle.hyd_net.specs.Sound.{IsSound};
ghost use Rattle.hyd_spec.specs.ProgramTypes.{Tank};
ghost use Rattle.hyd_spec.specs.Tank.{walls_of};
ghost use Rattle.hyd_spec_certificates.specs.PeriodNetwork.{Grid};
ghost use Rattle.hyd_spec_certificates.specs.RecordAndStanding.{Record, Standing};
ghost use Rattle.hyd_spec_open_ends.specs.OpenEnds.{ByWatched};
ghost use Rattle.hyd_spec_open_ends.specs.Arrivals.{Arrives};
ghost use Rattle.hyd_period_facts.specs.FactsBeforeEnd.{HaveTanks, AreStarted, inflow_in};
ghost use Rattle.hyd_open_stocks.specs.LevelsInReach.{IsInReach};
ghost use Rattle.hyd_open_watches.specs.Candidates.{watch_for, IsWatch};

use crate::control_levels::with_controls;
use crate::nearest::Candidates;
use crate::tank_bounds::among_bounds;
use crate::watches::Watch;
use hyd_net::Project;
use hyd_period_facts::Facts;

/// The level that each history has just reached at the end of a period that ends by what is watched, by a latest second
/// after its own start: the nearest of those that may have been reached by then, where these are levels of one tank and
/// direction and the hydraulic step comes later. None where levels of two tanks or directions compete, or the step
/// does. It is in its tank's reach.
///
/// The facts hold what is known at the start of the period and what flows into its tanks.
pub fn just_reached(project: &Project, facts: &Facts, latest: u32) -> Option<Watch>
    requires sound { IsSound project.now }
    requires tanks { HaveTanks project.now facts.now }
    requires latest { latest ≤ 10 ^ 8 }
    ensures arrives { (grid : Grid) (standing : Standing) (row : Record) (earliest : ℕ)
        → AreStarted project.now grid standing row facts.now
        → Arrives project.now grid standing row (ByWatched earliest latest) (option_map watch_for result) }
    ensures watch { IfSome result (IsWatch project.now) }
    ensures reach { IfSome result (λ watch. (each : Tank) → slice_get project.now.tanks.list watch.tank ≡ Some each
        → IsInReach (walls_of project.now each) each (inflow_in facts.now watch.tank) watch.target watch.rising) }
{
    if project.times.hydraulic <= latest {
        return None;
    }
    let bounds = among_bounds(project, facts, latest);
    match with_controls(project, facts, latest, bounds) {
        Candidates::One(watch) => Some(watch),
        Candidates::None => None,
        Candidates::Competing => None,
    }
}
