//! The stocks with which the middle candidate begins.
#![tactic(auto)]

ghost use Rattle.std.specs.Prelude.{◌≡◌, pos, slice_index_or};
ghost use Rattle.hyd_net.specs.Sound.{IsSound};
ghost use Rattle.hyd_spec.specs.Lists.{Each};
ghost use Rattle.hyd_spec.specs.NodeNumbers.{tank_count};
ghost use Rattle.hyd_spec_witnesses.specs.MetPeriods.{Reached};
ghost use Rattle.hyd_spec_witnesses.specs.MiddleCandidate.{halves, stock_at};
ghost use Rattle.hyd_spec_witnesses.specs.WitnessText.{AreValues};
ghost use Rattle.hyd_course.specs.Standings.{IsStanding, StandsAt};

use hyd_course::Standing;
use hyd_net::{List, Project};
use hyd_stocks_below::{put_stocks_below, put_stocks_of_file};

/// Puts the level and the volume of each tank where a course stands: the file's at the start, else those after the last
/// period, rounded down.
pub(crate) fn put_stocks(
    project: &Project,
    standing: &Standing,
    levels: &mut List<i128>,
    volumes: &mut List<i128>,
)
    requires sound { IsSound project.now }
    requires standing { IsStanding project.now standing.now }
    requires levels { AreValues (tank_count project.now) levels.old.list }
    requires volumes { AreValues (tank_count project.now) volumes.old.list }
    ensures levels { (reached : Reached) → StandsAt project.now halves reached standing.now
        → Each project.now.tanks.list (λ k tank. slice_index_or levels.new.list k (pos 0)
        ≡ (stock_at project.now reached.last k tank).level) }
    ensures volumes { (reached : Reached) → StandsAt project.now halves reached standing.now
        → Each project.now.tanks.list (λ k tank. slice_index_or volumes.new.list k (pos 0)
        ≡ (stock_at project.now reached.last k tank).volume) }
    ensures levels_fit { AreValues (tank_count project.now) levels.new.list }
    ensures volumes_fit { AreValues (tank_count project.now) volumes.new.list }
{
    match standing.last {
        None => put_stocks_of_file(project, levels.as_mut_slice(), volumes.as_mut_slice()),
        Some(last) => put_stocks_below(
            project,
            last.length,
            &standing.stocks,
            &standing.inflows,
            levels.as_mut_slice(),
            volumes.as_mut_slice(),
        ),
    }
}
