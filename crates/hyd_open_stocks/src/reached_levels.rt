//! What goes with a level that has just been reached: levels, and contents with which a next period may begin, at which
//! it is met and a second later.
#![tactic(auto)]

ghost use Rattle.std.specs.Prelude.{◌≡◌, ◌<◌, ℤ, pos, ◌+ℤ◌, ◌*ℤ◌, ◌<ℤ◌, ◌≤ℤ◌, Bool, Some, length, slice_get};
ghost use Rattle.hyd_net.specs.Sound.{IsSound};
ghost use Rattle.hyd_spec.specs.ProgramTypes.{Tank};
ghost use Rattle.hyd_spec.specs.Scale.{missed_stock_ticks};
ghost use Rattle.hyd_spec.specs.Tank.{walls_of, content_bounds, level_bounds};
ghost use Rattle.hyd_spec_certificates.specs.SpansAsIntervals.{flows_of};
ghost use Rattle.hyd_spec_open_ends.specs.StocksOverLengths.{level_ends, content_ends};
ghost use Rattle.hyd_tank.specs.StockIntervals.{IsInflow, AreHeld, stocks_of};
ghost use Rattle.hyd_open_stocks.specs.EndsOfContents.{contents_of, GoWith, AreWithin, is_curve};
ghost use Rattle.hyd_open_stocks.specs.EndsOfContents.{lower_with, upper_with};
ghost use Rattle.hyd_open_stocks.specs.Goals.{IsGoal, AreAtOnce, IsLater};
ghost use Rattle.hyd_open_stocks.specs.LevelsInReach.{IsInReach};

use crate::ends_of_contents::{Contents, of_levels, of_stock};
use crate::goals::Goal;
use hyd_net::Project;
use hyd_num::Span;
use hyd_tank::{next_stock, stock_at};

/// Parts of a volume tick: a flow tick for a second is one of them.
const PARTS: i128 = 864;

fn no_flow() -> Span
    ensures lo { result.lo ≡ pos 0 }
    ensures hi { result.hi ≡ pos 0 }
{
    Span { lo: 0, hi: 0 }
}

// The inflow that leads from the goal's stock to where the given one leads from the greatest volume that meets the
// level. Where it isn't negative, both lead to the bound or beyond it.
fn later_flow(goal: Goal, inflow: Span) -> Span
    requires inflow { IsInflow inflow }
    requires beyond { pos 0 ≤ℤ goal.beyond }
    ensures small { IsInflow result }
    ensures lo { result.lo ≡ inflow.lo }
    ensures forth { pos 0 ≤ℤ inflow.hi → result.hi ≡ inflow.hi }
    ensures back { inflow.hi <ℤ pos 0 → result.hi ≡ inflow.hi +ℤ (pos 864 *ℤ goal.beyond) }
{
    if inflow.hi >= 0 {
        return inflow;
    }
    Span {
        lo: inflow.lo,
        hi: inflow.hi + PARTS * i128::from(goal.beyond),
    }
}

/// The levels at which the goal's level is met.
pub(crate) fn carried_once(project: &Project, tank: u32, goal: Goal) -> Contents
    requires sound { IsSound project.now }
    requires tank { tank < length project.now.tanks.list }
    requires held { (each : Tank) → slice_get project.now.tanks.list tank ≡ Some each
        → AreHeld (walls_of project.now each) each (stocks_of goal.stock) }
    ensures ends { (each : Tank) (rising : Bool) (target : ℤ) → slice_get project.now.tanks.list tank ≡ Some each
        → IsGoal (walls_of project.now each) each rising target goal
        → AreAtOnce (level_ends (pos 0) (walls_of project.now each) each) (walls_of project.now each) each rising target
        (contents_of result) }
    ensures within { (each : Tank) → slice_get project.now.tanks.list tank ≡ Some each
        → AreWithin (level_bounds each) (level_bounds each) result }
{
    of_levels(stock_at(project, tank, goal.stock, no_flow(), 0).level)
}

/// The levels a second of an inflow later.
pub(crate) fn carried_later(project: &Project, tank: u32, goal: Goal, inflow: Span) -> Contents
    requires sound { IsSound project.now }
    requires tank { tank < length project.now.tanks.list }
    requires held { (each : Tank) → slice_get project.now.tanks.list tank ≡ Some each
        → AreHeld (walls_of project.now each) each (stocks_of goal.stock) }
    requires inflow { IsInflow inflow }
    requires beyond { pos 0 ≤ℤ goal.beyond }
    ensures ends { (each : Tank) (rising : Bool) (target : ℤ) → slice_get project.now.tanks.list tank ≡ Some each
        → IsInReach (walls_of project.now each) each (flows_of inflow) target rising
        → IsGoal (walls_of project.now each) each rising target goal
        → IsLater (level_ends (pos 0) (walls_of project.now each) each) (walls_of project.now each) each
        (flows_of inflow) rising target (contents_of result) }
    ensures within { (each : Tank) → slice_get project.now.tanks.list tank ≡ Some each
        → AreWithin (level_bounds each) (level_bounds each) result }
{
    let flow = later_flow(goal, inflow);
    of_levels(stock_at(project, tank, goal.stock, flow, 1).level)
}

/// The contents with which a next period may begin where the goal's level is met.
pub(crate) fn next_once(project: &Project, tank: u32, with_curve: bool, goal: Goal) -> Contents
    requires sound { IsSound project.now }
    requires tank { tank < length project.now.tanks.list }
    requires held { (each : Tank) → slice_get project.now.tanks.list tank ≡ Some each
        → AreHeld (walls_of project.now each) each (stocks_of goal.stock) }
    requires curve { (each : Tank) → slice_get project.now.tanks.list tank ≡ Some each
        → with_curve ≡ is_curve (walls_of project.now each) }
    ensures ends { (each : Tank) (rising : Bool) (target : ℤ) → slice_get project.now.tanks.list tank ≡ Some each
        → IsGoal (walls_of project.now each) each rising target goal
        → AreAtOnce (content_ends (pos missed_stock_ticks) (walls_of project.now each) each) (walls_of project.now each)
        each rising target (contents_of result) }
    ensures levels { (each : Tank) → slice_get project.now.tanks.list tank ≡ Some each
        → GoWith (lower_with (walls_of project.now each) each) (upper_with (walls_of project.now each) each) result }
    ensures within { (each : Tank) → slice_get project.now.tanks.list tank ≡ Some each
        → AreWithin (content_bounds (walls_of project.now each) each) (level_bounds each) result }
{
    let met = next_stock(project, tank, goal.stock, no_flow(), 0);
    of_stock(with_curve, met)
}

/// The contents with which one may begin a second of an inflow later.
pub(crate) fn next_later(
    project: &Project,
    tank: u32,
    with_curve: bool,
    goal: Goal,
    inflow: Span,
) -> Contents
    requires sound { IsSound project.now }
    requires tank { tank < length project.now.tanks.list }
    requires held { (each : Tank) → slice_get project.now.tanks.list tank ≡ Some each
        → AreHeld (walls_of project.now each) each (stocks_of goal.stock) }
    requires curve { (each : Tank) → slice_get project.now.tanks.list tank ≡ Some each
        → with_curve ≡ is_curve (walls_of project.now each) }
    requires inflow { IsInflow inflow }
    requires beyond { pos 0 ≤ℤ goal.beyond }
    ensures ends { (each : Tank) (rising : Bool) (target : ℤ) → slice_get project.now.tanks.list tank ≡ Some each
        → IsInReach (walls_of project.now each) each (flows_of inflow) target rising
        → IsGoal (walls_of project.now each) each rising target goal
        → IsLater (content_ends (pos missed_stock_ticks) (walls_of project.now each) each) (walls_of project.now each)
        each (flows_of inflow) rising target (contents_of result) }
    ensures levels { (each : Tank) → slice_get project.now.tanks.list tank ≡ Some each
        → GoWith (lower_with (walls_of project.now each) each) (upper_with (walls_of project.now each) each) result }
    ensures within { (each : Tank) → slice_get project.now.tanks.list tank ≡ Some each
        → AreWithin (content_bounds (walls_of project.now each) each) (level_bounds each) result }
{
    let flow = later_flow(goal, inflow);
    let met = next_stock(project, tank, goal.stock, flow, 1);
    of_stock(with_curve, met)
}
