//! Stocks of tanks at the end of a period whose length lies between two seconds.
#![tactic(auto)]

ghost use Rattle.std.specs.Prelude.{◌≡◌, ◌^◌, ◌<◌, ◌≤◌, pos, Some, IfSome, length, slice_get};
ghost use Rattle.std.specs.Option.{option_map};
ghost use Rattle.hyd_net.specs.Sound.{IsSound};
ghost use Rattle.hyd_spec.specs.ProgramTypes.{Tank};
ghost use Rattle.hyd_spec.specs.Scale.{missed_stock_ticks};
ghost use Rattle.hyd_spec.specs.Tank.{walls_of, level_bounds, content_bounds};
ghost use Rattle.hyd_spec_certificates.specs.SpansAsIntervals.{levels_of, flows_of};
ghost use Rattle.hyd_spec_open_ends.specs.StocksOverLengths as over;
ghost use Rattle.hyd_theorems_on_definitions.specs.LyingInIntervals.{IsWithin};
ghost use Rattle.hyd_tank.specs.StockIntervals.{stocks_of, IsInflow, AreHeld};
ghost use Rattle.hyd_open_stocks.specs.EndsOfContents.{contents_of, GoWith, AreOfStocks, AreWithin, is_curve};
ghost use Rattle.hyd_open_stocks.specs.EndsOfContents.{lower_with, upper_with, arrival_of};
ghost use Rattle.hyd_open_stocks.specs.LevelsInReach.{IsInReach};

use crate::ends_of_contents::{Contents, cut, hull, of_levels, of_stock, to_levels, to_stock};
use crate::goals::goal_at;
use crate::lengths_and_arrivals::{Arrival, Lengths};
use crate::reached_levels::{carried_later, carried_once, next_later, next_once};
use hyd_net::Project;
use hyd_num::Span;
use hyd_spec_certificates::LevelSpan;
use hyd_tank::{Stock, next_stock, stock_at, tank_at};

/// The levels carried to the end of a period that lasts between two lengths, from a stock under an inflow (flow ticks):
/// from the least carried level after one of the lengths to the greatest. For each inflow a content moves one way. The
/// network is sound.
pub fn carried_over(
    project: &Project,
    tank: u32,
    stock: Stock,
    inflow: Span,
    lengths: Lengths,
) -> LevelSpan
    requires sound { IsSound project.now }
    requires tank { tank < length project.now.tanks.list }
    requires held { (each : Tank) → slice_get project.now.tanks.list tank ≡ Some each
        → AreHeld (walls_of project.now each) each (stocks_of stock) }
    requires inflow { IsInflow inflow }
    requires shortest { lengths.shortest ≤ 10 ^ 8 }
    requires longest { lengths.longest ≤ 10 ^ 8 }
    ensures value { (each : Tank) → slice_get project.now.tanks.list tank ≡ Some each
        → levels_of result ≡ over.carried_levels_over (walls_of project.now each) each (stocks_of stock)
        (flows_of inflow) lengths.shortest lengths.longest }
    ensures within { (each : Tank) → slice_get project.now.tanks.list tank ≡ Some each
        → IsWithin (level_bounds each) (levels_of result) }
{
    let first = stock_at(project, tank, stock, inflow, lengths.shortest);
    let last = stock_at(project, tank, stock, inflow, lengths.longest);
    to_levels(hull(of_levels(first.level), of_levels(last.level)))
}

// What a level that has just been reached leaves of the carried levels.
fn cut_carried(
    project: &Project,
    tank: u32,
    inflow: Span,
    arrival: Arrival,
    levels: LevelSpan,
) -> LevelSpan
    requires sound { IsSound project.now }
    requires tank { tank < length project.now.tanks.list }
    requires inflow { IsInflow inflow }
    requires reach { (each : Tank) → slice_get project.now.tanks.list tank ≡ Some each
        → IsInReach (walls_of project.now each) each (flows_of inflow) arrival.target arrival.rising }
    ensures value { (each : Tank) → slice_get project.now.tanks.list tank ≡ Some each
        → levels_of result ≡ over.cut_by (over.level_ends (pos 0) (walls_of project.now each) each)
        (walls_of project.now each) each (flows_of inflow) (arrival_of arrival) (levels_of levels) }
    ensures within { (each : Tank) → slice_get project.now.tanks.list tank ≡ Some each
        → IsWithin (level_bounds each) (levels_of levels) → IsWithin (level_bounds each) (levels_of result) }
{
    let goal = goal_at(project, tank, arrival);
    let once = carried_once(project, tank, goal);
    let later = carried_later(project, tank, goal, inflow);
    to_levels(cut(of_levels(levels), once, later, arrival))
}

/// The carried levels of a tank at the end of a period of such lengths, cut by the level that it has just reached, if
/// any. The level is in the tank's reach. The network is sound.
pub fn carried_at_end(
    project: &Project,
    tank: u32,
    stock: Stock,
    inflow: Span,
    lengths: Lengths,
    arrival: Option<Arrival>,
) -> LevelSpan
    requires sound { IsSound project.now }
    requires tank { tank < length project.now.tanks.list }
    requires held { (each : Tank) → slice_get project.now.tanks.list tank ≡ Some each
        → AreHeld (walls_of project.now each) each (stocks_of stock) }
    requires inflow { IsInflow inflow }
    requires shortest { lengths.shortest ≤ 10 ^ 8 }
    requires longest { lengths.longest ≤ 10 ^ 8 }
    requires reach { (each : Tank) → slice_get project.now.tanks.list tank ≡ Some each
        → IfSome arrival (λ here. IsInReach (walls_of project.now each) each (flows_of inflow) here.target
        here.rising) }
    ensures value { (each : Tank) → slice_get project.now.tanks.list tank ≡ Some each
        → levels_of result ≡ over.carried_at_end (walls_of project.now each) each (stocks_of stock) (flows_of inflow)
        lengths.shortest lengths.longest (option_map arrival_of arrival) }
    ensures within { (each : Tank) → slice_get project.now.tanks.list tank ≡ Some each
        → IsWithin (level_bounds each) (levels_of result) }
{
    let levels = carried_over(project, tank, stock, inflow, lengths);
    match arrival {
        None => levels,
        Some(here) => cut_carried(project, tank, inflow, here, levels),
    }
}

// Whether a tank has a volume curve.
fn has_curve(project: &Project, tank: u32) -> bool
    requires { tank < length project.now.tanks.list }
    ensures { (each : Tank) → slice_get project.now.tanks.list tank ≡ Some each
        → result ≡ is_curve (walls_of project.now each) }
{
    tank_at(project, tank).shape.is_some()
}

// The contents with which the next period begins where nothing has just been reached.
fn contents_over(
    project: &Project,
    tank: u32,
    with_curve: bool,
    stock: Stock,
    inflow: Span,
    lengths: Lengths,
) -> Contents
    requires sound { IsSound project.now }
    requires tank { tank < length project.now.tanks.list }
    requires held { (each : Tank) → slice_get project.now.tanks.list tank ≡ Some each
        → AreHeld (walls_of project.now each) each (stocks_of stock) }
    requires curve { (each : Tank) → slice_get project.now.tanks.list tank ≡ Some each
        → with_curve ≡ is_curve (walls_of project.now each) }
    requires inflow { IsInflow inflow }
    requires shortest { lengths.shortest ≤ 10 ^ 8 }
    requires longest { lengths.longest ≤ 10 ^ 8 }
    ensures value { (each : Tank) → slice_get project.now.tanks.list tank ≡ Some each
        → AreOfStocks (walls_of project.now each) each (over.contents_over (pos missed_stock_ticks)
        (walls_of project.now each) each (stocks_of stock) (flows_of inflow) lengths.shortest lengths.longest) result }
    ensures within { (each : Tank) → slice_get project.now.tanks.list tank ≡ Some each
        → AreWithin (content_bounds (walls_of project.now each) each) (level_bounds each) result }
{
    let first = next_stock(project, tank, stock, inflow, lengths.shortest);
    let last = next_stock(project, tank, stock, inflow, lengths.longest);
    hull(of_stock(with_curve, first), of_stock(with_curve, last))
}

// What a level that has just been reached leaves of these contents.
fn cut_contents(
    project: &Project,
    tank: u32,
    with_curve: bool,
    inflow: Span,
    arrival: Arrival,
    contents: Contents,
) -> Contents
    requires sound { IsSound project.now }
    requires tank { tank < length project.now.tanks.list }
    requires curve { (each : Tank) → slice_get project.now.tanks.list tank ≡ Some each
        → with_curve ≡ is_curve (walls_of project.now each) }
    requires inflow { IsInflow inflow }
    requires reach { (each : Tank) → slice_get project.now.tanks.list tank ≡ Some each
        → IsInReach (walls_of project.now each) each (flows_of inflow) arrival.target arrival.rising }
    ensures value { (each : Tank) → slice_get project.now.tanks.list tank ≡ Some each
        → contents_of result ≡ over.cut_by (over.content_ends (pos missed_stock_ticks) (walls_of project.now each) each)
        (walls_of project.now each) each (flows_of inflow) (arrival_of arrival) (contents_of contents) }
    ensures levels { (each : Tank) → slice_get project.now.tanks.list tank ≡ Some each
        → GoWith (lower_with (walls_of project.now each) each) (upper_with (walls_of project.now each) each) contents
        → GoWith (lower_with (walls_of project.now each) each) (upper_with (walls_of project.now each) each) result }
    ensures within { (each : Tank) → slice_get project.now.tanks.list tank ≡ Some each
        → AreWithin (content_bounds (walls_of project.now each) each) (level_bounds each) contents
        → AreWithin (content_bounds (walls_of project.now each) each) (level_bounds each) result }
{
    let goal = goal_at(project, tank, arrival);
    let once = next_once(project, tank, with_curve, goal);
    let later = next_later(project, tank, with_curve, goal, inflow);
    cut(contents, once, later, arrival)
}

/// The stock with which the next period begins, after a period of such lengths, cut by the level that the tank has just
/// reached, if any; level controls may keep less of its levels. As after one length, each end of the level of a tank
/// without a volume curve, and of the volume of one with a curve, is rounded and moved outward by ten ticks, but not
/// beyond its bounds; with a curve the levels go with the volumes. The level is in the tank's reach. The network is
/// sound.
pub fn stock_at_end(
    project: &Project,
    tank: u32,
    stock: Stock,
    inflow: Span,
    lengths: Lengths,
    arrival: Option<Arrival>,
) -> Stock
    requires sound { IsSound project.now }
    requires tank { tank < length project.now.tanks.list }
    requires held { (each : Tank) → slice_get project.now.tanks.list tank ≡ Some each
        → AreHeld (walls_of project.now each) each (stocks_of stock) }
    requires inflow { IsInflow inflow }
    requires shortest { lengths.shortest ≤ 10 ^ 8 }
    requires longest { lengths.longest ≤ 10 ^ 8 }
    requires reach { (each : Tank) → slice_get project.now.tanks.list tank ≡ Some each
        → IfSome arrival (λ here. IsInReach (walls_of project.now each) each (flows_of inflow) here.target
        here.rising) }
    ensures value { (each : Tank) → slice_get project.now.tanks.list tank ≡ Some each
        → stocks_of result ≡ over.stocks_at_end (walls_of project.now each) each (stocks_of stock) (flows_of inflow)
        lengths.shortest lengths.longest (option_map arrival_of arrival) }
    ensures held { (each : Tank) → slice_get project.now.tanks.list tank ≡ Some each
        → AreHeld (walls_of project.now each) each (stocks_of result) }
{
    let with_curve = has_curve(project, tank);
    let all = contents_over(project, tank, with_curve, stock, inflow, lengths);
    let left = match arrival {
        None => all,
        Some(here) => cut_contents(project, tank, with_curve, inflow, here, all),
    };
    to_stock(with_curve, left)
}
