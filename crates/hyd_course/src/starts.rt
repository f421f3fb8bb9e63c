//! Whether a period of a witness follows from the one before, or from the file.
#![tactic(auto)]

ghost use Rattle.std.specs.Prelude.{◌≡◌, ◌<◌, ◌≤◌, Some, length, slice_get};
ghost use Rattle.std.specs.Bool.{OnTrue, OnFalse};
ghost use Rattle.hyd_net.specs.Sound.{IsSound};
ghost use Rattle.hyd_spec.specs.ProgramTypes.{Tank};
ghost use Rattle.hyd_spec.specs.PeriodLength.{Period};
ghost use Rattle.hyd_spec.specs.History.{AreNextStocks};
ghost use Rattle.hyd_spec_witnesses.specs.MetPeriods.{Reached, StartIsMet};
ghost use Rattle.hyd_laws_at_scale.specs.Scales.{parts_of};
ghost use Rattle.hyd_witness_texts.specs.MomentView.{moment_of};
ghost use Rattle.hyd_met_flows.specs.Periods.{IsMomentOf};
ghost use Rattle.hyd_stocks_at_scale.specs.Motions.{stock_of, IsSmallStock};
ghost use Rattle.hyd_course.specs.Stocks.{stock_in, IsSmall, AreSmallStocks, initial_stock, AreInitialStocks};
ghost use Rattle.hyd_course.specs.Stocks.{BeginsRun, IsNext, Follows};
ghost use Rattle.hyd_course.specs.Standings.{IsStanding, IsKept, StandsAt};

use crate::standing::{Lasted, Standing};
use hyd_laws_at_scale::Scale;
use hyd_met_flows::number_at;
use hyd_net::Project;
use hyd_stocks_at_scale::{Stock, is_next_stock};
use hyd_tank::initial_stock;
use hyd_witness_texts::Moment;

/// The stock of a tank as a moment begins.
pub(crate) fn stock_of(moment: &Moment, tank: usize) -> Stock
    requires level { tank < length moment.now.levels.list }
    requires volume { tank < length moment.now.volumes.list }
    ensures { stock_of result ≡ stock_in (moment_of moment.now) tank }
{
    Stock {
        level: number_at(moment.levels.as_slice(), tank),
        volume: number_at(moment.volumes.as_slice(), tank),
    }
}

/// The stock with which the file begins, in parts.
pub(crate) fn initial_in_parts(project: &Project, scale: Scale, tank: usize) -> Stock
    requires sound { IsSound project.now }
    requires tank { tank < length project.now.tanks.list }
    ensures value { (each : Tank) → slice_get project.now.tanks.list tank ≡ Some each
        → stock_of result ≡ initial_stock project.now (parts_of scale) each }
    ensures small { IsSmallStock result }
{
    let initial = initial_stock(project, tank as u32);
    Stock {
        level: scale.in_parts(i128::from(initial.level.lo)),
        volume: scale.in_parts(i128::from(initial.volume.lo)),
    }
}

// Whether two stocks are one.
fn is_same(a: Stock, b: Stock) -> bool
    ensures yes { OnTrue result (stock_of a ≡ stock_of b) }
    ensures no { OnFalse result (stock_of a ≡ stock_of b → ⊥) }
{
    if a.level != b.level {
        return false;
    }
    a.volume == b.volume
}

// Whether a tank's stock as a moment begins is the one with which the file begins.
fn is_initial(project: &Project, scale: Scale, moment: &Moment, tank: usize) -> bool
    requires sound { IsSound project.now }
    requires moment { IsMomentOf project.now (moment_of moment.now) }
    requires tank { tank < length project.now.tanks.list }
    ensures yes { (each : Tank) → slice_get project.now.tanks.list tank ≡ Some each → OnTrue result
        (stock_in (moment_of moment.now) tank ≡ initial_stock project.now (parts_of scale) each) }
    ensures no { (each : Tank) → slice_get project.now.tanks.list tank ≡ Some each → OnFalse result
        (stock_in (moment_of moment.now) tank ≡ initial_stock project.now (parts_of scale) each → ⊥) }
    ensures small { OnTrue result (IsSmall (stock_in (moment_of moment.now) tank)) }
{
    is_same(
        stock_of(moment, tank),
        initial_in_parts(project, scale, tank),
    )
}

// Whether a moment begins with the stocks with which the file begins.
fn are_initial(project: &Project, scale: Scale, moment: &Moment) -> bool
    requires sound { IsSound project.now }
    requires moment { IsMomentOf project.now (moment_of moment.now) }
    ensures yes { OnTrue result (AreInitialStocks project.now (parts_of scale) (moment_of moment.now)) }
    ensures no { OnFalse result (AreInitialStocks project.now (parts_of scale) (moment_of moment.now) → ⊥) }
    ensures small { OnTrue result (AreSmallStocks project.now (moment_of moment.now)) }
{
    for tank in 0..project.tanks.len() {
        if !is_initial(project, scale, moment, tank) {
            return false;
        }
    }
    true
}

// Whether a tank's stock as a moment begins may follow the last period.
fn is_next(
    project: &Project,
    standing: &Standing,
    seconds: u32,
    moment: &Moment,
    tank: usize,
) -> bool
    requires sound { IsSound project.now }
    requires standing { IsStanding project.now standing.now }
    requires moment { IsMomentOf project.now (moment_of moment.now) }
    requires there { tank < length project.now.tanks.list }
    ensures yes { (before : Period) (each : Tank) → IsKept project.now before standing.now → before.length ≡ seconds
        → slice_get project.now.tanks.list tank ≡ Some each
        → OnTrue result (IsNext project.now (parts_of standing.now.scale) before (moment_of moment.now) tank each) }
    ensures no { (before : Period) (each : Tank) → IsKept project.now before standing.now → before.length ≡ seconds
        → slice_get project.now.tanks.list tank ≡ Some each
        → OnFalse result (IsNext project.now (parts_of standing.now.scale) before (moment_of moment.now) tank each
        → ⊥) }
    ensures small { OnTrue result (IsSmall (stock_in (moment_of moment.now) tank)) }
{
    is_next_stock(
        project,
        tank as u32,
        standing.scale,
        standing.stocks[tank],
        standing.inflows[tank],
        seconds,
        stock_of(moment, tank),
    )
}

// Whether the stocks as a moment begins may follow the last period.
fn are_next(project: &Project, standing: &Standing, seconds: u32, moment: &Moment) -> bool
    requires sound { IsSound project.now }
    requires standing { IsStanding project.now standing.now }
    requires moment { IsMomentOf project.now (moment_of moment.now) }
    ensures yes { (before : Period) → IsKept project.now before standing.now → before.length ≡ seconds
        → OnTrue result (AreNextStocks project.now (parts_of standing.now.scale) before moment.now.levels.list
        moment.now.volumes.list) }
    ensures no { (before : Period) → IsKept project.now before standing.now → before.length ≡ seconds
        → OnFalse result (AreNextStocks project.now (parts_of standing.now.scale) before moment.now.levels.list
        moment.now.volumes.list → ⊥) }
    ensures small { OnTrue result (AreSmallStocks project.now (moment_of moment.now)) }
{
    for tank in 0..project.tanks.len() {
        if !is_next(project, standing, seconds, moment, tank) {
            return false;
        }
    }
    true
}

// Whether a moment begins where the last period ends, which isn't the last one of the run, with stocks that may follow.
fn follows(project: &Project, standing: &Standing, last: Lasted, moment: &Moment) -> bool
    requires sound { IsSound project.now }
    requires standing { IsStanding project.now standing.now }
    requires last { standing.now.last ≡ Some last }
    requires moment { IsMomentOf project.now (moment_of moment.now) }
    ensures yes { (before : Period) → IsKept project.now before standing.now
        → OnTrue result (Follows project.now (parts_of standing.now.scale) before (moment_of moment.now)) }
    ensures no { (before : Period) → IsKept project.now before standing.now
        → OnFalse result (Follows project.now (parts_of standing.now.scale) before (moment_of moment.now) → ⊥) }
    ensures small { OnTrue result (AreSmallStocks project.now (moment_of moment.now)) }
    ensures within { OnTrue result (moment.now.time ≤ project.now.times.duration) }
{
    if last.time == project.times.duration {
        return false;
    }
    if moment.time != last.time + last.length {
        return false;
    }
    are_next(project, standing, last.length, moment)
}

// Whether a moment begins at time 0 with the stocks of the file.
fn begins(project: &Project, scale: Scale, moment: &Moment) -> bool
    requires sound { IsSound project.now }
    requires moment { IsMomentOf project.now (moment_of moment.now) }
    ensures yes { OnTrue result (BeginsRun project.now (parts_of scale) (moment_of moment.now)) }
    ensures no { OnFalse result (BeginsRun project.now (parts_of scale) (moment_of moment.now) → ⊥) }
    ensures small { OnTrue result (AreSmallStocks project.now (moment_of moment.now)) }
    ensures within { OnTrue result (moment.now.time ≤ project.now.times.duration) }
{
    if moment.time != 0 {
        return false;
    }
    are_initial(project, scale, moment)
}

/// Whether the start of a moment is met.
pub(crate) fn start_is_met(project: &Project, standing: &Standing, moment: &Moment) -> bool
    requires sound { IsSound project.now }
    requires standing { IsStanding project.now standing.now }
    requires moment { IsMomentOf project.now (moment_of moment.now) }
    ensures yes { (reached : Reached) → StandsAt project.now (parts_of standing.now.scale) reached standing.now
        → OnTrue result (StartIsMet project.now (parts_of standing.now.scale) reached (moment_of moment.now)) }
    ensures no { (reached : Reached) → StandsAt project.now (parts_of standing.now.scale) reached standing.now
        → OnFalse result (StartIsMet project.now (parts_of standing.now.scale) reached (moment_of moment.now) → ⊥) }
    ensures small { OnTrue result (AreSmallStocks project.now (moment_of moment.now)) }
    ensures within { OnTrue result (moment.now.time ≤ project.now.times.duration) }
{
    if u64::from(moment.number) != standing.count {
        return false;
    }
    match standing.last {
        None => begins(project, standing.scale, moment),
        Some(last) => follows(project, standing, last, moment),
    }
}
