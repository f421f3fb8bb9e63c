//! The curves by straight lines that pumps and general purpose valves name.
#![tactic(auto)]

ghost use Rattle.std.specs.Prelude.{◌≡◌, ◌==◌, ◌<◌, ◌+◌, ◌^◌, List, length, All, IfOk, OnOk};
ghost use Rattle.hyd_num.specs.FileQuantity.{is_us_unit};
ghost use Rattle.hyd_spec_lines.specs.WordsOfLines.{text_of};
ghost use Rattle.hyd_spec_lines.specs.Lines.{LiesIn, Row};
ghost use Rattle.hyd_option_and_rule_lines.specs.FaultOrValue.{words_at};
ghost use Rattle.hyd_spec_input.specs.SingleRows.{IsWrongByItself};
ghost use Rattle.hyd_spec_input.specs.Curves as curve;
ghost use Rattle.hyd_spec_input.specs.Faults.{NoneIs, IsWrongWithOthers};
ghost use Rattle.hyd_spec_input.specs.OptionsAndTimesInForce as force;
ghost use Rattle.hyd_spec_input.specs.MeaningsAcrossRows.{bend_names};
ghost use Rattle.hyd_spec_input.specs.NodeAndLinkRows as row;
ghost use Rattle.hyd_spec_input.specs.Project.{Match, bend_points};
ghost use Rattle.hyd_spec_input.specs.SectionsAndTables.{place as section_place};
ghost use Rattle.hyd_rows_and_tables.specs.RowsOfLines.{rows_at};
ghost use Rattle.hyd_curves.specs.NamedVolumeCurves.{with_name};
ghost use Rattle.hyd_curves.specs.NamedStraightLineCurves.{IsSmallHead, AreBends, AreOfPumps, AreOfValves};
ghost use Rattle.hyd_curves.specs.Points.{ArePoints, points_in, point_in};

use crate::points::{CurvePoint, Points};
use crate::points_in_ticks::head_point;
use hyd_lex::{Line, Lines, Section};
use hyd_net::{HeadPoint, OutOfMemory};
use hyd_network_rows::read_pump;
use hyd_num::FlowUnit;
use hyd_option_and_rule_lines::word_is;
use hyd_rows_and_tables::{NumberedIds, Table};
use std::alloc::Global;

/// The curves by straight lines that pumps name, then those that general purpose valves name, each once, in the order
/// in which they are first named.
#[derive(Drop)]
pub struct Bends {
    /// Their names.
    pub names: NumberedIds,
    /// The points of each in ticks, in the order of `names`.
    pub lists: hyd_net::List<hyd_net::List<HeadPoint>>,
}

fn is_pumps(section: Section) -> bool
    ensures { result ≡ (section_place section == 4) }
{
    match section {
        Section::Pumps => true,
        _ => false,
    }
}

fn is_valves(section: Section) -> bool
    ensures { result ≡ (section_place section == 5) }
{
    match section {
        Section::Valves => true,
        _ => false,
    }
}

// The curve that a valve's line names, where the valve is a general purpose one.
fn valve_curve<'a>(text: &Lines<'a>, line: &Line) -> Option<&'a [u8]>
    requires { LiesIn text.now.text line.now }
    ensures { text_of result ≡ row.valve_curve (words_at text.now line.now) }
{
    if !word_is(text, line, 4, b"GPV") {
        return None;
    }
    text.word(line, 5)
}

// A point whose flow and head are in range.
fn bend_point(point: CurvePoint, unit: FlowUnit) -> HeadPoint
    requires { IsSmallHead (curve.head_point unit (is_us_unit unit) (point_in point)) }
    ensures { result ≡ curve.head_point unit (is_us_unit unit) (point_in point) }
{
    let ticks = head_point(point, unit);
    HeadPoint {
        flow: ticks.place as i64,
        head: ticks.value as i64,
    }
}

// The points of a curve whose flows and heads are in range.
fn bend(
    alloc: Global,
    points: &[CurvePoint],
    unit: FlowUnit,
) -> Result<hyd_net::List<HeadPoint>, OutOfMemory>
    requires { All IsSmallHead (curve.head_points unit (is_us_unit unit) (points_in points.now)) }
    ensures { IfOk result (λ list. list.list ≡ curve.head_points unit (is_us_unit unit) (points_in points.now)) }
{
    let mut list = hyd_net::List::new(alloc);
    for point in points {
        list.push(bend_point(*point, unit))?;
    }
    Ok(list)
}

impl Bends {
    // Adds a curve, unless one of its name is there.
    fn add(
        &mut self,
        alloc: Global,
        name: &[u8],
        points: &[CurvePoint],
        unit: FlowUnit,
    ) -> Result<(), OutOfMemory>
        requires few { length self.old.names < 2 ^ 31 }
        requires small { All IsSmallHead (curve.head_points unit (is_us_unit unit) (points_in points.now)) }
        ensures names { OnOk result (self.new.names ≡ with_name self.old.names name.now) }
        ensures lists { (rows : List Row) → AreBends rows self.old
            → curve.head_points unit (is_us_unit unit) (points_in points.now) ≡ bend_points rows name.now
            → OnOk result (AreBends rows self.new) }
    {
        let new = self.names.add(name)?;
        if !new {
            return Ok(());
        }
        self.lists.push(bend(alloc, points, unit)?)?;
        Ok(())
    }

    // The next row, for pumps.
    fn add_pump(
        &mut self,
        alloc: Global,
        text: &Lines<'_>,
        lines: &[Line],
        place: usize,
        curves: &Table,
        points: &Points,
        unit: FlowUnit,
    ) -> Result<(), OutOfMemory>
        requires within { place < length lines.now }
        requires few { length lines.now < 2 ^ 30 }
        requires lie { All (LiesIn text.now.text) lines.now }
        requires right { NoneIs (IsWrongByItself (rows_at text.now.text lines.now)) }
        requires with_others { NoneIs (IsWrongWithOthers (rows_at text.now.text lines.now)) }
        requires points { ArePoints (rows_at text.now.text lines.now) curves.now.names points.now }
        requires unit { unit ≡ force.unit (rows_at text.now.text lines.now) }
        requires bends { AreOfPumps (rows_at text.now.text lines.now) place self.old }
        ensures { OnOk result (AreOfPumps (rows_at text.now.text lines.now) (place + 1) self.new) }
    {
        let line = &lines[place];
        if !is_pumps(line.section) {
            return Ok(());
        }
        let Ok(row) = read_pump(text, line) else {
            return Ok(());
        };
        let points = points.named(curves, row.curve);
        if points.len() < 4 {
            return Ok(());
        }
        self.add(alloc, row.curve, points, unit)?;
        Ok(())
    }

    // The next row, for valves.
    fn add_valve(
        &mut self,
        alloc: Global,
        text: &Lines<'_>,
        lines: &[Line],
        place: usize,
        curves: &Table,
        points: &Points,
        unit: FlowUnit,
    ) -> Result<(), OutOfMemory>
        requires within { place < length lines.now }
        requires few { length lines.now < 2 ^ 30 }
        requires lie { All (LiesIn text.now.text) lines.now }
        requires with_others { NoneIs (IsWrongWithOthers (rows_at text.now.text lines.now)) }
        requires points { ArePoints (rows_at text.now.text lines.now) curves.now.names points.now }
        requires unit { unit ≡ force.unit (rows_at text.now.text lines.now) }
        requires bends { AreOfValves (rows_at text.now.text lines.now) place self.old }
        ensures { OnOk result (AreOfValves (rows_at text.now.text lines.now) (place + 1) self.new) }
    {
        let line = &lines[place];
        if !is_valves(line.section) {
            return Ok(());
        }
        let Some(name) = valve_curve(text, line) else {
            return Ok(());
        };
        self.add(alloc, name, points.named(curves, name), unit)?;
        Ok(())
    }
}

/// Gathers the curves by straight lines that pumps and then general purpose valves name, of a file whose rows are right
/// by themselves and with the others, by the points of all its curves, where `curves` is the table of its rows of
/// [CURVES] and `unit` the unit of flows in force.
pub fn gather_bends(
    alloc: Global,
    text: &Lines<'_>,
    lines: &[Line],
    curves: &Table,
    points: &Points,
    unit: FlowUnit,
) -> Result<Bends, OutOfMemory>
    requires few { length lines.now < 2 ^ 30 }
    requires lie { All (LiesIn text.now.text) lines.now }
    requires right { NoneIs (IsWrongByItself (rows_at text.now.text lines.now)) }
    requires with_others { NoneIs (IsWrongWithOthers (rows_at text.now.text lines.now)) }
    requires points { ArePoints (rows_at text.now.text lines.now) curves.now.names points.now }
    requires unit { unit ≡ force.unit (rows_at text.now.text lines.now) }
    ensures names { IfOk result (λ bends. bends.names ≡ bend_names (rows_at text.now.text lines.now)) }
    ensures lists { IfOk result (λ bends.
        Match (λ name list. list.list ≡ bend_points (rows_at text.now.text lines.now) name)
        (bend_names (rows_at text.now.text lines.now)) bends.lists.list) }
{
    let mut bends = pump_bends(alloc, text, lines, curves, points, unit)?;
    for place in 0..lines.len() {
        bends.add_valve(alloc, text, lines, place, curves, points, unit)?;
    }
    Ok(bends)
}

// Those that pumps name.
fn pump_bends(
    alloc: Global,
    text: &Lines<'_>,
    lines: &[Line],
    curves: &Table,
    points: &Points,
    unit: FlowUnit,
) -> Result<Bends, OutOfMemory>
    requires few { length lines.now < 2 ^ 30 }
    requires lie { All (LiesIn text.now.text) lines.now }
    requires right { NoneIs (IsWrongByItself (rows_at text.now.text lines.now)) }
    requires with_others { NoneIs (IsWrongWithOthers (rows_at text.now.text lines.now)) }
    requires points { ArePoints (rows_at text.now.text lines.now) curves.now.names points.now }
    requires unit { unit ≡ force.unit (rows_at text.now.text lines.now) }
    ensures { IfOk result (AreOfValves (rows_at text.now.text lines.now) 0) }
{
    let mut bends = Bends {
        names: NumberedIds::new(alloc),
        lists: hyd_net::List::new(alloc),
    };
    for place in 0..lines.len() {
        bends.add_pump(alloc, text, lines, place, curves, points, unit)?;
    }
    Ok(bends)
}
