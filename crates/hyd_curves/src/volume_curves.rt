//! The volume curves that tanks name.
#![tactic(auto)]

ghost use Rattle.std.specs.Prelude.{◌≡◌, ◌<◌, ◌+◌, ◌^◌, List, length, All, IfOk, OnOk};
ghost use Rattle.hyd_spec_lines.specs.Lines.{LiesIn, Row};
ghost use Rattle.hyd_spec_input.specs.SingleRows.{IsWrongByItself};
ghost use Rattle.hyd_spec_input.specs.Curves as curve;
ghost use Rattle.hyd_spec_input.specs.Faults.{NoneIs, IsWrongWithOthers};
ghost use Rattle.hyd_spec_input.specs.OptionsAndTimesInForce as force;
ghost use Rattle.hyd_spec_input.specs.MeaningsAcrossRows.{shape_names};
ghost use Rattle.hyd_spec_input.specs.Project.{Match, shape_points};
ghost use Rattle.hyd_rows_and_tables.specs.RowsOfLines.{rows_at};
ghost use Rattle.hyd_curves.specs.NamedVolumeCurves.{IsSmallVolume, AreShapesAt, AreShapes, with_name};
ghost use Rattle.hyd_curves.specs.Points.{ArePoints, points_in, point_in};

use crate::points::{CurvePoint, Points};
use crate::points_in_ticks::volume_point;
use hyd_lex::{Line, Lines};
use hyd_net::{OutOfMemory, VolumePoint};
use hyd_network_rows::read_tank;
use hyd_num::FlowUnit;
use hyd_rows_and_tables::{NumberedIds, Table, is_tanks};
use std::alloc::Global;

/// The volume curves that tanks name, each once, in the order in which they are first named.
#[derive(Drop)]
pub struct Shapes {
    /// Their names.
    pub names: NumberedIds,
    /// The points of each in ticks, in the order of `names`.
    pub lists: hyd_net::List<hyd_net::List<VolumePoint>>,
}

// A point whose level and volume are in range.
fn shape_point(point: CurvePoint, us: bool) -> VolumePoint
    requires { IsSmallVolume (curve.volume_point us (point_in point)) }
    ensures { result ≡ curve.volume_point us (point_in point) }
{
    let ticks = volume_point(point, us);
    VolumePoint {
        level: ticks.place as i64,
        volume: ticks.value as i64,
    }
}

// The points of a curve whose levels and volumes are in range.
fn shape(
    alloc: Global,
    points: &[CurvePoint],
    us: bool,
) -> Result<hyd_net::List<VolumePoint>, OutOfMemory>
    requires { All IsSmallVolume (curve.volume_points us (points_in points.now)) }
    ensures { IfOk result (λ list. list.list ≡ curve.volume_points us (points_in points.now)) }
{
    let mut list = hyd_net::List::new(alloc);
    for point in points {
        list.push(shape_point(*point, us))?;
    }
    Ok(list)
}

impl Shapes {
    // Adds a curve, unless one of its name is there.
    fn add(
        &mut self,
        alloc: Global,
        name: &[u8],
        points: &[CurvePoint],
        us: bool,
    ) -> Result<(), OutOfMemory>
        requires few { length self.old.names < 2 ^ 31 }
        requires small { All IsSmallVolume (curve.volume_points us (points_in points.now)) }
        ensures names { OnOk result (self.new.names ≡ with_name self.old.names name.now) }
        ensures lists { (rows : List Row) → AreShapes rows self.old
            → curve.volume_points us (points_in points.now) ≡ shape_points rows name.now
            → OnOk result (AreShapes rows self.new) }
    {
        let new = self.names.add(name)?;
        if !new {
            return Ok(());
        }
        self.lists.push(shape(alloc, points, us)?)?;
        Ok(())
    }

    // The next row.
    fn add_row(
        &mut self,
        alloc: Global,
        text: &Lines<'_>,
        lines: &[Line],
        place: usize,
        curves: &Table,
        points: &Points,
        unit: FlowUnit,
    ) -> Result<(), OutOfMemory>
        requires within { place < length lines.now }
        requires few { length lines.now < 2 ^ 31 }
        requires lie { All (LiesIn text.now.text) lines.now }
        requires right { NoneIs (IsWrongByItself (rows_at text.now.text lines.now)) }
        requires with_others { NoneIs (IsWrongWithOthers (rows_at text.now.text lines.now)) }
        requires points { ArePoints (rows_at text.now.text lines.now) curves.now.names points.now }
        requires unit { unit ≡ force.unit (rows_at text.now.text lines.now) }
        requires shapes { AreShapesAt (rows_at text.now.text lines.now) place self.old }
        ensures { OnOk result (AreShapesAt (rows_at text.now.text lines.now) (place + 1) self.new) }
    {
        let line = &lines[place];
        if !is_tanks(line.section) {
            return Ok(());
        }
        let Ok(row) = read_tank(text, line) else {
            return Ok(());
        };
        let Some(name) = row.curve else {
            return Ok(());
        };
        self.add(alloc, name, points.named(curves, name), unit.is_us())?;
        Ok(())
    }
}

/// Gathers the volume curves that tanks name, of a file whose rows are right by themselves and with the others, by the
/// points of all its curves, where `curves` is the table of its rows of [CURVES] and `unit` the unit of flows in force.
pub fn gather_shapes(
    alloc: Global,
    text: &Lines<'_>,
    lines: &[Line],
    curves: &Table,
    points: &Points,
    unit: FlowUnit,
) -> Result<Shapes, OutOfMemory>
    requires few { length lines.now < 2 ^ 31 }
    requires lie { All (LiesIn text.now.text) lines.now }
    requires right { NoneIs (IsWrongByItself (rows_at text.now.text lines.now)) }
    requires with_others { NoneIs (IsWrongWithOthers (rows_at text.now.text lines.now)) }
    requires points { ArePoints (rows_at text.now.text lines.now) curves.now.names points.now }
    requires unit { unit ≡ force.unit (rows_at text.now.text lines.now) }
    ensures names { IfOk result (λ shapes. shapes.names ≡ shape_names (rows_at text.now.text lines.now)) }
    ensures lists { IfOk result (λ shapes.
        Match (λ name list. list.list ≡ shape_points (rows_at text.now.text lines.now) name)
        (shape_names (rows_at text.now.text lines.now)) shapes.lists.list) }
{
    let mut shapes = Shapes {
        names: NumberedIds::new(alloc),
        lists: hyd_net::List::new(alloc),
    };
    for place in 0..lines.len() {
        shapes.add_row(alloc, text, lines, place, curves, points, unit)?;
    }
    Ok(shapes)
}
