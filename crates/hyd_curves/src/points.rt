//! The points of all curves.
#![tactic(auto)]

ghost use Rattle.std.specs.Prelude.{◌≡◌, ◌<◌, ◌+◌, List, [], length, IfOk, OnOk};
ghost use Rattle.std.specs.List.{All};
ghost use Rattle.hyd_spec_lines.specs.Lines.{LiesIn, Row};
ghost use Rattle.hyd_spec_lines.specs.declared.section.Section.TheVariants.{Curves};
ghost use Rattle.hyd_spec_input.specs.SingleRows.{IsWrongByItself};
ghost use Rattle.hyd_spec_input.specs.Faults.{NoneIs};
ghost use Rattle.hyd_spec_input.specs.SectionsAndTables.{rows_of, curve_named};
ghost use Rattle.hyd_rows_and_tables.specs.RowsOfLines.{rows_at};
ghost use Rattle.hyd_rows_and_tables.specs.IdTables.{IsTable, AreEmpty};
ghost use Rattle.hyd_curves.specs.Points.{ArePoints, AreGathered, HasOneMore, points_in, point_in, each};

use hyd_lex::{Line, Lines};
use hyd_net::OutOfMemory;
use hyd_network_rows::read_curve;
use hyd_num::Decimal;
use hyd_rows_and_tables::{Table, is_curves};
use std::alloc::Global;

/// A point of a curve, as the numbers of its row.
#[derive(Clone, Copy, Drop)]
pub struct CurvePoint {
    /// A flow, or a tank's level above its bottom, in the file's unit.
    pub x: Decimal,
    /// A head, or a volume up to the level, in the file's unit.
    pub y: Decimal,
}

/// The points of all curves, each curve's in the order of its rows, by the number that its ID has in the table of
/// [CURVES].
#[derive(Drop)]
pub struct Points {
    pub lists: Vec<hyd_net::List<CurvePoint>>,
}

// So many lists without points.
fn empty_lists(alloc: Global, count: usize) -> Result<Points, OutOfMemory>
    ensures { IfOk result (λ points. AreEmpty points.lists.items count) }
{
    let mut lists = Vec::new(alloc);
    for _ in 0..count {
        lists.push(hyd_net::List::new(alloc))?;
    }
    Ok(Points { lists })
}

// Appends a point to the list of a curve.
fn push_at(
    lists: &mut Vec<hyd_net::List<CurvePoint>>,
    number: usize,
    point: CurvePoint,
) -> Result<(), OutOfMemory>
    requires { number < length lists.old.items }
    ensures { OnOk result (HasOneMore (each lists.old.items) (each lists.new.items) number (point_in point)) }
{
    let list = &mut lists[number];
    list.push(point)?;
    Ok(())
}

/// Gathers the points of all curves of a file whose rows are right by themselves, where `curves` is the table of its
/// rows of [CURVES].
pub fn gather_points(
    alloc: Global,
    text: &Lines<'_>,
    lines: &[Line],
    curves: &Table,
) -> Result<Points, OutOfMemory>
    requires lie { All (LiesIn text.now.text) lines.now }
    requires right { NoneIs (IsWrongByItself (rows_at text.now.text lines.now)) }
    requires table { IsTable text.now.text (rows_of Curves (rows_at text.now.text lines.now)) curves.now }
    ensures { IfOk result (λ points. ArePoints (rows_at text.now.text lines.now) curves.now.names points) }
{
    let mut points = empty_lists(alloc, curves.firsts.as_slice().len())?;
    for place in 0..lines.len() {
        points.add(text, lines, place, curves)?;
    }
    Ok(points)
}

impl Points {
    // The next row.
    fn add(
        &mut self,
        text: &Lines<'_>,
        lines: &[Line],
        place: usize,
        curves: &Table,
    ) -> Result<(), OutOfMemory>
        requires within { place < length lines.now }
        requires lie { All (LiesIn text.now.text) lines.now }
        requires right { NoneIs (IsWrongByItself (rows_at text.now.text lines.now)) }
        requires table { IsTable text.now.text (rows_of Curves (rows_at text.now.text lines.now)) curves.now }
        requires gathered { AreGathered (rows_at text.now.text lines.now) place curves.now.names self.old }
        ensures { OnOk result
            (AreGathered (rows_at text.now.text lines.now) (place + 1) curves.now.names self.new) }
    {
        let line = &lines[place];
        if !is_curves(line.section) {
            return Ok(());
        }
        let Ok(row) = read_curve(text, line) else {
            return Ok(());
        };
        let Some(number) = curves.names.number(row.id) else {
            return Ok(());
        };
        push_at(
            &mut self.lists,
            number as usize,
            CurvePoint { x: row.x, y: row.y },
        )?;
        Ok(())
    }

    /// The points of the curve of a name, none where no row has it.
    pub fn named(&self, curves: &Table, name: &[u8]) -> &[CurvePoint]
        ensures { (rows : List Row) → ArePoints rows curves.now.names self.now
            → points_in result.now ≡ curve_named rows name.now }
    {
        let Some(number) = curves.names.number(name) else {
            return &[];
        };
        let Some(list) = self.lists.get(number as usize) else {
            return &[];
        };
        list.as_slice()
    }
}
