//! Curves among all rows.
#![tactic(auto)]

ghost use Rattle.std.specs.Prelude.{◌≡◌, ◌<◌, ◌+◌, ◌^◌, [], ◌∷◌, length, IfOk, OnOk};
ghost use Rattle.std.specs.List.{All};
ghost use Rattle.hyd_spec_lines.specs.Lines.{LiesIn};
ghost use Rattle.hyd_spec_lines.specs.declared.section.Section.TheVariants.{Curves as InCurves};
ghost use Rattle.hyd_net.specs.CountLimits.{most_curves, most_points};
ghost use Rattle.hyd_spec_input.specs.Columns.{first};
ghost use Rattle.hyd_spec_input.specs.SectionsAndTables.{rows_of};
ghost use Rattle.hyd_spec_input.specs.FaultsWithOtherRows as others;
ghost use Rattle.hyd_rows_and_tables.specs.FirstWrongRow.{HasFound};
ghost use Rattle.hyd_rows_and_tables.specs.RowsOfLines.{rows_at};
ghost use Rattle.hyd_rows_and_tables.specs.IdTables.{IsTable};
ghost use Rattle.hyd_judge_nodes_curves_and_options.specs.Curves.{AreCurves};
ghost use Rattle.hyd_rows_and_tables.specs.WrongInSection.{IsWrongIn};

use hyd_lex::{Line, Lines};
use hyd_net::{Cause, OutOfMemory};
use hyd_rows_and_tables::{Found, Table, is_curves, kept, limit};
use std::alloc::Global;

const MOST_CURVES: usize = 1_000;

const MOST_POINTS: usize = 100_000;

/// The curves of a file, and the first row of [CURVES] that is wrong with the others.
#[derive(Drop)]
pub struct Curves {
    // How many points all rows have.
    count: usize,
    pub table: Table,
    pub found: Option<Found>,
}

// What is wrong with a row, by the curves and points up to it.
fn fault(curves: usize, points: usize) -> Option<Cause>
    ensures { result ≡ first (others.passes most_curves 9 curves ∷ others.passes most_points 9 points ∷ []) }
{
    match limit(MOST_CURVES, 9, curves) {
        Some(cause) => Some(cause),
        None => limit(MOST_POINTS, 9, points),
    }
}

impl Curves {
    // The next row.
    fn add(&mut self, text: &Lines<'_>, lines: &[Line], place: usize) -> Result<(), OutOfMemory>
        requires within { place < length lines.now }
        requires few { length lines.now < 2 ^ 31 }
        requires lie { All (LiesIn text.now.text) lines.now }
        requires judged { AreCurves text.now.text (rows_at text.now.text lines.now) place self.old }
        ensures { OnOk result (AreCurves text.now.text (rows_at text.now.text lines.now) (place + 1) self.new) }
    {
        let line = &lines[place];
        if !is_curves(line.section) {
            return Ok(());
        }
        self.table.add(text, line)?;
        self.count += 1;
        let cause = fault(self.table.firsts.as_slice().len(), self.count);
        self.found = kept(self.found, place, line.number, cause);
        Ok(())
    }
}

/// The curves of a file, and its first row of [CURVES] that is wrong with the others: Limit 9 where it is the first
/// with more than 1,000 curves or 100,000 points up to it.
pub fn judge_curves(alloc: Global, text: &Lines<'_>, lines: &[Line]) -> Result<Curves, OutOfMemory>
    requires few { length lines.now < 2 ^ 31 }
    requires lie { All (LiesIn text.now.text) lines.now }
    ensures table { IfOk result (λ curves.
        IsTable text.now.text (rows_of InCurves (rows_at text.now.text lines.now)) curves.table) }
    ensures found { IfOk result (λ curves. HasFound (rows_at text.now.text lines.now)
        (IsWrongIn InCurves (rows_at text.now.text lines.now)) (length lines.now) curves.found) }
{
    let mut curves = Curves {
        count: 0,
        table: Table::new(alloc),
        found: None,
    };
    for place in 0..lines.len() {
        curves.add(text, lines, place)?;
    }
    Ok(curves)
}
