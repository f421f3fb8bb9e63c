//! The first row that is wrong by itself.
#![tactic(auto)]

ghost use Rattle.std.specs.Prelude.{length};
ghost use Rattle.std.specs.List.{All};
ghost use Rattle.hyd_spec_lines.specs.Lines.{LiesIn};
ghost use Rattle.hyd_spec_input.specs.SingleRows.{IsWrongBy};
ghost use Rattle.hyd_rows_and_tables.specs.FirstWrongRow.{HasFound};
ghost use Rattle.hyd_rows_and_tables.specs.RowsOfLines.{rows_at};

use crate::fault_by_section::row_fault;
use crate::rule_line_order::next_stage;
use hyd_lex::{Line, Lines};
use hyd_rows_and_tables::Found;
use hyd_spec_input::Stage;

/// The first row that is wrong by itself, where losses are by Hazen-Williams or not. `None` comes exactly where no row is.
pub fn first_by_itself(text: &Lines<'_>, lines: &[Line], by_power: bool) -> Option<Found>
    requires { All (LiesIn text.now.text) lines.now }
    ensures { HasFound (rows_at text.now.text lines.now) (IsWrongBy by_power (rows_at text.now.text lines.now))
        (length lines.now) result }
{
    let mut stage = Stage::Outside;
    for place in 0..lines.len() {
        let line = &lines[place];
        if let Some(cause) = row_fault(text, line, by_power, stage, &lines[place + 1..]) {
            return Some(Found {
                place,
                line: line.number,
                cause,
            });
        }
        stage = next_stage(text, line, stage);
    }
    None
}
