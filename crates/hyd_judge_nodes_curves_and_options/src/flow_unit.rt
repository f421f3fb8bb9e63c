//! The unit of flows in force.
#![tactic(auto)]

ghost use Rattle.std.specs.Prelude.{◌≡◌};
ghost use Rattle.std.specs.List.{All};
ghost use Rattle.hyd_spec_lines.specs.Lines.{LiesIn};
ghost use Rattle.hyd_spec_input.specs.OptionsAndTimesInForce as force;
ghost use Rattle.hyd_rows_and_tables.specs.RowsOfLines.{rows_at};

use hyd_lex::{Line, Lines};
use hyd_network_rows::last_option;
use hyd_num::FlowUnit;
use hyd_option_and_rule_lines::{flow_unit, or_empty};

/// The unit of flows: what the last UNITS line names, else gallons a minute.
pub fn unit_in_force(text: &Lines<'_>, lines: &[Line]) -> FlowUnit
    requires { All (LiesIn text.now.text) lines.now }
    ensures { result ≡ force.unit (rows_at text.now.text lines.now) }
{
    match last_option(text, lines, b"UNITS") {
        Some(line) => flow_unit(or_empty(text, &line, 1)).unwrap_or(FlowUnit::Gpm),
        None => FlowUnit::Gpm,
    }
}
