//! Pumps as their rows make them: by a power law, or by straight lines where their curve has four points or more.
#![tactic(auto)]

ghost use Rattle.hyd_spec_lines.specs.Lines.{row_of};
ghost use Rattle.hyd_spec_lines.specs.declared.section.Section.TheVariants.{Pumps};
ghost use Rattle.hyd_spec_input.specs.Project.{IsPumpKind};
ghost use Rattle.hyd_spec_input.specs.SectionsAndTables.{is_of};
ghost use Rattle.hyd_build_links_controls_and_rules.specs.RowsToBuildLinksFrom.{IsRowOf, rows_from};

use crate::name_numbers::{number, pattern_number};
use crate::pump_laws::pump_law;
use crate::rows_to_build_links_from::RowsForLinks;
use hyd_lex::{Line, Lines};
use hyd_net::LinkKind;
use hyd_network_rows::read_pump;

/// What the pump of a row is.
pub(crate) fn pump_kind(text: &Lines<'_>, line: &Line, given: &RowsForLinks<'_>) -> LinkKind
    requires { IsRowOf (is_of Pumps) text.now.text given.now line.now }
    ensures { IsPumpKind (rows_from text.now.text given.now) (row_of text.now.text line.now) result }
{
    let Ok(pump) = read_pump(text, line) else {
        unreachable!()
    };
    let pattern = pattern_number(given.patterns, pump.pattern);
    let points = given.points.named(given.curves, pump.curve);
    if points.len() >= 4 {
        return LinkKind::CurvePump {
            bend: number(given.bends, pump.curve),
            pattern,
        };
    }
    let law = pump_law(points, given.unit);
    LinkKind::Pump {
        cap: law.cap,
        shutoff: law.shutoff,
        head: law.head,
        pattern,
    }
}
