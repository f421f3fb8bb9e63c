//! Valves as their rows make them, each of its kind.
#![tactic(auto)]

ghost use Rattle.hyd_spec_lines.specs.Lines.{row_of};
ghost use Rattle.hyd_spec_lines.specs.declared.section.Section.TheVariants.{Valves};
ghost use Rattle.hyd_spec_input.specs.Project.{IsValveKind};
ghost use Rattle.hyd_spec_input.specs.SectionsAndTables.{is_of};
ghost use Rattle.hyd_build_links_controls_and_rules.specs.RowsToBuildLinksFrom.{IsRowOf, rows_from};

use crate::name_numbers::number;
use crate::rows_to_build_links_from::RowsForLinks;
use hyd_judge_links_controls_and_rules::valve_law;
use hyd_lex::{Line, Lines};
use hyd_net::LinkKind;
use hyd_network_rows::{ValveSetting, read_valve};

/// What the valve of a row is.
pub(crate) fn valve_kind(text: &Lines<'_>, line: &Line, given: &RowsForLinks<'_>) -> LinkKind
    requires { IsRowOf (is_of Valves) text.now.text given.now line.now }
    ensures { IsValveKind (rows_from text.now.text given.now) (row_of text.now.text line.now) result }
{
    let Ok(valve) = read_valve(text, line) else {
        unreachable!()
    };
    match valve.setting {
        ValveSetting::Throttle(_) => LinkKind::Tcv {
            valve: valve_law(valve.diameter, valve.minor, given.unit.is_us()),
        },
        ValveSetting::Curve(curve) => LinkKind::Gpv {
            bend: number(given.bends, curve),
        },
        ValveSetting::Flow(_) => LinkKind::Fcv {
            valve: valve_law(valve.diameter, valve.minor, given.unit.is_us()),
        },
    }
}
