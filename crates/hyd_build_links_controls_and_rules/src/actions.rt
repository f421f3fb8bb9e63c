//! Actions of rules.
#![tactic(auto)]

ghost use Rattle.std.specs.Prelude.{◌≡◌, ◌<◌, Some, length, slice_get};
ghost use Rattle.std.specs.List.{All};
ghost use Rattle.hyd_spec_lines.specs.Lines.{LiesIn, Row};
ghost use Rattle.hyd_spec_input.specs.SingleRows.{IsWrongByItself};
ghost use Rattle.hyd_spec_input.specs.Faults.{NoneIs};
ghost use Rattle.hyd_spec_input.specs.OptionsAndTimesInForce as force;
ghost use Rattle.hyd_spec_input.specs.MeaningsAcrossRows.{link_ids};
ghost use Rattle.hyd_spec_input.specs.Project.{IsAction};
ghost use Rattle.hyd_spec_input.specs.SectionsAndTables.{link_rows};
ghost use Rattle.hyd_rows_and_tables.specs.RowsOfLines.{rows_at};
ghost use Rattle.hyd_rows_and_tables.specs.IdTables.{IsTable};
ghost use Rattle.hyd_build_links_controls_and_rules.specs.RightRowsOfCommands.{IsRightAction};

use crate::name_numbers_and_ticks::number_of;
use hyd_judge_links_controls_and_rules::link_state;
use hyd_lex::{Line, Lines};
use hyd_net::{Action, LinkState};
use hyd_num::FlowUnit;
use hyd_option_and_rule_lines::{asked_at, or_empty};
use hyd_rows_and_tables::{NumberedIds, Table};

// What stands for an action of a file with a fault.
const NO_ACTION: Action = Action {
    link: 0,
    to: LinkState::Open,
};

/// The action of a place.
pub(crate) fn action_of(
    text: &Lines<'_>,
    lines: &[Line],
    place: usize,
    links: &NumberedIds,
    table: &Table,
    unit: FlowUnit,
) -> Action
    requires within { place < length lines.now }
    requires lie { All (LiesIn text.now.text) lines.now }
    requires by_itself { NoneIs (IsWrongByItself (rows_at text.now.text lines.now)) }
    requires links { links.now ≡ link_ids (rows_at text.now.text lines.now) }
    requires table { IsTable text.now.text (link_rows (rows_at text.now.text lines.now)) table.now }
    requires unit { unit ≡ force.unit (rows_at text.now.text lines.now) }
    requires right { (row : Row) → slice_get (rows_at text.now.text lines.now) place ≡ Some row
        → IsRightAction (rows_at text.now.text lines.now) row.words }
    ensures { (row : Row) → slice_get (rows_at text.now.text lines.now) place ≡ Some row
        → IsAction (rows_at text.now.text lines.now) row.words result }
{
    let line = &lines[place];
    let Ok(asked) = asked_at(text, line, 5) else {
        return NO_ACTION;
    };
    let name = or_empty(text, line, 2);
    let Some(link) = table.find(text, name) else {
        return NO_ACTION;
    };
    Action {
        link: number_of(links, name),
        to: link_state(text, &link, asked, unit),
    }
}
