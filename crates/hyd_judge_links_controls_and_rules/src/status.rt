//! Rows of [STATUS] among all rows.
#![tactic(auto)]

ghost use Rattle.std.specs.Prelude.{◌≡◌, ◌<◌, length};
ghost use Rattle.std.specs.List.{All};
ghost use Rattle.hyd_spec_lines.specs.Lines.{LiesIn};
ghost use Rattle.hyd_spec_lines.specs.declared.section.Section.TheVariants.{Status};
ghost use Rattle.hyd_spec_input.specs.SingleRows.{IsWrongByItself};
ghost use Rattle.hyd_spec_input.specs.Faults.{NoneIs};
ghost use Rattle.hyd_spec_input.specs.OptionsAndTimesInForce as force;
ghost use Rattle.hyd_spec_input.specs.SectionsAndTables.{link_rows};
ghost use Rattle.hyd_rows_and_tables.specs.FirstWrongRow.{HasFound, IsVerdict};
ghost use Rattle.hyd_rows_and_tables.specs.RowsOfLines.{rows_at};
ghost use Rattle.hyd_rows_and_tables.specs.WrongInSection.{IsWrongIn};
ghost use Rattle.hyd_rows_and_tables.specs.IdTables.{IsTable};

use crate::asked_states::asked_fault;
use crate::names_of_links_and_nodes::named_link;
use hyd_lex::{Line, Lines};
use hyd_net::Cause;
use hyd_network_rows::read_status;
use hyd_num::FlowUnit;
use hyd_rows_and_tables::{Found, Table, is_status, kept};
use hyd_spec_input::LinkWord;

// What is wrong with the row of a place, where it is one of [STATUS].
fn status_fault(
    text: &Lines<'_>,
    lines: &[Line],
    place: usize,
    links: &Table,
    unit: FlowUnit,
) -> Option<Cause>
    requires within { place < length lines.now }
    requires lie { All (LiesIn text.now.text) lines.now }
    requires right { NoneIs (IsWrongByItself (rows_at text.now.text lines.now)) }
    requires links { IsTable text.now.text (link_rows (rows_at text.now.text lines.now)) links.now }
    requires unit { unit ≡ force.unit (rows_at text.now.text lines.now) }
    ensures { IsVerdict (IsWrongIn Status (rows_at text.now.text lines.now) place) result }
{
    let line = &lines[place];
    if !is_status(line.section) {
        return None;
    }
    let Ok(row) = read_status(text, line) else {
        return None;
    };
    match named_link(text, links, LinkWord::Link, row.link) {
        Ok(link) => asked_fault(text, &link, row.to, unit),
        Err(cause) => Some(cause),
    }
}

/// Of a file whose rows are right by themselves, its first row of [STATUS] that is wrong with the others: one whose
/// link isn't there (UnknownName), a number for a link that takes none (Syntax), a pipe with a check valve (Unsupported
/// 11), a number out of range (Range), a setting of a throttle control valve that makes a capacity out of range (Limit
/// 13).
pub fn judge_status(
    text: &Lines<'_>,
    lines: &[Line],
    links: &Table,
    unit: FlowUnit,
) -> Option<Found>
    requires lie { All (LiesIn text.now.text) lines.now }
    requires right { NoneIs (IsWrongByItself (rows_at text.now.text lines.now)) }
    requires links { IsTable text.now.text (link_rows (rows_at text.now.text lines.now)) links.now }
    requires unit { unit ≡ force.unit (rows_at text.now.text lines.now) }
    ensures { HasFound (rows_at text.now.text lines.now) (IsWrongIn Status (rows_at text.now.text lines.now))
        (length lines.now) result }
{
    let mut found = None;
    for place in 0..lines.len() {
        let cause = status_fault(text, lines, place, links, unit);
        found = kept(found, place, lines[place].number, cause);
    }
    found
}
