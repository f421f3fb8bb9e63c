//! Tables whose IDs stand in the order of their numbers: those of files in which junctions come before reservoirs,
//! these before tanks, and pipes before pumps, these before valves.
#![tactic(auto)]

ghost use Rattle.std.specs.Prelude.{◌≡◌, ◌==◌, ◌≤◌, ◌++◌, true, length, map, take, IfSome};
ghost use Rattle.std.specs.List.{All};
ghost use Rattle.hyd_spec_lines.specs.Lines.{LiesIn};
ghost use Rattle.hyd_spec_input.specs.SectionsAndTables as sections;
ghost use Rattle.hyd_spec_input.specs.SectionsAndTables.{rows_of};
ghost use Rattle.hyd_rows_and_tables.specs.RowsOfLines.{rows_at};
ghost use Rattle.hyd_rows_and_tables.specs.IdTables.{IsEven};

use hyd_lex::{Line, Lines, Section};
use hyd_rows_and_tables::{NumberedIds, Table, own_id};

fn is_of(line: &Line, section: Section) -> bool
    ensures { result ≡ (sections.place line.now.section == sections.place section) }
{
    line.section as u8 == section as u8
}

// How many IDs there are up to those of a section, where these come next behind so many.
fn count_behind(
    names: &NumberedIds,
    text: &Lines<'_>,
    lines: &[Line],
    section: Section,
    from: usize,
) -> Option<usize>
    requires lie { All (LiesIn text.now.text) lines.now }
    requires within { from ≤ length names.now }
    ensures within { IfSome result (λ to. to ≤ length names.now) }
    ensures ids { IfSome result (λ to. take to names.now ≡ take from names.now
        ++ map sections.own_id (rows_of section (rows_at text.now.text lines.now))) }
{
    let mut to = from;
    for line in lines {
        if !is_of(line, section) {
            continue;
        }
        let Some(number) = names.number(own_id(text, line)) else {
            return None;
        };
        if number as usize != to {
            return None;
        }
        to += 1;
    }
    Some(to)
}

/// Whether the IDs of a table are those of three sections, one after another.
pub(crate) fn are_in_order(
    table: &Table,
    text: &Lines<'_>,
    lines: &[Line],
    one: Section,
    two: Section,
    three: Section,
) -> bool
    requires lie { All (LiesIn text.now.text) lines.now }
    requires even { IsEven table.now }
    ensures { result ≡ true → table.now.names
        ≡ map sections.own_id (rows_of one (rows_at text.now.text lines.now))
        ++ map sections.own_id (rows_of two (rows_at text.now.text lines.now))
        ++ map sections.own_id (rows_of three (rows_at text.now.text lines.now)) }
{
    let names = &table.names;
    let Some(first) = count_behind(names, text, lines, one, 0) else {
        return false;
    };
    let Some(second) = count_behind(names, text, lines, two, first) else {
        return false;
    };
    let Some(third) = count_behind(names, text, lines, three, second) else {
        return false;
    };
    third == table.firsts.as_slice().len()
}
