//! The last rows of [STATUS] that name each link.
#![tactic(auto)]

ghost use Rattle.std.specs.Prelude.{◌≡◌, ◌<◌, ◌+◌, ℕ, List, Option, length, take, IfOk, IfSome};
ghost use Rattle.std.specs.List.{All};
ghost use Rattle.hyd_spec_lines.specs.Lines.{LiesIn, Row};
ghost use Rattle.hyd_spec_input.specs.MeaningsAcrossRows.{last_naming};
ghost use Rattle.hyd_spec_lines.specs.declared.section.Section.TheVariants.{Status};
ghost use Rattle.hyd_spec_input.specs.SectionsAndTables.{rows_of};
ghost use Rattle.hyd_rows_and_tables.specs.RowsOfLines.{rows_at, row_in};
ghost use Rattle.hyd_rows_and_tables.specs.IdTables.{IsEven, AreNone};
ghost use Rattle.hyd_build_links_controls_and_rules.specs.RowsToBuildLinksFrom.{HasNumber};
ghost use Rattle.hyd_build_links_controls_and_rules.specs.Statuses.{AreStatuses};

use hyd_lex::{Line, Lines};
use hyd_net::OutOfMemory;
use hyd_rows_and_tables::{Table, is_status, own_id};
use std::alloc::Global;

// So many without a line.
fn none_each(alloc: Global, count: usize) -> Result<Vec<Option<Line>>, OutOfMemory>
    ensures { IfOk result (λ last. AreNone last.items count) }
{
    let mut last = Vec::with_capacity(alloc, count)?;
    for _ in 0..count {
        last.push(None)?;
    }
    Ok(last)
}

// The next row.
fn note(last: &mut Vec<Option<Line>>, text: &Lines<'_>, lines: &[Line], place: usize, links: &Table)
    requires within { place < length lines.now }
    requires lie { All (LiesIn text.now.text) lines.now }
    requires noted { AreStatuses text.now.text (rows_at text.now.text lines.now) place links.now.names last.old.items }
    ensures { AreStatuses text.now.text (rows_at text.now.text lines.now) (place + 1) links.now.names last.new.items }
{
    let line = &lines[place];
    if !is_status(line.section) {
        return;
    }
    let Some(number) = links.names.number(own_id(text, line)) else {
        return;
    };
    last[number as usize] = Some(*line);
}

/// The line of the last row of [STATUS] that names each link, by the number of the link's ID in its table.
pub(crate) fn gather_statuses(
    alloc: Global,
    text: &Lines<'_>,
    lines: &[Line],
    links: &Table,
) -> Result<Vec<Option<Line>>, OutOfMemory>
    requires lie { All (LiesIn text.now.text) lines.now }
    requires even { IsEven links.now }
    ensures { IfOk result (λ last.
        AreStatuses text.now.text (rows_at text.now.text lines.now) (length lines.now) links.now.names last.items) }
{
    let mut last = none_each(alloc, links.firsts.as_slice().len())?;
    for place in 0..lines.len() {
        note(&mut last, text, lines, place, links);
    }
    Ok(last)
}

/// The line of the last row of [STATUS] that names a link.
pub(crate) fn status_line(
    text: &Lines<'_>,
    last: &[Option<Line>],
    links: &Table,
    id: &[u8],
) -> Option<Line>
    requires even { length last.now ≡ length links.now.names }
    requires lie { All (λ (line : Option Line). IfSome line (LiesIn text.now.text)) last.now }
    requires there { HasNumber links.now.names id.now }
    ensures row { (rows : List Row) (k : ℕ) → AreStatuses text.now.text rows k links.now.names last.now
        → row_in text.now.text result ≡ last_naming id.now (rows_of Status (take k rows)) }
    ensures lies { IfSome result (LiesIn text.now.text) }
{
    let Some(number) = links.names.number(id) else {
        unreachable!()
    };
    last[number as usize]
}
