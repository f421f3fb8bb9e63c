//! The IDs of a file in the order of their numbers.
#![tactic(auto)]

ghost use Rattle.std.specs.Prelude.{◌≡◌, ◌+◌, ◌≤◌, ◌^◌, ◌++◌, length, map, IfOk, OnOk};
ghost use Rattle.std.specs.List.{All};
ghost use Rattle.hyd_spec_lines.specs.Lines.{LiesIn, row_of};
ghost use Rattle.hyd_spec_input.specs.SingleRows.{IsWrongByItself};
ghost use Rattle.hyd_spec_input.specs.Faults.{NoneIs, IsWrongWithOthers};
ghost use Rattle.hyd_spec_input.specs.MeaningsAcrossRows as across;
ghost use Rattle.hyd_spec_input.specs.MeaningsAcrossRows.{new_names};
ghost use Rattle.hyd_spec_input.specs.SectionsAndTables as table;
ghost use Rattle.hyd_spec_input.specs.SectionsAndTables.{rows_of};
ghost use Rattle.hyd_rows_and_tables.specs.RowsOfLines.{rows_at};

use hyd_lex::{Line, Lines, Section};
use hyd_net::OutOfMemory;
use hyd_rows_and_tables::{NumberedIds, own_id};
use std::alloc::Global;

// The place of a section in the list of them all.
fn place(section: Section) -> u8
    ensures { result ≡ table.place section }
{
    section as u8
}

/// Whether a row is of a section.
pub(crate) fn is_of(text: &Lines<'_>, line: &Line, section: Section) -> bool
    ensures { result ≡ table.is_of section (row_of text.now.text line.now) }
{
    place(line.section) == place(section)
}

// Adds the IDs of the rows of a section, each where it isn't there yet.
fn add_section(
    names: &mut NumberedIds,
    text: &Lines<'_>,
    lines: &[Line],
    section: Section,
) -> Result<(), OutOfMemory>
    requires few { length names.old + length lines.now ≤ 2 ^ 31 }
    requires lie { All (LiesIn text.now.text) lines.now }
    ensures names { OnOk result (names.new ≡ names.old
        ++ new_names names.old (map table.own_id (rows_of section (rows_at text.now.text lines.now)))) }
    ensures few { OnOk result (length names.new ≤ length names.old + length lines.now) }
{
    for line in lines {
        if !is_of(text, line, section) {
            continue;
        }
        names.add(own_id(text, line))?;
    }
    Ok(())
}

/// The IDs of junctions, then reservoirs, then tanks, of a file without a fault.
pub fn node_ids(alloc: Global, text: &Lines<'_>, lines: &[Line]) -> Result<NumberedIds, OutOfMemory>
    requires few { length lines.now ≤ 2 ^ 26 }
    requires lie { All (LiesIn text.now.text) lines.now }
    requires by_itself { NoneIs (IsWrongByItself (rows_at text.now.text lines.now)) }
    requires with_others { NoneIs (IsWrongWithOthers (rows_at text.now.text lines.now)) }
    ensures { IfOk result (λ names. names ≡ across.node_ids (rows_at text.now.text lines.now)) }
{
    let mut names = NumberedIds::new(alloc);
    add_section(&mut names, text, lines, Section::Junctions)?;
    add_section(&mut names, text, lines, Section::Reservoirs)?;
    add_section(&mut names, text, lines, Section::Tanks)?;
    Ok(names)
}

/// The IDs of tanks, of a file without a fault.
pub fn tank_ids(alloc: Global, text: &Lines<'_>, lines: &[Line]) -> Result<NumberedIds, OutOfMemory>
    requires few { length lines.now ≤ 2 ^ 26 }
    requires lie { All (LiesIn text.now.text) lines.now }
    requires by_itself { NoneIs (IsWrongByItself (rows_at text.now.text lines.now)) }
    requires with_others { NoneIs (IsWrongWithOthers (rows_at text.now.text lines.now)) }
    ensures { IfOk result (λ names. names ≡ across.tank_ids (rows_at text.now.text lines.now)) }
{
    let mut names = NumberedIds::new(alloc);
    add_section(&mut names, text, lines, Section::Tanks)?;
    Ok(names)
}

/// The IDs of pipes, then pumps, then valves, of a file without a fault.
pub fn link_ids(alloc: Global, text: &Lines<'_>, lines: &[Line]) -> Result<NumberedIds, OutOfMemory>
    requires few { length lines.now ≤ 2 ^ 26 }
    requires lie { All (LiesIn text.now.text) lines.now }
    requires by_itself { NoneIs (IsWrongByItself (rows_at text.now.text lines.now)) }
    requires with_others { NoneIs (IsWrongWithOthers (rows_at text.now.text lines.now)) }
    ensures { IfOk result (λ names. names ≡ across.link_ids (rows_at text.now.text lines.now)) }
{
    let mut names = NumberedIds::new(alloc);
    add_section(&mut names, text, lines, Section::Pipes)?;
    add_section(&mut names, text, lines, Section::Pumps)?;
    add_section(&mut names, text, lines, Section::Valves)?;
    Ok(names)
}

/// The IDs of patterns, each where a row first has it.
pub fn pattern_ids(
    alloc: Global,
    text: &Lines<'_>,
    lines: &[Line],
) -> Result<NumberedIds, OutOfMemory>
    requires few { length lines.now ≤ 2 ^ 26 }
    requires lie { All (LiesIn text.now.text) lines.now }
    ensures { IfOk result (λ names. names ≡ across.pattern_ids (rows_at text.now.text lines.now)) }
{
    let mut names = NumberedIds::new(alloc);
    add_section(&mut names, text, lines, Section::Patterns)?;
    Ok(names)
}
