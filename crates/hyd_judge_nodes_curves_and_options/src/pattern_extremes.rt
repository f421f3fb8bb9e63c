//! The least and the greatest multiplier of each pattern.
#![tactic(auto)]

ghost use Rattle.std.specs.Prelude.{◌≡◌, ◌<◌, ◌+◌, ◌^◌, ◌==◌, None, length, map, IfOk};
ghost use Rattle.std.specs.List.{All};
ghost use Rattle.hyd_num.specs.Numeral.{nano_of};
ghost use Rattle.hyd_spec_lines.specs.WordsOfLines.{words_in};
ghost use Rattle.hyd_spec_lines.specs.Lines.{LiesIn};
ghost use Rattle.hyd_spec_lines.specs.declared.section.Section.TheVariants.{Patterns};
ghost use Rattle.hyd_option_and_rule_lines.specs.FaultOrValue.{words_at};
ghost use Rattle.hyd_spec_input.specs.SingleRows.{IsWrongByItself};
ghost use Rattle.hyd_spec_input.specs.Columns.{within};
ghost use Rattle.hyd_spec_input.specs.DemandEmitterCurvePatternAndStatusRows as row;
ghost use Rattle.hyd_spec_input.specs.Faults.{NoneIs};
ghost use Rattle.hyd_spec_input.specs.SectionsAndTables.{place as section_place, rows_of};
ghost use Rattle.hyd_rows_and_tables.specs.RowsOfLines.{rows_at};
ghost use Rattle.hyd_rows_and_tables.specs.IdTables.{IsTable, AreNone};
ghost use Rattle.hyd_judge_nodes_curves_and_options.specs.Extremes as bound;
ghost use Rattle.hyd_judge_nodes_curves_and_options.specs.Extremes.{bounds, AreWidened};

use hyd_lex::{Line, Lines, Section, split_word};
use hyd_net::OutOfMemory;
use hyd_network_rows::read_pattern;
use hyd_num::Decimal;
use hyd_option_and_rule_lines::number_of;
use hyd_rows_and_tables::{Table, own_id};
use std::alloc::Global;

/// The least and the greatest of the multipliers of a pattern.
#[derive(Clone, Copy, Drop)]
pub struct Extremes {
    pub least: Decimal,
    pub greatest: Decimal,
}

pub(crate) fn is_patterns(section: Section) -> bool
    ensures { result ≡ (section_place section == 9) }
{
    match section {
        Section::Patterns => true,
        _ => false,
    }
}

// The extremes of numbers and one more.
fn widened(before: Option<Extremes>, number: Decimal) -> Option<Extremes>
    ensures { bounds result ≡ bound.widened (bounds before) number.nano }
{
    let Some(extremes) = before else {
        return Some(Extremes {
            least: number,
            greatest: number,
        });
    };
    if number.nano < extremes.least.nano {
        return Some(Extremes {
            least: number,
            greatest: extremes.greatest,
        });
    }
    if number.nano > extremes.greatest.nano {
        return Some(Extremes {
            least: extremes.least,
            greatest: number,
        });
    }
    Some(extremes)
}

// The extremes of numbers and of the words of a row that are numbers.
fn widened_by(before: Option<Extremes>, multipliers: &[u8]) -> Option<Extremes>
    requires { row.each (within (10 ^ 6)) (words_in multipliers.now) ≡ None }
    ensures { bounds result ≡ bound.all_widened (bounds before) (map nano_of (words_in multipliers.now)) }
{
    let mut extremes = before;
    let mut rest = multipliers;
    while let Some((word, behind)) = split_word(rest) {
        let Ok(number) = number_of(word) else {
            return extremes;
        };
        extremes = widened(extremes, number);
        rest = behind;
    }
    extremes
}

// The extremes of numbers and of the multipliers of a row.
fn row_widened(before: Option<Extremes>, text: &Lines<'_>, line: &Line) -> Option<Extremes>
    requires lies { LiesIn text.now.text line.now }
    requires right { row.pattern (words_at text.now line.now) ≡ None }
    ensures { bounds result ≡ bound.all_widened (bounds before) (row.multipliers (words_at text.now line.now)) }
{
    let Ok(row) = read_pattern(text, line) else {
        return before;
    };
    widened_by(before, row.multipliers)
}

// So many without numbers.
fn none_each(alloc: Global, count: usize) -> Result<Vec<Option<Extremes>>, OutOfMemory>
    ensures { IfOk result (λ each. AreNone each.items count) }
{
    let mut each = Vec::new(alloc);
    for _ in 0..count {
        each.push(None)?;
    }
    Ok(each)
}

// The next row.
fn widen(
    each: &mut Vec<Option<Extremes>>,
    text: &Lines<'_>,
    lines: &[Line],
    place: usize,
    patterns: &Table,
)
    requires within { place < length lines.now }
    requires lie { All (LiesIn text.now.text) lines.now }
    requires right { NoneIs (IsWrongByItself (rows_at text.now.text lines.now)) }
    requires table { IsTable text.now.text (rows_of Patterns (rows_at text.now.text lines.now)) patterns.now }
    requires widened { AreWidened (rows_at text.now.text lines.now) place patterns.now.names each.old.items }
    ensures { AreWidened (rows_at text.now.text lines.now) (place + 1) patterns.now.names each.new.items }
{
    let line = &lines[place];
    if !is_patterns(line.section) {
        return;
    }
    let Some(number) = patterns.names.number(own_id(text, line)) else {
        return;
    };
    let number = number as usize;
    each[number] = row_widened(each[number], text, line);
}

/// The extremes of the multipliers of each pattern, by its number in the table of [PATTERNS], of a file whose rows are
/// right by themselves.
pub(crate) fn gather_extremes(
    alloc: Global,
    text: &Lines<'_>,
    lines: &[Line],
    patterns: &Table,
) -> Result<Vec<Option<Extremes>>, OutOfMemory>
    requires lie { All (LiesIn text.now.text) lines.now }
    requires right { NoneIs (IsWrongByItself (rows_at text.now.text lines.now)) }
    requires table { IsTable text.now.text (rows_of Patterns (rows_at text.now.text lines.now)) patterns.now }
    ensures { IfOk result (λ each.
        AreWidened (rows_at text.now.text lines.now) (length lines.now) patterns.now.names each.items) }
{
    let mut each = none_each(alloc, patterns.firsts.as_slice().len())?;
    for place in 0..lines.len() {
        widen(&mut each, text, lines, place, patterns);
    }
    Ok(each)
}
