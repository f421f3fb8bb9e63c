//! Patterns among all rows.
#![tactic(auto)]

ghost use Rattle.std.specs.Prelude.{◌≡◌, ◌<◌, ◌+◌, ◌^◌, [], ◌∷◌, List, ℕ, ℤ, length, min, IfOk, OnOk};
ghost use Rattle.std.specs.List.{All, list_all};
ghost use Rattle.hyd_spec_lines.specs.WordsOfLines.{text_of};
ghost use Rattle.hyd_spec_lines.specs.Lines.{LiesIn, Row};
ghost use Rattle.hyd_spec_lines.specs.declared.section.Section.TheVariants.{Patterns as InPatterns};
ghost use Rattle.hyd_option_and_rule_lines.specs.FaultOrValue.{words_at};
ghost use Rattle.hyd_spec_input.specs.SingleRows.{IsWrongByItself};
ghost use Rattle.hyd_net.specs.CountLimits.{most_patterns, most_multipliers};
ghost use Rattle.hyd_spec_input.specs.Columns.{first};
ghost use Rattle.hyd_spec_input.specs.DemandEmitterCurvePatternAndStatusRows as row;
ghost use Rattle.hyd_spec_input.specs.Faults.{NoneIs};
ghost use Rattle.hyd_spec_input.specs.SectionsAndTables.{rows_of};
ghost use Rattle.hyd_spec_input.specs.FaultsWithOtherRows as others;
ghost use Rattle.hyd_spec_input.specs.FaultsWithOtherRows.{multipliers_of};
ghost use Rattle.hyd_rows_and_tables.specs.FirstWrongRow.{HasFound};
ghost use Rattle.hyd_rows_and_tables.specs.RowsOfLines.{rows_at};
ghost use Rattle.hyd_rows_and_tables.specs.IdTables.{IsTable};
ghost use Rattle.hyd_judge_nodes_curves_and_options.specs.Patterns.{AreCounted, ArePatterns, most_counted};
ghost use Rattle.hyd_judge_nodes_curves_and_options.specs.Extremes.{AreExtremes, bounds, bounds_of, is_between, pass};
ghost use Rattle.hyd_rows_and_tables.specs.WrongInSection.{IsWrongIn};

use crate::pattern_extremes::{Extremes, gather_extremes, is_patterns};
use hyd_lex::{Line, Lines};
use hyd_net::{Cause, OutOfMemory};
use hyd_rows_and_tables::{Found, Table, count_words, kept, limit};
use std::alloc::Global;

const MOST_PATTERNS: usize = 1_000;

const MOST_MULTIPLIERS: usize = 1_000_000;

/// The patterns of a file, and the first row of [PATTERNS] that is wrong with the others.
#[derive(Drop)]
pub struct Patterns {
    pub table: Table,
    extremes: Vec<Option<Extremes>>,
    pub found: Option<Found>,
}

// The patterns of the first rows.
#[derive(Drop)]
struct Counted {
    // How many multipliers the rows have, or one above the most that are allowed.
    count: usize,
    table: Table,
    found: Option<Found>,
}

// How many multipliers a row has, or one above the most that are allowed.
fn multipliers(text: &Lines<'_>, line: &Line) -> usize
    requires { LiesIn text.now.text line.now }
    ensures { result ≡ min (length (row.multipliers (words_at text.now line.now))) most_counted }
{
    count_words(text.body(line), MOST_MULTIPLIERS + 2).saturating_sub(1)
}

// The lesser of a sum and one above the most that are allowed.
fn sum_counted(count: usize, more: usize) -> usize
    requires count { count < most_counted + 1 }
    requires more { more < most_counted + 1 }
    ensures { result ≡ min (count + more) most_counted }
{
    if count + more > MOST_MULTIPLIERS {
        return MOST_MULTIPLIERS + 1;
    }
    count + more
}

// What is wrong with a row, by the patterns and multipliers up to it.
fn fault(patterns: usize, multipliers: usize) -> Option<Cause>
    ensures { result ≡ first (others.passes most_patterns 8 patterns
        ∷ others.passes most_multipliers 8 multipliers ∷ []) }
{
    match limit(MOST_PATTERNS, 8, patterns) {
        Some(cause) => Some(cause),
        None => limit(MOST_MULTIPLIERS, 8, multipliers),
    }
}

impl Counted {
    // The next row.
    fn add(&mut self, text: &Lines<'_>, lines: &[Line], place: usize) -> Result<(), OutOfMemory>
        requires within { place < length lines.now }
        requires few { length lines.now < 2 ^ 31 }
        requires lie { All (LiesIn text.now.text) lines.now }
        requires judged { AreCounted text.now.text (rows_at text.now.text lines.now) place self.old }
        ensures { OnOk result (AreCounted text.now.text (rows_at text.now.text lines.now) (place + 1) self.new) }
    {
        let line = &lines[place];
        if !is_patterns(line.section) {
            return Ok(());
        }
        self.table.add(text, line)?;
        self.count = sum_counted(self.count, multipliers(text, line));
        let cause = fault(self.table.firsts.as_slice().len(), self.count);
        self.found = kept(self.found, place, line.number, cause);
        Ok(())
    }
}

// The patterns of all rows.
fn count_patterns(alloc: Global, text: &Lines<'_>, lines: &[Line]) -> Result<Counted, OutOfMemory>
    requires few { length lines.now < 2 ^ 31 }
    requires lie { All (LiesIn text.now.text) lines.now }
    ensures table { IfOk result (λ counted.
        IsTable text.now.text (rows_of InPatterns (rows_at text.now.text lines.now)) counted.table) }
    ensures found { IfOk result (λ counted. HasFound (rows_at text.now.text lines.now)
        (IsWrongIn InPatterns (rows_at text.now.text lines.now)) (length lines.now) counted.found) }
{
    let mut counted = Counted {
        count: 0,
        table: Table::new(alloc),
        found: None,
    };
    for place in 0..lines.len() {
        counted.add(text, lines, place)?;
    }
    Ok(counted)
}

/// The patterns of a file whose rows are right by themselves, and its first row of [PATTERNS] that is wrong with the
/// others: Limit 8 where it is the first with more than 1,000 patterns or 1,000,000 multipliers up to it.
pub fn judge_patterns(
    alloc: Global,
    text: &Lines<'_>,
    lines: &[Line],
) -> Result<Patterns, OutOfMemory>
    requires few { length lines.now < 2 ^ 31 }
    requires lie { All (LiesIn text.now.text) lines.now }
    requires right { NoneIs (IsWrongByItself (rows_at text.now.text lines.now)) }
    ensures patterns { IfOk result (λ patterns. ArePatterns text.now.text (rows_at text.now.text lines.now) patterns) }
    ensures found { IfOk result (λ patterns. HasFound (rows_at text.now.text lines.now)
        (IsWrongIn InPatterns (rows_at text.now.text lines.now)) (length lines.now) patterns.found) }
{
    let Counted { table, found, .. } = count_patterns(alloc, text, lines)?;
    let extremes = gather_extremes(alloc, text, lines, &table)?;
    Ok(Patterns {
        table,
        extremes,
        found,
    })
}

impl Patterns {
    // The extremes of a number that a name may have.
    fn at(&self, number: Option<u32>) -> Option<Extremes>
        ensures { bounds result ≡ bounds_of self.now.extremes.items number }
    {
        let Some(number) = number else {
            return None;
        };
        match self.extremes.get(number as usize) {
            Some(extremes) => *extremes,
            None => None,
        }
    }

    /// The least and the greatest multiplier of the pattern of a name, `None` where no pattern has it or no name is
    /// given.
    pub fn extremes(&self, name: Option<&[u8]>) -> Option<Extremes>
        ensures extremes { (text : List ℕ) (rows : List Row) → ArePatterns text rows self.now
            → AreExtremes (multipliers_of rows (text_of name.entry)) (bounds result) }
        ensures between { (text : List ℕ) (rows : List Row) → ArePatterns text rows self.now → (low high : ℤ)
            → list_all (is_between low high) (multipliers_of rows (text_of name.entry))
            ≡ pass (is_between low high) (bounds result) }
    {
        match name {
            Some(name) => self.at(self.table.names.number(name)),
            None => None,
        }
    }
}
