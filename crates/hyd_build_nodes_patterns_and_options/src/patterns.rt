//! The multipliers of patterns, by one pass over their rows.
#![tactic(auto)]

ghost use Rattle.std.specs.Prelude.{◌≡◌, ◌<◌, ◌+◌, ◌^◌, ◌++◌, [], None, length, map, slice_set, slice_index_or};
ghost use Rattle.std.specs.Prelude.{IfOk, OnOk};
ghost use Rattle.std.specs.List.{All};
ghost use Rattle.hyd_num.specs.Numeral.{nano_of};
ghost use Rattle.hyd_spec_lines.specs.WordsOfLines.{words_in};
ghost use Rattle.hyd_spec_lines.specs.Lines.{LiesIn};
ghost use Rattle.hyd_spec_input.specs.SingleRows.{IsWrongByItself};
ghost use Rattle.hyd_spec_input.specs.Columns.{within};
ghost use Rattle.hyd_spec_input.specs.DemandEmitterCurvePatternAndStatusRows as row;
ghost use Rattle.hyd_spec_input.specs.Faults.{NoneIs};
ghost use Rattle.hyd_spec_input.specs.MeaningsAcrossRows as across;
ghost use Rattle.hyd_spec_input.specs.Project.{Match, IsPattern};
ghost use Rattle.hyd_rows_and_tables.specs.RowsOfLines.{rows_at};
ghost use Rattle.hyd_build_nodes_patterns_and_options.specs.PatternsSoFar.{each, opened, AreFilled};

use crate::ids::is_of;
use hyd_lex::{Line, Lines, Section, split_word};
use hyd_net::{List, OutOfMemory, Pattern};
use hyd_network_rows::read_pattern;
use hyd_option_and_rule_lines::number_of;
use hyd_rows_and_tables::NumberedIds;
use std::alloc::Global;

// A multiplier in billionths.
fn multiplier(word: &[u8]) -> i64
    requires { within (10 ^ 6) word.now ≡ None }
    ensures { result ≡ nano_of word.now }
{
    match number_of(word) {
        Ok(number) => number.nano as i64,
        Err(_) => 0,
    }
}

// Appends the multipliers that stand in words.
fn append(multipliers: &mut List<i64>, words: &[u8]) -> Result<(), OutOfMemory>
    requires { row.each (within (10 ^ 6)) (words_in words.now) ≡ None }
    ensures { OnOk result (multipliers.new.list ≡ multipliers.old.list ++ map nano_of (words_in words.now)) }
{
    let mut rest = words;
    while let Some((word, behind)) = split_word(rest) {
        multipliers.push(multiplier(word))?;
        rest = behind;
    }
    Ok(())
}

// A pattern without multipliers more, where it has the next number.
fn open(alloc: Global, patterns: &mut Vec<Pattern>, number: usize) -> Result<(), OutOfMemory>
    ensures { OnOk result (each patterns.new.items ≡ opened number (each patterns.old.items)) }
{
    if number == patterns.len() {
        patterns.push(Pattern {
            multipliers: List::new(alloc),
        })?;
    }
    Ok(())
}

// Appends the multipliers that stand in words to those of a pattern.
fn fill(patterns: &mut Vec<Pattern>, number: usize, words: &[u8]) -> Result<(), OutOfMemory>
    requires within { number < length patterns.old.items }
    requires right { row.each (within (10 ^ 6)) (words_in words.now) ≡ None }
    ensures { OnOk result (each patterns.new.items ≡ slice_set (each patterns.old.items) number
        (slice_index_or (each patterns.old.items) number [] ++ map nano_of (words_in words.now))) }
{
    let pattern = &mut patterns[number];
    append(&mut pattern.multipliers, words)?;
    Ok(())
}

// The next row.
fn add_row(
    alloc: Global,
    patterns: &mut Vec<Pattern>,
    text: &Lines<'_>,
    lines: &[Line],
    place: usize,
    ids: &NumberedIds,
) -> Result<(), OutOfMemory>
    requires within { place < length lines.now }
    requires lie { All (LiesIn text.now.text) lines.now }
    requires by_itself { NoneIs (IsWrongByItself (rows_at text.now.text lines.now)) }
    requires ids { ids.now ≡ across.pattern_ids (rows_at text.now.text lines.now) }
    requires filled { AreFilled (rows_at text.now.text lines.now) place patterns.old.items }
    ensures { OnOk result (AreFilled (rows_at text.now.text lines.now) (place + 1) patterns.new.items) }
{
    let line = &lines[place];
    if !is_of(text, line, Section::Patterns) {
        return Ok(());
    }
    let Ok(row) = read_pattern(text, line) else {
        return Ok(());
    };
    let Some(number) = ids.number(row.id) else {
        return Ok(());
    };
    open(alloc, patterns, number as usize)?;
    fill(patterns, number as usize, row.multipliers)?;
    Ok(())
}

// Patterns as a list.
fn listed(alloc: Global, patterns: Vec<Pattern>) -> Result<List<Pattern>, OutOfMemory>
    ensures { IfOk result (λ list. list.list ≡ patterns.items) }
{
    let mut list = List::new(alloc);
    for pattern in patterns {
        list.push(pattern)?;
    }
    Ok(list)
}

/// The patterns of a file without a fault, in the order of their numbers.
pub fn build_patterns(
    alloc: Global,
    text: &Lines<'_>,
    lines: &[Line],
    ids: &NumberedIds,
) -> Result<List<Pattern>, OutOfMemory>
    requires lie { All (LiesIn text.now.text) lines.now }
    requires by_itself { NoneIs (IsWrongByItself (rows_at text.now.text lines.now)) }
    requires ids { ids.now ≡ across.pattern_ids (rows_at text.now.text lines.now) }
    ensures { IfOk result (λ patterns. Match (IsPattern (rows_at text.now.text lines.now))
        (across.pattern_ids (rows_at text.now.text lines.now)) patterns.list) }
{
    let mut patterns = Vec::new(alloc);
    for place in 0..lines.len() {
        add_row(alloc, &mut patterns, text, lines, place, ids)?;
    }
    let list = listed(alloc, patterns)?;
    Ok(list)
}
