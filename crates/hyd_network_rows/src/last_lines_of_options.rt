//! The last line of an option, and the head loss formula in force.
#![tactic(auto)]

ghost use Rattle.std.specs.Prelude.{◌≡◌, ◌==◌, IfSome};
ghost use Rattle.std.specs.List.{All};
ghost use Rattle.hyd_spec_lines.specs.Lines.{LiesIn, row_of, items_of, all_rows_in};
ghost use Rattle.hyd_spec_input.specs.OptionsAndTimesInForce as force;
ghost use Rattle.hyd_spec_input.specs.SectionsAndTables.{place as section_place};
ghost use Rattle.hyd_rows_and_tables.specs.RowsOfLines.{rows_at, row_in};
ghost use Rattle.hyd_network_rows.specs.FormulaByLines as by_lines;

use hyd_lex::{Line, Lines, Section};
use hyd_option_and_rule_lines::word_is;

/// Whether a section is [OPTIONS].
pub fn is_options(section: Section) -> bool
    ensures { result ≡ (section_place section == 13) }
{
    match section {
        Section::Options => true,
        _ => false,
    }
}

fn begins_with(text: &Lines<'_>, line: &Line, key: &[u8]) -> bool
    requires { LiesIn text.now.text line.now }
    ensures { result ≡ force.begins key.now (row_of text.now.text line.now) }
{
    word_is(text, line, 0, key)
}

/// The line of the last row of [OPTIONS] that begins with a word, which is the one in force.
pub fn last_option(text: &Lines<'_>, lines: &[Line], key: &[u8]) -> Option<Line>
    requires { All (LiesIn text.now.text) lines.now }
    ensures last { row_in text.now.text result ≡ force.option_row key.now (rows_at text.now.text lines.now) }
    ensures lies { IfSome result (LiesIn text.now.text) }
{
    let mut last = None;
    for place in 0..lines.len() {
        let line = &lines[place];
        if !is_options(line.section) {
            continue;
        }
        if !begins_with(text, line, key) {
            continue;
        }
        last = Some(*line);
    }
    last
}

/// Whether losses are by Hazen-Williams: so says the last line of HEADLOSS of these, which may stand behind [PIPES].
pub fn has_hazen_williams(text: &Lines<'_>, lines: &[Line]) -> bool
    requires { All (LiesIn text.now.text) lines.now }
    ensures { result ≡ force.has_hazen_williams (rows_at text.now.text lines.now) }
{
    match last_option(text, lines, b"HEADLOSS") {
        Some(line) => word_is(text, &line, 1, b"H-W"),
        None => false,
    }
}

// Whether losses are by Hazen-Williams behind a line, where they are or aren't before it.
fn formula_after(text: &Lines<'_>, line: &Line, before: bool) -> bool
    requires { LiesIn text.now.text line.now }
    ensures { result ≡ by_lines.formula_after before (row_of text.now.text line.now) }
{
    if is_options(line.section) && begins_with(text, line, b"HEADLOSS") {
        return word_is(text, line, 1, b"H-W");
    }
    before
}

/// Whether losses are by Hazen-Williams in a text of which lines break rules of lines: a line of HEADLOSS counts also
/// behind those.
pub fn has_hazen_williams_throughout(text: &Lines<'_>) -> bool
    ensures { result ≡ force.has_hazen_williams (all_rows_in (items_of text.now.text)) }
{
    let mut by_power = false;
    let mut reader = text.again();
    while let Some(item) = reader.next() {
        match item {
            Ok(line) => by_power = formula_after(text, &line, by_power),
            Err(_) => {}
        }
    }
    by_power
}
