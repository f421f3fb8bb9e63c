//! The line in force: the last one that begins with given words.
#![tactic(auto)]

ghost use Rattle.std.specs.Prelude.{◌≡◌, IfSome};
ghost use Rattle.std.specs.List.{All};
ghost use Rattle.hyd_spec_lines.specs.WordsOfLines.{text_of};
ghost use Rattle.hyd_spec_lines.specs.Lines.{LiesIn, row_of};
ghost use Rattle.hyd_spec_input.specs.OptionsAndTimesInForce.{last_where};
ghost use Rattle.hyd_spec_input.specs.SectionsAndTables.{rows_of};
ghost use Rattle.hyd_rows_and_tables.specs.RowsOfLines.{rows_at, row_in};
ghost use Rattle.hyd_build_nodes_patterns_and_options.specs.LinesInForce as force;

use crate::ids::is_of;
use hyd_lex::{Line, Lines, Section};
use hyd_option_and_rule_lines::word_is;

// Whether a line begins with one word, or with two.
fn begins_with(text: &Lines<'_>, line: &Line, key: &[u8], second: Option<&[u8]>) -> bool
    requires { LiesIn text.now.text line.now }
    ensures { result ≡ force.begins_with key.now (text_of second.entry) (row_of text.now.text line.now) }
{
    let first = word_is(text, line, 0, key);
    match second {
        Some(second) => first && word_is(text, line, 1, second),
        None => first,
    }
}

/// The last line of a section that begins with one word, or with two.
pub(crate) fn last_line(
    text: &Lines<'_>,
    lines: &[Line],
    section: Section,
    key: &[u8],
    second: Option<&[u8]>,
) -> Option<Line>
    requires { All (LiesIn text.now.text) lines.now }
    ensures last { row_in text.now.text result ≡ last_where (force.begins_with key.now (text_of second.entry))
        (rows_of section (rows_at text.now.text lines.now)) }
    ensures lies { IfSome result (LiesIn text.now.text) }
{
    let mut last = None;
    for line in lines {
        if !is_of(text, line, section) {
            continue;
        }
        if !begins_with(text, line, key, second) {
            continue;
        }
        last = Some(*line);
    }
    last
}
