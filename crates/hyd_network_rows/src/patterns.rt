//! Rows of patterns (EPANET 2.2 User Manual, [PATTERNS]).
#![tactic(auto)]

ghost use Rattle.std.specs.Prelude.{◌^◌};
ghost use Rattle.hyd_spec_lines.specs.WordsOfLines.{words_in};
ghost use Rattle.hyd_spec_lines.specs.Lines.{LiesIn};
ghost use Rattle.hyd_option_and_rule_lines.specs.FaultOrValue.{Judged, words_at};
ghost use Rattle.hyd_spec_input.specs.Columns as column;
ghost use Rattle.hyd_spec_input.specs.DemandEmitterCurvePatternAndStatusRows as row;
ghost use Rattle.hyd_network_rows.specs.Rows.{IsPatternRow};

use crate::optional_and_bounded_words::{behind_first, within};
use hyd_lex::{Line, Lines, split_word};
use hyd_net::Cause;
use hyd_net::ranges::GREATEST_MULTIPLIER;
use hyd_option_and_rule_lines::{id, needed};

/// A row of [PATTERNS].
#[derive(Clone, Copy, Drop)]
pub struct PatternRow<'a> {
    pub id: &'a [u8],
    /// Its multipliers, parted by spaces and tabs, to be taken one by one by `split_word`.
    pub multipliers: &'a [u8],
}

// Numbers of a magnitude of at most 10^6.
fn check_multipliers(multipliers: &[u8]) -> Result<(), Cause>
    ensures { Judged (row.each (column.within (10 ^ 6)) (words_in multipliers.now)) result (λ _. Unit {0}) }
{
    let mut rest = multipliers;
    while let Some((word, behind)) = split_word(rest) {
        within(word, -GREATEST_MULTIPLIER, GREATEST_MULTIPLIER)?;
        rest = behind;
    }
    Ok(())
}

/// Reads a row of [PATTERNS]: ID, and one or more multipliers. Refused are, at the first word that is wrong: a missing
/// word (Syntax), an ID longer than 31 bytes (Limit 3), a word that is no number or one above 10^12 up or down
/// (Number), and a multiplier above 10^6 up or down (Range).
pub fn read_pattern<'a>(text: &Lines<'a>, line: &Line) -> Result<PatternRow<'a>, Cause>
    requires { LiesIn text.now.text line.now }
    ensures { Judged (row.pattern (words_at text.now line.now)) result (IsPatternRow (words_at text.now line.now)) }
{
    let id = id(text, line, 0)?;
    needed(text, line, 1)?;
    let multipliers = behind_first(text.body(line));
    check_multipliers(multipliers)?;
    Ok(PatternRow { id, multipliers })
}
