//! Rows of junctions and reservoirs (EPANET 2.2 User Manual, [JUNCTIONS] and [RESERVOIRS]).
#![tactic(auto)]

ghost use Rattle.hyd_spec_lines.specs.Lines.{LiesIn};
ghost use Rattle.hyd_option_and_rule_lines.specs.FaultOrValue.{Judged, words_at};
ghost use Rattle.hyd_spec_input.specs.NodeAndLinkRows as row;
ghost use Rattle.hyd_network_rows.specs.Rows.{IsJunctionRow, IsReservoirRow};

use crate::optional_and_bounded_words::{given_id, given_or_0, optional_id};
use hyd_lex::{Line, Lines};
use hyd_net::Cause;
use hyd_num::Decimal;
use hyd_option_and_rule_lines::{ends, id, needed_id, needed_number, no_word, number};

/// A row of [JUNCTIONS], in the file's units.
#[derive(Clone, Copy, Drop)]
pub struct JunctionRow<'a> {
    pub id: &'a [u8],
    pub elevation: Decimal,
    /// Its demand where no row of [DEMANDS] names it, 0 where none is given.
    pub base: Decimal,
    /// The pattern of that demand.
    pub pattern: Option<&'a [u8]>,
}

/// A row of [RESERVOIRS], in the file's units.
#[derive(Clone, Copy, Drop)]
pub struct ReservoirRow<'a> {
    pub id: &'a [u8],
    pub head: Decimal,
    /// The pattern of its head.
    pub pattern: Option<&'a [u8]>,
}

/// Reads a row of [JUNCTIONS]: ID, elevation, base demand, pattern; the last two may be missing. Refused are, at the
/// first word that is wrong: a missing or further word (Syntax), an ID longer than 31 bytes (Limit 3), and a word that
/// is no number or one above 10^12 up or down (Number).
pub fn read_junction<'a>(text: &Lines<'a>, line: &Line) -> Result<JunctionRow<'a>, Cause>
    requires { LiesIn text.now.text line.now }
    ensures { Judged (row.junction (words_at text.now line.now)) result (IsJunctionRow (words_at text.now line.now)) }
{
    let words = text.first_words(line);
    let id = needed_id(words.word(0))?;
    let elevation = needed_number(words.word(1))?;
    let base = given_or_0(words.word(2))?;
    let pattern = given_id(words.word(3))?;
    no_word(words.word(4))?;
    Ok(JunctionRow {
        id,
        elevation,
        base,
        pattern,
    })
}

/// Reads a row of [RESERVOIRS]: ID, head, pattern; the last may be missing. Refused are, at the first word that is
/// wrong: a missing or further word (Syntax), an ID longer than 31 bytes (Limit 3), and a word that is no number or one
/// above 10^12 up or down (Number).
pub fn read_reservoir<'a>(text: &Lines<'a>, line: &Line) -> Result<ReservoirRow<'a>, Cause>
    requires { LiesIn text.now.text line.now }
    ensures { Judged (row.reservoir (words_at text.now line.now)) result
        (IsReservoirRow (words_at text.now line.now)) }
{
    let id = id(text, line, 0)?;
    let head = number(text, line, 1)?;
    let pattern = optional_id(text, line, 2)?;
    ends(text, line, 3)?;
    Ok(ReservoirRow { id, head, pattern })
}
