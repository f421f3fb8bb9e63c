//! Rows of demands, emitters, curves and states (EPANET 2.2 User Manual, [DEMANDS], [EMITTERS], [CURVES] and [STATUS]).
#![tactic(auto)]

ghost use Rattle.hyd_spec_lines.specs.Lines.{LiesIn};
ghost use Rattle.hyd_option_and_rule_lines.specs.FaultOrValue.{Judged, words_at};
ghost use Rattle.hyd_spec_input.specs.DemandEmitterCurvePatternAndStatusRows as row;
ghost use Rattle.hyd_network_rows.specs.Rows.{IsCurveRow, IsDemandRow, IsEmitterRow, IsStatusRow};

use crate::optional_and_bounded_words::optional_id;
use hyd_lex::{Line, Lines};
use hyd_net::Cause;
use hyd_net::ranges::GREATEST_COEFFICIENT;
use hyd_num::Decimal;
use hyd_option_and_rule_lines::{Asked, asked_at, ends, id, number, number_within};

/// A row of [DEMANDS], in the file's units. Its category isn't used.
#[derive(Clone, Copy, Drop)]
pub struct DemandRow<'a> {
    pub junction: &'a [u8],
    pub base: Decimal,
    pub pattern: Option<&'a [u8]>,
}

/// A row of [EMITTERS], in the file's units.
#[derive(Clone, Copy, Drop)]
pub struct EmitterRow<'a> {
    pub junction: &'a [u8],
    pub coefficient: Decimal,
}

/// A row of [CURVES]: a point of a curve.
#[derive(Clone, Copy, Drop)]
pub struct CurveRow<'a> {
    pub id: &'a [u8],
    pub x: Decimal,
    pub y: Decimal,
}

/// A row of [STATUS].
#[derive(Clone, Copy, Drop)]
pub struct StatusRow<'a> {
    pub link: &'a [u8],
    pub to: Asked,
}

/// Reads a row of [DEMANDS]: junction, demand, pattern, category; the last two may be missing. Refused are, at the
/// first word that is wrong: a missing or further word (Syntax), an ID longer than 31 bytes (Limit 3), and a word that
/// is no number or one above 10^12 up or down (Number).
pub fn read_demand<'a>(text: &Lines<'a>, line: &Line) -> Result<DemandRow<'a>, Cause>
    requires { LiesIn text.now.text line.now }
    ensures { Judged (row.demand (words_at text.now line.now)) result (IsDemandRow (words_at text.now line.now)) }
{
    let junction = id(text, line, 0)?;
    let base = number(text, line, 1)?;
    let pattern = optional_id(text, line, 2)?;
    ends(text, line, 4)?;
    Ok(DemandRow {
        junction,
        base,
        pattern,
    })
}

/// Reads a row of [EMITTERS]: junction, coefficient. Refused are, at the first word that is wrong: a missing or further
/// word (Syntax), an ID longer than 31 bytes (Limit 3), a word that is no number or one above 10^12 up or down
/// (Number), and a coefficient outside 0 to 10^6 (Range).
pub fn read_emitter<'a>(text: &Lines<'a>, line: &Line) -> Result<EmitterRow<'a>, Cause>
    requires { LiesIn text.now.text line.now }
    ensures { Judged (row.emitter (words_at text.now line.now)) result (IsEmitterRow (words_at text.now line.now)) }
{
    let junction = id(text, line, 0)?;
    let coefficient = number_within(text, line, 1, 0, GREATEST_COEFFICIENT)?;
    ends(text, line, 2)?;
    Ok(EmitterRow {
        junction,
        coefficient,
    })
}

/// Reads a row of [CURVES]: ID, x, y. Refused are, at the first word that is wrong: a missing or further word (Syntax),
/// an ID longer than 31 bytes (Limit 3), and a word that is no number or one above 10^12 up or down (Number).
pub fn read_curve<'a>(text: &Lines<'a>, line: &Line) -> Result<CurveRow<'a>, Cause>
    requires { LiesIn text.now.text line.now }
    ensures { Judged (row.curve (words_at text.now line.now)) result (IsCurveRow (words_at text.now line.now)) }
{
    let id = id(text, line, 0)?;
    let x = number(text, line, 1)?;
    let y = number(text, line, 2)?;
    ends(text, line, 3)?;
    Ok(CurveRow { id, x, y })
}

/// Reads a row of [STATUS]: link, and OPEN, CLOSED or a number. Refused are, at the first word that is wrong: a missing
/// or further word (Syntax), an ID longer than 31 bytes (Limit 3), and another word that is no number or one above
/// 10^12 up or down (Number).
pub fn read_status<'a>(text: &Lines<'a>, line: &Line) -> Result<StatusRow<'a>, Cause>
    requires { LiesIn text.now.text line.now }
    ensures { Judged (row.status (words_at text.now line.now)) result (IsStatusRow (words_at text.now line.now)) }
{
    let link = id(text, line, 0)?;
    let to = asked_at(text, line, 1)?;
    ends(text, line, 2)?;
    Ok(StatusRow { link, to })
}
