//! Rows of pipes (EPANET 2.2 User Manual, [PIPES]).
#![tactic(auto)]

ghost use Rattle.std.specs.Prelude.{◌≡◌, ℕ, List, slice_get};
ghost use Rattle.hyd_spec_lines.specs.Headings.{is_one_of};
ghost use Rattle.hyd_spec_lines.specs.WordsOfLines.{text_of};
ghost use Rattle.hyd_spec_lines.specs.Lines.{LiesIn};
ghost use Rattle.hyd_option_and_rule_lines.specs.FaultOrValue.{Judged, words_at};
ghost use Rattle.hyd_spec_input.specs.Columns as column;
ghost use Rattle.hyd_spec_input.specs.NodeAndLinkRows as row;
ghost use Rattle.hyd_network_rows.specs.Rows.{IsPipeRow, pipe_status};

use crate::end_nodes::{LinkEnds, read_ends};
use crate::optional_and_bounded_words::within;
use hyd_lex::{Line, Lines, is_keyword};
use hyd_net::Cause;
use hyd_net::ranges::{GREATEST_COEFFICIENT, GREATEST_DIAMETER};
use hyd_num::Decimal;
use hyd_option_and_rule_lines::{ends, needed_number, needed_within};

const GREATEST_LENGTH: i128 = 1_000_000 * 1_000_000_000;

const GREATEST_ROUGHNESS: i128 = 10 * 1_000_000_000;

/// Whether a pipe is open, closed, or has a check valve.
#[derive(Clone, Copy, Drop)]
pub enum PipeStatus {
    Open,
    Closed,
    CheckValve,
}

/// A row of [PIPES], in the file's units.
#[derive(Clone, Copy, Drop)]
pub struct PipeRow<'a> {
    pub ends: LinkEnds<'a>,
    pub length: Decimal,
    pub diameter: Decimal,
    /// Manning's coefficient, or that of Hazen and Williams.
    pub roughness: Decimal,
    /// The minor loss coefficient, 0 where none is given.
    pub minor: Decimal,
    pub status: PipeStatus,
}

fn is_pipe_status(word: &[u8]) -> bool
    ensures { result ≡ is_one_of row.pipe_statuses word.now }
{
    if is_keyword(word, b"OPEN") {
        return true;
    }
    if is_keyword(word, b"CLOSED") {
        return true;
    }
    is_keyword(word, b"CV")
}

// Whether the seventh word stands alone and is a status.
fn has_status_alone(seventh: Option<&[u8]>, eighth: Option<&[u8]>) -> bool
    ensures { (words : List (List ℕ)) → text_of seventh.entry ≡ slice_get words 6
        → text_of eighth.entry ≡ slice_get words 7 → result ≡ row.has_status_alone words }
{
    let Some(word) = seventh else {
        return false;
    };
    eighth.is_none() && is_pipe_status(word)
}

// The minor loss coefficient, 0 where it isn't there.
fn minor(seventh: Option<&[u8]>, alone: bool) -> Result<Decimal, Cause>
    ensures { (words : List (List ℕ)) → text_of seventh.entry ≡ slice_get words 6 → alone ≡ row.has_status_alone words
        → Judged (column.optional (row.minor_or_status words) 6 words) result
        (λ minor. minor.nano ≡ row.pipe_minor words) }
{
    if alone {
        return Ok(Decimal { nano: 0 });
    }
    match seventh {
        Some(word) => within(word, 0, GREATEST_COEFFICIENT),
        None => Ok(Decimal { nano: 0 }),
    }
}

// A status behind the coefficient, where the word is there.
fn check_status(eighth: Option<&[u8]>) -> Result<(), Cause>
    ensures { (words : List (List ℕ)) → text_of eighth.entry ≡ slice_get words 7
        → Judged (column.optional (column.one_of row.pipe_statuses) 7 words) result (λ _. Unit {0}) }
{
    let Some(word) = eighth else {
        return Ok(());
    };
    if !is_pipe_status(word) {
        return Err(Cause::Syntax);
    }
    Ok(())
}

// Nothing stands behind the eighth word, where there is one.
fn ends_row(text: &Lines<'_>, line: &Line, eighth: Option<&[u8]>) -> Result<(), Cause>
    requires lies { LiesIn text.now.text line.now }
    requires eighth { text_of eighth ≡ slice_get (words_at text.now line.now) 7 }
    ensures { Judged (column.ends 8 (words_at text.now line.now)) result (λ _. Unit {0}) }
{
    match eighth {
        Some(_) => ends(text, line, 8),
        None => Ok(()),
    }
}

// What the status word says.
fn status(seventh: Option<&[u8]>, eighth: Option<&[u8]>, alone: bool) -> PipeStatus
    ensures { (words : List (List ℕ)) → text_of seventh.entry ≡ slice_get words 6
        → text_of eighth.entry ≡ slice_get words 7 → alone ≡ row.has_status_alone words
        → result ≡ pipe_status words }
{
    let Some(word) = (if alone { seventh } else { eighth }) else {
        return PipeStatus::Open;
    };
    if is_keyword(word, b"CV") {
        return PipeStatus::CheckValve;
    }
    if is_keyword(word, b"CLOSED") {
        return PipeStatus::Closed;
    }
    PipeStatus::Open
}

/// What the status word of a row of [PIPES] says, without the rest of the row.
pub fn read_pipe_status(text: &Lines<'_>, line: &Line) -> PipeStatus
    requires { LiesIn text.now.text line.now }
    ensures { result ≡ pipe_status (words_at text.now line.now) }
{
    let words = text.first_words(line);
    let seventh = words.word(6);
    let eighth = words.word(7);
    status(seventh, eighth, has_status_alone(seventh, eighth))
}

// The roughness: any number where losses are by Hazen-Williams, else Manning's.
fn roughness(sixth: Option<&[u8]>, by_power: bool) -> Result<Decimal, Cause>
    ensures { (words : List (List ℕ)) → text_of sixth.entry ≡ slice_get words 5
        → Judged (column.needed (row.roughness by_power) 5 words) result
        (λ roughness. roughness.nano ≡ column.amount 5 words) }
{
    if by_power {
        return needed_number(sixth);
    }
    needed_within(sixth, 1, GREATEST_ROUGHNESS)
}

/// Reads a row of [PIPES]: ID, two nodes, length, diameter, roughness, minor loss coefficient, status; the
/// last two may be missing, and a seventh word alone may be either. Refused are, at the first word that is wrong: a
/// missing or further word and a status but OPEN, CLOSED and CV (Syntax), an ID longer than 31 bytes (Limit 3), a word
/// that is no number or one above 10^12 up or down (Number), a second node that is the first, a length outside 0 to
/// 10^6, a diameter outside 0 to 10^4, both also 0, a minor loss coefficient outside 0 to 10^6, and, where losses aren't
/// by Hazen-Williams, a roughness outside 0 to 10, also 0 (Range).
pub fn read_pipe_by<'a>(text: &Lines<'a>, line: &Line, by_power: bool) -> Result<PipeRow<'a>, Cause>
    requires { LiesIn text.now.text line.now }
    ensures { Judged (row.pipe_by by_power (words_at text.now line.now)) result
        (IsPipeRow (words_at text.now line.now)) }
{
    let words = text.first_words(line);
    let link = read_ends(&words)?;
    let length = needed_within(words.word(3), 1, GREATEST_LENGTH)?;
    let diameter = needed_within(words.word(4), 1, GREATEST_DIAMETER)?;
    let roughness = roughness(words.word(5), by_power)?;
    let seventh = words.word(6);
    let eighth = words.word(7);
    let alone = has_status_alone(seventh, eighth);
    let minor = minor(seventh, alone)?;
    check_status(eighth)?;
    ends_row(text, line, eighth)?;
    Ok(PipeRow {
        ends: link,
        length,
        diameter,
        roughness,
        minor,
        status: status(seventh, eighth, alone),
    })
}

/// Reads a row of [PIPES] that is right by itself. Its roughness may be any number; all else is refused as it is by
/// `read_pipe_by`.
pub fn read_pipe<'a>(text: &Lines<'a>, line: &Line) -> Result<PipeRow<'a>, Cause>
    requires { LiesIn text.now.text line.now }
    ensures { Judged (row.pipe (words_at text.now line.now)) result (IsPipeRow (words_at text.now line.now)) }
{
    read_pipe_by(text, line, true)
}
