//! Lines of simple controls (EPANET 2.2 User Manual, [CONTROLS]).
#![tactic(auto)]

ghost use Rattle.std.specs.Prelude.{◌≡◌, Some, codes, true, false};
ghost use Rattle.hyd_spec_lines.specs.Lines.{LiesIn};
ghost use Rattle.hyd_spec_input.specs.Columns as column;
ghost use Rattle.hyd_spec_input.specs.ControlRows as form;
ghost use Rattle.hyd_spec_input.specs.Keywords as keyword_form;
ghost use Rattle.hyd_option_and_rule_lines.specs.FaultOrValue.{Judged, words_at};
ghost use Rattle.hyd_option_and_rule_lines.specs.WhatLinesSay.{IsAsked, IsWhen, IsControlLine};

use crate::keywords::{link_word, node_word};
use crate::word_values::{either_keyword, ends, id, needed, number, number_of, word_is};
use crate::words_of_times_and_clock_times::{read_clock, read_time};
use hyd_lex::{Line, Lines, is_keyword};
use hyd_net::Cause;
use hyd_num::Decimal;
use hyd_spec_input::{LinkWord, NodeWord};

/// The state that a line asks of a link.
#[derive(Clone, Copy, Drop)]
pub enum Asked {
    Open,
    Closed,
    /// A pump's speed, a throttle control valve's loss coefficient, or a flow control valve's flow.
    Number(Decimal),
}

/// When a control acts. An ID is the number of its word, counted from 0.
#[derive(Clone, Copy, Drop)]
pub enum WhenLine {
    /// Where the level of a tank is at least a number (ABOVE), or at most it (BELOW), in the file's units.
    Level {
        object: NodeWord,
        node: u32,
        above: bool,
        level: Decimal,
    },
    /// At a time in seconds.
    Time(u32),
    /// At a time of day in seconds.
    Clock(u32),
}

/// The parts of a line of a simple control. An ID is the number of its word, counted from 0.
#[derive(Clone, Copy, Drop)]
pub struct ControlLine {
    pub object: LinkWord,
    pub link: u32,
    pub to: Asked,
    pub when: WhenLine,
}

// OPEN, CLOSED or a number.
fn asked_by(word: &[u8]) -> Result<Asked, Cause>
    ensures { Judged (column.asked word.now) result (IsAsked word.now) }
{
    if is_keyword(word, b"OPEN") {
        return Ok(Asked::Open);
    }
    if is_keyword(word, b"CLOSED") {
        return Ok(Asked::Closed);
    }
    let number = number_of(word)?;
    Ok(Asked::Number(number))
}

/// The state that a word asks of a link: Syntax where the word is missing, Number where it is no OPEN or CLOSED and no
/// number or one above 10^12 up or down.
pub fn asked_at(text: &Lines<'_>, line: &Line, k: u32) -> Result<Asked, Cause>
    requires { LiesIn text.now.text line.now }
    ensures { Judged (column.needed column.asked k (words_at text.now line.now)) result
        (IsAsked (column.word k (words_at text.now line.now))) }
{
    let word = needed(text, line, k)?;
    asked_by(word)
}

/// A word that names a kind of link: Syntax where it is missing or another.
pub(crate) fn link_kind(text: &Lines<'_>, line: &Line, k: u32) -> Result<LinkWord, Cause>
    requires { LiesIn text.now.text line.now }
    ensures { Judged (column.needed (column.meant keyword_form.link_word) k (words_at text.now line.now)) result
        (λ kind. keyword_form.link_word (column.word k (words_at text.now line.now)) ≡ Some kind) }
{
    let word = needed(text, line, k)?;
    match link_word(word) {
        Some(kind) => Ok(kind),
        None => Err(Cause::Syntax),
    }
}

// A word that names a kind of node.
fn node_kind(text: &Lines<'_>, line: &Line, k: u32) -> Result<NodeWord, Cause>
    requires { LiesIn text.now.text line.now }
    ensures { Judged (column.needed (column.meant keyword_form.node_word) k (words_at text.now line.now)) result
        (λ kind. keyword_form.node_word (column.word k (words_at text.now line.now)) ≡ Some kind) }
{
    let word = needed(text, line, k)?;
    match node_word(word) {
        Some(kind) => Ok(kind),
        None => Err(Cause::Syntax),
    }
}

// IF NODE id ABOVE or BELOW a level.
fn at_level(text: &Lines<'_>, line: &Line) -> Result<WhenLine, Cause>
    requires lies { LiesIn text.now.text line.now }
    requires is_level { column.word_is 3 (codes "IF") (words_at text.now line.now) ≡ true }
    ensures { Judged (form.level_control (words_at text.now line.now)) result (IsWhen (words_at text.now line.now)) }
{
    let object = node_kind(text, line, 4)?;
    id(text, line, 5)?;
    let above = either_keyword(text, line, 6, b"ABOVE", b"BELOW")?;
    let level = number(text, line, 7)?;
    ends(text, line, 8)?;
    Ok(WhenLine::Level {
        object,
        node: 5,
        above,
        level,
    })
}

// AT TIME time, or AT CLOCKTIME clock.
fn at_time(text: &Lines<'_>, line: &Line) -> Result<WhenLine, Cause>
    requires lies { LiesIn text.now.text line.now }
    requires is_time { column.word_is 3 (codes "IF") (words_at text.now line.now) ≡ false }
    ensures { Judged (form.time_control (words_at text.now line.now)) result (IsWhen (words_at text.now line.now)) }
{
    either_keyword(text, line, 4, b"TIME", b"CLOCKTIME")?;
    if word_is(text, line, 4, b"CLOCKTIME") {
        let seconds = read_clock(text, line, 5)?;
        return Ok(WhenLine::Clock(seconds));
    }
    let seconds = read_time(text, line, 5)?;
    Ok(WhenLine::Time(seconds))
}

/// Reads a line of a simple control: `LINK id status IF NODE id ABOVE level`, or BELOW; `LINK id status AT TIME
/// time`; `LINK id status AT CLOCKTIME clock`. Refused are, at the first word that is wrong: a wrong or missing
/// keyword and a further word (Syntax), an ID longer than 31 bytes (Limit 3), a number's form or size (Number), and
/// what [`read_time`](crate::read_time) and [`read_clock`](crate::read_clock) refuse.
pub fn read_control(text: &Lines<'_>, line: &Line) -> Result<ControlLine, Cause>
    requires { LiesIn text.now.text line.now }
    ensures { Judged (form.control (words_at text.now line.now)) result (IsControlLine (words_at text.now line.now)) }
{
    let object = link_kind(text, line, 0)?;
    id(text, line, 1)?;
    let to = asked_at(text, line, 2)?;
    let is_level = either_keyword(text, line, 3, b"IF", b"AT")?;
    if is_level {
        let when = at_level(text, line)?;
        return Ok(ControlLine {
            object,
            link: 1,
            to,
            when,
        });
    }
    let when = at_time(text, line)?;
    Ok(ControlLine {
        object,
        link: 1,
        to,
        when,
    })
}
