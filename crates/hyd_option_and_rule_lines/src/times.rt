//! Lines of times (EPANET 2.2 User Manual, [TIMES]).
#![tactic(auto)]

ghost use Rattle.std.specs.Prelude.{◌≡◌, codes};
ghost use Rattle.hyd_spec_lines.specs.Lines.{LiesIn};
ghost use Rattle.hyd_spec_input.specs.Columns as column;
ghost use Rattle.hyd_spec_input.specs.TimesAndClockTimes.{time_seconds, clock_seconds};
ghost use Rattle.hyd_spec_input.specs.OptionAndTimeRows as form;
ghost use Rattle.hyd_option_and_rule_lines.specs.FaultOrValue.{Judged, words_at};
ghost use Rattle.hyd_option_and_rule_lines.specs.WhatLinesSay.{time_set};

use crate::keywords::time_word;
use crate::word_values::{either_keyword, keyword, or_empty};
use crate::words_of_times_and_clock_times::{read_clock, read_time, read_time_from};
use hyd_lex::{Line, Lines};
use hyd_net::Cause;
use hyd_spec_input::TimeWord;

/// What a line of times sets, in seconds.
#[derive(Clone, Copy, Drop)]
pub enum TimeSet {
    /// How long the simulation runs.
    Duration(u32),
    /// The hydraulic step, at least 1.
    Hydraulic(u32),
    /// The step of patterns, at least 1.
    Pattern(u32),
    /// The time of patterns at the start.
    PatternStart(u32),
    /// The step of reports, at least 1.
    Report(u32),
    /// The time of the first report.
    ReportStart(u32),
    /// The time of day at the start.
    StartClock(u32),
    /// The step of rules, at least 1.
    Rule(u32),
    /// A time that is read over.
    Unused,
}

// TIMESTEP and a time of at least a second.
fn step(text: &Lines<'_>, line: &Line) -> Result<u32, Cause>
    requires { LiesIn text.now.text line.now }
    ensures { Judged (form.step_line (words_at text.now line.now)) result
        (λ seconds. seconds ≡ time_seconds 2 (words_at text.now line.now)) }
{
    keyword(text, line, 1, b"TIMESTEP")?;
    read_time_from(text, line, 2, 1)
}

// TIMESTEP and a time of at least a second, or START and a time; and whether it is a step.
fn step_or_start(text: &Lines<'_>, line: &Line) -> Result<(bool, u32), Cause>
    requires { LiesIn text.now.text line.now }
    ensures { Judged (form.step_or_start_line (words_at text.now line.now)) result
        (λ set. (set.0 ≡ column.word_is 1 (codes "TIMESTEP") (words_at text.now line.now))
        × (set.1 ≡ time_seconds 2 (words_at text.now line.now))) }
{
    let is_step = either_keyword(text, line, 1, b"TIMESTEP", b"START")?;
    let least = if is_step { 1 } else { 0 };
    let seconds = read_time_from(text, line, 2, least)?;
    Ok((is_step, seconds))
}

// START CLOCKTIME and a time of day.
fn start(text: &Lines<'_>, line: &Line) -> Result<u32, Cause>
    requires { LiesIn text.now.text line.now }
    ensures { Judged (form.start_line (words_at text.now line.now)) result
        (λ seconds. seconds ≡ clock_seconds 2 (words_at text.now line.now)) }
{
    keyword(text, line, 1, b"CLOCKTIME")?;
    read_clock(text, line, 2)
}

/// Reads a line of times. Refused are, at the first word that is wrong: another first or second word (Syntax), and
/// what [`read_time`](crate::read_time) and [`read_clock`](crate::read_clock) refuse; a step of less than a second is
/// out of range.
pub fn read_time_line(text: &Lines<'_>, line: &Line) -> Result<TimeSet, Cause>
    requires { LiesIn text.now.text line.now }
    ensures { Judged (form.time_line (words_at text.now line.now)) result
        (λ set. set ≡ time_set (words_at text.now line.now)) }
{
    let Some(time) = time_word(or_empty(text, line, 0)) else {
        return Err(Cause::Syntax);
    };
    match time {
        TimeWord::Duration => Ok(TimeSet::Duration(read_time(text, line, 1)?)),
        TimeWord::Hydraulic => {
            let seconds = step(text, line)?;
            Ok(TimeSet::Hydraulic(seconds))
        }
        TimeWord::Pattern => {
            let (is_step, seconds) = step_or_start(text, line)?;
            if is_step {
                return Ok(TimeSet::Pattern(seconds));
            }
            Ok(TimeSet::PatternStart(seconds))
        }
        TimeWord::Report => {
            let (is_step, seconds) = step_or_start(text, line)?;
            if is_step {
                return Ok(TimeSet::Report(seconds));
            }
            Ok(TimeSet::ReportStart(seconds))
        }
        TimeWord::Rule => {
            let seconds = step(text, line)?;
            Ok(TimeSet::Rule(seconds))
        }
        TimeWord::Start => Ok(TimeSet::StartClock(start(text, line)?)),
        TimeWord::Quality => {
            keyword(text, line, 1, b"TIMESTEP")?;
            Ok(TimeSet::Unused)
        }
        TimeWord::Statistic => Ok(TimeSet::Unused),
    }
}
