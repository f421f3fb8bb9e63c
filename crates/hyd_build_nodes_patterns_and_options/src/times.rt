//! The times that a file has in force.
#![tactic(auto)]

ghost use Rattle.std.specs.Prelude.{◌≡◌, None, IfSome};
ghost use Rattle.std.specs.List.{All};
ghost use Rattle.hyd_spec_lines.specs.Lines.{LiesIn};
ghost use Rattle.hyd_option_and_rule_lines.specs.FaultOrValue.{words_at};
ghost use Rattle.hyd_spec_input.specs.SingleRows.{IsWrongByItself};
ghost use Rattle.hyd_spec_input.specs.Faults.{NoneIs, IsWrongWithOthers};
ghost use Rattle.hyd_spec_input.specs.OptionsAndTimesInForce as force;
ghost use Rattle.hyd_spec_input.specs.TimesAndClockTimes as moment;
ghost use Rattle.hyd_spec_input.specs.Project.{IsTimes};
ghost use Rattle.hyd_rows_and_tables.specs.RowsOfLines.{rows_at, row_in};
ghost use Rattle.hyd_build_nodes_patterns_and_options.specs.LinesInForce.{GivesTime};

use crate::last_lines::last_line;
use hyd_lex::{Line, Lines, Section};
use hyd_net::Times;
use hyd_option_and_rule_lines::{read_clock, read_time};

const HOUR: u32 = 3_600;

// The seconds of a time that a line gives from a word on, or a default where there is no line.
fn seconds_or(text: &Lines<'_>, line: Option<Line>, from: u32, default: u32) -> u32
    requires lies { IfSome line (LiesIn text.now.text) }
    requires right { IfSome line (λ line. moment.time 0 from (words_at text.now line) ≡ None) }
    ensures { result ≡ force.say default (λ row. moment.time_seconds from row.words) (row_in text.now.text line) }
{
    let Some(line) = line else {
        return default;
    };
    match read_time(text, &line, from) {
        Ok(seconds) => seconds,
        Err(_) => default,
    }
}

// The time of day that the words of a line from the third on give, or 0 where there is no line.
fn clock_or_0(text: &Lines<'_>, line: Option<Line>) -> u32
    requires lies { IfSome line (LiesIn text.now.text) }
    requires right { IfSome line (λ line. moment.clock 2 (words_at text.now line) ≡ None) }
    ensures { result ≡ force.say 0 (λ row. moment.clock_seconds 2 row.words) (row_in text.now.text line) }
{
    let Some(line) = line else {
        return 0;
    };
    match read_clock(text, &line, 2) {
        Ok(seconds) => seconds,
        Err(_) => 0,
    }
}

// How long the simulation runs, 0 where no time is given.
fn duration(text: &Lines<'_>, lines: &[Line]) -> u32
    requires lie { All (LiesIn text.now.text) lines.now }
    requires by_itself { NoneIs (IsWrongByItself (rows_at text.now.text lines.now)) }
    requires with_others { NoneIs (IsWrongWithOthers (rows_at text.now.text lines.now)) }
    ensures { result ≡ force.duration (rows_at text.now.text lines.now) }
{
    let line = last_line(text, lines, Section::Times, b"DURATION", None);
    seconds_or(text, line, 1, 0)
}

// The time of a line that begins with two words, or a default.
fn seconds(text: &Lines<'_>, lines: &[Line], key: &[u8], second: &[u8], default: u32) -> u32
    requires lie { All (LiesIn text.now.text) lines.now }
    requires by_itself { NoneIs (IsWrongByItself (rows_at text.now.text lines.now)) }
    requires with_others { NoneIs (IsWrongWithOthers (rows_at text.now.text lines.now)) }
    requires gives { GivesTime key.now second.now }
    ensures { result ≡ force.seconds_of default key.now second.now (rows_at text.now.text lines.now) }
{
    let line = last_line(text, lines, Section::Times, key, Some(second));
    seconds_or(text, line, 2, default)
}

// The time of day at the start, 0 where none is given.
fn start_clock(text: &Lines<'_>, lines: &[Line]) -> u32
    requires lie { All (LiesIn text.now.text) lines.now }
    requires by_itself { NoneIs (IsWrongByItself (rows_at text.now.text lines.now)) }
    requires with_others { NoneIs (IsWrongWithOthers (rows_at text.now.text lines.now)) }
    ensures { result ≡ force.start_clock (rows_at text.now.text lines.now) }
{
    let line = last_line(text, lines, Section::Times, b"START", Some(b"CLOCKTIME"));
    clock_or_0(text, line)
}

/// The times in force of a file without a fault. The hydraulic step is at most those of patterns and reports, the step
/// of rules at most the hydraulic one.
pub fn times_in_force(text: &Lines<'_>, lines: &[Line]) -> Times
    requires lie { All (LiesIn text.now.text) lines.now }
    requires by_itself { NoneIs (IsWrongByItself (rows_at text.now.text lines.now)) }
    requires with_others { NoneIs (IsWrongWithOthers (rows_at text.now.text lines.now)) }
    ensures { IsTimes (rows_at text.now.text lines.now) result }
{
    let written = seconds(text, lines, b"HYDRAULIC", b"TIMESTEP", HOUR);
    let pattern = seconds(text, lines, b"PATTERN", b"TIMESTEP", HOUR);
    let report = seconds(text, lines, b"REPORT", b"TIMESTEP", HOUR);
    let hydraulic = written.min(pattern.min(report));
    let tenth = 1u32.max(written / 10);
    let rule = seconds(text, lines, b"RULE", b"TIMESTEP", tenth);
    Times {
        duration: duration(text, lines),
        hydraulic,
        pattern,
        pattern_start: seconds(text, lines, b"PATTERN", b"START", 0),
        report,
        report_start: seconds(text, lines, b"REPORT", b"START", 0),
        start_clock: start_clock(text, lines),
        rule: rule.min(hydraulic),
    }
}
