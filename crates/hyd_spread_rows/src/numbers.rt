//! The numbers of rows of a spread.
#![tactic(auto)]

ghost use Rattle.std.specs.Prelude.{◌≡◌, ◌^◌, ◌≤ℤ◌, ◌&&◌, pos, true, false};
ghost use Rattle.std.specs.List.{list_all};
ghost use lib.Signed.{le_z};
ghost use Rattle.hyd_spec.specs.ProgramTypes.{Tank};
ghost use Rattle.hyd_spec_lines.specs.WordsOfLines.{words_in};
ghost use Rattle.hyd_spec_input.specs.Columns as column;
ghost use Rattle.hyd_spec_input.specs.Columns.{amount};
ghost use Rattle.hyd_option_and_rule_lines.specs.FaultOrValue.{Judged};
ghost use Rattle.hyd_spec_spread_rows.specs.RowsOfSpreads as row;

use crate::names::tanks_meant;
use crate::words::{ends, ends_by_percent, needed, number_within, or_empty, percentage};
use hyd_net::{Cause, Project, Tank};
use hyd_num::Decimal;
use hyd_option_and_rule_lines::number_of;
use hyd_rows_and_tables::NumberedIds;
use hyd_spec_spread_rows::{Ends, Subject};
use hyd_units::head_ticks;

/// The factor 1, in billionths.
pub(crate) const ONE: i128 = 1_000_000_000;

// The greatest factor, in billionths.
const GREATEST_FACTOR: i128 = 1_000_000 * 1_000_000_000;

// The greatest percentage, in billionths.
const WHOLE: i128 = 100 * 1_000_000_000;

// The greatest one that leaves an emitter something.
const ALMOST_WHOLE: i128 = 99_999_999_900;

// How far a head may lie off, in billionths of a foot or a metre.
const GREATEST_OFFSET: i128 = 10_000 * 1_000_000_000;

// The least factor that a row may give.
fn least_factor(subject: Subject) -> i128
    ensures { result ≡ row.least_factor subject }
{
    match subject {
        Subject::Emitter => 1,
        _ => 0,
    }
}

// The greatest percentage that a row may give.
fn greatest_percentage(subject: Subject) -> i128
    ensures value { result ≡ row.greatest_percentage subject }
    ensures most { result ≤ℤ pos (10 ^ 11) }
{
    match subject {
        Subject::Emitter => ALMOST_WHOLE,
        _ => WHOLE,
    }
}

// The factors that a percentage gives.
fn percent_factors(body: &[u8], subject: Subject) -> Result<Ends, Cause>
    requires { row.ends_by_percent (column.word 2 (words_in body.now)) ≡ true }
    ensures { Judged (row.factor_words subject (words_in body.now)) result
        (λ ends. ends ≡ row.factor_ends (words_in body.now)) }
{
    let percentage = percentage(body, greatest_percentage(subject))?;
    ends(body, 3)?;
    let part = i128::from((percentage + 99) / 100);
    Ok(Ends {
        low: ONE - part,
        high: ONE + part,
    })
}

// Two factors with 1 between them.
fn two_factors(body: &[u8], subject: Subject) -> Result<Ends, Cause>
    requires { row.ends_by_percent (column.word 2 (words_in body.now)) ≡ false }
    ensures { Judged (row.factor_words subject (words_in body.now)) result
        (λ ends. ends ≡ row.factor_ends (words_in body.now)) }
{
    let low = number_within(body, 2, least_factor(subject), ONE)?;
    let high = number_within(body, 3, ONE, GREATEST_FACTOR)?;
    ends(body, 4)?;
    Ok(Ends {
        low: low.nano,
        high: high.nano,
    })
}

// The factors of demands or of emitters.
fn factors(body: &[u8], subject: Subject) -> Result<Ends, Cause>
    ensures { Judged (row.factor_words subject (words_in body.now)) result
        (λ ends. ends ≡ row.factor_ends (words_in body.now)) }
{
    if ends_by_percent(or_empty(body, 2)) {
        percent_factors(body, subject)
    } else {
        two_factors(body, subject)
    }
}

// The offsets of heads.
fn offsets(project: &Project, body: &[u8]) -> Result<Ends, Cause>
    ensures { Judged (row.offset_words (words_in body.now)) result
        (λ ends. ends ≡ row.length_ends project.now (words_in body.now)) }
{
    let us = project.options.unit.is_us();
    let low = number_within(body, 2, -GREATEST_OFFSET, 0)?;
    let high = number_within(body, 3, 0, GREATEST_OFFSET)?;
    ends(body, 4)?;
    Ok(Ends {
        low: head_ticks(low, us),
        high: head_ticks(high, us),
    })
}

// Whether a level is from the minimum of each tank to its initial level.
fn is_from_minimum(tanks: &[Tank], level: i128) -> bool
    ensures { result ≡ list_all (λ (tank : Tank). le_z tank.minimum level && le_z level tank.initial) tanks.now }
{
    tanks.iter().all(|tank| i128::from(tank.minimum) <= level && level <= i128::from(tank.initial))
}

// Whether a level is from the initial level of each tank to its maximum.
fn is_to_maximum(tanks: &[Tank], level: i128) -> bool
    ensures { result ≡ list_all (λ (tank : Tank). le_z tank.initial level && le_z level tank.maximum) tanks.now }
{
    tanks.iter().all(|tank| i128::from(tank.initial) <= level && level <= i128::from(tank.maximum))
}

// Whether a number of feet or metres may be the lower level of tanks.
fn is_low(project: &Project, tanks: &[Tank], level: Decimal) -> bool
    ensures { result ≡ row.is_low_level project.now tanks.now level.nano }
{
    is_from_minimum(tanks, head_ticks(level, project.options.unit.is_us()))
}

// Whether it may be the upper level.
fn is_high(project: &Project, tanks: &[Tank], level: Decimal) -> bool
    ensures { result ≡ row.is_high_level project.now tanks.now level.nano }
{
    is_to_maximum(tanks, head_ticks(level, project.options.unit.is_us()))
}

// The lower level, in feet or metres.
fn low_level(project: &Project, body: &[u8], tanks: &[Tank]) -> Result<Decimal, Cause>
    ensures { Judged (column.needed (column.number_where (row.is_low_level project.now tanks.now)) 2
        (words_in body.now)) result (λ level. level.nano ≡ amount 2 (words_in body.now)) }
{
    let word = needed(body, 2)?;
    let level = number_of(word)?;
    if !is_low(project, tanks, level) {
        return Err(Cause::Range);
    }
    Ok(level)
}

// The upper level, in feet or metres.
fn high_level(project: &Project, body: &[u8], tanks: &[Tank]) -> Result<Decimal, Cause>
    ensures { Judged (column.needed (column.number_where (row.is_high_level project.now tanks.now)) 3
        (words_in body.now)) result (λ level. level.nano ≡ amount 3 (words_in body.now)) }
{
    let word = needed(body, 3)?;
    let level = number_of(word)?;
    if !is_high(project, tanks, level) {
        return Err(Cause::Range);
    }
    Ok(level)
}

// The levels of tanks.
fn levels(project: &Project, body: &[u8], tanks: &[Tank]) -> Result<Ends, Cause>
    ensures { Judged (row.level_words project.now tanks.now (words_in body.now)) result
        (λ ends. ends ≡ row.length_ends project.now (words_in body.now)) }
{
    let us = project.options.unit.is_us();
    let low = low_level(project, body, tanks)?;
    let high = high_level(project, body, tanks)?;
    ends(body, 4)?;
    Ok(Ends {
        low: head_ticks(low, us),
        high: head_ticks(high, us),
    })
}

/// Reads the numbers of a row about a subject, which names this: Syntax where a word is missing or there is a further
/// one, Number where one is no number or above 10^12 up or down, Range where it lies outside its range.
pub(crate) fn numbers(
    project: &Project,
    ids: &NumberedIds,
    body: &[u8],
    subject: Subject,
    name: &[u8],
) -> Result<Ends, Cause>
    requires ids { ids.now ≡ project.now.node_ids }
    requires name { name.now ≡ column.word 1 (words_in body.now) }
    ensures { Judged (row.number_words project.now subject (words_in body.now)) result
        (λ ends. ends ≡ row.ends_of project.now subject (words_in body.now)) }
{
    match subject {
        Subject::Demand => factors(body, Subject::Demand),
        Subject::Emitter => factors(body, Subject::Emitter),
        Subject::Head => offsets(project, body),
        Subject::Level => levels(project, body, tanks_meant(project, ids, name)),
    }
}
