//! Lines of options (EPANET 2.2 User Manual, [OPTIONS]).
#![tactic(auto)]

ghost use Rattle.std.specs.Prelude.{◌≡◌, [], ◌∷◌, unwrap_or, codes};
ghost use Rattle.hyd_spec_lines.specs.Lines.{LiesIn};
ghost use Rattle.hyd_num.specs.declared.flow_units.FlowUnit.TheVariants.{Gpm};
ghost use Rattle.hyd_spec_input.specs.Columns as column;
ghost use Rattle.hyd_spec_input.specs.Columns.{amount};
ghost use Rattle.hyd_spec_input.specs.Keywords as keyword_form;
ghost use Rattle.hyd_spec_input.specs.OptionAndTimeRows as form;
ghost use Rattle.hyd_option_and_rule_lines.specs.FaultOrValue.{Judged, words_at};
ghost use Rattle.hyd_option_and_rule_lines.specs.WhatLinesSay.{IsDemandSet, IsOptionSet};

use crate::keywords::{flow_unit, option_word};
use crate::word_values::{
    either_keyword, ends, id, keyword, needed, not_negative, number, number_within, or_empty,
    word_is,
};
use hyd_lex::{Line, Lines, is_keyword};
use hyd_net::Cause;
use hyd_net::ranges::GREATEST_MULTIPLIER;
use hyd_num::{Decimal, FlowUnit};
use hyd_spec_input::OptionWord;

const ONE: i128 = 1_000_000_000;

const HALF: i128 = 500_000_000;

/// What a line of options sets. An ID is the number of its word, counted from 0.
#[derive(Clone, Copy, Drop)]
pub enum OptionSet {
    /// The unit of flows.
    Unit(FlowUnit),
    /// The head loss formula: that of Hazen and Williams, or of Chezy and Manning.
    Formula { is_hazen_williams: bool },
    /// The pattern of demands that name none.
    Pattern(u32),
    /// The multiplier of all demands, from 0 to 10^6.
    Multiplier(Decimal),
    /// Whether demands depend on pressure.
    Pda(bool),
    /// The pressure up to which a demand is 0, at least 0.
    MinimumPressure(Decimal),
    /// The pressure from which on a demand is whole, at least 0.
    RequiredPressure(Decimal),
    /// An option that is read over.
    Unused,
}

// UNITS and a unit of flows.
fn units(text: &Lines<'_>, line: &Line) -> Result<OptionSet, Cause>
    requires { LiesIn text.now.text line.now }
    ensures { Judged (form.units_line (words_at text.now line.now)) result
        (λ set. set ≡ OptionSet.Unit (unwrap_or (keyword_form.flow_unit
        (column.word 1 (words_at text.now line.now))) Gpm)) }
{
    let word = needed(text, line, 1)?;
    let Some(unit) = flow_unit(word) else {
        return Err(Cause::Syntax);
    };
    ends(text, line, 2)?;
    Ok(OptionSet::Unit(unit))
}

// A head loss formula: Unsupported 1 for that of Darcy and Weisbach.
fn loss_formula(word: &[u8]) -> Result<(), Cause>
    ensures { Judged (column.supported form.loss_formulas (codes "D-W" ∷ []) 1 word.now) result
        (λ _. Unit {0}) }
{
    if is_keyword(word, b"D-W") {
        return Err(Cause::Unsupported(1));
    }
    if is_keyword(word, b"C-M") {
        return Ok(());
    }
    if is_keyword(word, b"H-W") {
        return Ok(());
    }
    Err(Cause::Syntax)
}

// HEADLOSS and a formula.
fn head_loss(text: &Lines<'_>, line: &Line) -> Result<OptionSet, Cause>
    requires { LiesIn text.now.text line.now }
    ensures { Judged (form.head_loss_line (words_at text.now line.now)) result
        (λ set. set ≡ OptionSet.Formula (column.word_is 1 (codes "H-W") (words_at text.now line.now))) }
{
    let word = needed(text, line, 1)?;
    loss_formula(word)?;
    ends(text, line, 2)?;
    Ok(OptionSet::Formula {
        is_hazen_williams: word_is(text, line, 1, b"H-W"),
    })
}

// PATTERN and an ID.
fn default_pattern(text: &Lines<'_>, line: &Line) -> Result<OptionSet, Cause>
    requires { LiesIn text.now.text line.now }
    ensures { Judged (form.pattern_line (words_at text.now line.now)) result (λ set. set ≡ OptionSet.Pattern 1) }
{
    id(text, line, 1)?;
    ends(text, line, 2)?;
    Ok(OptionSet::Pattern(1))
}

// What follows DEMAND MULTIPLIER or DEMAND MODEL.
fn demand_value(text: &Lines<'_>, line: &Line) -> Result<OptionSet, Cause>
    requires { LiesIn text.now.text line.now }
    ensures { Judged (column.needed (form.demand_value (words_at text.now line.now)) 2
        (words_at text.now line.now)) result (IsDemandSet
        (column.word_is 1 (codes "MULTIPLIER") (words_at text.now line.now)) (words_at text.now line.now)) }
{
    if word_is(text, line, 1, b"MULTIPLIER") {
        let multiplier = number_within(text, line, 2, 0, GREATEST_MULTIPLIER)?;
        return Ok(OptionSet::Multiplier(multiplier));
    }
    either_keyword(text, line, 2, b"DDA", b"PDA")?;
    Ok(OptionSet::Pda(word_is(text, line, 2, b"PDA")))
}

// DEMAND MULTIPLIER and a number, or DEMAND MODEL and DDA or PDA.
fn demand(text: &Lines<'_>, line: &Line) -> Result<OptionSet, Cause>
    requires { LiesIn text.now.text line.now }
    ensures { Judged (form.demand_line (words_at text.now line.now)) result
        (IsDemandSet (column.word_is 1 (codes "MULTIPLIER") (words_at text.now line.now))
        (words_at text.now line.now)) }
{
    either_keyword(text, line, 1, b"MULTIPLIER", b"MODEL")?;
    let set = demand_value(text, line)?;
    ends(text, line, 3)?;
    Ok(set)
}

// MINIMUM PRESSURE or REQUIRED PRESSURE and a number.
fn bound(text: &Lines<'_>, line: &Line) -> Result<Decimal, Cause>
    requires { LiesIn text.now.text line.now }
    ensures { Judged (form.bound_line (words_at text.now line.now)) result
        (λ number. number.nano ≡ amount 2 (words_at text.now line.now)) }
{
    keyword(text, line, 1, b"PRESSURE")?;
    let pressure = not_negative(text, line, 2)?;
    ends(text, line, 3)?;
    Ok(pressure)
}

// A number that has to be one of so many billionths, else Unsupported of this number.
fn only(text: &Lines<'_>, line: &Line, k: u32, nano: i128, reason: u8) -> Result<(), Cause>
    requires { LiesIn text.now.text line.now }
    ensures { Judged (column.needed (column.only nano reason) k (words_at text.now line.now)) result (λ _. Unit {0}) }
{
    let number = number(text, line, k)?;
    if number.nano != nano {
        return Err(Cause::Unsupported(reason));
    }
    Ok(())
}

// A unit of pressure: Unsupported 13 for kilopascals.
fn pressure_unit(word: &[u8]) -> Result<(), Cause>
    ensures { Judged (column.supported form.pressure_units (codes "KPA" ∷ []) 13 word.now) result (λ _. Unit {0}) }
{
    if is_keyword(word, b"KPA") {
        return Err(Cause::Unsupported(13));
    }
    if is_keyword(word, b"PSI") {
        return Ok(());
    }
    if is_keyword(word, b"METERS") {
        return Ok(());
    }
    Err(Cause::Syntax)
}

// PRESSURE EXPONENT and a half, or PRESSURE and a unit.
fn pressure(text: &Lines<'_>, line: &Line) -> Result<OptionSet, Cause>
    requires { LiesIn text.now.text line.now }
    ensures { Judged (form.pressure_line (words_at text.now line.now)) result (λ set. set ≡ OptionSet.Unused) }
{
    if word_is(text, line, 1, b"EXPONENT") {
        only(text, line, 2, HALF, 6)?;
        ends(text, line, 3)?;
        return Ok(OptionSet::Unused);
    }
    let word = needed(text, line, 1)?;
    pressure_unit(word)?;
    ends(text, line, 2)?;
    Ok(OptionSet::Unused)
}

// EMITTER EXPONENT and a half.
fn emitter(text: &Lines<'_>, line: &Line) -> Result<OptionSet, Cause>
    requires { LiesIn text.now.text line.now }
    ensures { Judged (form.emitter_line (words_at text.now line.now)) result (λ set. set ≡ OptionSet.Unused) }
{
    keyword(text, line, 1, b"EXPONENT")?;
    only(text, line, 2, HALF, 5)?;
    ends(text, line, 3)?;
    Ok(OptionSet::Unused)
}

// SPECIFIC GRAVITY and 1.
fn specific(text: &Lines<'_>, line: &Line) -> Result<OptionSet, Cause>
    requires { LiesIn text.now.text line.now }
    ensures { Judged (form.specific_line (words_at text.now line.now)) result (λ set. set ≡ OptionSet.Unused) }
{
    keyword(text, line, 1, b"GRAVITY")?;
    only(text, line, 2, ONE, 7)?;
    ends(text, line, 3)?;
    Ok(OptionSet::Unused)
}

/// Reads a line of options. Refused are, at the first word that is wrong: another first word, a word that is missing
/// or isn't one of the option's, and a further word (Syntax); an ID longer than 31 bytes (Limit 3); a number's form
/// or size (Number) and range (Range); and what isn't supported: the head loss formula D-W (1), exponents but 0.5 (5
/// of emitters, 6 of pressure), a specific gravity but 1 (7) and pressures in KPA (13).
pub fn read_option(text: &Lines<'_>, line: &Line) -> Result<OptionSet, Cause>
    requires { LiesIn text.now.text line.now }
    ensures { Judged (form.option (words_at text.now line.now)) result (IsOptionSet (words_at text.now line.now)) }
{
    let Some(option) = option_word(or_empty(text, line, 0)) else {
        return Err(Cause::Syntax);
    };
    match option {
        OptionWord::Units => units(text, line),
        OptionWord::HeadLoss => head_loss(text, line),
        OptionWord::Pattern => default_pattern(text, line),
        OptionWord::Demand => demand(text, line),
        OptionWord::Minimum => {
            let pressure = bound(text, line)?;
            Ok(OptionSet::MinimumPressure(pressure))
        }
        OptionWord::Required => {
            let pressure = bound(text, line)?;
            Ok(OptionSet::RequiredPressure(pressure))
        }
        OptionWord::Pressure => pressure(text, line),
        OptionWord::Emitter => emitter(text, line),
        OptionWord::Specific => specific(text, line),
        OptionWord::Unused => Ok(OptionSet::Unused),
    }
}
