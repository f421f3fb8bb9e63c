//! Lines of rules (EPANET 2.2 User Manual, [RULES]).
#![tactic(auto)]

ghost use Rattle.std.specs.Prelude.{◌≡◌, ◌≤◌, Some, [], ◌∷◌, codes};
ghost use Rattle.hyd_spec_lines.specs.Lines.{LiesIn};
ghost use Rattle.hyd_spec_input.specs.Columns as column;
ghost use Rattle.hyd_spec_input.specs.Keywords as keyword_form;
ghost use Rattle.hyd_spec_input.specs.RuleRows as form;
ghost use Rattle.hyd_option_and_rule_lines.specs.FaultOrValue.{Judged, words_at};
ghost use Rattle.hyd_option_and_rule_lines.specs.WhatLinesSay as meaning;
ghost use Rattle.hyd_option_and_rule_lines.specs.WhatLinesSay.{IsValue, IsComparison, IsClauseLine, IsSet};
ghost use Rattle.hyd_option_and_rule_lines.specs.WhatLinesSay.{IsActionLine};
ghost use Rattle.hyd_option_and_rule_lines.specs.WhatLinesSay.{IsRuleLine};
ghost use Rattle.hyd_option_and_rule_lines.specs.WhatLinesSay.{status_value};

use crate::controls::{Asked, link_kind};
use crate::keywords::{
    attribute_word, is_unsupported_attribute, object_word, relation_word, rule_word,
};
use crate::word_values::{either_keyword, ends, id, needed, number, or_empty};
use crate::words_of_times_and_clock_times::{read_clock, read_time};
use hyd_lex::{Line, Lines, is_keyword};
use hyd_net::{Cause, Relation};
use hyd_num::Decimal;
use hyd_spec_input::{Attribute, LinkWord, NodeWord, ObjectWord, RuleWord};

/// What a clause speaks of. An ID is the number of its word, counted from 0.
#[derive(Clone, Copy, Drop)]
pub enum Object {
    System,
    Node(NodeWord, u32),
    Link(LinkWord, u32),
}

/// What a clause compares with.
#[derive(Debug, Clone, Copy, PartialEq, Eq, Drop)]
pub enum Value {
    /// A head, pressure, level, flow or setting, in the file's units.
    Number(Decimal),
    /// A time, or a time of day.
    Seconds(u32),
    Open,
    Closed,
    Active,
}

/// The parts of a clause.
#[derive(Clone, Copy, Drop)]
pub struct ClauseLine {
    pub object: Object,
    pub what: Attribute,
    pub relation: Relation,
    pub value: Value,
}

/// The parts of an action: a link, whose ID is the number of its word, counted from 0, and the state that is asked of
/// it.
#[derive(Clone, Copy, Drop)]
pub struct ActionLine {
    pub object: LinkWord,
    pub link: u32,
    pub to: Asked,
}

/// A line of a rule.
#[derive(Clone, Copy, Drop)]
pub enum RuleLine {
    /// The rule's ID, as the number of its word.
    Rule(u32),
    If(ClauseLine),
    /// An AND line before THEN.
    And(ClauseLine),
    Or(ClauseLine),
    Then(ActionLine),
    Else(ActionLine),
    /// An AND line after THEN.
    Further(ActionLine),
    Priority(Decimal),
}

// Whether an object has an attribute.
fn can_have(object: ObjectWord, attribute: Attribute) -> bool
    ensures { result ≡ form.can_have object attribute }
{
    match (object, attribute) {
        (ObjectWord::System, Attribute::Time | Attribute::Clock) => true,
        (ObjectWord::Node(_), Attribute::Head) => true,
        (ObjectWord::Node(kind), Attribute::Pressure) => kind != NodeWord::Reservoir,
        (ObjectWord::Node(kind), Attribute::Level) => kind == NodeWord::Tank,
        (ObjectWord::Link(_), Attribute::Flow | Attribute::Status) => true,
        (ObjectWord::Link(kind), Attribute::Setting) => {
            kind == LinkWord::Pump || kind == LinkWord::Valve
        }
        _ => false,
    }
}

// An attribute that is needed and that its object can have: Unsupported 10 for some that EPANET has, Syntax for all
// others.
fn attribute(text: &Lines<'_>, line: &Line, k: u32, object: ObjectWord) -> Result<Attribute, Cause>
    requires { LiesIn text.now.text line.now }
    ensures { Judged (column.needed (form.attribute object) k (words_at text.now line.now)) result
        (λ what. keyword_form.attribute_word (column.word k (words_at text.now line.now)) ≡ Some what) }
{
    let word = needed(text, line, k)?;
    let Some(attribute) = attribute_word(word) else {
        if is_unsupported_attribute(word) {
            return Err(Cause::Unsupported(10));
        }
        return Err(Cause::Syntax);
    };
    if !can_have(object, attribute) {
        return Err(Cause::Syntax);
    }
    Ok(attribute)
}

fn is_equality(relation: Relation) -> bool
    ensures { result ≡ form.is_equality relation }
{
    match relation {
        Relation::Equal | Relation::Unequal => true,
        _ => false,
    }
}

// Whether an attribute compares in this way: Syntax for a status that is less or more, Unsupported 10 for a quantity
// that is equal or not.
fn relates(attribute: Attribute, relation: Relation) -> Result<(), Cause>
    ensures { Judged (form.relates (Some attribute) relation) result (λ _. Unit {0}) }
{
    match attribute {
        Attribute::Status => {
            if is_equality(relation) {
                Ok(())
            } else {
                Err(Cause::Syntax)
            }
        }
        Attribute::Time | Attribute::Clock => Ok(()),
        _ => {
            if is_equality(relation) {
                Err(Cause::Unsupported(10))
            } else {
                Ok(())
            }
        }
    }
}

// A relation that is needed, and in which the attribute compares.
fn relation(text: &Lines<'_>, line: &Line, k: u32, attribute: Attribute) -> Result<Relation, Cause>
    requires { LiesIn text.now.text line.now }
    ensures { Judged (column.needed (form.relation (Some attribute)) k (words_at text.now line.now)) result
        (λ relation. keyword_form.relation_word (column.word k (words_at text.now line.now)) ≡ Some relation) }
{
    let word = needed(text, line, k)?;
    let Some(relation) = relation_word(word) else {
        return Err(Cause::Syntax);
    };
    relates(attribute, relation)?;
    Ok(relation)
}

fn status_by(word: &[u8]) -> Result<Value, Cause>
    ensures { Judged (column.one_of (codes "OPEN" ∷ codes "CLOSED" ∷ codes "ACTIVE" ∷ []) word.now) result
        (λ value. value ≡ status_value word.now) }
{
    if is_keyword(word, b"OPEN") {
        return Ok(Value::Open);
    }
    if is_keyword(word, b"CLOSED") {
        return Ok(Value::Closed);
    }
    if is_keyword(word, b"ACTIVE") {
        return Ok(Value::Active);
    }
    Err(Cause::Syntax)
}

// What an attribute is compared with, from a word on to the line's end.
fn compared_value(
    text: &Lines<'_>,
    line: &Line,
    k: u32,
    attribute: Attribute,
) -> Result<Value, Cause>
    requires lies { LiesIn text.now.text line.now }
    requires small { k ≤ 5 }
    ensures { Judged (form.value (Some attribute) k (words_at text.now line.now)) result
        (IsValue attribute k (words_at text.now line.now)) }
{
    match attribute {
        Attribute::Time => {
            let seconds = read_time(text, line, k)?;
            Ok(Value::Seconds(seconds))
        }
        Attribute::Clock => {
            let seconds = read_clock(text, line, k)?;
            Ok(Value::Seconds(seconds))
        }
        Attribute::Status => {
            let word = needed(text, line, k)?;
            let value = status_by(word)?;
            ends(text, line, k + 1)?;
            Ok(value)
        }
        _ => {
            let number = number(text, line, k)?;
            ends(text, line, k + 1)?;
            Ok(Value::Number(number))
        }
    }
}

fn object_at(object: ObjectWord) -> Object
    ensures { result ≡ meaning.object_at object }
{
    match object {
        ObjectWord::System => Object::System,
        ObjectWord::Node(kind) => Object::Node(kind, 2),
        ObjectWord::Link(kind) => Object::Link(kind, 2),
    }
}

// Attribute, relation and value of an object, from a word on.
fn comparison(
    text: &Lines<'_>,
    line: &Line,
    k: u32,
    object: ObjectWord,
) -> Result<ClauseLine, Cause>
    requires lies { LiesIn text.now.text line.now }
    requires small { k ≤ 3 }
    ensures { Judged (form.comparison object k (words_at text.now line.now)) result
        (λ clause. (clause.object ≡ meaning.object_at object) × IsComparison k (words_at text.now line.now) clause) }
{
    let what = attribute(text, line, k, object)?;
    let relation = relation(text, line, k + 1, what)?;
    let value = compared_value(text, line, k + 2, what)?;
    Ok(ClauseLine {
        object: object_at(object),
        what,
        relation,
        value,
    })
}

// The ID of an object, and a comparison.
fn named_comparison(text: &Lines<'_>, line: &Line, object: ObjectWord) -> Result<ClauseLine, Cause>
    requires { LiesIn text.now.text line.now }
    ensures { Judged (column.or_else (column.needed column.id 2 (words_at text.now line.now))
        (form.comparison object 3 (words_at text.now line.now))) result
        (λ clause. (clause.object ≡ meaning.object_at object) × IsComparison 3 (words_at text.now line.now) clause) }
{
    id(text, line, 2)?;
    comparison(text, line, 3, object)
}

// What a clause says of an object: its ID unless it is the system, and a comparison.
fn clause_about(text: &Lines<'_>, line: &Line, object: ObjectWord) -> Result<ClauseLine, Cause>
    requires { LiesIn text.now.text line.now }
    ensures { Judged (form.clause_about (Some object) (words_at text.now line.now)) result
        (meaning.ClauseSays (Some object) (words_at text.now line.now)) }
{
    match object {
        ObjectWord::System => comparison(text, line, 2, ObjectWord::System),
        ObjectWord::Node(kind) => named_comparison(text, line, ObjectWord::Node(kind)),
        ObjectWord::Link(kind) => named_comparison(text, line, ObjectWord::Link(kind)),
    }
}

// A clause, behind its first word.
fn clause(text: &Lines<'_>, line: &Line) -> Result<ClauseLine, Cause>
    requires { LiesIn text.now.text line.now }
    ensures { Judged (form.clause (words_at text.now line.now)) result (IsClauseLine (words_at text.now line.now)) }
{
    match object_word(or_empty(text, line, 1)) {
        Some(object) => clause_about(text, line, object),
        None => Err(Cause::Syntax),
    }
}

// Whether a kind of link has a setting.
fn has_setting(kind: LinkWord) -> bool
    ensures { result ≡ form.has_setting (Some kind) }
{
    match kind {
        LinkWord::Pump | LinkWord::Valve => true,
        _ => false,
    }
}

// Whether an action is of a setting, and not of a status.
fn is_of_setting(word: &[u8], kind: LinkWord) -> Result<bool, Cause>
    ensures { Judged (form.action_attribute (Some kind) (keyword_form.attribute_word word.now)) result
        (λ is_setting. keyword_form.attribute_word word.now ≡ Some (meaning.set_attribute is_setting)) }
{
    let Some(attribute) = attribute_word(word) else {
        return Err(Cause::Syntax);
    };
    match attribute {
        Attribute::Status => Ok(false),
        Attribute::Setting => {
            if has_setting(kind) {
                Ok(true)
            } else {
                Err(Cause::Syntax)
            }
        }
        _ => Err(Cause::Syntax),
    }
}

// The attribute of an action.
fn sets_setting(text: &Lines<'_>, line: &Line, kind: LinkWord) -> Result<bool, Cause>
    requires lies { LiesIn text.now.text line.now }
    requires kind { keyword_form.link_word (column.word 1 (words_at text.now line.now)) ≡ Some kind }
    ensures { Judged (column.needed (form.set_attribute (words_at text.now line.now)) 3
        (words_at text.now line.now)) result (λ is_setting. keyword_form.attribute_word
        (column.word 3 (words_at text.now line.now)) ≡ Some (meaning.set_attribute is_setting)) }
{
    let word = needed(text, line, 3)?;
    is_of_setting(word, kind)
}

// The value of an action.
fn set_value(text: &Lines<'_>, line: &Line, is_setting: bool) -> Result<Asked, Cause>
    requires lies { LiesIn text.now.text line.now }
    requires attribute { keyword_form.attribute_word (column.word 3 (words_at text.now line.now))
        ≡ Some (meaning.set_attribute is_setting) }
    ensures { Judged (column.needed (form.set_value
        (keyword_form.attribute_word (column.word 3 (words_at text.now line.now)))) 5
        (words_at text.now line.now)) result (IsSet (words_at text.now line.now)) }
{
    if is_setting {
        let number = number(text, line, 5)?;
        return Ok(Asked::Number(number));
    }
    let is_open = either_keyword(text, line, 5, b"OPEN", b"CLOSED")?;
    if is_open {
        return Ok(Asked::Open);
    }
    Ok(Asked::Closed)
}

// An action, behind its first word.
fn action(text: &Lines<'_>, line: &Line) -> Result<ActionLine, Cause>
    requires { LiesIn text.now.text line.now }
    ensures { Judged (form.action (words_at text.now line.now)) result (IsActionLine (words_at text.now line.now)) }
{
    let object = link_kind(text, line, 1)?;
    id(text, line, 2)?;
    let is_setting = sets_setting(text, line, object)?;
    either_keyword(text, line, 4, b"IS", b"=")?;
    let to = set_value(text, line, is_setting)?;
    ends(text, line, 6)?;
    Ok(ActionLine {
        object,
        link: 2,
        to,
    })
}

/// Reads a line of a rule, whatever stands before it; `acting` says that a THEN of the same rule does, so that an AND
/// line holds an action. Refused are, at the first word that is wrong: a wrong or missing keyword and a further word
/// (Syntax), an attribute that its object can't have (Syntax), an ID longer than 31 bytes (Limit 3), a number's form
/// or size (Number), what [`read_time`](crate::read_time) and [`read_clock`](crate::read_clock) refuse, and what
/// isn't supported: DEMAND, FILLTIME and DRAINTIME, and quantities that are equal or not (Unsupported 10).
pub fn read_rule_line(text: &Lines<'_>, line: &Line, acting: bool) -> Result<RuleLine, Cause>
    requires { LiesIn text.now.text line.now }
    ensures { Judged (form.words_of_rule_line acting (words_at text.now line.now)) result
        (IsRuleLine acting (words_at text.now line.now)) }
{
    let Some(word) = rule_word(or_empty(text, line, 0)) else {
        return Err(Cause::Syntax);
    };
    match word {
        RuleWord::Rule => {
            id(text, line, 1)?;
            ends(text, line, 2)?;
            Ok(RuleLine::Rule(1))
        }
        RuleWord::If => {
            let clause = clause(text, line)?;
            Ok(RuleLine::If(clause))
        }
        RuleWord::And if acting => {
            let action = action(text, line)?;
            Ok(RuleLine::Further(action))
        }
        RuleWord::And => {
            let clause = clause(text, line)?;
            Ok(RuleLine::And(clause))
        }
        RuleWord::Or => {
            let clause = clause(text, line)?;
            Ok(RuleLine::Or(clause))
        }
        RuleWord::Then => {
            let action = action(text, line)?;
            Ok(RuleLine::Then(action))
        }
        RuleWord::Else => {
            let action = action(text, line)?;
            Ok(RuleLine::Else(action))
        }
        RuleWord::Priority => {
            let priority = number(text, line, 1)?;
            ends(text, line, 2)?;
            Ok(RuleLine::Priority(priority))
        }
    }
}
