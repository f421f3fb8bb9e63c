//! The order of the lines of a rule.
#![tactic(auto)]

ghost use Rattle.std.specs.Prelude.{◌≡◌};
ghost use Rattle.hyd_spec_lines.specs.Lines.{LiesIn, row_of};
ghost use Rattle.hyd_option_and_rule_lines.specs.FaultOrValue.{Judged, words_at};
ghost use Rattle.hyd_spec_input.specs.RuleRows as rules;
ghost use Rattle.hyd_spec_input.specs.RuleRows.{begins_with};
ghost use Rattle.hyd_spec_input.specs.SectionsAndTables.{is_of};
ghost use Rattle.hyd_spec_lines.specs.declared.section.Section.TheVariants.{Rules};
ghost use Rattle.hyd_network_rows.specs.RuleLineStages.{stage_with};

use hyd_lex::{Line, Lines, Section};
use hyd_net::Cause;
use hyd_option_and_rule_lines::{or_empty, rule_word};
use hyd_spec_input::{RuleWord, Stage};

/// What a line of a rule is, by its first word.
pub fn first_word(text: &Lines<'_>, line: &Line) -> Option<RuleWord>
    requires { LiesIn text.now.text line.now }
    ensures { result ≡ begins_with (words_at text.now line.now) }
{
    rule_word(or_empty(text, line, 0))
}

// The first words that may follow.
fn may_follow(stage: Stage, first: RuleWord) -> bool
    ensures { result ≡ rules.may_follow stage first }
{
    match first {
        RuleWord::Rule => true,
        RuleWord::If => stage == Stage::Named,
        RuleWord::And => {
            stage == Stage::Asking || stage == Stage::Acting || stage == Stage::Otherwise
        }
        RuleWord::Or => stage == Stage::Asking,
        RuleWord::Then => stage == Stage::Asking,
        RuleWord::Else => stage == Stage::Acting,
        RuleWord::Priority => stage == Stage::Acting || stage == Stage::Otherwise,
    }
}

/// Syntax exactly where a line begins with no word that may follow at a stage.
pub(crate) fn check_order(stage: Stage, first: Option<RuleWord>) -> Result<(), Cause>
    ensures { Judged (rules.in_order stage first) result (λ _. Unit {0}) }
{
    match first {
        Some(word) if may_follow(stage, word) => Ok(()),
        _ => Err(Cause::Syntax),
    }
}

/// The stage after a line of rules, by its first word.
pub fn stage_by(stage: Stage, first: Option<RuleWord>) -> Stage
    ensures { result ≡ rules.stage_by stage first }
{
    match first {
        Some(RuleWord::Rule) => Stage::Named,
        Some(RuleWord::If) => Stage::Asking,
        Some(RuleWord::Then) => Stage::Acting,
        Some(RuleWord::Else) => Stage::Otherwise,
        Some(RuleWord::Priority) => Stage::Closed,
        _ => stage,
    }
}

/// Whether a row is a line of rules.
pub fn is_rules(text: &Lines<'_>, line: &Line) -> bool
    ensures { result ≡ is_of Rules (row_of text.now.text line.now) }
{
    line.section == Section::Rules
}

/// The stage after a row of any section.
pub fn next_stage(text: &Lines<'_>, line: &Line, stage: Stage) -> Stage
    requires { LiesIn text.now.text line.now }
    ensures { result ≡ stage_with stage (row_of text.now.text line.now) }
{
    if !is_rules(text, line) {
        return stage;
    }
    stage_by(stage, first_word(text, line))
}

/// An AND line holds an action.
pub fn is_acting(stage: Stage) -> bool
    ensures { result ≡ rules.is_acting stage }
{
    match stage {
        Stage::Acting => true,
        Stage::Otherwise => true,
        _ => false,
    }
}

/// The line names a rule.
pub fn is_rule(first: Option<RuleWord>) -> bool
    ensures { result ≡ rules.is_rule first }
{
    match first {
        Some(RuleWord::Rule) => true,
        _ => false,
    }
}

/// The line begins with THEN.
pub(crate) fn is_then(first: Option<RuleWord>) -> bool
    ensures { result ≡ rules.is_then first }
{
    match first {
        Some(RuleWord::Then) => true,
        _ => false,
    }
}
