//! The order of a rule's lines.

use crate::rows::{Row, is_one_of, rows_of};
use hyd_spec_lines::Section;

/// What stands before a line of a rule.
#[derive(Clone, Copy)]
enum Stage {
    /// No rule.
    Outside,
    /// The rule's RULE line.
    Named,
    /// A clause.
    Asking,
    /// An action of THEN.
    Acting,
    /// An action of ELSE.
    Otherwise,
    /// The rule's PRIORITY line.
    Closed,
}

/// Whether a row is a line of a rule.
pub(crate) fn is_rule_line(row: &Row<'_>) -> bool {
    matches!(row.section(), Some(Section::Rules)) && row.count() > 0
}

// The stage behind a line that begins with a word.
fn stage_behind(stage: Stage, first: &[u8]) -> Stage {
    if is_one_of(first, "RULE") {
        return Stage::Named;
    }
    if is_one_of(first, "IF") {
        return Stage::Asking;
    }
    if is_one_of(first, "THEN") {
        return Stage::Acting;
    }
    if is_one_of(first, "ELSE") {
        return Stage::Otherwise;
    }
    if is_one_of(first, "PRIORITY") {
        return Stage::Closed;
    }
    stage
}

// The stage before a line.
fn stage_before(text: &[u8], line: u32) -> Stage {
    let mut stage = Stage::Outside;
    for row in rows_of(text) {
        if row.number >= line {
            return stage;
        }
        if is_rule_line(&row) {
            stage = stage_behind(stage, row.word(0));
        }
    }
    stage
}

/// Whether an AND line holds an action.
pub(crate) fn is_acting(text: &[u8], line: u32) -> bool {
    matches!(stage_before(text, line), Stage::Acting | Stage::Otherwise)
}

/// The first words that a line may have there.
pub(crate) fn may_follow(text: &[u8], line: u32) -> &'static str {
    match stage_before(text, line) {
        Stage::Outside | Stage::Closed => "RULE",
        Stage::Named => "IF",
        Stage::Asking => "AND OR THEN",
        Stage::Acting => "AND ELSE PRIORITY RULE",
        Stage::Otherwise => "AND PRIORITY RULE",
    }
}

/// Whether the rule whose RULE line this is has a THEN line.
pub(crate) fn has_then(text: &[u8], line: u32) -> bool {
    for row in rows_of(text) {
        if row.number > line && is_rule_line(&row) {
            if is_one_of(row.word(0), "THEN") {
                return true;
            }
            if is_one_of(row.word(0), "RULE") {
                return false;
            }
        }
    }
    false
}
