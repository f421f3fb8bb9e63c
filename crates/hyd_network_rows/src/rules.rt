//! What is wrong with one line of a rule, after the lines before it and before those behind it.
#![tactic(auto)]

ghost use Rattle.std.specs.Prelude.{◌≡◌};
ghost use Rattle.std.specs.List.{All};
ghost use Rattle.hyd_spec_lines.specs.Lines.{LiesIn};
ghost use Rattle.hyd_option_and_rule_lines.specs.FaultOrValue.{Judged, words_at};
ghost use Rattle.hyd_spec_input.specs.RuleRows as rules;
ghost use Rattle.hyd_network_rows.specs.RuleLineStages.{line_fault, rule_lines};

use crate::rule_line_order::{check_order, first_word, is_acting, is_rule, is_rules, is_then};
use hyd_lex::{Line, Lines};
use hyd_net::Cause;
use hyd_option_and_rule_lines::read_rule_line;
use hyd_spec_input::Stage;

// Whether a line that begins with THEN comes before the next rule.
fn has_then(text: &Lines<'_>, later: &[Line]) -> bool
    requires { All (LiesIn text.now.text) later.now }
    ensures { result ≡ rules.some_then (rules.until_rule (rule_lines text.now.text later.now)) }
{
    for place in 0..later.len() {
        let line = &later[place];
        if !is_rules(text, line) {
            continue;
        }
        let first = first_word(text, line);
        if is_rule(first) {
            return false;
        }
        if is_then(first) {
            return true;
        }
    }
    false
}

/// Judges a line of a rule at a stage, before later rows: its place in the order of lines, then its words, then whether
/// a rule that it names gets its THEN.
pub(crate) fn check_rule_line(
    text: &Lines<'_>,
    line: &Line,
    stage: Stage,
    later: &[Line],
) -> Result<(), Cause>
    requires lies { LiesIn text.now.text line.now }
    requires lie { All (LiesIn text.now.text) later.now }
    ensures { Judged (line_fault stage (words_at text.now line.now) (rule_lines text.now.text later.now)) result
        (λ _. Unit {0}) }
{
    let first = first_word(text, line);
    check_order(stage, first)?;
    read_rule_line(text, line, is_acting(stage))?;
    if is_rule(first) && !has_then(text, later) {
        return Err(Cause::Syntax);
    }
    Ok(())
}
