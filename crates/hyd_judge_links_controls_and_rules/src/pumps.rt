//! Pumps among all rows.
#![tactic(auto)]

ghost use Rattle.std.specs.Prelude.{◌≡◌, [], ◌∷◌, ℕ, List, Some, None};
ghost use Rattle.hyd_spec_lines.specs.WordsOfLines.{text_of};
ghost use Rattle.hyd_spec_lines.specs.Lines.{LiesIn, Row};
ghost use Rattle.hyd_spec_lines.specs.declared.section.Section.TheVariants.{Curves};
ghost use Rattle.hyd_option_and_rule_lines.specs.FaultOrValue.{words_at};
ghost use Rattle.hyd_spec_input.specs.CapacitiesOutOfRange.{IsRefusedCurve};
ghost use Rattle.hyd_spec_input.specs.Columns.{first};
ghost use Rattle.hyd_spec_input.specs.NodeAndLinkRows as row;
ghost use Rattle.hyd_spec_input.specs.SectionsAndTables.{node_rows, rows_of};
ghost use Rattle.hyd_spec_input.specs.FaultsWithOtherRows as others;
ghost use Rattle.hyd_rows_and_tables.specs.WrongInSection.{IsFaultThen};
ghost use Rattle.hyd_rows_and_tables.specs.IdTables.{IsTable};
ghost use Rattle.hyd_curves.specs.VerdictsOnCurves.{AreVerdicts};
ghost use Rattle.hyd_judge_nodes_curves_and_options.specs.Patterns.{ArePatterns};
ghost use Rattle.hyd_judge_links_controls_and_rules.specs.LinkFaults as links;
ghost use Rattle.hyd_judge_links_controls_and_rules.specs.LinkFaults.{AreEven};

use crate::id_and_ends::ends_fault;
use crate::judged_against::LinkTables;
use hyd_judge_nodes_curves_and_options::Patterns;
use hyd_lex::{Line, Lines};
use hyd_net::Cause;
use hyd_net::ranges::GREATEST_SPEED;
use hyd_network_rows::{PumpRow, read_pump};
use hyd_num::Decimal;
use hyd_rows_and_tables::{unknown_curve, unknown_pattern};

// A speed from 0 to 10.
fn is_speed(number: Decimal) -> bool
    ensures { result ≡ others.is_speed number.nano }
{
    0 <= number.nano && number.nano <= GREATEST_SPEED
}

// Range where a multiplier of the pattern that a pump names is no speed.
fn speeds_fault(patterns: &Patterns, name: Option<&[u8]>) -> Option<Cause>
    ensures { (text : List ℕ) (rows : List Row) → ArePatterns text rows patterns.now
        → result ≡ others.each_multiplier others.is_speed rows (text_of name.entry) }
{
    let Some(extremes) = patterns.extremes(name) else {
        return None;
    };
    if !is_speed(extremes.least) {
        return Some(Cause::Range);
    }
    if !is_speed(extremes.greatest) {
        return Some(Cause::Range);
    }
    None
}

// What is wrong with the curve, the speeds or the capacity of a pump.
fn curve_fault(pump: &PumpRow<'_>, tables: &LinkTables<'_>) -> Option<Cause>
    ensures { (rows : List Row) → AreVerdicts rows tables.now.curves.now.names tables.now.verdicts.now
        → (text : List ℕ) → ArePatterns text rows tables.now.patterns.now
        → IsFaultThen (first (others.curve_of_pump rows (Some pump.now.curve.now)
        ∷ others.each_multiplier others.is_speed rows (text_of pump.now.pattern) ∷ []))
        (IsRefusedCurve rows (Some pump.now.curve.now)) result }
{
    if let Some(cause) = tables
        .verdicts
        .pump_curve_fault(tables.curves, Some(pump.curve))
    {
        return Some(cause);
    }
    if let Some(cause) = speeds_fault(tables.patterns, pump.pattern) {
        return Some(cause);
    }
    if tables
        .verdicts
        .is_refused_curve(tables.curves, Some(pump.curve))
    {
        return Some(Cause::Limit(13));
    }
    None
}

/// What is wrong with a pump that is right by itself.
pub(crate) fn pump_fault(
    text: &Lines<'_>,
    line: &Line,
    count: usize,
    new: bool,
    tables: &LinkTables<'_>,
) -> Option<Cause>
    requires lies { LiesIn text.now.text line.now }
    requires even { AreEven tables.now }
    requires right { row.pump (words_at text.now line.now) ≡ None }
    ensures { (rows : List Row) → IsTable text.now.text (node_rows rows) tables.now.nodes.now
        → IsTable text.now.text (rows_of Curves rows) tables.now.curves.now
        → AreVerdicts rows tables.now.curves.now.names tables.now.verdicts.now
        → ArePatterns text.now.text rows tables.now.patterns.now
        → IsFaultThen (links.pump_fault rows count new (words_at text.now line.now))
        (IsRefusedCurve rows (row.pump_curve (words_at text.now line.now))) result }
{
    let Ok(pump) = read_pump(text, line) else {
        return None;
    };
    if let Some(cause) = ends_fault(text, count, new, &pump.ends, tables.nodes) {
        return Some(cause);
    }
    if let Some(cause) = unknown_curve(text, tables.curves, Some(pump.curve)) {
        return Some(cause);
    }
    if let Some(cause) = unknown_pattern(text, &tables.patterns.table, pump.pattern) {
        return Some(cause);
    }
    curve_fault(&pump, tables)
}
