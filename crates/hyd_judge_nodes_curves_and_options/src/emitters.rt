//! Emitters among all rows.
#![tactic(auto)]

ghost use Rattle.std.specs.Prelude.{◌≡◌, ◌<◌, ◌^◌, ◌+◌, ◌*◌, ◌≤ℤ◌, pos, List, None, length};
ghost use Rattle.std.specs.List.{All};
ghost use Rattle.hyd_spec_lines.specs.Lines.{LiesIn, Row};
ghost use Rattle.hyd_spec_lines.specs.declared.section.Section.TheVariants.{Emitters};
ghost use Rattle.hyd_option_and_rule_lines.specs.FaultOrValue.{words_at};
ghost use Rattle.hyd_spec_input.specs.SingleRows.{IsWrongByItself};
ghost use Rattle.hyd_spec_input.specs.CapacitiesOutOfRange.{IsRefusedEmitter};
ghost use Rattle.hyd_spec_input.specs.Columns.{word, amount};
ghost use Rattle.hyd_spec_input.specs.DemandEmitterCurvePatternAndStatusRows as row;
ghost use Rattle.hyd_spec_input.specs.Faults.{NoneIs};
ghost use Rattle.hyd_spec_input.specs.OptionsAndTimesInForce as force;
ghost use Rattle.hyd_spec_input.specs.SectionsAndTables.{node_rows};
ghost use Rattle.hyd_spec_input.specs.FaultsWithOtherRows.{known_junction};
ghost use Rattle.hyd_rows_and_tables.specs.FirstWrongRow.{HasFound};
ghost use Rattle.hyd_rows_and_tables.specs.RowsOfLines.{rows_at};
ghost use Rattle.hyd_rows_and_tables.specs.WrongInSection.{IsWrongIn, IsCapacityFault, IsFaultThen};
ghost use Rattle.hyd_rows_and_tables.specs.IdTables.{IsTable, IsEven};

use hyd_capacities::emitter_capacity;
use hyd_lex::{Line, Lines};
use hyd_net::Cause;
use hyd_network_rows::read_emitter;
use hyd_num::{Decimal, FlowUnit};
use hyd_rows_and_tables::{Found, Table, is_emitters, kept, unknown_junction};

// Limit 13 where a coefficient above 0 makes a capacity out of range.
fn capacity_fault(coefficient: Decimal, unit: FlowUnit) -> Option<Cause>
    requires not_negative { pos 0 ≤ℤ coefficient.nano }
    requires at_most { coefficient.nano ≤ℤ pos (10 ^ 6 * 10 ^ 9) }
    ensures { IsCapacityFault (IsRefusedEmitter coefficient.nano unit) result }
{
    if coefficient.nano <= 0 {
        return None;
    }
    match emitter_capacity(coefficient, unit) {
        Ok(_) => None,
        Err(_) => Some(Cause::Limit(13)),
    }
}

// What is wrong with a row.
fn emitter_fault(text: &Lines<'_>, line: &Line, nodes: &Table, unit: FlowUnit) -> Option<Cause>
    requires lies { LiesIn text.now.text line.now }
    requires even { IsEven nodes.now }
    requires right { row.emitter (words_at text.now line.now) ≡ None }
    ensures { (rows : List Row) → IsTable text.now.text (node_rows rows) nodes.now
        → IsFaultThen (known_junction rows (word 0 (words_at text.now line.now)))
        (IsRefusedEmitter (amount 1 (words_at text.now line.now)) unit) result }
{
    let Ok(row) = read_emitter(text, line) else {
        return None;
    };
    if let Some(cause) = unknown_junction(text, nodes, row.junction) {
        return Some(cause);
    }
    capacity_fault(row.coefficient, unit)
}

// The first wrong row, one row further.
fn further(
    found: Option<Found>,
    text: &Lines<'_>,
    lines: &[Line],
    place: usize,
    nodes: &Table,
    unit: FlowUnit,
) -> Option<Found>
    requires within { place < length lines.now }
    requires lie { All (LiesIn text.now.text) lines.now }
    requires right { NoneIs (IsWrongByItself (rows_at text.now.text lines.now)) }
    requires nodes { IsTable text.now.text (node_rows (rows_at text.now.text lines.now)) nodes.now }
    requires unit { unit ≡ force.unit (rows_at text.now.text lines.now) }
    requires found { HasFound (rows_at text.now.text lines.now)
        (IsWrongIn Emitters (rows_at text.now.text lines.now)) place found }
    ensures { HasFound (rows_at text.now.text lines.now) (IsWrongIn Emitters (rows_at text.now.text lines.now))
        (place + 1) result }
{
    let line = &lines[place];
    if !is_emitters(line.section) {
        return found;
    }
    let cause = emitter_fault(text, line, nodes, unit);
    kept(found, place, line.number, cause)
}

/// Of a file whose rows are right by themselves, its first row of [EMITTERS] that is wrong with the others: one with a
/// name that no node has, or whose first node is no junction (UnknownName), or with a coefficient above 0 that makes a
/// capacity out of range (Limit 13).
pub fn judge_emitters(
    text: &Lines<'_>,
    lines: &[Line],
    nodes: &Table,
    unit: FlowUnit,
) -> Option<Found>
    requires lie { All (LiesIn text.now.text) lines.now }
    requires right { NoneIs (IsWrongByItself (rows_at text.now.text lines.now)) }
    requires nodes { IsTable text.now.text (node_rows (rows_at text.now.text lines.now)) nodes.now }
    requires unit { unit ≡ force.unit (rows_at text.now.text lines.now) }
    ensures { HasFound (rows_at text.now.text lines.now) (IsWrongIn Emitters (rows_at text.now.text lines.now))
        (length lines.now) result }
{
    let mut found = None;
    for place in 0..lines.len() {
        found = further(found, text, lines, place, nodes, unit);
    }
    found
}
