//! Valves among all rows.
#![tactic(auto)]

ghost use Rattle.std.specs.Prelude.{◌≡◌, ◌⊎◌, [], ◌∷◌, List, Some, None};
ghost use Rattle.hyd_spec_lines.specs.Lines.{LiesIn, Row};
ghost use Rattle.hyd_spec_lines.specs.declared.section.Section.TheVariants.{Curves};
ghost use Rattle.hyd_num.specs.FileQuantity.{is_us_unit};
ghost use Rattle.hyd_option_and_rule_lines.specs.FaultOrValue.{words_at};
ghost use Rattle.hyd_capacities.specs.FileNumberRanges.{IsDiameter};
ghost use Rattle.hyd_network_rows.specs.Rows.{IsValveRow};
ghost use Rattle.hyd_spec_input.specs.CapacitiesOutOfRange.{IsRefusedValve};
ghost use Rattle.hyd_spec_input.specs.Columns.{first};
ghost use Rattle.hyd_spec_input.specs.NodeAndLinkRows as row;
ghost use Rattle.hyd_spec_input.specs.SectionsAndTables.{node_rows, rows_of};
ghost use Rattle.hyd_spec_input.specs.FaultsWithOtherRows as others;
ghost use Rattle.hyd_judge_links_controls_and_rules.specs.AskedStatesOfLinks.{IsThrottleCoefficient};
ghost use Rattle.hyd_rows_and_tables.specs.QuantityRanges as range;
ghost use Rattle.hyd_rows_and_tables.specs.WrongInSection.{IsCapacityFault, IsFaultThen};
ghost use Rattle.hyd_rows_and_tables.specs.IdTables.{IsTable, IsEven};
ghost use Rattle.hyd_curves.specs.VerdictsOnCurves.{AreVerdicts};
ghost use Rattle.hyd_judge_links_controls_and_rules.specs.LinkFaults as links;
ghost use Rattle.hyd_judge_links_controls_and_rules.specs.LinkFaults.{AreEven, IsRefusedValveOf};

use crate::id_and_ends::ends_fault;
use crate::judged_against::LinkTables;
use crate::states_and_valve_laws::is_refused_valve;
use hyd_curves::CurveVerdicts;
use hyd_lex::{Line, Lines};
use hyd_net::Cause;
use hyd_network_rows::{ValveRow, ValveSetting, read_valve};
use hyd_num::{Decimal, FlowUnit};
use hyd_rows_and_tables::{Table, flow_fault, unknown_curve};

// What is wrong with a throttle control valve: Limit 13 where its capacity, fully open or at its setting, is out of
// range.
fn throttle_fault(
    diameter: Decimal,
    minor: Decimal,
    coefficient: Decimal,
    us: bool,
) -> Option<Cause>
    requires diameter { IsDiameter diameter }
    requires minor { IsThrottleCoefficient minor }
    requires coefficient { IsThrottleCoefficient coefficient }
    ensures { IsCapacityFault
        (IsRefusedValve diameter.nano minor.nano us ⊎ IsRefusedValve diameter.nano coefficient.nano us) result }
{
    if is_refused_valve(diameter, minor, us) {
        return Some(Cause::Limit(13));
    }
    if is_refused_valve(diameter, coefficient, us) {
        return Some(Cause::Limit(13));
    }
    None
}

// What is wrong with a flow control valve: its flow out of range, or its capacity.
fn flow_valve_fault(
    diameter: Decimal,
    minor: Decimal,
    flow: Decimal,
    unit: FlowUnit,
) -> Option<Cause>
    requires diameter { IsDiameter diameter }
    requires minor { IsThrottleCoefficient minor }
    ensures { IsFaultThen (range.flow_fault unit flow.nano)
        (IsRefusedValve diameter.nano minor.nano (is_us_unit unit)) result }
{
    if let Some(cause) = flow_fault(flow, unit) {
        return Some(cause);
    }
    if is_refused_valve(diameter, minor, unit.is_us()) {
        return Some(Cause::Limit(13));
    }
    None
}

// What is wrong with the curve of a general purpose valve.
fn curve_fault(
    text: &Lines<'_>,
    name: &[u8],
    curves: &Table,
    verdicts: &CurveVerdicts,
) -> Option<Cause>
    requires { IsEven curves.now }
    ensures { (rows : List Row) → IsTable text.now.text (rows_of Curves rows) curves.now
        → AreVerdicts rows curves.now.names verdicts.now
        → result ≡ first (others.known_curve rows (Some name.now) ∷ others.curve_of_valve rows (Some name.now) ∷ []) }
{
    match unknown_curve(text, curves, Some(name)) {
        Some(cause) => Some(cause),
        None => verdicts.valve_curve_fault(curves, Some(name)),
    }
}

// What is wrong with the curve, the flow or the capacities of a valve.
fn setting_fault(
    text: &Lines<'_>,
    line: &Line,
    valve: &ValveRow<'_>,
    tables: &LinkTables<'_>,
) -> Option<Cause>
    requires even { AreEven tables.now }
    requires right { row.valve (words_at text.now line.now) ≡ None }
    requires read { IsValveRow (words_at text.now line.now) valve.now }
    ensures { (rows : List Row) → IsTable text.now.text (rows_of Curves rows) tables.now.curves.now
        → AreVerdicts rows tables.now.curves.now.names tables.now.verdicts.now
        → IsFaultThen (links.setting_fault rows tables.now.unit (words_at text.now line.now))
        (IsRefusedValveOf (is_us_unit tables.now.unit) (words_at text.now line.now)) result }
{
    match valve.setting {
        ValveSetting::Throttle(coefficient) => {
            throttle_fault(
                valve.diameter,
                valve.minor,
                coefficient,
                tables.unit.is_us(),
            )
        }
        ValveSetting::Curve(name) => curve_fault(text, name, tables.curves, tables.verdicts),
        ValveSetting::Flow(flow) => {
            flow_valve_fault(valve.diameter, valve.minor, flow, tables.unit)
        }
    }
}

/// What is wrong with a valve that is right by itself.
pub(crate) fn valve_fault(
    text: &Lines<'_>,
    line: &Line,
    count: usize,
    new: bool,
    tables: &LinkTables<'_>,
) -> Option<Cause>
    requires lies { LiesIn text.now.text line.now }
    requires even { AreEven tables.now }
    requires right { row.valve (words_at text.now line.now) ≡ None }
    ensures { (rows : List Row) → IsTable text.now.text (node_rows rows) tables.now.nodes.now
        → IsTable text.now.text (rows_of Curves rows) tables.now.curves.now
        → AreVerdicts rows tables.now.curves.now.names tables.now.verdicts.now
        → IsFaultThen (links.valve_fault rows tables.now.unit count new (words_at text.now line.now))
        (IsRefusedValveOf (is_us_unit tables.now.unit) (words_at text.now line.now)) result }
{
    let Ok(valve) = read_valve(text, line) else {
        return None;
    };
    if let Some(cause) = ends_fault(text, count, new, &valve.ends, tables.nodes) {
        return Some(cause);
    }
    setting_fault(text, line, &valve, tables)
}
