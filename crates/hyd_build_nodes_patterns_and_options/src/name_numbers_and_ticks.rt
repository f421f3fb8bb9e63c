//! The numbers of names, and heads and demands in ticks.
#![tactic(auto)]

ghost use Rattle.std.specs.Prelude.{◌≡◌, ◌≤◌, ◌*◌, unsigned_abs};
ghost use Rattle.hyd_num.specs.FileQuantity as quantity;
ghost use Rattle.hyd_num.specs.FileQuantity.{is_us_unit};
ghost use Rattle.hyd_net.specs.NumberRanges.{head_limit, flow_limit};
ghost use Rattle.hyd_spec_lines.specs.WordsOfLines.{text_of};
ghost use Rattle.hyd_build_nodes_patterns_and_options.specs.ReservoirsAndTanks.{number_of};

use hyd_num::{Decimal, FlowUnit};
use hyd_rows_and_tables::NumberedIds;
use hyd_units::{flow_ticks, head_ticks};

/// A head or a level in head ticks.
pub(crate) fn head_of(head: Decimal, unit: FlowUnit) -> i64
    requires { unsigned_abs (quantity.head_ticks (is_us_unit unit) head.nano) ≤ 2 * head_limit }
    ensures { result ≡ quantity.head_ticks (is_us_unit unit) head.nano }
{
    head_ticks(head, unit.is_us()) as i64
}

/// The number that a name has, where one is given.
pub(crate) fn number_named(names: &NumberedIds, name: Option<&[u8]>) -> Option<u32>
    ensures { result ≡ number_of names.now (text_of name.entry) }
{
    match name {
        Some(name) => names.number(name),
        None => None,
    }
}

/// A flow in flow ticks, cut.
pub(crate) fn flow_of(flow: Decimal, unit: FlowUnit) -> i64
    requires { unsigned_abs (quantity.flow_ticks unit flow.nano) ≤ flow_limit }
    ensures { result ≡ quantity.flow_ticks unit flow.nano }
{
    flow_ticks(flow, unit) as i64
}
