//! Numbers of names, and ticks.
#![tactic(auto)]

ghost use Rattle.std.specs.Prelude.{◌≡◌, Some, None};
ghost use Rattle.hyd_net.specs.NumberRanges.{IsHead};
ghost use Rattle.hyd_num.specs.FileQuantity as quantity;
ghost use Rattle.hyd_num.specs.FileQuantity.{is_us_unit};
ghost use Rattle.hyd_spec_input.specs.MeaningsAcrossRows.{number_in};

use hyd_num::{Decimal, FlowUnit};
use hyd_rows_and_tables::NumberedIds;
use hyd_units::head_ticks;

/// The number of an ID that is there.
pub(crate) fn number_of(ids: &NumberedIds, name: &[u8]) -> u32
    requires { ¬ (number_in ids.now name.now ≡ None) }
    ensures { number_in ids.now name.now ≡ Some result }
{
    match ids.number(name) {
        Some(number) => number,
        None => 0,
    }
}

/// A level in head ticks.
pub(crate) fn level_ticks(level: Decimal, unit: FlowUnit) -> i64
    requires { IsHead (quantity.head_ticks (is_us_unit unit) level.nano) }
    ensures { result ≡ quantity.head_ticks (is_us_unit unit) level.nano }
{
    head_ticks(level, unit.is_us()) as i64
}
