//! What clauses of rules compare with.
#![tactic(auto)]

ghost use Rattle.std.specs.Prelude.{◌≡◌, ◌*◌, true, pos, ◌*ℤ◌};
ghost use Rattle.hyd_net.specs.RoundedFileNumbers.{IsAmount, IsExactly};
ghost use Rattle.hyd_net.specs.declared.rules.What.TheVariants as what_form;
ghost use Rattle.hyd_spec_input.specs.Columns.{units};
ghost use Rattle.hyd_build_links_controls_and_rules.specs.ComparedValues.{is_quantity, IsAmountOf};

use hyd_net::{Value, What};
use hyd_num::{Decimal, FlowUnit, Span};
use hyd_units::{flow_ticks, head_ticks, pressure_ticks};

const NANOS: i128 = 1_000_000_000;

fn exactly(amount: i128) -> Span
    ensures { IsExactly amount result }
{
    Span {
        lo: amount,
        hi: amount,
    }
}

// The floor and the ceiling of a quantity: heads and levels exactly, pressures rounded both ways, flows cut.
fn quantity_span(what: What, number: Decimal, unit: FlowUnit) -> Span
    requires { is_quantity what ≡ true }
    ensures { IsAmount unit what number.nano result }
{
    match what {
        What::Head(_) => exactly(head_ticks(number, unit.is_us())),
        What::Level(_) => exactly(head_ticks(number, unit.is_us())),
        What::Pressure(_) => pressure_ticks(number, unit.is_us()),
        What::Flow(_) => exactly(flow_ticks(number, unit)),
        _ => exactly(number.nano),
    }
}

/// The amount that a quantity is compared with.
pub(crate) fn quantity_value(what: What, number: Decimal, unit: FlowUnit) -> Value
    requires { is_quantity what ≡ true }
    ensures { IsAmountOf unit what number.nano result }
{
    Value::Amount {
        span: quantity_span(what, number, unit),
        number,
    }
}

/// The seconds that a time, or a time of day, is compared with.
pub(crate) fn time_value(seconds: u32, unit: FlowUnit) -> Value
    ensures time { IsAmountOf unit what_form.Time (pos seconds *ℤ units 1) result }
    ensures clock { IsAmountOf unit what_form.Clock (pos seconds *ℤ units 1) result }
{
    Value::Amount {
        span: exactly(i128::from(seconds)),
        number: Decimal {
            nano: i128::from(seconds) * NANOS,
        },
    }
}
