//! The amounts that clauses compare with.
#![tactic(auto)]

ghost use Rattle.std.specs.Prelude.{◌≡◌, ◌^◌, ◌≤◌};
ghost use Rattle.hyd_spec.specs.Rules.{amount};
ghost use Rattle.hyd_spec.specs.DemandsHeadsAndPumpLifts.{pressure_value};
ghost use Rattle.hyd_rules_at_scale.specs.Quantities.{fraction_of};

use hyd_net::{Project, Value, What};
use hyd_num::{
    Decimal, HEAD_TICKS_IN_BILLIONTH_OF_METRE, NUMERATOR_OF_BILLIONTH_OF_POUND,
    TEN_THOUSANDTHS_OF_POUND_IN_FOOT,
};

/// An amount in ticks or billionths: `num / den`.
#[derive(Clone, Copy, Drop)]
pub(crate) struct Amount {
    pub(crate) num: i128,
    pub(crate) den: u32,
}

// A pressure in pounds a square inch where `us` says so, else in metres.
fn pressure_amount(us: bool, number: Decimal) -> Amount
    ensures value { fraction_of result ≡ pressure_value us number }
    ensures small { result.den ≤ 10 ^ 4 }
{
    if us {
        return Amount {
            num: NUMERATOR_OF_BILLIONTH_OF_POUND as i128 * number.nano,
            den: TEN_THOUSANDTHS_OF_POUND_IN_FOOT as u32,
        };
    }
    Amount {
        num: HEAD_TICKS_IN_BILLIONTH_OF_METRE as i128 * number.nano,
        den: 1,
    }
}

/// The amount that a clause compares with. A pressure is as the file's number has it, all else is whole.
pub(crate) fn amount_of(project: &Project, what: What, value: Value) -> Amount
    ensures value { fraction_of result ≡ amount project.now what value }
    ensures small { result.den ≤ 10 ^ 4 }
{
    match (what, value) {
        (What::Pressure(_), Value::Amount { number, .. }) => {
            pressure_amount(project.options.unit.is_us(), number)
        }
        (_, Value::Amount { span, .. }) => Amount {
            num: span.lo,
            den: 1,
        },
        _ => Amount { num: 0, den: 1 },
    }
}
