//! Exact values as clauses measure them, and how they compare with amounts.
#![tactic(auto)]

ghost use Rattle.std.specs.Prelude.{◌≡◌, ◌*◌, ◌^◌, ◌<◌, ◌≤◌, pos, ◌*ℤ◌, unsigned_abs};
ghost use Rattle.hyd_num.specs.Rational.{Rational};
ghost use Rattle.hyd_num.specs.QuotientsAndRoots.{IsFloor, IsCeiling};
ghost use Rattle.hyd_spec.specs.Rules.{compares};
ghost use Rattle.hyd_rules_at_scale.specs.Quantities.{IsProper, IsQuantity, fraction_of, numerator_of};

use crate::amounts::Amount;
use hyd_net::Relation;
use hyd_num::{mul_div_ceil, mul_div_floor};
use hyd_stocks_at_scale::ExactLevel;

/// What a clause measures, in ticks or billionths: a value over a number of parts.
#[derive(Clone, Copy, Drop)]
pub(crate) struct Quantity {
    pub(crate) value: ExactLevel,
    pub(crate) parts: u32,
}

// So many times a whole number.
fn whole_times(count: u32, whole: i128) -> i128
    requires count { count ≤ 10 ^ 4 }
    requires whole { unsigned_abs whole ≤ 4 * 10 ^ 24 }
    ensures value { result ≡ pos count *ℤ whole }
    ensures small { unsigned_abs result ≤ 4 * 10 ^ 28 }
{
    i128::from(count) * whole
}

// So many times a part.
fn part_times(count: u32, part: u128) -> u128
    requires count { count ≤ 10 ^ 4 }
    requires part { part ≤ 10 ^ 21 }
    ensures value { result ≡ count * part }
    ensures small { result ≤ 10 ^ 25 }
{
    u128::from(count) * part
}

// The greatest whole number at most so many times a value.
fn floor_of(value: ExactLevel, count: u32) -> i128
    requires value { IsProper value }
    requires count { count ≤ 10 ^ 4 }
    ensures floor { IsFloor (pos count *ℤ numerator_of value) (pos value.of) result }
    ensures small { unsigned_abs result ≤ 10 ^ 30 }
{
    let fraction = part_times(count, value.part) / value.of;
    whole_times(count, value.whole) + fraction as i128
}

// The least whole number at least so many times a value.
fn ceiling_of(value: ExactLevel, count: u32) -> i128
    requires value { IsProper value }
    requires count { count ≤ 10 ^ 4 }
    ensures ceiling { IsCeiling (pos count *ℤ numerator_of value) (pos value.of) result }
    ensures small { unsigned_abs result ≤ 10 ^ 30 }
{
    let fraction = part_times(count, value.part).div_ceil(value.of);
    whole_times(count, value.whole) + fraction as i128
}

// The greatest whole number at most so many times a quantity.
fn low_of(quantity: Quantity, count: u32) -> i128
    requires value { IsProper quantity.value }
    requires parts { 0 < quantity.parts }
    requires count { count ≤ 10 ^ 4 }
    ensures { (x : Rational) → IsQuantity quantity x → IsFloor (pos count *ℤ x.num) (pos x.den) result }
{
    let value = floor_of(quantity.value, count);
    mul_div_floor(1, value, i128::from(quantity.parts))
}

// The least whole number at least so many times a quantity.
fn high_of(quantity: Quantity, count: u32) -> i128
    requires value { IsProper quantity.value }
    requires parts { 0 < quantity.parts }
    requires count { count ≤ 10 ^ 4 }
    ensures { (x : Rational) → IsQuantity quantity x → IsCeiling (pos count *ℤ x.num) (pos x.den) result }
{
    let value = ceiling_of(quantity.value, count);
    mul_div_ceil(1, value, i128::from(quantity.parts))
}

// A value is equal to `whole` over a number, where so many times the value are `low`, rounded down, and `high`, rounded
// up.
fn equals(low: i128, high: i128, whole: i128) -> bool
    ensures { (x amount : Rational) → amount.num ≡ whole → IsFloor (pos amount.den *ℤ x.num) (pos x.den) low
        → IsCeiling (pos amount.den *ℤ x.num) (pos x.den) high → result ≡ compares Relation.Equal x amount }
{
    high <= whole && low >= whole
}

// A value stands in a relation to `whole` over a number, where so many times the value are `low`, rounded down, and
// `high`, rounded up.
fn compares_with(relation: Relation, low: i128, high: i128, whole: i128) -> bool
    ensures { (x amount : Rational) → amount.num ≡ whole → IsFloor (pos amount.den *ℤ x.num) (pos x.den) low
        → IsCeiling (pos amount.den *ℤ x.num) (pos x.den) high → result ≡ compares relation x amount }
{
    match relation {
        Relation::Less => low < whole,
        Relation::AtMost => high <= whole,
        Relation::More => high > whole,
        Relation::AtLeast => low >= whole,
        Relation::Equal => equals(low, high, whole),
        Relation::Unequal => !equals(low, high, whole),
    }
}

/// A quantity stands in a relation to an amount.
pub(crate) fn compares(relation: Relation, quantity: Quantity, amount: Amount) -> bool
    requires value { IsProper quantity.value }
    requires parts { 0 < quantity.parts }
    requires amount { amount.den ≤ 10 ^ 4 }
    ensures { (x : Rational) → IsQuantity quantity x → result ≡ compares relation x (fraction_of amount) }
{
    let low = low_of(quantity, amount.den);
    let high = high_of(quantity, amount.den);
    compares_with(relation, low, high, amount.num)
}
