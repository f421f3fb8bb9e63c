//! The ends of what a spread leaves of a number.
#![tactic(auto)]

ghost use Rattle.std.specs.Prelude.{◌≡◌, ◌≤◌, ◌^◌, pos, ◌≤ℤ◌, unsigned_abs, map, All, slice_index_or};
ghost use Rattle.hyd_num.specs.Rational.{floor, ceiling};
ghost use Rattle.hyd_spec_spread.specs.Spreads.{one_alone};
ghost use Rattle.hyd_spec_spread.specs.IntervalsOfData.{products, times_factor};
ghost use Rattle.hyd_spec_certificates.specs.Interval.{exactly};
ghost use Rattle.hyd_spec_spread_rows.specs.TextsOfSpreads.{factors_from, interval_from};
ghost use Rattle.hyd_spec_spread_rows.specs.RangesOfEnds.{AreFactors, AreOffsets};

use hyd_num::{mul_div_ceil, mul_div_floor};
use hyd_spec_spread_rows::Ends;

const BILLION: i128 = 1_000_000_000;

/// The factors of a node's number: 1 alone where no row gives some.
pub(crate) fn factors_at(rows: &[Ends], node: usize) -> Ends
    requires { All AreFactors rows.now }
    ensures value { factors_from result ≡ slice_index_or (map factors_from rows.now) node one_alone }
    ensures range { AreFactors result }
{
    if node < rows.len() {
        return rows[node];
    }
    Ends {
        low: BILLION,
        high: BILLION,
    }
}

/// The offsets of a reservoir's head: 0 alone where no row gives some.
pub(crate) fn offsets_at(rows: &[Ends], node: usize) -> Ends
    requires { All AreOffsets rows.now }
    ensures value { interval_from result ≡ slice_index_or (map interval_from rows.now) node (exactly (pos 0)) }
    ensures range { AreOffsets result }
{
    if node < rows.len() {
        return rows[node];
    }
    Ends { low: 0, high: 0 }
}

// A number times a factor, rounded down.
fn down(factor: i128, number: i128) -> i128
    requires factor { pos 0 ≤ℤ factor }
    requires few { unsigned_abs factor ≤ 10 ^ 15 }
    requires small { unsigned_abs number ≤ 10 ^ 15 }
    ensures value { result ≡ floor (times_factor (unsigned_abs factor) number) }
    ensures bounded { unsigned_abs result ≤ 10 ^ 21 }
{
    mul_div_floor(factor, number, BILLION)
}

// A number times a factor, rounded up.
fn up(factor: i128, number: i128) -> i128
    requires factor { pos 0 ≤ℤ factor }
    requires few { unsigned_abs factor ≤ 10 ^ 15 }
    requires small { unsigned_abs number ≤ 10 ^ 15 }
    ensures value { result ≡ ceiling (times_factor (unsigned_abs factor) number) }
    ensures bounded { unsigned_abs result ≤ 10 ^ 21 }
{
    mul_div_ceil(factor, number, BILLION)
}

/// The ends of the products of a number by the factors.
pub(crate) fn products(factors: Ends, number: i128) -> Ends
    requires range { AreFactors factors }
    requires small { unsigned_abs number ≤ 10 ^ 15 }
    ensures value { interval_from result ≡ products (factors_from factors) number }
    ensures least { unsigned_abs result.low ≤ 10 ^ 21 }
    ensures greatest { unsigned_abs result.high ≤ 10 ^ 21 }
{
    if number < 0 {
        return Ends {
            low: down(factors.high, number),
            high: up(factors.low, number),
        };
    }
    Ends {
        low: down(factors.low, number),
        high: up(factors.high, number),
    }
}
