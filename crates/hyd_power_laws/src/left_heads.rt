//! What a loss to fittings leaves of a head, in 2^-60 head ticks.
#![tactic(auto)]

ghost use Rattle.std.specs.Prelude.{◌≡◌, ◌+◌, ◌-◌, ◌*◌, ◌/◌, ◌%◌, ◌^◌, ◌≤◌, ◌<◌, min, nat_eq, true};
ghost use borrow.Author.Differences.{up, down};
ghost use Rattle.hyd_num.specs.BinaryNumbers.{numerator, denominator};

use crate::whole_numbers::power_of_two;
use hyd_num::Scaled;

const TICK: u128 = 1 << 60;

const MOST: u128 = 1 << 122;

const TWO_TO_58: u128 = 1 << 58;

const TWO_TO_64: u128 = 1 << 64;

// The number `high * 2^64 + low`.
#[derive(Clone, Copy, Drop)]
struct Wide {
    high: u128,
    low: u128,
}

// A number cut to a whole one and held at 2^122, and whether it was whole already.
#[derive(Clone, Copy, Drop)]
struct Loss {
    whole: u128,
    exact: bool,
}

/// The head less `m * flow^2`, rounded down, and 0 where nothing is left.
pub(crate) fn left_rounded_down(m: Scaled, head: u64, flow: u64) -> u128
    requires head { head ≤ 3 * 10 ^ 18 }
    requires some { 1 ≤ flow }
    requires flow { flow ≤ 2 ^ 62 }
    ensures { result ≡ head * 2 ^ 60 - (numerator m * (flow * flow) * 2 ^ 60 + (denominator m - 1)) / denominator m }
{
    let lost = lost(m, flow);
    let left = (u128::from(head) * TICK).saturating_sub(lost.whole);
    if lost.exact {
        return left;
    }
    left.saturating_sub(1)
}

/// The head less `m * flow^2`, rounded up, and 0 where nothing is left.
pub(crate) fn left_rounded_up(m: Scaled, head: u64, flow: u64) -> u128
    requires head { head ≤ 3 * 10 ^ 18 }
    requires some { 1 ≤ flow }
    requires flow { flow ≤ 2 ^ 62 }
    ensures { result ≡ head * 2 ^ 60 - numerator m * (flow * flow) * 2 ^ 60 / denominator m }
{
    (u128::from(head) * TICK).saturating_sub(lost(m, flow).whole)
}

// `m * flow^2` in 2^-60 head ticks.
fn lost(m: Scaled, flow: u64) -> Loss
    requires some { 1 ≤ flow }
    requires short { flow ≤ 2 ^ 62 }
    ensures whole { result.whole ≡ min (numerator m * (flow * flow) * 2 ^ 60 / denominator m) (2 ^ 122) }
    ensures exact { result.whole < 2 ^ 122
        → result.exact ≡ nat_eq (numerator m * (flow * flow) * 2 ^ 60 % denominator m)
        0 }
{
    let wide = times_square(m.mant, flow);
    let places = i64::from(m.exp) + 60;
    if places >= 0 {
        return shifted_up(wide, places.unsigned_abs());
    }
    shifted_down(wide, places.unsigned_abs())
}

// A mantissa times a squared flow.
fn times_square(mant: u64, flow: u64) -> Wide
    requires normal { 2 ^ 62 ≤ mant }
    requires mantissa { mant < 2 ^ 63 }
    requires some { 1 ≤ flow }
    requires flow { flow ≤ 2 ^ 62 }
    ensures value { result.high * 2 ^ 64 + result.low ≡ mant * (flow * flow) }
    ensures low { result.low < 2 ^ 64 }
    ensures high { result.high < 2 ^ 124 }
    ensures least { 2 ^ 62 ≤ result.high * 2 ^ 64 + result.low }
{
    let square = u128::from(flow) * u128::from(flow);
    let below = u128::from(mant) * (square % TWO_TO_64);
    Wide {
        high: u128::from(mant) * (square / TWO_TO_64) + below / TWO_TO_64,
        low: below % TWO_TO_64,
    }
}

// A number times 2^places.
fn shifted_up(wide: Wide, places: u64) -> Loss
    requires low { wide.low < 2 ^ 64 }
    requires least { 2 ^ 62 ≤ wide.high * 2 ^ 64 + wide.low }
    ensures whole { result.whole ≡ min ((wide.high * 2 ^ 64 + wide.low) * 2 ^ places) (2 ^ 122) }
    ensures exact { result.exact ≡ true }
{
    if wide.high >= TWO_TO_58 || places >= 60 {
        return held();
    }
    let number = wide.high * TWO_TO_64 + wide.low;
    if number >= power_of_two(122 - places as u32) {
        return held();
    }
    Loss {
        whole: number * power_of_two(places as u32),
        exact: true,
    }
}

// A number divided by 2^places.
fn shifted_down(wide: Wide, places: u64) -> Loss
    requires low { wide.low < 2 ^ 64 }
    requires high { wide.high < 2 ^ 124 }
    requires least { 2 ^ 62 ≤ wide.high * 2 ^ 64 + wide.low }
    ensures whole { result.whole ≡ min ((wide.high * 2 ^ 64 + wide.low) / 2 ^ places) (2 ^ 122) }
    ensures exact { result.whole < 2 ^ 122 → result.exact ≡ nat_eq ((wide.high * 2 ^ 64 + wide.low) % 2 ^ places) 0 }
{
    if places >= 188 {
        return Loss {
            whole: 0,
            exact: false,
        };
    }
    if places < 64 {
        return shifted_by_few(wide, places as u32);
    }
    let unit = power_of_two(places as u32 - 64);
    Loss {
        whole: (wide.high / unit).min(MOST),
        exact: wide.high % unit == 0 && wide.low == 0,
    }
}

// A number divided by a power of two that is below 2^64.
fn shifted_by_few(wide: Wide, places: u32) -> Loss
    requires few { places < 64 }
    requires low { wide.low < 2 ^ 64 }
    ensures whole { result.whole ≡ min ((wide.high * 2 ^ 64 + wide.low) / 2 ^ places) (2 ^ 122) }
    ensures exact { result.whole < 2 ^ 122 → result.exact ≡ nat_eq ((wide.high * 2 ^ 64 + wide.low) % 2 ^ places) 0 }
{
    if wide.high >= power_of_two(58 + places) {
        return held();
    }
    let unit = power_of_two(places);
    Loss {
        whole: wide.high * power_of_two(64 - places) + wide.low / unit,
        exact: wide.low % unit == 0,
    }
}

fn held() -> Loss
    ensures whole { result.whole ≡ 2 ^ 122 }
    ensures exact { result.exact ≡ true }
{
    Loss {
        whole: MOST,
        exact: true,
    }
}
