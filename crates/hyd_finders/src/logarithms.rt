//! Binary logarithms and powers in floating point, by series, so that each machine reckons alike. Nothing rests on
//! them.
#![tactic(auto)]

use std::num::{
    f64_from_bits_with_nan, f64_to_bits_with_nan, nearest_i64_to_f64, nearest_u64_to_f64,
    saturating_f64_to_i64,
};

/// The bits of a fraction, and those of 1.
const FRACTION: u64 = 0x0010_0000_0000_0000;

const ONE: u64 = 0x3ff0_0000_0000_0000;

/// The exponent of 1.
const BIAS: f64 = 1023.0;

const ROOT_OF_TWO: f64 = 1.4142135623730951;

/// Twice the reciprocal of the natural logarithm of 2, and that logarithm.
const TWICE_RECIPROCAL: f64 = 2.8853900817779268;

const LOGARITHM_OF_TWO: f64 = 0.6931471805599453;

/// The greatest magnitude of a logarithm that is reckoned.
const MOST: f64 = 1000.0;

/// 2^(1/16), 2^(3/16), .. 2^(15/16).
const SIXTEENTHS: [f64; 8] = [
    1.0442737824274138,
    1.1387886347566916,
    1.241857812073484,
    1.3542555469368927,
    1.4768261459394993,
    1.6104903319492543,
    1.7562521603732995,
    1.9152065613971474,
];

/// The binary logarithm of a number above 0: its exponent, and a series in (x - r) / (x + r) with r the root of 2.
pub(crate) fn logarithm(number: f64) -> f64 {
    let bits = f64_to_bits_with_nan(number);
    let x = f64_from_bits_with_nan(bits % FRACTION + ONE);
    let ratio = (x - ROOT_OF_TWO) / (x + ROOT_OF_TWO);
    let square = ratio * ratio;
    let fourth = square * square;
    // two sums side by side, since each waits for itself
    let even = 1.0
        + fourth * (1.0 / 5.0 + fourth * (1.0 / 9.0 + fourth * (1.0 / 13.0 + fourth / 17.0)));
    let odd = 1.0 / 3.0 + fourth * (1.0 / 7.0 + fourth * (1.0 / 11.0 + fourth / 15.0));
    nearest_u64_to_f64(bits / FRACTION) - BIAS
        + 0.5
        + TWICE_RECIPROCAL * ratio * (even + square * odd)
}

/// 2 to a power.
pub(crate) fn power_of_two(power: i32) -> f64 {
    let biased = power.saturating_add(1023).clamp(1, 2046);
    f64_from_bits_with_nan((biased as u64) << 52)
}

/// The number with this binary logarithm: by eighths, and by the series of the exponential from the middle of one.
pub(crate) fn number_of(logarithm: f64) -> f64 {
    let held = logarithm.clamp(-MOST, MOST);
    let eighths = saturating_f64_to_i64((held + MOST) * 8.0);
    let rest = (held + MOST - nearest_i64_to_f64(eighths) * 0.125 - 0.0625) * LOGARITHM_OF_TWO;
    let square = rest * rest;
    let even = 1.0 + square * (1.0 / 2.0 + square * (1.0 / 24.0 + square / 720.0));
    let odd = 1.0 + square * (1.0 / 6.0 + square * (1.0 / 120.0 + square / 5040.0));
    let whole = (eighths / 8).clamp(0, 2000) as i32 - 1000;
    let part = SIXTEENTHS
        .get((eighths.clamp(0, 16000) % 8) as usize)
        .copied()
        .unwrap_or(1.0);
    power_of_two(whole) * part * (even + rest * odd)
}
