//! Guesses of mantissas of 100th roots, in floating point. Nothing rests on them: a bad one costs time.
#![tactic(auto)]

use crate::binary::Scaled;
use std::num::{
    f64_from_bits_with_nan, nearest_i64_to_f64, nearest_u64_to_f64, saturating_f64_to_i64,
    saturating_f64_to_u64,
};

// Mantissas are counted from 2^62.
const LEAST: f64 = 4611686018427387904.0;

// The steps of Newton's method: each doubles the digits that are right, of which the first guess has ten.
const STEPS: u32 = 3;

/// A mantissa near that of a number's 100th root.
pub(crate) fn guess(number: Scaled) -> u64 {
    // its places past a multiple of 100, from 0 to 99
    let places = number.exp.wrapping_add(62).rem_euclid(100);
    let part = nearest_u64_to_f64(number.mant) / LEAST * power_of_two(places);
    saturating_f64_to_u64(root_of_100(part) * LEAST)
}

// 2^places.
fn power_of_two(places: i32) -> f64 {
    let biased = places.saturating_add(1023).clamp(1, 2046);
    f64_from_bits_with_nan((biased as u64) << 52)
}

// The 100th root of a number from 1 to 2^100: the 25th root of its 4th root. 25 is about 32 / (1 + 1 / 4 + 1 / 32).
fn root_of_100(number: f64) -> f64 {
    let fourth = number.sqrt().sqrt();
    let first = fourth.sqrt().sqrt().sqrt().sqrt().sqrt();
    let second = first.sqrt().sqrt();
    let third = second.sqrt().sqrt().sqrt();
    let mut root = first * second * third;
    for _ in 0..STEPS {
        let square = root * root;
        let power_8 = (square * square) * (square * square);
        let power_24 = power_8 * power_8 * power_8;
        root -= (root * power_24 - fourth) / (25.0 * power_24);
    }
    root
}

/// A nearer mantissa, by a step of Newton's method from one whose 100th power is this.
pub(crate) fn improved(mant: u64, power: Scaled, number: Scaled) -> u64 {
    if power.exp != number.exp {
        return mant;
    }
    let missing = number.mant as i64 - power.mant as i64;
    let step = nearest_i64_to_f64(missing) * nearest_u64_to_f64(mant)
        / (nearest_u64_to_f64(power.mant) * 100.0);
    mant.wrapping_add_signed(saturating_f64_to_i64(step))
}
