//! Guesses of flows in floating point. Nothing rests on them: a bad one costs time.
#![tactic(auto)]

use crate::flow_tests::FlowTest;
use crate::whole_numbers::in_63_digits;
use hyd_num::{Pair, Scaled};
use hyd_spec_power_laws::CutNumber;
use std::num;

// Mantissas are counted from 2^62.
const LEAST: f64 = 4611686018427387904.0;

// By how many places both sides of a test stand higher: 1000 * 122.
const PLACES: f64 = 122000.0;

const ROOT_OF_TWO: f64 = 1.4142135623730951;

// Twice the reciprocal of the natural logarithm of 2, and that logarithm.
const TWICE_RECIPROCAL: f64 = 2.8853900817779268;

const LOGARITHM_OF_TWO: f64 = 0.6931471805599453;

// The greatest power of two that is reckoned.
const MOST_PLACES: f64 = 61.0;

// 2^(1/16), 2^(3/16), .. 2^(15/16).
const SIXTEENTHS: [f64; 8] = [
    1.0442737824274138,
    1.1387886347566916,
    1.241857812073484,
    1.3542555469368927,
    1.4768261459394993,
    1.6104903319492543,
    1.7562521603732995,
    1.9152065613971474,
];

/// The flow at which both sides of a test are about equal.
pub(crate) fn guess(test: &FlowTest) -> u64 {
    let sides = log_of(test.whole) + as_float(test.constant.exp) + 62.0 - PLACES;
    let log = sides / 1852.0;
    let flow = power_of_two(log);
    let Some(minor) = test.minor else {
        return num::saturating_f64_to_u64(flow);
    };
    let head = log_of(in_63_digits(u128::from(test.head)));
    let lost = log_of_end(minor.lo) + 2.0 * log - head;
    num::saturating_f64_to_u64(flow * part_left(lost))
}

// What part of the flow is left by fittings that lose 2^lost of the head at the whole flow: with u the part,
// u^1.852 + 2^lost u^2 = 1, by three steps of Newton's method.
fn part_left(lost: f64) -> f64 {
    let factor = power_of_two(lost);
    let mut part = 1.0 / (1.0 + factor).sqrt();
    for _ in 0..3 {
        let friction = power_of_two(1.852 * log_of_part(part));
        let fittings = factor * part * part;
        part -= part * (friction + fittings - 1.0) / (1.852 * friction + 2.0 * fittings);
    }
    part
}

// The binary logarithm of a part of 1.
fn log_of_part(part: f64) -> f64 {
    let number = num::saturating_f64_to_u64(part * LEAST).max(1);
    log_of(in_63_digits(u128::from(number))) - 62.0
}

// The binary logarithm of a whole number in 63 digits, or of a cut number less 62.
fn log_of(number: CutNumber) -> f64 {
    num::nearest_i64_to_f64(i64::from(number.exp)) + log_of_mantissa(number.mant)
}

fn log_of_end(end: Scaled) -> f64 {
    as_float(end.exp) + 62.0 + log_of_mantissa(end.mant)
}

fn as_float(exp: i32) -> f64 {
    num::nearest_i64_to_f64(i64::from(exp))
}

// The binary logarithm of a mantissa over 2^62, by odd powers of (x - r) / (x + r) with r the root of 2.
#[inline]
fn log_of_mantissa(mant: u64) -> f64 {
    let x = num::nearest_u64_to_f64(mant) / LEAST;
    let ratio = (x - ROOT_OF_TWO) / (x + ROOT_OF_TWO);
    let square = ratio * ratio;
    let fourth = square * square;
    // two sums side by side, since each waits for itself
    let even = 1.0
        + fourth * (1.0 / 5.0 + fourth * (1.0 / 9.0 + fourth * (1.0 / 13.0 + fourth / 17.0)));
    let odd = 1.0 / 3.0 + fourth * (1.0 / 7.0 + fourth * (1.0 / 11.0 + fourth / 15.0));
    0.5 + TWICE_RECIPROCAL * ratio * (even + square * odd)
}

// 2^log, for logarithms from -61 to 61.
fn power_of_two(log: f64) -> f64 {
    if log < 0.0 {
        return 1.0 / power_above_one(-log);
    }
    power_above_one(log)
}

// By eighths, and by the series of the exponential from the middle of an eighth.
#[inline]
fn power_above_one(log: f64) -> f64 {
    let held = if log < MOST_PLACES { log } else { MOST_PLACES };
    let eighths = num::saturating_f64_to_u64(held * 8.0).min(488);
    let rest = (held - num::nearest_u64_to_f64(eighths) * 0.125 - 0.0625) * LOGARITHM_OF_TWO;
    let square = rest * rest;
    let even = 1.0 + square * (1.0 / 2.0 + square * (1.0 / 24.0 + square / 720.0));
    let odd = 1.0 + square * (1.0 / 6.0 + square * (1.0 / 120.0 + square / 5040.0));
    num::nearest_u64_to_f64(1 << (eighths / 8))
        * SIXTEENTHS[(eighths % 8) as usize]
        * (even + rest * odd)
}
