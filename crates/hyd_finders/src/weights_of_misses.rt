//! Weights of junctions: what the heads' whole ticks and a certificate's margin can cost at each, in flow ticks.
#![tactic(auto)]

ghost use Rattle.std.specs.Prelude.{◌≡◌, length};

use crate::number_lists::real_at;
use hyd_period_network::Net;
use std::num::nearest_i64_to_f64;

/// What a weight has beside the margin and the slopes.
const SPARE: f64 = 4.0;

// The margin, and half of what one head tick moves.
fn weight(net: &Net, junction: u32, diagonal: f64) -> f64 {
    if junction >= net.junctions() {
        return SPARE;
    }
    nearest_i64_to_f64(net.margin(junction)) + SPARE + diagonal * 0.5
}

/// Puts the weight of each junction by the diagonal of slopes.
pub(crate) fn put_weights(net: &Net, diagonal: &[f64], weights: &mut [f64])
    ensures { length weights.new ≡ length weights.old }
{
    for junction in 0..net.junctions() {
        if let Some(entry) = weights.get_mut(junction as usize) {
            *entry = weight(net, junction, real_at(diagonal, junction));
        }
    }
}

/// The greatest ratio of a junction's miss to its weight.
pub(crate) fn greatest_ratio(net: &Net, misses: &[f64], diagonal: &[f64]) -> f64 {
    let mut greatest = 0.0;
    for junction in 0..net.junctions() {
        let weight = weight(net, junction, real_at(diagonal, junction));
        let ratio = real_at(misses, junction).abs() / weight;
        if ratio > greatest {
            greatest = ratio;
        }
    }
    greatest
}
