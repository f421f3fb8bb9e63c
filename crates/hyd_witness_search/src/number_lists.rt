//! Lists of numbers, one for each junction, node or link. What lies past a list's end counts as 0, and isn't written.
#![tactic(auto)]

ghost use Rattle.std.specs.Prelude.{◌≡◌, length};

use std::num::nearest_i64_to_f64;

/// The number at a place.
pub(crate) fn number_at(numbers: &[i64], place: u32) -> i64 {
    numbers.get(place as usize).copied().unwrap_or(0)
}

/// The head or the flow at a place.
pub(crate) fn value_at(values: &[i128], place: u32) -> i128 {
    values.get(place as usize).copied().unwrap_or(0)
}

/// Adds to the number at a place.
pub(crate) fn add_at(numbers: &mut [i64], place: u32, more: i64)
    ensures { length numbers.new ≡ length numbers.old }
{
    if let Some(number) = numbers.get_mut(place as usize) {
        *number = number.saturating_add(more);
    }
}

/// Adds to the head or the flow at a place.
pub(crate) fn add_value_at(values: &mut [i128], place: u32, more: i128)
    ensures { length values.new ≡ length values.old }
{
    if let Some(value) = values.get_mut(place as usize) {
        *value = value.saturating_add(more);
    }
}

/// Copies as many values as both lists have.
pub(crate) fn copy(from: &[i128], into: &mut [i128])
    ensures { length into.new ≡ length into.old }
{
    for (entry, value) in into.iter_mut().zip(from) {
        *entry = *value;
    }
}

/// Puts 0 everywhere.
pub(crate) fn clear(values: &mut [i128])
    ensures { length values.new ≡ length values.old }
{
    for value in values.iter_mut() {
        *value = 0;
    }
}

/// A value held from a least to a greatest one; the least where they cross.
pub(crate) fn held(value: i128, least: i128, most: i128) -> i128 {
    value.min(most).max(least)
}

/// The sum of the magnitudes.
pub(crate) fn sum_of_magnitudes(numbers: &[i64]) -> f64 {
    let mut sum = 0.0;
    for number in numbers {
        sum += nearest_i64_to_f64(*number).abs();
    }
    sum
}
