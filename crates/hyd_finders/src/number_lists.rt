//! Lists of numbers, one for each junction, node or link. What lies past a list's end counts as 0, and isn't written.
#![tactic(auto)]

ghost use Rattle.std.specs.Prelude.{◌≡◌, length};

/// The number at a place.
pub(crate) fn number_at(numbers: &[i64], place: u32) -> i64 {
    numbers.get(place as usize).copied().unwrap_or(0)
}

/// The number at a place, in floating point.
pub(crate) fn real_at(numbers: &[f64], place: u32) -> f64 {
    numbers.get(place as usize).copied().unwrap_or(0.0)
}

/// Adds to the number at a place, in floating point.
pub(crate) fn add_real_at(numbers: &mut [f64], place: u32, more: f64)
    ensures { length numbers.new ≡ length numbers.old }
{
    if let Some(number) = numbers.get_mut(place as usize) {
        *number += more;
    }
}

/// Puts a number at a place.
pub(crate) fn put_real_at(numbers: &mut [f64], place: u32, with: f64)
    ensures { length numbers.new ≡ length numbers.old }
{
    if let Some(number) = numbers.get_mut(place as usize) {
        *number = with;
    }
}

/// Copies as many numbers as both lists have.
pub(crate) fn copy(from: &[i64], into: &mut [i64])
    ensures { length into.new ≡ length into.old }
{
    for (entry, number) in into.iter_mut().zip(from) {
        *entry = *number;
    }
}

/// Copies as many numbers as both lists have, in floating point.
pub(crate) fn copy_reals(from: &[f64], into: &mut [f64])
    ensures { length into.new ≡ length into.old }
{
    for (entry, number) in into.iter_mut().zip(from) {
        *entry = *number;
    }
}

/// Puts one number everywhere.
pub(crate) fn fill(numbers: &mut [i64], with: i64)
    ensures { length numbers.new ≡ length numbers.old }
{
    for entry in numbers.iter_mut() {
        *entry = with;
    }
}

/// Puts 0 everywhere.
pub(crate) fn clear(numbers: &mut [f64])
    ensures { length numbers.new ≡ length numbers.old }
{
    for entry in numbers.iter_mut() {
        *entry = 0.0;
    }
}

/// Puts multiples of numbers.
pub(crate) fn multiply(numbers: &[f64], by: f64, multiples: &mut [f64])
    ensures { length multiples.new ≡ length multiples.old }
{
    for (entry, number) in multiples.iter_mut().zip(numbers) {
        *entry = *number * by;
    }
}

/// Adds multiples of numbers.
pub(crate) fn add_multiples(numbers: &[f64], by: f64, sums: &mut [f64])
    ensures { length sums.new ≡ length sums.old }
{
    for (entry, number) in sums.iter_mut().zip(numbers) {
        *entry += *number * by;
    }
}

/// The sum of the products of two lists' numbers.
pub(crate) fn product(some: &[f64], others: &[f64]) -> f64 {
    let mut sum = 0.0;
    for (one, other) in some.iter().zip(others) {
        sum += *one * *other;
    }
    sum
}
