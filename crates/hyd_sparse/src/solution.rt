//! The solution of a system whose matrix is factored. It stands in place of the loads all along, as
//! whole numbers that fill their 64 bits: they are scaled up before each half of the work.
ghost use Rattle.std.specs.Prelude.{◌≡◌, ◌<◌, length};
ghost use Rattle.std.specs.List.{All};
ghost use Rattle.hyd_sparse.specs.Tables.{IsUpdate};

use crate::numeric_factorization::subtract;
use crate::pattern::Pattern;
use crate::permutation::{reorder, restore};
use crate::tables::Update;
use std::num::{nearest_i64_to_f64, saturating_f64_to_i64};

/// What magnitudes are made to add up to, 2^62. In either half no number outgrows the sum of the
/// magnitudes where the matrix has a dominant diagonal and no positive numbers off it.
const FULL: f64 = 4611686018427387904.0;

/// What makes magnitudes of this sum add up to `FULL`.
fn scale_for(sum: f64) -> f64 {
    if sum > 0.0 { FULL / sum } else { 1.0 }
}

fn magnitudes(b: &[i64]) -> f64 {
    let mut sum = 0.0;
    for number in b {
        sum += nearest_i64_to_f64(*number).abs();
    }
    sum
}

/// The sum of the magnitudes that the numbers have when they are divided by the pivots.
fn quotients(b: &[i64], pivots: &[f64]) -> f64 {
    let mut sum = 0.0;
    for (number, pivot) in b.iter().zip(pivots) {
        sum += nearest_i64_to_f64(*number).abs() / *pivot;
    }
    sum
}

fn multiply(b: &mut [i64], by: f64)
    ensures { length b.new ≡ length b.old }
{
    for number in b.iter_mut() {
        *number = saturating_f64_to_i64(nearest_i64_to_f64(*number) * by);
    }
}

/// Divides each number by its pivot, and multiplies it.
fn divide(b: &mut [i64], pivots: &[f64], by: f64)
    ensures { length b.new ≡ length b.old }
{
    for (number, pivot) in b.iter_mut().zip(pivots) {
        *number = saturating_f64_to_i64(nearest_i64_to_f64(*number) / *pivot * by);
    }
}

/// The sum over a row's entries of the entry times its column's number.
fn row_sum(b: &[i64], updates: &[Update], values: &[f64]) -> f64
    requires { All (IsUpdate (length b.now) (length values.now)) updates.now }
{
    let mut sum = 0.0;
    for update in updates {
        sum += values[update.from as usize] * nearest_i64_to_f64(b[update.column as usize]);
    }
    sum
}

/// The sum over a column's entries of the entry times its row's number.
fn column_sum(b: &[i64], rows: &[u32], values: &[f64]) -> f64
    requires { All (λ row. row < length b.now) rows.now }
{
    let mut sum = 0.0;
    for (row, value) in rows.iter().zip(values) {
        sum += *value * nearest_i64_to_f64(b[*row as usize]);
    }
    sum
}

/// Takes from each number, the first one first, what those before it amount to in its row.
fn forward(pattern: &Pattern, values: &[f64], b: &mut [i64])
    requires values { length values.now ≡ length pattern.now.rows.items }
    requires b { length b.old ≡ length pattern.now.columns.items }
    ensures { length b.new ≡ length b.old }
{
    for place in 0..b.len() {
        let updates = pattern.updates_of(pattern.column(place).updates);
        let sum = row_sum(b, updates, values);
        b[place] = b[place].saturating_sub(saturating_f64_to_i64(sum));
    }
}

/// Takes from each number, the last one first, what those after it amount to in its column.
fn backward(pattern: &Pattern, values: &[f64], b: &mut [i64])
    requires values { length values.now ≡ length pattern.now.rows.items }
    requires b { length b.old ≡ length pattern.now.columns.items }
    ensures { length b.new ≡ length b.old }
{
    for place in (0..b.len()).rev() {
        let entries = pattern.column(place).entries;
        let sum = column_sum(
            b,
            pattern.rows_of(entries),
            &values[entries.from..entries.to],
        );
        b[place] = b[place].saturating_sub(saturating_f64_to_i64(sum));
    }
}

/// Puts in place of the loads b the solution x of A x = b.
pub(crate) fn solve(pattern: &Pattern, pivots: &[f64], values: &[f64], b: &mut [i64])
    requires values { length values.now ≡ length pattern.now.rows.items }
    requires b { length b.old ≡ length pattern.now.columns.items }
    ensures { length b.new ≡ length b.old }
{
    let first = scale_for(magnitudes(b));
    multiply(b, first);
    reorder(b, &pattern.swaps);
    forward(pattern, values, b);
    let second = scale_for(quotients(b, pivots));
    divide(b, pivots, second);
    backward(pattern, values, b);
    restore(b, &pattern.swaps);
    multiply(b, 1.0 / (first * second));
}

/// Takes from the numbers in each column's rows, the first column first, what the column's number
/// amounts to there.
fn forward_reals(pattern: &Pattern, values: &[f64], b: &mut [f64])
    requires values { length values.now ≡ length pattern.now.rows.items }
    requires b { length b.old ≡ length pattern.now.columns.items }
    ensures { length b.new ≡ length b.old }
{
    for place in 0..b.len() {
        let entries = pattern.column(place).entries;
        let number = b[place];
        subtract(
            b,
            pattern.rows_of(entries),
            &values[entries.from..entries.to],
            number,
        );
    }
}

/// Divides each number by its pivot.
fn divide_reals(b: &mut [f64], pivots: &[f64])
    ensures { length b.new ≡ length b.old }
{
    for (number, pivot) in b.iter_mut().zip(pivots) {
        *number = *number / *pivot;
    }
}

/// The sum over a column's entries of the entry times its row's number, as four sums side by side, since each waits for
/// itself.
fn column_sum_of_reals(b: &[f64], rows: &[u32], values: &[f64]) -> f64
    requires rows { All (λ row. row < length b.now) rows.now }
    requires values { length values.now ≡ length rows.now }
{
    let (mut first, mut second, mut third, mut fourth) = (0.0, 0.0, 0.0, 0.0);
    let whole = rows.len() / 4;
    for four in 0..whole {
        let place = 4 * four;
        first += values[place] * b[rows[place] as usize];
        second += values[place + 1] * b[rows[place + 1] as usize];
        third += values[place + 2] * b[rows[place + 2] as usize];
        fourth += values[place + 3] * b[rows[place + 3] as usize];
    }
    let rest = 4 * whole;
    (first + second) + (third + fourth) + sum_of_few(b, &rows[rest..], &values[rest..])
}

/// The same one after another.
fn sum_of_few(b: &[f64], rows: &[u32], values: &[f64]) -> f64
    requires { All (λ row. row < length b.now) rows.now }
{
    let mut sum = 0.0;
    for (row, value) in rows.iter().zip(values) {
        sum += *value * b[*row as usize];
    }
    sum
}

/// Takes from each number, the last one first, what those after it amount to in its column.
fn backward_reals(pattern: &Pattern, values: &[f64], b: &mut [f64])
    requires values { length values.now ≡ length pattern.now.rows.items }
    requires b { length b.old ≡ length pattern.now.columns.items }
    ensures { length b.new ≡ length b.old }
{
    for place in (0..b.len()).rev() {
        let entries = pattern.column(place).entries;
        let sum = column_sum_of_reals(
            b,
            pattern.rows_of(entries),
            &values[entries.from..entries.to],
        );
        b[place] -= sum;
    }
}

/// The same in floating point all along.
pub(crate) fn solve_reals(pattern: &Pattern, pivots: &[f64], values: &[f64], b: &mut [f64])
    requires values { length values.now ≡ length pattern.now.rows.items }
    requires b { length b.old ≡ length pattern.now.columns.items }
    ensures { length b.new ≡ length b.old }
{
    reorder(b, &pattern.swaps);
    forward_reals(pattern, values, b);
    divide_reals(b, pivots);
    backward_reals(pattern, values, b);
    restore(b, &pattern.swaps);
}
