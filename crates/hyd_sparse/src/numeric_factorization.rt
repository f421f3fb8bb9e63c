//! The numbers of a factor, column by column from those of the columns before.
ghost use Rattle.std.specs.Prelude.{◌≡◌, ◌<◌, length};
ghost use Rattle.std.specs.List.{All};
ghost use Rattle.hyd_sparse.specs.Tables.{IsSpan, IsUpdate, IsTerm};

use crate::pattern::Pattern;
use crate::tables::{Span, Term, Update};
use std::num::nearest_i64_to_f64;

/// Half a unit of the matrix, 2^-30. A pivot below it, or one that is no number, is put to it, so
/// that each column has a pivot to divide by.
const LEAST_PIVOT: f64 = 0.000000000931322574615478515625;

/// One unit, 2^-29.
const ONE_UNIT: f64 = 0.00000000186264514923095703125;

/// A number of a matrix.
pub(crate) trait Entry: Copy {
    /// The number itself.
    fn value(self) -> f64;
}

/// A number in floating point.
impl Entry for f64 {
    fn value(self) -> f64 {
        self
    }
}

/// A number in units of 1 / `UNIT`.
impl Entry for i64 {
    fn value(self) -> f64 {
        nearest_i64_to_f64(self) * ONE_UNIT
    }
}

/// Adds a column's numbers off the diagonal to the sums of their rows.
fn add_terms<E: Entry>(sums: &mut [f64], terms: &[Term], off: &[E])
    requires { All (IsTerm (length sums.old) (length off.now)) terms.now }
    ensures { length sums.new ≡ length sums.old }
{
    for term in terms {
        sums[term.row as usize] += off[term.link as usize].value();
    }
}

/// Takes a multiple of some entries from the sums of their rows.
pub(crate) fn subtract(sums: &mut [f64], rows: &[u32], values: &[f64], multiple: f64)
    requires { All (λ row. row < length sums.old) rows.now }
    ensures { length sums.new ≡ length sums.old }
{
    for (row, value) in rows.iter().zip(values) {
        sums[*row as usize] -= multiple * *value;
    }
}

/// Takes from the sums of a column's rows what an update says: from its entry to the end of its column.
fn update(sums: &mut [f64], update: Update, pattern: &Pattern, values: &[f64], pivots: &[f64])
    requires sums { length sums.old ≡ length pattern.now.columns.items }
    requires values { length values.now ≡ length pattern.now.rows.items }
    requires pivots { length pivots.now ≡ length pattern.now.columns.items }
    requires update { IsUpdate (length pattern.now.columns.items) (length pattern.now.rows.items) update }
    ensures { length sums.new ≡ length sums.old }
{
    let from = update.from as usize;
    let column = update.column as usize;
    let multiple = values[from] * pivots[column];
    let to = pattern.column(column).entries.to.max(from);
    let entries = Span { from, to };
    subtract(sums, pattern.rows_of(entries), &values[from..to], multiple);
}

/// Takes from the sums of a column's rows what the column's updates say.
fn update_by(sums: &mut [f64], updates: Span, pattern: &Pattern, values: &[f64], pivots: &[f64])
    requires sums { length sums.old ≡ length pattern.now.columns.items }
    requires values { length values.now ≡ length pattern.now.rows.items }
    requires pivots { length pivots.now ≡ length pattern.now.columns.items }
    requires updates { IsSpan (length pattern.now.updates.items) updates }
    ensures { length sums.new ≡ length sums.old }
{
    for one in pattern.updates_of(updates) {
        update(sums, *one, pattern, values, pivots);
    }
}

/// Puts a column's entries, the sums of its rows divided by the pivot, and clears these sums.
fn settle(sums: &mut [f64], rows: &[u32], values: &mut [f64], pivot: f64)
    requires { All (λ row. row < length sums.old) rows.now }
    ensures sums { length sums.new ≡ length sums.old }
    ensures values { length values.new ≡ length values.old }
{
    for (row, value) in rows.iter().zip(values.iter_mut()) {
        let row = *row as usize;
        *value = sums[row] / pivot;
        sums[row] = 0.0;
    }
}

/// The pivot for a number that is left on the diagonal.
fn pivot_for(number: f64) -> f64 {
    if number > LEAST_PIVOT {
        number
    } else {
        LEAST_PIVOT
    }
}

/// Puts the pivot and the entries of one column.
fn eliminate_column<E: Entry>(
    pattern: &Pattern,
    place: usize,
    diagonal: &[E],
    off: &[E],
    pivots: &mut [f64],
    values: &mut [f64],
    sums: &mut [f64],
)
    requires place { place < length pattern.now.columns.items }
    requires diagonal { length diagonal.now ≡ length pattern.now.columns.items }
    requires off { length off.now ≡ pattern.now.links }
    requires pivots { length pivots.old ≡ length pattern.now.columns.items }
    requires values { length values.old ≡ length pattern.now.rows.items }
    requires sums { length sums.old ≡ length pattern.now.columns.items }
    ensures pivots { length pivots.new ≡ length pivots.old }
    ensures values { length values.new ≡ length values.old }
    ensures sums { length sums.new ≡ length sums.old }
{
    let column = pattern.column(place);
    sums[place] = diagonal[column.node as usize].value();
    add_terms(sums, pattern.terms_of(column.terms), off);
    update_by(sums, column.updates, pattern, values, pivots);
    let pivot = pivot_for(sums[place]);
    pivots[place] = pivot;
    sums[place] = 0.0;
    let Span { from, to } = column.entries;
    settle(
        sums,
        pattern.rows_of(column.entries),
        &mut values[from..to],
        pivot,
    );
}

/// Puts all pivots and entries. The sums are zeros before and after.
pub(crate) fn eliminate<E: Entry>(
    pattern: &Pattern,
    diagonal: &[E],
    off: &[E],
    pivots: &mut [f64],
    values: &mut [f64],
    sums: &mut [f64],
)
    requires diagonal { length diagonal.now ≡ length pattern.now.columns.items }
    requires off { length off.now ≡ pattern.now.links }
    requires pivots { length pivots.old ≡ length pattern.now.columns.items }
    requires values { length values.old ≡ length pattern.now.rows.items }
    requires sums { length sums.old ≡ length pattern.now.columns.items }
    ensures pivots { length pivots.new ≡ length pivots.old }
    ensures values { length values.new ≡ length values.old }
    ensures sums { length sums.new ≡ length sums.old }
{
    for place in 0..pattern.columns.len() {
        eliminate_column(pattern, place, diagonal, off, pivots, values, sums);
    }
}
