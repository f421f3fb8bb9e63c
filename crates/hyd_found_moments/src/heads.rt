//! The heads at which a search begins.
#![tactic(auto)]

ghost use Rattle.std.specs.Prelude.{ℕ};
ghost use Rattle.hyd_spec_witnesses.specs.WitnessText.{AreValues};

use crate::values::put_value;
use hyd_cert::Record;
use hyd_laws_at_scale::Scale;
use hyd_net::List;
use hyd_spec_certificates::{Problem, Side};

// The head at a place, 0 past the end.
fn head_at(heads: &[i64], place: usize) -> i64 {
    heads.get(place).copied().unwrap_or(0)
}

// The head halfway between two heads, in parts.
fn head_between(scale: Scale, lower: i64, upper: i64) -> i128 {
    let twice = i128::from(lower) + i128::from(upper);
    i128::from(scale.parts()).saturating_mul(twice) / 2
}

// Puts heads halfway between those of two vectors.
fn put_each_head(scale: Scale, lower: &[i64], upper: &[i64], into: &mut [i128])
    ensures { (count : ℕ) → AreValues count into.old → AreValues count into.new }
{
    for place in 0..into.len() {
        let head = head_between(scale, head_at(lower, place), head_at(upper, place));
        put_value(into, place, head);
    }
}

/// Puts the heads halfway between the two vectors of a record in which all tanks are alike, in parts.
pub(crate) fn put_heads(scale: Scale, row: &Record, into: &mut List<i128>)
    ensures { (count : ℕ) → AreValues count into.old.list → AreValues count into.new.list }
{
    let lower = row.vector(Problem::Main, Side::Lower);
    let upper = row.vector(Problem::Main, Side::Upper);
    put_each_head(scale, lower, upper, into.as_mut_slice());
}
