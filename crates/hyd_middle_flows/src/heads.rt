//! Heads between two vectors.
#![tactic(auto)]

ghost use Rattle.std.specs.Prelude.{◌≡◌, ◌<◌, ◌+ℤ◌, pos, length, slice_index_or};
ghost use Rattle.hyd_spec_witnesses.specs.MiddleCandidate.{heads_between};
ghost use Rattle.hyd_spec_witnesses.specs.WitnessText.{AreValues, IsValue};

use crate::halfway::store;
use hyd_net::List;

// Twice the head halfway between two heads.
fn head_between(lower: &[i64], upper: &[i64], place: usize) -> i128
    requires lower_there { place < length lower.now }
    requires upper_there { place < length upper.now }
    ensures value { result ≡ slice_index_or lower.now place (pos 0) +ℤ slice_index_or upper.now place (pos 0) }
    ensures small { IsValue result }
{
    i128::from(lower[place]) + i128::from(upper[place])
}

// Puts heads between two vectors.
fn put_each_head(lower: &[i64], upper: &[i64], into: &mut [i128])
    requires each_lower { length lower.now ≡ length into.old }
    requires each_upper { length upper.now ≡ length into.old }
    ensures value { into.new ≡ heads_between lower.now upper.now }
    ensures fit { AreValues (length into.old) into.new }
{
    for place in 0..into.len() {
        let head = head_between(lower, upper, place);
        store(into, place, head);
    }
}

/// Puts the heads halfway between those of two vectors (head ticks), in halves of ticks.
pub fn put_heads_between(lower: &[i64], upper: &[i64], into: &mut List<i128>)
    requires each_lower { length lower.now ≡ length into.old.list }
    requires each_upper { length upper.now ≡ length into.old.list }
    ensures value { into.new.list ≡ heads_between lower.now upper.now }
    ensures fit { AreValues (length into.old.list) into.new.list }
{
    put_each_head(lower, upper, into.as_mut_slice());
}
