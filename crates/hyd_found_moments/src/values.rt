//! Values that are written into a moment.
#![tactic(auto)]

ghost use Rattle.std.specs.Prelude.{◌≡◌, ℕ, ◌<◌, length, slice_set};
ghost use Rattle.hyd_spec_witnesses.specs.WitnessText.{AreValues, IsValue};

/// The greatest magnitude of a value of a witness.
const GREATEST_VALUE: i128 = 1_000_000_000_000_000_000_000_000;

// The nearest value that a witness can have.
fn within_witness(value: i128) -> i128
    ensures { IsValue result }
{
    value.clamp(-GREATEST_VALUE, GREATEST_VALUE)
}

// Writes a value at its place.
fn store(values: &mut [i128], place: usize, value: i128)
    requires { place < length values.old }
    ensures { values.new ≡ slice_set values.old place value }
{
    values[place] = value;
}

/// Writes the nearest value that a witness can have at a place, where it is there.
pub(crate) fn put_value(values: &mut [i128], place: usize, value: i128)
    ensures { (count : ℕ) → AreValues count values.old → AreValues count values.new }
{
    if place >= values.len() {
        return;
    }
    store(values, place, within_witness(value));
}
