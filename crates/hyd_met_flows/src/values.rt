//! Values of a moment by their numbers.
#![tactic(auto)]

ghost use Rattle.std.specs.Prelude.{◌≡◌, ◌<◌, pos, length, slice_index_or};
ghost use Rattle.std.specs.List.{All};
ghost use Rattle.hyd_spec_witnesses.specs.WitnessText.{IsValue};

/// A value of a moment.
pub fn value_at(values: &[i128], number: usize) -> i128
    requires there { number < length values.now }
    requires small { All IsValue values.now }
    ensures value { result ≡ slice_index_or values.now number (pos 0) }
    ensures small { IsValue result }
{
    values[number]
}

/// The number that stands at this place.
pub fn number_at(numbers: &[i128], place: usize) -> i128
    requires there { place < length numbers.now }
    ensures { result ≡ slice_index_or numbers.now place (pos 0) }
{
    numbers[place]
}
