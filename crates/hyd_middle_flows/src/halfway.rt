//! Halfway between a low and a high flow.
#![tactic(auto)]

ghost use Rattle.std.specs.Prelude.{◌≡◌, ◌<◌, pos, length, slice_set, IfSome, IfNone};
ghost use Rattle.hyd_spec_witnesses.specs.MiddleCandidate.{halfway};
ghost use Rattle.hyd_spec_witnesses.specs.WitnessText.{IsValue};
ghost use Rattle.hyd_laws_at_scale.specs.declared.windows.Window as windows;

use hyd_laws_at_scale::Window;

/// Half of the sum of a low and a high flow, rounded down; 0 where there are none.
pub(crate) fn halfway(window: Option<Window>) -> i128
    ensures some { IfSome window (λ (w : windows.Window). result ≡ halfway w.low w.high) }
    ensures none { IfNone window (result ≡ pos 0) }
    ensures small { IsValue result }
{
    match window {
        Some(window) => (window.low + window.high).div_euclid(2),
        None => 0,
    }
}

/// Writes a value at its place.
pub(crate) fn store(values: &mut [i128], place: usize, value: i128)
    requires { place < length values.old }
    ensures { values.new ≡ slice_set values.old place value }
{
    values[place] = value;
}
