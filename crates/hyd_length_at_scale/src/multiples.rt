//! Multiples of a step.
#![tactic(auto)]

ghost use Rattle.std.specs.Prelude.{◌≤◌};
ghost use Rattle.hyd_length_at_scale.specs.Instants.{IsToMultiple};

/// How many seconds, at least 1, it is to the next multiple of a step, where so many have passed.
pub(crate) fn to_multiple(passed: u32, step: u32) -> u32
    requires { 1 ≤ step }
    ensures to { IsToMultiple passed step result }
    ensures within { result ≤ step }
{
    step - passed % step
}
