//! How many parts a tick has at a scale.
#![tactic(auto)]

ghost use Rattle.std.specs.Prelude.{◌≡◌, ◌*◌, ◌^◌, ◌<◌, ◌≤◌, IfSome, IfNone, unsigned_abs};
ghost use Rattle.hyd_spec.specs.Scale.{at_scale};
ghost use Rattle.hyd_spec_witnesses.specs.WitnessText.{IsScale};
ghost use Rattle.hyd_laws_at_scale.specs.Scales.{parts_of};

use crate::scale::Scale;

/// The most parts that a tick is taken in.
const MOST_PARTS: u32 = 1_024;

impl Scale {
    /// The scale of so many parts. There is none exactly where they aren't a power of two from 1 to 1,024.
    pub fn new(parts: u32) -> Option<Scale>
        ensures some { IfSome result (λ scale. parts_of scale ≡ parts) }
        ensures none { IfNone result (IsScale parts → ⊥) }
    {
        if parts == 0 || parts > MOST_PARTS {
            return None;
        }
        let power = parts.ilog2();
        if two_to(power) != parts {
            return None;
        }
        Some(scale_of(power))
    }

    /// How many parts a tick has.
    pub fn parts(self) -> u32
        ensures value { result ≡ parts_of self }
        ensures some { 0 < result }
        ensures few { result ≤ 1024 }
        ensures is_scale { IsScale result }
    {
        two_to(self.power)
    }

    /// A number of ticks in parts.
    pub fn in_parts(self, ticks: i128) -> i128
        requires { unsigned_abs ticks ≤ 10 ^ 34 }
        ensures value { result ≡ at_scale (parts_of self) ticks }
        ensures small { unsigned_abs result ≤ 1024 * unsigned_abs ticks }
    {
        i128::from(self.parts()) * ticks
    }
}

// 2^k.
fn two_to(k: u32) -> u32
    requires { k < 32 }
    ensures { result ≡ 2 ^ k }
{
    1 << k
}

// The scale of 2^power parts.
fn scale_of(power: u32) -> Scale
    requires { power ≤ 10 }
    ensures { result.power ≡ power }
{
    Scale { power }
}
