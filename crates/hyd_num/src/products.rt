//! Products of whole numbers within 128 bits.
#![tactic(auto)]

ghost use Rattle.std.specs.Prelude.{◌≡◌, ◌*◌, ◌^◌, ◌≤◌, ◌*ℤ◌, unsigned_abs};

/// The product of two numbers of at most 4 * 10^18 either way: differences of heads and levels in ticks, and flows and
/// volumes.
pub fn whole_product(a: i128, b: i128) -> i128
    requires a { unsigned_abs a ≤ 4 * 10 ^ 18 }
    requires b { unsigned_abs b ≤ 4 * 10 ^ 18 }
    ensures value { result ≡ a *ℤ b }
    ensures small { unsigned_abs result ≤ 16 * 10 ^ 36 }
{
    a * b
}
