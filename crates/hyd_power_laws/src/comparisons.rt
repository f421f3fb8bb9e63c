//! Comparison of cut numbers times powers of two.
#![tactic(auto)]

ghost use Rattle.std.specs.Prelude.{◌≡◌, ◌*◌, ◌^◌, ◌<◌, nat_le};
ghost use Rattle.hyd_spec_power_laws.specs.CutPowers.{value, IsNormal};

use hyd_spec_power_laws::CutNumber;

/// Whether `a 2^i` is at most `b 2^j`.
#[inline]
pub(crate) fn is_at_most(a: CutNumber, i: u64, b: CutNumber, j: u64) -> bool
    requires a_normal { IsNormal a }
    requires b_normal { IsNormal b }
    requires i_near { i < 2 ^ 40 }
    requires j_near { j < 2 ^ 40 }
    ensures { result ≡ nat_le (value a * 2 ^ i) (value b * 2 ^ j) }
{
    let left = u64::from(a.exp) + i;
    let right = u64::from(b.exp) + j;
    if left == right {
        return a.mant <= b.mant;
    }
    left < right
}
