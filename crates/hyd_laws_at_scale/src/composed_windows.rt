//! Low and high flows of laws made of other laws, by those of the law inside.
#![tactic(auto)]

ghost use Rattle.std.specs.Prelude.{◌≡◌, ◌*◌, ◌^◌, ◌≤◌, ℕ, ℤ, unsigned_abs, if◌then◌else◌};
ghost use Rattle.std.specs.Int.{int_max, int_min};
ghost use Rattle.hyd_spec.specs.Scale.{at_scale};
ghost use Rattle.hyd_spec.specs.Law.{Law};
ghost use Rattle.hyd_spec.specs.Law as exact;
ghost use Rattle.hyd_law.specs.ComposedLaws.{directed};
ghost use Rattle.hyd_period_network.specs.ExactLaw.{one_way_law};
ghost use Rattle.hyd_laws_at_scale.specs.Scales.{parts_of};
ghost use Rattle.hyd_laws_at_scale.specs.Windows.{IsAnswer};

use crate::scale::Scale;
use crate::windows::{Window, window_of};

// A flow at or above 0, or at or below 0.
fn directed(forward: bool, flow: i128) -> i128
    ensures value { result ≡ directed forward flow }
    ensures small { unsigned_abs result ≤ unsigned_abs flow }
{
    if forward {
        return flow.max(0);
    }
    flow.min(0)
}

// A flow of parts, at or below a setting of ticks.
fn lowered(setting: i64, scale: Scale, flow: i128) -> i128
    requires { unsigned_abs flow ≤ 241 * 10 ^ 20 }
    ensures value { result ≡ int_min (at_scale (parts_of scale) setting) flow }
    ensures small { unsigned_abs result ≤ 241 * 10 ^ 20 }
{
    scale.in_parts(i128::from(setting)).min(flow)
}

/// A flow of parts, held from a least to a greatest number of ticks.
pub(crate) fn held(least: i64, most: i64, scale: Scale, flow: i128) -> i128
    ensures value { result ≡ int_max (at_scale (parts_of scale) least) (int_min (at_scale (parts_of scale) most)
        flow) }
    ensures small { unsigned_abs result ≤ 241 * 10 ^ 20 }
{
    let least = scale.in_parts(i128::from(least));
    scale.in_parts(i128::from(most)).min(flow).max(least)
}

/// A law that passes one way only.
pub(crate) fn one_way(forward: bool, inner: Option<Window>) -> Option<Window>
    ensures { (S : ℕ) (law : Law) (d : ℤ) → IsAnswer S law d inner → IsAnswer S (one_way_law forward law) d result }
{
    let inside = inner?;
    Some(window_of(
        directed(forward, inside.low),
        directed(forward, inside.high),
    ))
}

/// A law held at or below a setting.
pub(crate) fn capped(setting: i64, scale: Scale, inner: Option<Window>) -> Option<Window>
    ensures { (law : Law) (d : ℤ) → IsAnswer (parts_of scale) law d inner
        → IsAnswer (parts_of scale) (exact.Capped setting law) d result }
{
    let inside = inner?;
    Some(window_of(
        lowered(setting, scale, inside.low),
        lowered(setting, scale, inside.high),
    ))
}

/// A law that passes one way only where the other is forbidden.
pub(crate) fn restricted(forbidden: bool, forward: bool, inner: Option<Window>) -> Option<Window>
    ensures { (S : ℕ) (law : Law) (d : ℤ) → IsAnswer S law d inner
        → IsAnswer S (if forbidden then one_way_law forward law else law) d result }
{
    if forbidden {
        return one_way(forward, inner);
    }
    inner
}
