//! Heads counted in ticks along a side of the box.
#![tactic(auto)]

ghost use Rattle.std.specs.Prelude.{◌≡◌, ◌≤◌, ◌-ℤ◌, ◌≤ℤ◌, ◌↔◌, pos, IsTrue};
ghost use Rattle.hyd_spec_certificates.specs.Certificate.{box_limit, IsInBox, IsBeyond};
ghost use Rattle.hyd_theorems_on_definitions.specs.Sides.{along};
ghost use Rattle.hyd_sweep.specs.Sweeps.{further};
ghost use Rattle.hyd_sweep.specs.Leaps.{nearer};

use hyd_spec_certificates::{BOX_LIMIT, Side};

/// How far a head is from the far end of the box.
pub(crate) fn room(side: Side, head: i64) -> u64
    requires { IsInBox head }
    ensures value { pos result ≡ pos box_limit -ℤ along side head }
    ensures within { result ≤ 2000000000000000000 }
{
    match side {
        Side::Upper => (BOX_LIMIT - head) as u64,
        Side::Lower => (head + BOX_LIMIT) as u64,
    }
}

/// The head so many ticks farther out.
pub(crate) fn further(side: Side, head: i64, ticks: u64) -> i64
    requires in_box { IsInBox head }
    requires within { pos ticks ≤ℤ (pos box_limit -ℤ along side head) }
    ensures value { result ≡ further side head ticks }
    ensures in_box { IsInBox result }
{
    match side {
        Side::Upper => head + (ticks as i64),
        Side::Lower => head - (ticks as i64),
    }
}

/// The head one tick nearer.
pub fn nearer(side: Side, head: i64) -> i64
    requires { IsInBox head }
    ensures { result ≡ nearer side head }
{
    match side {
        Side::Upper => head - 1,
        Side::Lower => head + 1,
    }
}

/// Whether a head is as far out as another, or farther.
pub(crate) fn is_beyond(side: Side, from: i64, to: i64) -> bool
    ensures { IsTrue result ↔ IsBeyond side from to }
{
    match side {
        Side::Upper => from <= to,
        Side::Lower => to <= from,
    }
}

/// Whether two heads are the same.
pub(crate) fn is_same(a: i64, b: i64) -> bool
    ensures { IsTrue result ↔ a ≡ b }
{
    a == b
}
