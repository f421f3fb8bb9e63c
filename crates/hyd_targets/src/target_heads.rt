//! The whole head ticks around a target pressure.
#![tactic(auto)]

ghost use Rattle.std.specs.Prelude.{◌≡◌, ◌≤◌, ◌^◌, ◌+ℤ◌, unsigned_abs};
ghost use Rattle.hyd_num.specs.Rational.{floor, ceiling};
ghost use Rattle.hyd_net.specs.NumberRanges.{IsHead};
ghost use Rattle.hyd_spec_certificates.specs.Certificate.{IsInBox};
ghost use Rattle.hyd_targets.specs.Inquiries.{target_pressure};

use hyd_num::{Decimal, Span};
use hyd_spec_certificates::LevelSpan;
use hyd_units::pressure_ticks;

/// The whole head ticks around a pressure of at most 10^4 of the file's units in magnitude.
pub(crate) fn heads_around(pressure: Decimal, us: bool) -> Span
    requires { unsigned_abs pressure.nano ≤ 10 ^ 13 }
    ensures lo { result.lo ≡ floor (target_pressure us pressure.nano) }
    ensures hi { result.hi ≡ ceiling (target_pressure us pressure.nano) }
    ensures lo_small { unsigned_abs result.lo ≤ 10 ^ 17 }
    ensures hi_small { unsigned_abs result.hi ≤ 10 ^ 17 }
{
    pressure_ticks(pressure, us)
}

/// The heads at an elevation with pressures from one to another.
pub(crate) fn heads_at(elevation: i64, pressures: Span) -> LevelSpan
    requires elevation { IsHead elevation }
    requires lo { unsigned_abs pressures.lo ≤ 10 ^ 17 }
    requires hi { unsigned_abs pressures.hi ≤ 10 ^ 17 }
    ensures lo { result.lo ≡ elevation +ℤ pressures.lo }
    ensures hi { result.hi ≡ elevation +ℤ pressures.hi }
{
    LevelSpan {
        lo: elevation + pressures.lo as i64,
        hi: elevation + pressures.hi as i64,
    }
}
