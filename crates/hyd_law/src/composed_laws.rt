//! Laws made of other laws.
#![tactic(auto)]

ghost use Rattle.std.specs.Prelude.{◌≡◌, ◌+◌, ◌^◌, ◌≤◌, ◌+ℤ◌, ◌≤ℤ◌, unsigned_abs};
ghost use Rattle.std.specs.Int.{int_min};
ghost use Rattle.hyd_spec.specs.Law as exact;
ghost use Rattle.hyd_spec.specs.DemandsHeadsAndPumpLifts.{lift_of};
ghost use Rattle.hyd_theorems_on_definitions.proofs.LinkLaws.{IsLaw-capped, IsLaw-held};
ghost use Rattle.hyd_law.specs.ComposedLaws.{IsDifference, IsLift, directed, directed_at_least, directed_at_most};
ghost use Rattle.hyd_law.specs.ComposedLaws.{capped_at_least, capped_at_most, held, held_at_least, held_at_most};
ghost use Rattle.hyd_law.specs.ComposedLawsAreLaws.{IsLaw-directed, IsLaw-lift};

use crate::law::Law;
use crate::law_kinds::{Capped, Held, Lifted, OneWay};

// A flow held from a least to a greatest one.
fn held(least: i64, most: i64, flow: i128) -> i128
    ensures value { result ≡ held least most flow }
    ensures small { unsigned_abs result ≤ 2 ^ 63 }
{
    flow.min(i128::from(most)).max(i128::from(least))
}

// A head difference and a lift together.
fn lifted(d: i64, lift: i128) -> i64
    requires { IsDifference (d +ℤ lift) }
    ensures { result ≡ d +ℤ lift }
{
    (i128::from(d) + lift) as i64
}

impl<L: Law> Law for OneWay<L> {
    ghost at_least = { λ s. directed_at_least s.forward (L.at_least s.inner) };

    ghost at_most = { λ s. directed_at_most s.forward (L.at_most s.inner) };

    ghost low = { λ s d. directed s.forward (L.low s.inner d) };

    ghost high = { λ s d. directed s.forward (L.high s.inner d) };

    ghost sound = { λ s. L.sound s.inner };

    ghost accepts = { λ s. L.accepts s.inner };

    ghost most = { L.most };

    fn low(&self, d: i64) -> i128 {
        let flow = self.inner.low(d);
        if self.forward {
            return flow.max(0);
        }
        flow.min(0)
    }

    fn high(&self, d: i64) -> i128 {
        let flow = self.inner.high(d);
        if self.forward {
            return flow.max(0);
        }
        flow.min(0)
    }

    ghost laws = { λ s sound. IsLaw-directed s.forward _ _ _ _ (L.laws s.inner sound) };
}

impl<L: Law> Law for Capped<L> {
    ghost at_least = { λ s. capped_at_least s.cap (L.at_least s.inner) };

    ghost at_most = { λ s. capped_at_most s.cap (L.at_most s.inner) };

    ghost low = { λ s d. int_min s.cap (L.low s.inner d) };

    ghost high = { λ s d. int_min s.cap (L.high s.inner d) };

    ghost sound = { λ s. L.sound s.inner };

    ghost accepts = { λ s. L.accepts s.inner };

    ghost most = { 2 ^ 63 + L.most };

    fn low(&self, d: i64) -> i128 {
        i128::from(self.cap).min(self.inner.low(d))
    }

    fn high(&self, d: i64) -> i128 {
        i128::from(self.cap).min(self.inner.high(d))
    }

    ghost laws = { λ s sound. IsLaw-capped s.cap _ _ _ _ (L.laws s.inner sound) };
}

impl<L: Law> Law for Held<L> {
    ghost at_least = { λ s. held_at_least s.least s.most (L.at_least s.inner) };

    ghost at_most = { λ s. held_at_most s.least s.most (L.at_most s.inner) };

    ghost low = { λ s d. held s.least s.most (L.low s.inner d) };

    ghost high = { λ s d. held s.least s.most (L.high s.inner d) };

    ghost sound = { λ s. (s.least ≤ℤ s.most) × L.sound s.inner };

    ghost accepts = { λ s. L.accepts s.inner };

    ghost most = { 2 ^ 63 };

    fn low(&self, d: i64) -> i128 {
        held(self.least, self.most, self.inner.low(d))
    }

    fn high(&self, d: i64) -> i128 {
        held(self.least, self.most, self.inner.high(d))
    }

    ghost laws = { λ s sound. IsLaw-held s.least s.most _ _ _ _ sound.0 (L.laws s.inner sound.1) };
}

impl<L: Law> Law for Lifted<L> {
    ghost at_least = { λ s. exact.lifted (lift_of s.us s.head s.speed) (L.at_least s.inner) };

    ghost at_most = { λ s. exact.lifted (lift_of s.us s.head s.speed) (L.at_most s.inner) };

    ghost low = { λ s d. L.low s.inner (d +ℤ s.lift.lo) };

    ghost high = { λ s d. L.high s.inner (d +ℤ s.lift.hi) };

    ghost sound = { λ s. IsLift (lift_of s.us s.head s.speed) s.lift × L.sound s.inner };

    ghost accepts = { λ s d. (IsDifference (d +ℤ s.lift.lo) × L.accepts s.inner (d +ℤ s.lift.lo))
        × (IsDifference (d +ℤ s.lift.hi) × L.accepts s.inner (d +ℤ s.lift.hi)) };

    ghost most = { L.most };

    fn low(&self, d: i64) -> i128 {
        self.inner.low(lifted(d, self.lift.lo))
    }

    fn high(&self, d: i64) -> i128 {
        self.inner.high(lifted(d, self.lift.hi))
    }

    ghost laws = { λ s sound. IsLaw-lift s.us s.head s.speed s.lift _ _ _ _ sound.0 (L.laws s.inner sound.1) };
}
