//! The low and high flows of demands.
#![tactic(auto)]

ghost use Rattle.std.specs.Prelude.{◌≡◌, ◌+◌, ◌*◌, ◌^◌, ◌≤◌, pos, ◌-ℤ◌, ◌*ℤ◌, ◌≤ℤ◌, ◌<ℤ◌, ⊤, unsigned_abs};
ghost use Rattle.std.specs.Bool.{OnTrue, OnFalse};
ghost use Rattle.std.specs.Int.{int_min};
ghost use Rattle.hyd_theorems_on_definitions.proofs.DemandLaws.{IsLaw-fixed};
ghost use Rattle.hyd_law.specs.ComposedLaws.{IsDifference};
ghost use Rattle.hyd_law.specs.DemandLaws.{out_at_least, out_at_most, out_low, out_high, IsSoundOut, OutAccepts};
ghost use Rattle.hyd_law.specs.DemandLaws.{IsLaw-out, pda_at_least, pda_at_most, pda_low, pda_high, IsSoundPda};
ghost use Rattle.hyd_law.specs.DemandLaws.{IsLaw-pda};

use crate::demand_law_kinds::{Fixed, OutLaw, Pda};
use crate::law::Law;
use crate::quadratic::{quadratic_high, quadratic_low};

impl Law for Fixed {
    ghost at_least = { λ s S x a. a ≤ℤ (pos S *ℤ s.demand) };

    ghost at_most = { λ s S x a. (pos S *ℤ s.demand) ≤ℤ a };

    ghost low = { λ s d. s.demand };

    ghost high = { λ s d. s.demand };

    ghost sound = { λ s. ⊤ };

    ghost accepts = { λ s d. ⊤ };

    ghost most = { 2 ^ 63 };

    fn low(&self, _d: i64) -> i128 {
        i128::from(self.demand)
    }

    fn high(&self, _d: i64) -> i128 {
        i128::from(self.demand)
    }

    ghost laws = { λ s sound. IsLaw-fixed s.demand };
}

fn is_up_to(d: i64, pressure: i128) -> bool
    ensures at_most { OnTrue result (d ≤ℤ pressure) }
    ensures above { OnFalse result (pressure <ℤ d) }
{
    i128::from(d) <= pressure
}

fn is_from(d: i64, pressure: i128) -> bool
    ensures at_least { OnTrue result (pressure ≤ℤ d) }
    ensures below { OnFalse result (d <ℤ pressure) }
{
    i128::from(d) >= pressure
}

fn lesser(a: i128, b: i128) -> i128
    ensures value { result ≡ int_min a b }
    ensures small { unsigned_abs result ≤ unsigned_abs a + unsigned_abs b }
{
    a.min(b)
}

// A head difference less a pressure.
fn above(d: i64, pressure: i128) -> i64
    requires { IsDifference (d -ℤ pressure) }
    ensures { result ≡ d -ℤ pressure }
{
    (i128::from(d) - pressure) as i64
}

impl Law for Pda {
    ghost at_least = { pda_at_least };

    ghost at_most = { pda_at_most };

    ghost low = { pda_low };

    ghost high = { pda_high };

    ghost sound = { IsSoundPda };

    ghost accepts = { λ s. IsDifference };

    ghost most = { 2 ^ 63 + 2 ^ 64 };

    fn low(&self, d: i64) -> i128 {
        if is_up_to(d, self.p0.hi) {
            return 0;
        }
        let demand = i128::from(self.demand);
        if is_from(d, self.pf.hi) {
            return demand;
        }
        lesser(demand, quadratic_low(&self.cap, above(d, self.p0.hi)))
    }

    fn high(&self, d: i64) -> i128 {
        if is_up_to(d, self.p0.lo) {
            return 0;
        }
        let demand = i128::from(self.demand);
        if is_from(d, self.pf.lo) {
            return demand;
        }
        lesser(demand, quadratic_high(&self.cap, above(d, self.p0.lo)))
    }

    ghost laws = { IsLaw-pda };
}

impl Law for OutLaw {
    ghost at_least = { out_at_least };

    ghost at_most = { out_at_most };

    ghost low = { out_low };

    ghost high = { out_high };

    ghost sound = { IsSoundOut };

    ghost accepts = { OutAccepts };

    ghost most = { 2 ^ 63 + 2 ^ 64 };

    fn low(&self, d: i64) -> i128 {
        match self {
            OutLaw::Fixed(law) => law.low(d),
            OutLaw::Pda(law) => law.low(d),
        }
    }

    fn high(&self, d: i64) -> i128 {
        match self {
            OutLaw::Fixed(law) => law.high(d),
            OutLaw::Pda(law) => law.high(d),
        }
    }

    ghost laws = { IsLaw-out };
}
