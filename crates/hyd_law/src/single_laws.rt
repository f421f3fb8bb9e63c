//! Laws that aren't made of others: closed, quadratic and linear ones, and those by powers.
#![tactic(auto)]

ghost use Rattle.std.specs.Prelude.{◌*◌, ◌^◌, ⊤};
ghost use Rattle.hyd_num.specs.Rational.{floor, ceiling};
ghost use Rattle.hyd_spec_power_laws.specs.EnclosingFlows as powers;
ghost use Rattle.hyd_spec_power_laws.specs.PowerCapacities.{IsMade};
ghost use Rattle.hyd_spec.specs.Law as exact;
ghost use Rattle.hyd_spec_certificates.specs.EnclosingFunctions as enclosing;
ghost use Rattle.hyd_theorems_on_definitions.specs.SoundLawsAndGrids.{IsSoundCapacity};
ghost use Rattle.hyd_theorems_on_definitions.proofs.LinkLaws.{IsLaw-shut};
ghost use Rattle.hyd_theorems_on_definitions.proofs.EachLaw.{IsLaw-quad, IsLaw-straight};
ghost use Rattle.hyd_theorems_on_definitions.proofs.PipeLaws.{IsLaw-power};
ghost use Rattle.hyd_law.specs.ComposedLaws.{IsDifference};

use crate::law::Law;
use crate::law_kinds::{Linear, Power, Quad, Shut};
use crate::quadratic::{quadratic_high, quadratic_low};
use hyd_power_laws::{power_high, power_low};

impl Law for Shut {
    ghost at_least = { λ s. exact.flow_at_least exact.Shut };

    ghost at_most = { λ s. exact.flow_at_most exact.Shut };

    ghost low = { λ s. enclosing.low exact.Shut };

    ghost high = { λ s. enclosing.high exact.Shut };

    ghost sound = { λ s. ⊤ };

    ghost accepts = { λ s d. ⊤ };

    ghost most = { 0 };

    fn low(&self, _d: i64) -> i128 {
        0
    }

    fn high(&self, _d: i64) -> i128 {
        0
    }

    ghost laws = { λ s sound. IsLaw-shut };
}

impl Law for Quad {
    ghost at_least = { λ s. exact.flow_at_least (exact.QuadraticLaw s.cap) };

    ghost at_most = { λ s. exact.flow_at_most (exact.QuadraticLaw s.cap) };

    ghost low = { λ s. enclosing.quadratic_low s.cap };

    ghost high = { λ s. enclosing.quadratic_high s.cap };

    ghost sound = { λ s. IsSoundCapacity s.cap };

    ghost accepts = { λ s. IsDifference };

    ghost most = { 2 ^ 64 };

    fn low(&self, d: i64) -> i128 {
        quadratic_low(&self.cap, d)
    }

    fn high(&self, d: i64) -> i128 {
        quadratic_high(&self.cap, d)
    }

    ghost laws = { λ s sound. IsLaw-quad s.cap sound };
}

impl Law for Power {
    ghost at_least = { λ s. exact.flow_at_least (exact.PowerLaw s.cap) };

    ghost at_most = { λ s. exact.flow_at_most (exact.PowerLaw s.cap) };

    ghost low = { λ s. powers.power_low s.cap };

    ghost high = { λ s. powers.power_high s.cap };

    ghost sound = { λ s. IsMade s.cap };

    ghost accepts = { λ s. IsDifference };

    ghost most = { 2 ^ 62 };

    fn low(&self, d: i64) -> i128 {
        power_low(&self.cap, d)
    }

    fn high(&self, d: i64) -> i128 {
        power_high(&self.cap, d)
    }

    ghost laws = { λ s sound. IsLaw-power s.cap sound };
}

impl Law for Linear {
    ghost at_least = { λ s. exact.flow_at_least exact.LinearLaw };

    ghost at_most = { λ s. exact.flow_at_most exact.LinearLaw };

    ghost low = { λ s d. floor (enclosing.linear_flow d) };

    ghost high = { λ s d. ceiling (enclosing.linear_flow d) };

    ghost sound = { λ s. ⊤ };

    ghost accepts = { λ s. IsDifference };

    ghost most = { 2409 * 10 ^ 19 };

    fn low(&self, d: i64) -> i128 {
        (8_026_822_656 * i128::from(d)).div_euclid(1_000_000)
    }

    fn high(&self, d: i64) -> i128 {
        -(-(8_026_822_656 * i128::from(d))).div_euclid(1_000_000)
    }

    ghost laws = { λ s sound. IsLaw-straight };
}
