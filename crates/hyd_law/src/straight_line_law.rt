//! The law of straight lines between knots.
#![tactic(auto)]

ghost use Rattle.std.specs.Prelude.{◌*◌, ◌^◌};
ghost use Rattle.hyd_num.specs.Rational.{floor, ceiling};
ghost use Rattle.hyd_net.specs.Curves.{value_at};
ghost use Rattle.hyd_spec.specs.Law as exact;
ghost use Rattle.hyd_theorems_on_definitions.proofs.EachLaw.{IsLaw-bent};
ghost use Rattle.hyd_law.specs.ComposedLaws.{IsDifference};
ghost use Rattle.hyd_law.specs.KnotsOfStraightLines.{places, IsCurve};

use crate::law::Law;
use crate::law_kinds::Bent;
use crate::straight_lines::value_at;

impl Law for Bent {
    ghost at_least = { λ s. exact.flow_at_least (exact.Bent (places s.knots.list)) };

    ghost at_most = { λ s. exact.flow_at_most (exact.Bent (places s.knots.list)) };

    ghost low = { λ s d. floor (value_at 1 (places s.knots.list) d) };

    ghost high = { λ s d. ceiling (value_at 1 (places s.knots.list) d) };

    ghost sound = { λ s. IsCurve s.knots.list };

    ghost accepts = { λ s. IsDifference };

    ghost most = { 32 * 10 ^ 36 };

    fn low(&self, d: i64) -> i128 {
        let value = value_at(self.knots.as_slice(), d);
        value.numerator.div_euclid(value.denominator)
    }

    fn high(&self, d: i64) -> i128 {
        let value = value_at(self.knots.as_slice(), d);
        -(-value.numerator).div_euclid(value.denominator)
    }

    ghost laws = { λ s sound. IsLaw-bent (places s.knots.list) sound.ordered };
}
