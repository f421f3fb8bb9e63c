//! The low and high flows of any link, of whichever kind its law is.
#![tactic(auto)]

ghost use Rattle.std.specs.Prelude.{◌*◌, ◌^◌};
ghost use Rattle.hyd_law.specs.LinkLaws.{link_at_least, link_at_most, link_low, link_high, IsSoundLink, LinkAccepts};
ghost use Rattle.hyd_law.specs.LinkLaws.{IsLaw-link};

use crate::law::Law;
use crate::link_law_kinds::LinkLaw;

impl Law for LinkLaw {
    ghost at_least = { link_at_least };

    ghost at_most = { link_at_most };

    ghost low = { link_low };

    ghost high = { link_high };

    ghost sound = { IsSoundLink };

    ghost accepts = { LinkAccepts };

    ghost most = { 241 * 10 ^ 20 };

    fn low(&self, d: i64) -> i128 {
        match self {
            LinkLaw::Shut(law) => law.low(d),
            LinkLaw::Quad(law) => law.low(d),
            LinkLaw::Linear(law) => law.low(d),
            LinkLaw::QuadOneWay(law) => law.low(d),
            LinkLaw::LinearOneWay(law) => law.low(d),
            LinkLaw::Pump(law) => law.low(d),
            LinkLaw::Limit(law) => law.low(d),
            LinkLaw::LinearLimit(law) => law.low(d),
            LinkLaw::LimitOneWay(law) => law.low(d),
            LinkLaw::LinearLimitOneWay(law) => law.low(d),
            LinkLaw::Power(law) => law.low(d),
            LinkLaw::PowerOneWay(law) => law.low(d),
            LinkLaw::Bent(law) => law.low(d),
        }
    }

    fn high(&self, d: i64) -> i128 {
        match self {
            LinkLaw::Shut(law) => law.high(d),
            LinkLaw::Quad(law) => law.high(d),
            LinkLaw::Linear(law) => law.high(d),
            LinkLaw::QuadOneWay(law) => law.high(d),
            LinkLaw::LinearOneWay(law) => law.high(d),
            LinkLaw::Pump(law) => law.high(d),
            LinkLaw::Limit(law) => law.high(d),
            LinkLaw::LinearLimit(law) => law.high(d),
            LinkLaw::LimitOneWay(law) => law.high(d),
            LinkLaw::LinearLimitOneWay(law) => law.high(d),
            LinkLaw::Power(law) => law.high(d),
            LinkLaw::PowerOneWay(law) => law.high(d),
            LinkLaw::Bent(law) => law.high(d),
        }
    }

    ghost laws = { IsLaw-link };
}
