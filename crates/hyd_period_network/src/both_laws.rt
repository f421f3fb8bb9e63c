//! The two laws of a link.
#![tactic(auto)]

use hyd_law::LinkLaw;

/// The law of a link in its state, and the one that it has between tanks that may be full or empty. Only a link that
/// ends at a tank has room for a second one: of another its own stands.
#[derive(Drop)]
pub struct BothLaws {
    pub between: Vec<LinkLaw>,
    pub own: LinkLaw,
}

impl BothLaws {
    ghost use Rattle.std.specs.Prelude.{◌≡◌};
    ghost use Rattle.hyd_period_network.specs.BothLaws.{law_of};

    /// The law between its tanks.
    pub(crate) fn law(&self) -> &LinkLaw
        ensures { result.now ≡ law_of self.now }
    {
        if self.between.len() > 0 {
            return &self.between[0];
        }
        &self.own
    }
}
