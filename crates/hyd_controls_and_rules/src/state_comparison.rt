//! Whether two states of a link are the same.
#![tactic(auto)]

ghost use Rattle.std.specs.Prelude.{◌≡◌};
ghost use Rattle.hyd_spec.specs.Rules.{is_same_state};

use hyd_net::LinkState;

/// Two commanded states of one link are the same.
pub(crate) fn is_same_state(one: &LinkState, other: &LinkState) -> bool
    ensures { result ≡ is_same_state one.now other.now }
{
    match (one, other) {
        (LinkState::Open, LinkState::Open) => true,
        (LinkState::Closed, LinkState::Closed) => true,
        (LinkState::Speed(one), LinkState::Speed(other)) => one == other,
        (LinkState::Throttle { nano: one, .. }, LinkState::Throttle { nano: other, .. }) => one
            == other,
        (LinkState::Limit { nano: one, .. }, LinkState::Limit { nano: other, .. }) => one == other,
        _ => false,
    }
}
