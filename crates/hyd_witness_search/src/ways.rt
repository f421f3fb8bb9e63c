//! The ways that a link can't pass.
#![tactic(auto)]

ghost use Rattle.std.specs.Prelude.{◌≡◌, ◌<◌, ◌≤◌, ◌*◌, length, unsigned_abs};
ghost use Rattle.hyd_spec_certificates.specs.Certificate.{box_limit};

use hyd_law::Law;
use hyd_period_network::Net;
use hyd_spec_certificates::BOX_LIMIT;

/// The ways that a link can't pass, be it by its own law or by full and empty tanks at its ends.
#[derive(Clone, Copy, Drop)]
pub(crate) struct Ways {
    pub(crate) no_forward: bool,
    pub(crate) no_reverse: bool,
}

/// A link that can pass both ways.
pub(crate) const BOTH: Ways = Ways {
    no_forward: false,
    no_reverse: false,
};

// The greatest head difference at which a law is asked, in head ticks.
fn widest() -> i64
    ensures { unsigned_abs result ≤ 2 * box_limit }
{
    2 * BOX_LIMIT
}

// Whether a link passes nothing forward, however great the head difference.
fn passes_no_forward(net: &Net, link: u32) -> bool
    requires { link < length net.now.ends }
{
    let _links = net.links();
    let law = net.law(link);
    let difference = widest();
    law.high(difference) <= 0
}

// Whether it passes nothing in reverse.
fn passes_no_reverse(net: &Net, link: u32) -> bool
    requires { link < length net.now.ends }
{
    let _links = net.links();
    let law = net.law(link);
    let difference = -widest();
    law.low(difference) >= 0
}

/// Puts the ways of each link of a net that is set to a period.
pub(crate) fn put_ways(net: &Net, ways: &mut [Ways])
    ensures { length ways.new ≡ length ways.old }
{
    for link in 0..net.links() {
        if let Some(entry) = ways.get_mut(link as usize) {
            *entry = Ways {
                no_forward: passes_no_forward(net, link),
                no_reverse: passes_no_reverse(net, link),
            };
        }
    }
}

/// The ways of a link.
pub(crate) fn ways_at(ways: &[Ways], link: u32) -> Ways {
    ways.get(link as usize).copied().unwrap_or(BOTH)
}
