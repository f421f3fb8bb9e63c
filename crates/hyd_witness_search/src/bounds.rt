//! The flows that heads allow: each within the tolerance of both flows between which the exact one lies.
#![tactic(auto)]

ghost use Rattle.std.specs.Prelude.{◌≡◌, ◌<◌, length};

use crate::flows::{difference, window_of};
use crate::number_lists::{held, value_at};
use crate::outflows::{demand_at, emitter_at};
use crate::ways::Ways;
use hyd_laws_at_scale::{Scale, Window};
use hyd_period_network::Net;

/// By how much a flow may miss its law, and flows their balance, in flow ticks.
const TOLERANCE: i128 = 10;

/// The least and the most flow that is allowed, in parts of a flow tick.
#[derive(Clone, Copy, Drop)]
pub(crate) struct Bounds {
    pub(crate) least: i128,
    pub(crate) most: i128,
}

/// No flow.
pub(crate) const NOTHING: Bounds = Bounds { least: 0, most: 0 };

/// The tolerance in parts of a flow tick.
pub(crate) fn tolerance(scale: Scale) -> i128 {
    scale.in_parts(TOLERANCE)
}

impl Bounds {
    // The flows that a window allows.
    fn of(window: Option<Window>, scale: Scale) -> Bounds {
        match window {
            Some(window) => Bounds {
                least: window.high.saturating_sub(tolerance(scale)),
                most: window.low.saturating_add(tolerance(scale)),
            },
            None => NOTHING,
        }
    }

    /// The flow halfway.
    pub(crate) fn middle(self) -> i128 {
        self.least.saturating_add(self.most) / 2
    }

    /// The nearest flow that is allowed.
    pub(crate) fn nearest(self, flow: i128) -> i128 {
        held(flow, self.least, self.most)
    }

    // What both allow together.
    fn and(self, other: Bounds) -> Bounds {
        Bounds {
            least: self.least.saturating_add(other.least),
            most: self.most.saturating_add(other.most),
        }
    }

    // What is allowed with so much to spare.
    fn widened(self, by: i128) -> Bounds {
        Bounds {
            least: self.least.saturating_sub(by),
            most: self.most.saturating_add(by),
        }
    }
}

/// The flows that a link may have.
pub(crate) fn link_bounds(
    net: &Net,
    ways: &[Ways],
    scale: Scale,
    heads: &[i128],
    link: u32,
) -> Bounds
    requires { link < length net.now.ends }
{
    let difference = difference(heads, net.ends(link));
    Bounds::of(window_of(net, ways, scale, link, difference), scale)
}

/// The demand flows that a junction may have.
pub(crate) fn demand_bounds(net: &Net, scale: Scale, heads: &[i128], junction: u32) -> Bounds
    requires { junction < length net.now.junctions }
{
    let head = value_at(heads, junction);
    Bounds::of(demand_at(net, scale, junction, head), scale)
}

/// The emitter flows that a junction may have.
pub(crate) fn emitter_bounds(net: &Net, scale: Scale, heads: &[i128], junction: u32) -> Bounds
    requires { junction < length net.now.junctions }
{
    let head = value_at(heads, junction);
    Bounds::of(emitter_at(net, scale, junction, head), scale)
}

/// What links may bring to a junction together, so that its flows balance.
pub(crate) fn inflow_bounds(net: &Net, scale: Scale, heads: &[i128], junction: u32) -> Bounds
    requires { junction < length net.now.junctions }
{
    let demand = demand_bounds(net, scale, heads, junction);
    let emitter = emitter_bounds(net, scale, heads, junction);
    demand.and(emitter).widened(tolerance(scale))
}

/// Puts the flows that each link may have.
pub(crate) fn put_link_bounds(
    net: &Net,
    ways: &[Ways],
    scale: Scale,
    heads: &[i128],
    bounds: &mut [Bounds],
)
    ensures { length bounds.new ≡ length bounds.old }
{
    for link in 0..net.links() {
        if let Some(entry) = bounds.get_mut(link as usize) {
            *entry = link_bounds(net, ways, scale, heads, link);
        }
    }
}

/// Puts what links may bring to each junction.
pub(crate) fn put_inflow_bounds(net: &Net, scale: Scale, heads: &[i128], bounds: &mut [Bounds])
    ensures { length bounds.new ≡ length bounds.old }
{
    for junction in 0..net.junctions() {
        if let Some(entry) = bounds.get_mut(junction as usize) {
            *entry = inflow_bounds(net, scale, heads, junction);
        }
    }
}

/// The bounds at a place.
pub(crate) fn bounds_at(bounds: &[Bounds], place: u32) -> Bounds {
    bounds.get(place as usize).copied().unwrap_or(NOTHING)
}
