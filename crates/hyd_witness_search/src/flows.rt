//! What flows through links at given heads, in parts of a flow tick.
#![tactic(auto)]

ghost use Rattle.std.specs.Prelude.{◌≡◌, ◌<◌, length};

use crate::number_lists::{add_at, value_at};
use crate::ways::{Ways, ways_at};
use hyd_laws_at_scale::{Scale, Window, link_window};
use hyd_period_network::{Ends, Net};

/// The greatest head difference and pressure in range, in parts of a head tick.
const WIDEST: i128 = 3_000_000_000_000_000_000;

/// The greatest flow that is reckoned with, in parts of a flow tick.
const GREATEST_RECKONED_FLOW: i128 = 2_000_000_000_000_000_000;

/// A flow in 64 bits.
pub(crate) fn narrowed(flow: i128) -> i64 {
    flow.clamp(-GREATEST_RECKONED_FLOW, GREATEST_RECKONED_FLOW) as i64
}

/// The nearest difference or pressure in range.
pub(crate) fn within_range(difference: i128) -> i128 {
    difference.clamp(-WIDEST, WIDEST)
}

/// The head difference along a link.
pub(crate) fn difference(heads: &[i128], ends: Ends) -> i128 {
    value_at(heads, ends.from).saturating_sub(value_at(heads, ends.to))
}

/// The low and the high flow of a link at the nearest head difference in range.
pub(crate) fn window_of(
    net: &Net,
    ways: &[Ways],
    scale: Scale,
    link: u32,
    difference: i128,
) -> Option<Window>
    requires { link < length net.now.ends }
{
    let _links = net.links();
    let way = ways_at(ways, link);
    link_window(
        net.own_law(link),
        way.no_forward,
        way.no_reverse,
        scale,
        within_range(difference),
    )
}

/// A flow halfway between a low and a high one; 0 where there are none.
pub(crate) fn middle(window: Option<Window>) -> i64 {
    match window {
        Some(window) => narrowed(window.low.saturating_add(window.high) / 2),
        None => 0,
    }
}

/// The flow of a link at a head difference, halfway between its bounds.
pub(crate) fn flow_of(net: &Net, ways: &[Ways], scale: Scale, link: u32, difference: i128) -> i64
    requires { link < length net.now.ends }
{
    middle(window_of(net, ways, scale, link, difference))
}

/// Adds what links bring to their ends.
pub(crate) fn add_flows(net: &Net, ways: &[Ways], scale: Scale, heads: &[i128], misses: &mut [i64])
    ensures { length misses.new ≡ length misses.old }
{
    for link in 0..net.links() {
        let ends = net.ends(link);
        let flow = flow_of(net, ways, scale, link, difference(heads, ends));
        add_at(misses, ends.from, flow.saturating_neg());
        add_at(misses, ends.to, flow);
    }
}
