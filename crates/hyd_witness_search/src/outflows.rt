//! What leaves junctions beside their links at given heads, in parts of a flow tick.
#![tactic(auto)]

ghost use Rattle.std.specs.Prelude.{◌≡◌, ◌<◌, length};

use crate::flows::{middle, within_range};
use crate::number_lists::value_at;
use hyd_laws_at_scale::{Scale, Window, demand_window, emitter_window};
use hyd_period_network::Net;

// The pressure at a junction at a head, the nearest one in range.
fn pressure_at(net: &Net, scale: Scale, junction: u32, head: i128) -> i128
    requires { junction < length net.now.junctions }
{
    let elevation = scale.in_parts(i128::from(net.elevation(junction)));
    within_range(head.saturating_sub(elevation))
}

/// That pressure; 0 where there is no such junction.
pub(crate) fn pressure_of(net: &Net, scale: Scale, junction: u32, head: i128) -> i128 {
    if junction >= net.junctions() {
        return 0;
    }
    pressure_at(net, scale, junction, head)
}

/// The low and the high demand flow of a junction at a head.
pub(crate) fn demand_at(net: &Net, scale: Scale, junction: u32, head: i128) -> Option<Window>
    requires { junction < length net.now.junctions }
{
    let pressure = pressure_at(net, scale, junction, head);
    demand_window(net.demand_law(junction), scale, pressure)
}

/// The low and the high emitter flow of a junction at a head. There are none where it has no emitter.
pub(crate) fn emitter_at(net: &Net, scale: Scale, junction: u32, head: i128) -> Option<Window>
    requires { junction < length net.now.junctions }
{
    let pressure = pressure_at(net, scale, junction, head);
    match net.emitter_law(junction) {
        Some(law) => emitter_window(law, scale, pressure),
        None => None,
    }
}

/// What leaves a junction at a head, halfway between its bounds.
pub(crate) fn outflow_at(net: &Net, scale: Scale, junction: u32, head: i128) -> i64 {
    if junction >= net.junctions() {
        return 0;
    }
    let demand = middle(demand_at(net, scale, junction, head));
    demand.saturating_add(middle(emitter_at(net, scale, junction, head)))
}

/// Puts what leaves each junction, with the sign turned.
pub(crate) fn put_outflows(net: &Net, scale: Scale, heads: &[i128], misses: &mut [i64])
    ensures { length misses.new ≡ length misses.old }
{
    for junction in 0..net.junctions() {
        if let Some(miss) = misses.get_mut(junction as usize) {
            let leaves = outflow_at(net, scale, junction, value_at(heads, junction));
            *miss = leaves.saturating_neg();
        }
    }
}
