//! Heads and flows that are put into a moment.
#![tactic(auto)]

ghost use Rattle.std.specs.Prelude.{◌≡◌, ◌<◌, All, length, slice_set};
ghost use Rattle.hyd_spec_witnesses.specs.WitnessText.{IsValue};

use crate::bounds::{demand_bounds, emitter_bounds};
use crate::number_lists::value_at;
use hyd_laws_at_scale::Scale;
use hyd_net::List;
use hyd_period_network::Net;

/// The greatest magnitude of a value of a witness.
const GREATEST_VALUE: i128 = 1_000_000_000_000_000_000_000_000;

// The nearest value that a witness can have.
fn within_witness(value: i128) -> i128
    ensures { IsValue result }
{
    value.clamp(-GREATEST_VALUE, GREATEST_VALUE)
}

// Writes a value at its place.
fn store(values: &mut [i128], place: usize, value: i128)
    requires { place < length values.old }
    ensures { values.new ≡ slice_set values.old place value }
{
    values[place] = value;
}

// Puts a value at a place, where it is there.
fn put_value(values: &mut [i128], place: u32, value: i128)
    ensures count { length values.new ≡ length values.old }
    ensures values { All IsValue values.old → All IsValue values.new }
{
    let at = place as usize;
    if at >= values.len() {
        return;
    }
    store(values, at, within_witness(value));
}

// Puts so many values.
fn put_each(count: u32, from: &[i128], into: &mut [i128])
    ensures count { length into.new ≡ length into.old }
    ensures values { All IsValue into.old → All IsValue into.new }
{
    for place in 0..count {
        put_value(into, place, value_at(from, place));
    }
}

/// Puts so many values.
pub(crate) fn put_values(count: u32, from: &[i128], into: &mut List<i128>)
    ensures count { length into.new.list ≡ length into.old.list }
    ensures values { All IsValue into.old.list → All IsValue into.new.list }
{
    put_each(count, from, into.as_mut_slice());
}

// The demand flow of a junction to which links bring so much, beside the middle of what its emitter may take.
fn demand_of(net: &Net, scale: Scale, heads: &[i128], junction: u32, inflow: i128) -> i128 {
    if junction >= net.junctions() {
        return 0;
    }
    let emitter = emitter_bounds(net, scale, heads, junction).middle();
    demand_bounds(net, scale, heads, junction).nearest(inflow.saturating_sub(emitter))
}

// The emitter flow of a junction, beside that demand flow.
fn emitter_of(net: &Net, scale: Scale, heads: &[i128], junction: u32, inflow: i128) -> i128 {
    if junction >= net.junctions() {
        return 0;
    }
    let demand = demand_of(net, scale, heads, junction, inflow);
    emitter_bounds(net, scale, heads, junction).nearest(inflow.saturating_sub(demand))
}

// Puts the demand flow of each junction.
fn put_each_demand(net: &Net, scale: Scale, heads: &[i128], inflows: &[i128], into: &mut [i128])
    ensures count { length into.new ≡ length into.old }
    ensures values { All IsValue into.old → All IsValue into.new }
{
    for junction in 0..net.junctions() {
        let inflow = value_at(inflows, junction);
        put_value(
            into,
            junction,
            demand_of(net, scale, heads, junction, inflow),
        );
    }
}

/// Puts the demand flow of each junction, by what links bring to it.
pub(crate) fn put_demands(
    net: &Net,
    scale: Scale,
    heads: &[i128],
    inflows: &[i128],
    into: &mut List<i128>,
)
    ensures count { length into.new.list ≡ length into.old.list }
    ensures values { All IsValue into.old.list → All IsValue into.new.list }
{
    put_each_demand(net, scale, heads, inflows, into.as_mut_slice());
}

// Puts the emitter flow of each junction.
fn put_each_emitter(net: &Net, scale: Scale, heads: &[i128], inflows: &[i128], into: &mut [i128])
    ensures count { length into.new ≡ length into.old }
    ensures values { All IsValue into.old → All IsValue into.new }
{
    for junction in 0..net.junctions() {
        let inflow = value_at(inflows, junction);
        put_value(
            into,
            junction,
            emitter_of(net, scale, heads, junction, inflow),
        );
    }
}

/// Puts the emitter flow of each junction, by what links bring to it.
pub(crate) fn put_emitters(
    net: &Net,
    scale: Scale,
    heads: &[i128],
    inflows: &[i128],
    into: &mut List<i128>,
)
    ensures count { length into.new.list ≡ length into.old.list }
    ensures values { All IsValue into.old.list → All IsValue into.new.list }
{
    put_each_emitter(net, scale, heads, inflows, into.as_mut_slice());
}
