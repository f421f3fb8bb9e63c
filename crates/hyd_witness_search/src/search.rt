//! The search for a period of a witness.
#![tactic(auto)]

ghost use Rattle.std.specs.Prelude.{◌≡◌, ◌<◌, ◌≤◌, length};
ghost use Rattle.hyd_period_network.specs.NetAsPeriodNetwork.{node_count};
ghost use Rattle.hyd_spec_witnesses.specs.WitnessText.{Counts, IsMoment};
ghost use Rattle.hyd_witness_texts.specs.MomentView.{moment_of};

use crate::approach::Approach;
use crate::fitting::Fitting;
use crate::number_lists::value_at;
use crate::values::{put_demands, put_emitters, put_values};
use crate::ways::{BOTH, Ways, put_ways};
use hyd_laws_at_scale::Scale;
use hyd_net::Project;
use hyd_period_network::Net;
use hyd_spec_certificates::{Problem, Side};
use hyd_witness_texts::Moment;
use std::alloc::{AllocError as OutOfMemory, Global};

/// Room for the search of periods of a witness. All its memory is taken when it is opened.
#[derive(Drop)]
pub struct Search {
    ways: Vec<Ways>,
    approach: Approach,
    fitting: Fitting,
}

// The head of a tank at its level, where a node is one.
fn tank_head(
    project: &Project,
    net: &Net,
    scale: Scale,
    levels: &[i128],
    node: u32,
) -> Option<i128> {
    let first = net.nodes().checked_sub(net.tanks())?;
    let number = node.checked_sub(first)? as usize;
    let tank = project.tanks.as_slice().get(number)?;
    let level = levels.get(number)?;
    let bottom = scale.in_parts(i128::from(tank.bottom));
    Some(bottom.saturating_add(*level))
}

// The head of a reservoir or a tank.
fn fixed_head(project: &Project, net: &Net, scale: Scale, levels: &[i128], node: u32) -> i128
    requires fixed { length net.now.junctions ≤ node }
    requires in_range { node < node_count net.now }
{
    match tank_head(project, net, scale, levels, node) {
        Some(head) => head,
        None => scale.in_parts(i128::from(net.fixed(Problem::Main, Side::Upper, node))),
    }
}

// Puts the heads of a moment's junctions.
fn put_junction_heads(net: &Net, moment: &Moment, heads: &mut [i128])
    ensures { length heads.new ≡ length heads.old }
{
    for junction in 0..net.junctions() {
        if let Some(entry) = heads.get_mut(junction as usize) {
            *entry = value_at(moment.heads.as_slice(), junction);
        }
    }
}

// Puts the heads of reservoirs, and those of tanks at a moment's levels.
fn put_fixed_heads(project: &Project, net: &Net, scale: Scale, moment: &Moment, heads: &mut [i128])
    ensures { length heads.new ≡ length heads.old }
{
    let levels = moment.levels.as_slice();
    for node in net.junctions()..net.nodes() {
        if let Some(entry) = heads.get_mut(node as usize) {
            *entry = fixed_head(project, net, scale, levels, node);
        }
    }
}

impl Search {
    /// Room for a net's nodes and links.
    pub fn open(alloc: Global, net: &Net) -> Result<Search, OutOfMemory> {
        Ok(Search {
            ways: vec![in alloc; BOTH; net.links() as usize]?,
            approach: Approach::open(alloc, net)?,
            fitting: Fitting::open(alloc, net)?,
        })
    }

    // Puts the heads and the flows that were found into a moment.
    fn put(&self, net: &Net, scale: Scale, into: &mut Moment)
        ensures moment { (counts : Counts) → IsMoment counts (moment_of into.old)
            → IsMoment counts (moment_of into.new) }
    {
        let heads = self.approach.best();
        let inflows = self.fitting.inflows();
        put_values(net.junctions(), heads, &mut into.heads);
        put_values(net.links(), self.fitting.flows(), &mut into.flows);
        put_demands(net, scale, heads, inflows, &mut into.demands);
        put_emitters(net, scale, heads, inflows, &mut into.emitters);
    }

    /// Looks for heads near those of a moment and for flows that are met and balance there, where a net is set to the
    /// moment's period, and puts them into the moment where it finds some. It takes no memory.
    ///
    /// The net is of the size of the one of `open`. Nothing is promised of what it finds.
    pub fn improve(&mut self, project: &Project, net: &Net, scale: Scale, into: &mut Moment) -> bool
        ensures moment { (counts : Counts) → IsMoment counts (moment_of into.old)
            → IsMoment counts (moment_of into.new) }
    {
        put_ways(net, &mut self.ways);
        put_junction_heads(net, into, self.approach.heads_to_begin_at());
        put_fixed_heads(project, net, scale, into, self.approach.heads_to_begin_at());
        self.approach.go(net, &self.ways, scale);
        if !self
            .fitting
            .fits(net, &self.ways, scale, self.approach.best())
        {
            return false;
        }
        self.put(net, scale, into);
        true
    }
}
