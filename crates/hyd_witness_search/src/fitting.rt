//! Flows of links that balance at each junction, within what heads allow.
#![tactic(auto)]

ghost use Rattle.std.specs.Prelude.{◌≡◌, ◌<◌, length};

use crate::bounds::{Bounds, NOTHING, bounds_at, put_inflow_bounds, put_link_bounds};
use crate::number_lists::{add_value_at, clear, value_at};
use crate::paths::Paths;
use crate::ways::Ways;
use hyd_laws_at_scale::Scale;
use hyd_period_network::{Ends, Net, Tie};
use std::alloc::{AllocError as OutOfMemory, Global};

/// How often flow is moved to or from one junction.
const MOVES: u32 = 200;

/// More than any flow.
const UNBOUNDED: i128 = 1_000_000_000_000_000_000_000_000_000_000;

/// The flows of links, what they bring to each node, and what is allowed.
#[derive(Drop)]
pub(crate) struct Fitting {
    flows: Vec<i128>,
    link_bounds: Vec<Bounds>,
    inflows: Vec<i128>,
    inflow_bounds: Vec<Bounds>,
    paths: Paths,
}

// Puts the flow of each link halfway between its bounds.
fn put_middles(bounds: &[Bounds], flows: &mut [i128])
    ensures { length flows.new ≡ length flows.old }
{
    for (flow, bounds) in flows.iter_mut().zip(bounds) {
        *flow = bounds.middle();
    }
}

// Adds a flow to what its ends get.
fn add_flow(inflows: &mut [i128], ends: Ends, flow: i128)
    ensures { length inflows.new ≡ length inflows.old }
{
    add_value_at(inflows, ends.from, flow.saturating_neg());
    add_value_at(inflows, ends.to, flow);
}

// Puts what links bring to each node.
fn put_inflows(net: &Net, flows: &[i128], inflows: &mut [i128])
    ensures { length inflows.new ≡ length inflows.old }
{
    clear(inflows);
    for link in 0..net.links() {
        add_flow(inflows, net.ends(link), value_at(flows, link));
    }
}

impl Fitting {
    /// Room for a net's nodes and links.
    pub(crate) fn open(alloc: Global, net: &Net) -> Result<Fitting, OutOfMemory> {
        let nodes = net.nodes() as usize;
        let links = net.links() as usize;
        Ok(Fitting {
            flows: vec![in alloc; 0i128; links]?,
            link_bounds: vec![in alloc; NOTHING; links]?,
            inflows: vec![in alloc; 0i128; nodes]?,
            inflow_bounds: vec![in alloc; NOTHING; nodes]?,
            paths: Paths::open(alloc, net)?,
        })
    }

    /// The flows of the links.
    pub(crate) fn flows(&self) -> &[i128] {
        &self.flows
    }

    /// What the links bring to each node.
    pub(crate) fn inflows(&self) -> &[i128] {
        &self.inflows
    }

    // Begins with flows in the middle of what heads allow.
    fn begin(&mut self, net: &Net, ways: &[Ways], scale: Scale, heads: &[i128]) {
        put_link_bounds(net, ways, scale, heads, &mut self.link_bounds);
        put_inflow_bounds(net, scale, heads, &mut self.inflow_bounds);
        put_middles(&self.link_bounds, &mut self.flows);
        put_inflows(net, &self.flows, &mut self.inflows);
    }

    // How much more than it may a junction gets.
    fn excess(&self, junction: u32) -> i128 {
        let most = bounds_at(&self.inflow_bounds, junction).most;
        value_at(&self.inflows, junction).saturating_sub(most)
    }

    // How much it lacks.
    fn lack(&self, junction: u32) -> i128 {
        let least = bounds_at(&self.inflow_bounds, junction).least;
        least.saturating_sub(value_at(&self.inflows, junction))
    }

    // How much more a node may get, or less where flow is drawn from it: a reservoir or a tank as much as is wanted.
    fn room_at(&self, net: &Net, node: u32, gives: bool) -> i128 {
        if node >= net.junctions() {
            return UNBOUNDED;
        }
        if gives {
            self.excess(node).saturating_neg()
        } else {
            self.lack(node).saturating_neg()
        }
    }

    // How much the flow of a link may rise or fall.
    fn room_along(&self, link: u32, rises: bool) -> i128 {
        let bounds = bounds_at(&self.link_bounds, link);
        let flow = value_at(&self.flows, link);
        if rises {
            bounds.most.saturating_sub(flow)
        } else {
            flow.saturating_sub(bounds.least)
        }
    }

    // Comes along a link end, where the link has room.
    fn come_along(&mut self, node: u32, tie: Tie, gives: bool) {
        let rises = tie.out == gives;
        if self.room_along(tie.link, rises) > 0 {
            self.paths.come_along(node, tie, rises);
        }
    }

    // Comes to the nodes beside one.
    fn come_beside(&mut self, net: &Net, node: u32, gives: bool) {
        if node >= net.junctions() {
            return;
        }
        let _nodes = net.nodes();
        for tie in net.row(node) {
            self.come_along(node, *tie, gives);
        }
    }

    // The nearest node with room for flow from a junction that gives it, or for a junction that gets it.
    fn find(&mut self, net: &Net, junction: u32, gives: bool) -> Option<u32> {
        self.paths.begin(junction);
        for number in 0..net.nodes() {
            let node = self.paths.node(number)?;
            if number > 0 && self.room_at(net, node, gives) > 0 {
                return Some(node);
            }
            self.come_beside(net, node, gives);
        }
        None
    }

    // How much can be moved along the path to a node, at most so much.
    fn narrowest(&self, net: &Net, junction: u32, goal: u32, most: i128) -> i128 {
        let mut amount = most;
        let mut node = goal;
        for _ in 0..net.nodes() {
            if node == junction {
                return amount;
            }
            let step = self.paths.step_to(node);
            amount = amount.min(self.room_along(step.link, step.rises));
            node = step.from;
        }
        amount
    }

    // Moves flow along the path to a node.
    fn move_along(&mut self, net: &Net, junction: u32, goal: u32, amount: i128) {
        let mut node = goal;
        for _ in 0..net.nodes() {
            if node == junction {
                return;
            }
            let step = self.paths.step_to(node);
            let change = if step.rises {
                amount
            } else {
                amount.saturating_neg()
            };
            add_value_at(&mut self.flows, step.link, change);
            node = step.from;
        }
    }

    // Moves flow from a junction that gives it, or to one that gets it, and tells whether any was moved.
    fn move_from(&mut self, net: &Net, junction: u32, gives: bool, wanted: i128) -> bool {
        let Some(goal) = self.find(net, junction, gives) else {
            return false;
        };
        let most = wanted.min(self.room_at(net, goal, gives));
        let amount = self.narrowest(net, junction, goal, most);
        self.move_along(net, junction, goal, amount);
        let change = if gives {
            amount
        } else {
            amount.saturating_neg()
        };
        add_value_at(&mut self.inflows, junction, change.saturating_neg());
        add_value_at(&mut self.inflows, goal, change);
        amount > 0
    }

    // Whether flow can be moved so that a junction balances.
    fn mends(&mut self, net: &Net, junction: u32) -> bool {
        for _ in 0..MOVES {
            let excess = self.excess(junction);
            let lack = self.lack(junction);
            if excess <= 0 && lack <= 0 {
                return true;
            }
            let moved = if excess > 0 {
                self.move_from(net, junction, true, excess)
            } else {
                self.move_from(net, junction, false, lack)
            };
            if !moved {
                return false;
            }
        }
        false
    }

    /// Whether flows were found that balance at each junction.
    pub(crate) fn fits(&mut self, net: &Net, ways: &[Ways], scale: Scale, heads: &[i128]) -> bool {
        self.begin(net, ways, scale, heads);
        for junction in 0..net.junctions() {
            if !self.mends(net, junction) {
                return false;
            }
        }
        true
    }
}
