//! Steps nearer, of all junctions but those that fall short then.
#![tactic(auto)]

ghost use Rattle.std.specs.Prelude.{◌≡◌, length};

use crate::branches::Branches;
use crate::flows::{nearer, over_with, own_part, part, turned};
use crate::places::{add_at, copy, is_marked, mark, number_at, put_at};
use crate::raises::Trial;
use crate::strides::{over_at, put_rest, put_rim, reach};
use hyd_period_network::Net;
use hyd_spec_certificates::Side;
use hyd_vector_check::is_in_box;
use std::alloc::{AllocError as OutOfMemory, Global};

/// Room for steps in nets of one size, opened once. Nothing is written there before the first steps.
#[derive(Drop)]
pub(crate) struct Steps {
    /// The heads of all nodes where a certificate stands, junctions first.
    pub(crate) heads: Vec<i64>,
    /// By how much each junction passes there.
    over: Vec<i64>,
    /// By how much it passes where it stands while others stand nearer.
    now: Vec<i64>,
    /// Which junctions stay: a held one, and those that went back.
    back: Vec<bool>,
    /// The junctions that went back, in this order.
    order: Vec<u32>,
    /// How many these are.
    count: u32,
    /// Which of the others pass by more or less when they all come nearer.
    rim: Vec<bool>,
    /// What stays of what these pass by then.
    rest: Vec<i64>,
}

impl Steps {
    /// Takes all the memory that they take.
    pub(crate) fn open(alloc: Global, net: &Net) -> Result<Steps, OutOfMemory> {
        let nodes = net.nodes() as usize;
        let junctions = net.junctions() as usize;
        Ok(Steps {
            heads: Vec::with_capacity(alloc, nodes)?,
            over: Vec::with_capacity(alloc, junctions)?,
            now: Vec::with_capacity(alloc, junctions)?,
            back: Vec::with_capacity(alloc, junctions)?,
            order: Vec::with_capacity(alloc, junctions)?,
            count: 0,
            rim: Vec::with_capacity(alloc, junctions)?,
            rest: Vec::with_capacity(alloc, junctions)?,
        })
    }

    /// Makes all lists as long as a net needs them, in the room that was taken.
    pub(crate) fn lengthen(&mut self, net: &Net) -> Result<(), OutOfMemory> {
        let nodes = net.nodes() as usize;
        let junctions = net.junctions() as usize;
        self.heads.resize(nodes, 0i64)?;
        self.over.resize(junctions, 0i64)?;
        self.now.resize(junctions, 0i64)?;
        self.back.resize(junctions, false)?;
        self.order.resize(junctions, 0u32)?;
        self.rim.resize(junctions, false)?;
        self.rest.resize(junctions, 0i64)
    }

    /// Begins at the heads of a certificate.
    pub(crate) fn begin(&mut self, net: &Net, side: Side, branches: &Branches) {
        for junction in 0..net.junctions() {
            mark(&mut self.back, junction, !branches.steps(junction));
            let head = number_at(&self.heads, junction);
            let over = over_with(net, side, Some(branches), &self.heads, junction, head);
            put_at(&mut self.over, junction, over);
        }
    }

    /// Puts those that hang behind the junctions that went back last.
    pub(crate) fn put_branches(&mut self, net: &Net, branches: &Branches) {
        for place in 0..net.junctions() {
            if let Some(junction) = branches.outward(place) {
                self.put_back(junction);
            }
        }
    }

    /// Copies the order of the junctions that went back last.
    pub(crate) fn copy_order(&self, into: &mut [u32])
        ensures { length into.new ≡ length into.old }
    {
        for (entry, junction) in into.iter_mut().zip(&self.order) {
            *entry = *junction;
        }
    }

    // Whether a node keeps its head when the others step.
    fn stays(&self, net: &Net, node: u32) -> bool {
        node >= net.junctions() || is_marked(&self.back, node)
    }

    // By how much a junction passes that steps with all others but those that stay from the beginning. Out of the box none
    // passes.
    fn over_stepped(
        &self,
        net: &Net,
        side: Side,
        branches: &Branches,
        junction: u32,
        step: i64,
    ) -> i64 {
        if junction >= net.junctions() {
            return 0;
        }
        let _nodes = net.nodes();
        let head = number_at(&self.heads, junction);
        let there = nearer(side, head, step);
        if !is_in_box(there) {
            return -1;
        }
        let mut sum = number_at(&self.over, junction);
        if !branches.is_flat(junction) {
            let own = own_part(net, side, junction, there).saturating_sub(own_part(
                net, side, junction, head,
            ));
            sum = sum.saturating_add(own);
        }
        for tie in net.row(junction) {
            if !branches.steps(tie.other) && !branches.hangs(tie.other) {
                let other = number_at(&self.heads, tie.other);
                let more = part(net, side, *tie, there, other).saturating_sub(part(
                    net, side, *tie, head, other,
                ));
                sum = sum.saturating_add(more);
            }
        }
        sum
    }

    // Puts a junction back, whose turn it is.
    fn put_back(&mut self, junction: u32) {
        mark(&mut self.back, junction, true);
        if let Some(entry) = self.order.get_mut(self.count as usize) {
            *entry = junction;
        }
        self.count = self.count.saturating_add(1);
    }

    // Steps with all that step, and puts those back that fall short then.
    fn step_all(&mut self, net: &Net, side: Side, branches: &Branches, step: i64) {
        self.count = 0;
        for place in 0..branches.many() {
            let junction = branches.stepping(place);
            let over = if branches.is_anchored(junction) {
                self.over_stepped(net, side, branches, junction, step)
            } else {
                number_at(&self.over, junction)
            };
            put_at(&mut self.now, junction, over);
            mark(&mut self.back, junction, false);
            if over < 0 {
                self.put_back(junction);
            }
        }
    }

    // Puts those back that fall short because a junction went back.
    fn put_back_beside(&mut self, net: &Net, side: Side, junction: u32, step: i64) {
        if junction >= net.junctions() {
            return;
        }
        let _nodes = net.nodes();
        let head = number_at(&self.heads, junction);
        let stepped = nearer(side, head, step);
        for tie in net.row(junction) {
            if !self.stays(net, tie.other) {
                let there = nearer(side, number_at(&self.heads, tie.other), step);
                let seen = turned(*tie, junction);
                let more = part(net, side, seen, there, head).saturating_sub(part(
                    net, side, seen, there, stepped,
                ));
                add_at(&mut self.now, tie.other, more);
                if number_at(&self.now, tie.other) < 0 {
                    self.put_back(tie.other);
                }
            }
        }
    }

    // Adds to what the junctions pass by that stay beside those that come nearer by so many ticks.
    fn add_beside(&mut self, net: &Net, side: Side, junction: u32, ticks: i64) {
        if junction >= net.junctions() {
            return;
        }
        let _nodes = net.nodes();
        let head = number_at(&self.heads, junction);
        for tie in net.row(junction) {
            if !self.stays(net, tie.other) {
                let other = number_at(&self.heads, tie.other);
                let more = part(net, side, *tie, head, nearer(side, other, ticks)).saturating_sub(
                    part(net, side, *tie, head, other),
                );
                add_at(&mut self.over, junction, more);
            }
        }
    }

    // Moves the junctions that don't stay so many ticks nearer.
    fn move_rest(&mut self, net: &Net, side: Side, branches: &Branches, ticks: i64) {
        for place in 0..self.count {
            let junction = self.order.get(place as usize).copied().unwrap_or(0);
            self.add_beside(net, side, junction, ticks);
        }
        for place in 0..branches.many() {
            let junction = branches.stepping(place);
            if !is_marked(&self.back, junction) {
                let head = nearer(side, number_at(&self.heads, junction), ticks);
                put_at(&mut self.heads, junction, head);
            }
        }
    }

    // Moves the rest one step, by which it passes as was found.
    fn take_step(&mut self, net: &Net, side: Side, branches: &Branches, step: i64) {
        self.move_rest(net, side, branches, step);
        for place in 0..branches.many() {
            let junction = branches.stepping(place);
            if !is_marked(&self.back, junction) {
                let over = number_at(&self.now, junction);
                put_at(&mut self.over, junction, over);
            }
        }
    }

    // How far the rest goes on in whole steps, as far as it passes.
    fn stride(&mut self, net: &Net, side: Side, branches: &Branches, step: i64) -> i64 {
        put_rim(net, branches, &self.back, &mut self.rim);
        let goes = put_rest(
            net,
            branches,
            side,
            &self.heads,
            &self.over,
            &self.back,
            &self.rim,
            step,
            &mut self.rest,
        );
        if !goes {
            return 0;
        }
        reach(
            net,
            branches,
            side,
            &self.heads,
            &self.back,
            &self.rim,
            &self.rest,
            step,
        )
    }

    // Goes on with the rest in whole steps, as far as it passes.
    fn go_on(&mut self, net: &Net, side: Side, branches: &Branches, step: i64) {
        let ticks = self.stride(net, side, branches, step);
        if ticks == 0 {
            return;
        }
        for place in 0..branches.many() {
            let junction = branches.stepping(place);
            let over = if is_marked(&self.rim, junction) {
                over_at(
                    net,
                    branches,
                    side,
                    &self.heads,
                    &self.back,
                    &self.rest,
                    junction,
                    ticks,
                )
            } else {
                number_at(&self.over, junction)
            };
            put_at(&mut self.now, junction, over);
        }
        self.take_step(net, side, branches, ticks);
    }

    // One step, and on; whether any junction moved.
    fn go_once(&mut self, net: &Net, side: Side, branches: &Branches, step: i64) -> bool {
        self.step_all(net, side, branches, step);
        for place in 0..branches.many() {
            if place >= self.count {
                break;
            }
            let junction = self.order.get(place as usize).copied().unwrap_or(0);
            self.put_back_beside(net, side, junction, step);
        }
        if self.count >= branches.many() {
            return false;
        }
        self.take_step(net, side, branches, step);
        self.go_on(net, side, branches, step);
        true
    }

    /// Goes so many times at a step, and tells whether none moved at last.
    pub(crate) fn go_times(
        &mut self,
        net: &Net,
        side: Side,
        branches: &Branches,
        step: i64,
        times: u32,
    ) -> bool {
        for _ in 0..times {
            if !self.go_once(net, side, branches, step) {
                return true;
            }
        }
        false
    }

    /// Takes another certificate in place of this one.
    pub(crate) fn take(&mut self, trial: &Trial) {
        copy(&trial.heads, &mut self.heads);
        copy(&trial.over, &mut self.over);
    }
}
