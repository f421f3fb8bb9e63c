//! How far heads go along a step, which is halved or doubled, and raises where few of them then fall short.
#![tactic(auto)]

ghost use Rattle.std.specs.Prelude.{◌≡◌, ◌<◌, length};
ghost use Rattle.hyd_period_network.specs.SoundNets.{HasProblem};

use crate::flow_curves::{Curve, no_flow, put_curves};
use crate::flows::{put_flat, put_misses};
use crate::mending::Mender;
use crate::number_lists::{copy, product};
use crate::raises::NoValue;
use hyd_period_network::Net;
use hyd_spec_certificates::{BOX_LIMIT, Problem, Side};
use std::alloc::{AllocError as OutOfMemory, Global};
use std::num::saturating_f64_to_i64;

/// A step may go past the balance by so great a part of the way there.
const SLACK: f64 = 0.1;

/// How often a step that goes too far is halved.
const HALVINGS: u32 = 58;

/// How often a whole step that falls short is doubled.
const DOUBLINGS: u32 = 7;

/// Heads on their way to where given loads balance.
#[derive(Drop)]
pub(crate) struct Course {
    /// The heads of all nodes, junctions first.
    pub(crate) heads: Vec<i64>,
    /// The heads that were tried last.
    trial: Vec<i64>,
    /// What each junction is to have left over on balance, in flow ticks.
    pub(crate) loads: Vec<f64>,
    /// By how much each junction misses that at the heads tried last.
    pub(crate) misses: Vec<f64>,
    /// The part of the step that was tried last.
    tried: f64,
    /// How far past the balance a step may go, as misses times step.
    slack: f64,
    /// The curves of the links.
    pub(crate) curves: Vec<Curve>,
    /// What leaves junctions beside their links, where that is the same at every head.
    pub(crate) flat: Vec<Option<f64>>,
}

// The nearest whole number.
fn nearest_whole(number: f64) -> i64 {
    if number < 0.0 {
        saturating_f64_to_i64(number - 0.5)
    } else {
        saturating_f64_to_i64(number + 0.5)
    }
}

// Puts heads a part of a step away, held in the box.
fn move_by(heads: &[i64], step: &[f64], part: f64, moved: &mut [i64])
    ensures { length moved.new ≡ length moved.old }
{
    for ((entry, head), number) in moved.iter_mut().zip(heads).zip(step) {
        let way = nearest_whole(*number * part);
        *entry = head.saturating_add(way).clamp(-BOX_LIMIT, BOX_LIMIT);
    }
}

// Puts the heads of reservoirs and tanks.
fn put_fixed(net: &Net, problem: Problem, side: Side, heads: &mut [i64])
    requires { HasProblem net.now problem }
    ensures { length heads.new ≡ length heads.old }
{
    for node in net.junctions()..net.nodes() {
        if let Some(head) = heads.get_mut(node as usize) {
            *head = net.fixed(problem, side, node);
        }
    }
}

impl Course {
    /// Room for a net's nodes.
    pub(crate) fn open(alloc: Global, net: &Net) -> Result<Course, OutOfMemory> {
        let nodes = net.nodes() as usize;
        let junctions = net.junctions() as usize;
        Ok(Course {
            heads: vec![in alloc; 0i64; nodes]?,
            trial: vec![in alloc; 0i64; nodes]?,
            loads: vec![in alloc; 0.0; junctions]?,
            misses: vec![in alloc; 0.0; junctions]?,
            tried: 0.0,
            slack: 0.0,
            curves: vec![in alloc; no_flow(); net.links() as usize]?,
            flat: vec![in alloc; None; junctions]?,
        })
    }

    /// Puts the curves of a net, and the heads of reservoirs and tanks in a problem and on a side.
    pub(crate) fn fix(&mut self, net: &Net, problem: Problem, side: Side)
        requires { HasProblem net.now problem }
    {
        put_curves(net, &mut self.curves);
        put_flat(net, &mut self.flat);
        put_fixed(net, problem, side, &mut self.heads);
    }

    /// Begins anew at these heads of the junctions.
    pub(crate) fn begin(&mut self, net: &Net, from: &[i64]) {
        copy(from, &mut self.heads);
        copy(&self.heads, &mut self.trial);
        put_misses(
            net,
            &self.curves,
            &self.flat,
            &self.trial,
            &self.loads,
            &mut self.misses,
        );
    }

    // Tries a part of a step.
    fn try_part(&mut self, net: &Net, step: &[f64], part: f64) {
        move_by(&self.heads, step, part, &mut self.trial);
        put_misses(
            net,
            &self.curves,
            &self.flat,
            &self.trial,
            &self.loads,
            &mut self.misses,
        );
        self.tried = part;
    }

    // Whether a part of a step doesn't go far past the balance along it.
    fn is_short(&mut self, net: &Net, step: &[f64], part: f64) -> bool {
        self.try_part(net, step, part);
        product(&self.misses, step) >= -self.slack
    }

    // A part near the balance, from one that is short, where twice it isn't.
    fn refined(&mut self, net: &Net, step: &[f64], part: f64) -> f64 {
        let mut reached = part;
        for more in [0.5, 0.25, 0.125] {
            let further = reached + part * more;
            if self.is_short(net, step, further) {
                reached = further;
            }
        }
        reached
    }

    // A multiple of the step, doubled while it is short.
    fn doubled(&mut self, net: &Net, step: &[f64]) -> f64 {
        let mut reached = 1.0;
        for _ in 0..DOUBLINGS {
            let further = reached * 2.0;
            if !self.is_short(net, step, further) {
                return reached;
            }
            reached = further;
        }
        reached
    }

    // A part of the step that is short: halved until it is.
    fn halved(&mut self, net: &Net, step: &[f64]) -> f64 {
        let mut part = 0.5;
        for _ in 0..HALVINGS {
            if self.is_short(net, step, part) {
                return self.refined(net, step, part);
            }
            part *= 0.5;
        }
        part
    }

    /// Moves the heads along a step, near to the balance along it: flows rise with heads, so it is passed at most once.
    /// Where the whole step is short, it is taken, or doubled where `farther` asks for that.
    pub(crate) fn advance(&mut self, net: &Net, step: &[f64], farther: bool) {
        self.slack = product(&self.misses, step).abs() * SLACK;
        let part = if !self.is_short(net, step, 1.0) {
            self.halved(net, step)
        } else if farther {
            self.doubled(net, step)
        } else {
            1.0
        };
        if part != self.tried {
            self.try_part(net, step, part);
        }
        copy(&self.trial, &mut self.heads);
    }

    /// Takes a whole step.
    pub(crate) fn take(&mut self, net: &Net, step: &[f64]) {
        self.try_part(net, step, 1.0);
        copy(&self.trial, &mut self.heads);
    }

    /// Whether a few raises from the heads lead to where none of the junctions falls short of a certificate, which is
    /// put as the proposal then. Fails where one of these junctions has no value.
    pub(crate) fn mended(
        &mut self,
        net: &Net,
        side: Side,
        mender: &mut Mender,
        proposal: &mut [i64],
    ) -> Result<bool, NoValue>
        ensures { length proposal.new ≡ length proposal.old }
    {
        mender.note_near(net, side, &self.curves, &self.flat, &self.heads);
        copy(&self.heads, &mut self.trial);
        let mended = mender.mend(net, side, &mut self.trial)?;
        if mended {
            copy(&self.trial, proposal);
        }
        Ok(mended)
    }
}
