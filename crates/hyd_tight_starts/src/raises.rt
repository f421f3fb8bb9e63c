//! Heads that are tried, and raises of the junctions that fall short there.
#![tactic(auto)]

ghost use Rattle.std.specs.Prelude.{◌≡◌, length};

use crate::branches::Branches;
use crate::flows::{nearer, over_with, part, turned};
use crate::places::{add_at, number_at, put_at};
use crate::responses::no_farther;
use hyd_period_network::Net;
use hyd_spec_certificates::{BOX_LIMIT, Side};
use std::alloc::{AllocError as OutOfMemory, Global};

/// So often a junction is raised about as far as it has to. From then on each raise is at least twice as long as the
/// one before may have been, for sets of junctions that climb together.
const SHORT_RAISES: i64 = 12;

/// The longest way that a raise has for that: 2 to the power of this many ticks.
const LONGEST_POWER: i64 = 60;

/// How often the way of a raise is doubled.
const DOUBLINGS: u32 = 60;

/// So many raises are made at most for each junction that steps.
const RAISES: u32 = 4;

/// Heads that are tried, of nets of one size, opened once. Nothing is written there before the first ones.
#[derive(Drop)]
pub(crate) struct Trial {
    /// The heads of all nodes, junctions first.
    pub(crate) heads: Vec<i64>,
    /// By how much each junction passes there.
    pub(crate) over: Vec<i64>,
    /// How often each junction was raised.
    raised: Vec<i64>,
    /// How far its next raise leads at first.
    reach: Vec<i64>,
    /// How many raises may still be made.
    left: u32,
}

// How far a junction goes at least that was raised so often.
fn least_raise(times: i64) -> i64 {
    if times < SHORT_RAISES {
        return 1;
    }
    let power = times.saturating_sub(SHORT_RAISES).clamp(0, LONGEST_POWER);
    2i64 << power
}

impl Trial {
    /// Takes all the memory that it takes.
    pub(crate) fn open(alloc: Global, net: &Net) -> Result<Trial, OutOfMemory> {
        Ok(Trial {
            heads: Vec::with_capacity(alloc, net.nodes() as usize)?,
            over: Vec::with_capacity(alloc, net.junctions() as usize)?,
            raised: Vec::with_capacity(alloc, net.junctions() as usize)?,
            reach: Vec::with_capacity(alloc, net.junctions() as usize)?,
            left: 0,
        })
    }

    /// Makes all lists as long as a net needs them, in the room that was taken.
    pub(crate) fn lengthen(&mut self, net: &Net) -> Result<(), OutOfMemory> {
        let junctions = net.junctions() as usize;
        self.heads.resize(net.nodes() as usize, 0i64)?;
        self.over.resize(junctions, 0i64)?;
        self.raised.resize(junctions, 0i64)?;
        self.reach.resize(junctions, 1i64)
    }

    /// Puts a head, held in the box.
    pub(crate) fn put(&mut self, junction: u32, head: i64) {
        put_at(&mut self.heads, junction, head.clamp(-BOX_LIMIT, BOX_LIMIT));
    }

    // Notes by how much each junction passes that steps.
    fn note(&mut self, net: &Net, side: Side, branches: &Branches) {
        for place in 0..branches.many() {
            let junction = branches.stepping(place);
            let head = number_at(&self.heads, junction);
            let over = over_with(net, side, Some(branches), &self.heads, junction, head);
            put_at(&mut self.over, junction, over);
            put_at(&mut self.raised, junction, 0);
        }
    }

    // Takes from the junctions beside one what its way farther out costs them.
    fn note_beside(
        &mut self,
        net: &Net,
        side: Side,
        branches: &Branches,
        junction: u32,
        from: i64,
        to: i64,
    ) {
        if junction >= net.junctions() {
            return;
        }
        let _nodes = net.nodes();
        for tie in net.row(junction) {
            if branches.steps(tie.other) {
                let seen = turned(*tie, junction);
                let there = number_at(&self.heads, tie.other);
                let more = part(net, side, seen, there, to).saturating_sub(part(
                    net, side, seen, there, from,
                ));
                add_at(&mut self.over, tie.other, more);
            }
        }
    }

    // Moves a junction that falls short farther out, by half of its last way where that did at once, and then by twice
    // as much and again until it passes, which may be too far by some: steps come nearer again. It goes no farther than
    // where it would pass whatever the others did.
    fn raise(&mut self, net: &Net, side: Side, branches: &Branches, junction: u32, most: i64) {
        let from = number_at(&self.heads, junction);
        let least = least_raise(number_at(&self.raised, junction));
        let mut way = number_at(&self.reach, junction).max(least);
        let mut to = from;
        let mut over = 0i64;
        let mut next = way / 2;
        for _ in 0..DOUBLINGS {
            to = no_farther(side, nearer(side, from, way.saturating_neg()), most);
            over = over_with(net, side, Some(branches), &self.heads, junction, to);
            if over >= 0 || to == most {
                break;
            }
            way = way.saturating_mul(2);
            next = way;
        }
        put_at(&mut self.reach, junction, next);
        add_at(&mut self.raised, junction, 1);
        self.note_beside(net, side, branches, junction, from, to);
        put_at(&mut self.over, junction, over);
        put_at(&mut self.heads, junction, to);
    }

    // Raises the junctions that fall short when it is their turn, and tells whether none did.
    fn raise_all(
        &mut self,
        net: &Net,
        side: Side,
        branches: &Branches,
        certificate: &[i64],
    ) -> bool {
        let mut none = true;
        for place in 0..branches.many() {
            let junction = branches.stepping(place);
            if number_at(&self.over, junction) < 0 {
                if self.left == 0 {
                    return false;
                }
                self.left -= 1;
                none = false;
                self.raise(
                    net,
                    side,
                    branches,
                    junction,
                    number_at(certificate, junction),
                );
            }
        }
        none
    }

    /// Raises the junctions that fall short, and those that do then, no farther out than in a certificate beyond, and
    /// tells whether none falls short any more after so many raises.
    pub(crate) fn mend(
        &mut self,
        net: &Net,
        side: Side,
        branches: &Branches,
        certificate: &[i64],
    ) -> bool {
        self.note(net, side, branches);
        self.left = branches.many().saturating_mul(RAISES);
        for _ in 0..self.left {
            if self.raise_all(net, side, branches, certificate) {
                return true;
            }
            if self.left == 0 {
                return false;
            }
        }
        false
    }

    /// Whether less than half of the raises were made that might have been: a leap twice as far may be mended then.
    pub(crate) fn was_easy(&self, branches: &Branches) -> bool {
        self.left > branches.many().saturating_mul(RAISES / 2)
    }
}
