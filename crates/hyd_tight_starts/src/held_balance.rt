//! Heads near the balance of a net with a junction held, by Newton's method (Todini and Pilati 1988), and from them a
//! certificate that holds it. Flows rise with heads, so along a step the balance is passed at most once.
#![tactic(auto)]

ghost use Rattle.std.specs.Prelude.{◌≡◌, length};

use crate::flows::{counted, middle_miss, over};
use crate::held_slopes::{put_diagonal, put_slopes};
use crate::places::{copy, number_at, put_at};
use hyd_period_network::Net;
use hyd_sparse::Factor;
use hyd_spec_certificates::{BOX_LIMIT, Side};
use hyd_vector_check::is_in_box;
use std::alloc::{AllocError as OutOfMemory, Global};
use std::num::{nearest_i64_to_f64, saturating_f64_to_i64};

/// The parts of a head tick in which steps are counted.
const PARTS: i64 = 16;

/// One part in head ticks.
const HEAD_TICK_PART: f64 = 0.0625;

/// At most so many steps are taken toward a balance.
const STEPS: u32 = 40;

/// So many steps may come no nearer.
const VAIN_STEPS: u32 = 3;

/// How often a step that goes too far is halved.
const HALVINGS: u32 = 58;

/// How often what a junction is to pass by is made greater, and then less.
const LOADS: u32 = 8;

/// Room for the way to a balance, opened once.
#[derive(Drop)]
pub(crate) struct HeldBalance {
    factor: Factor,
    /// One for each junction, in units of slopes.
    diagonal: Vec<i64>,
    /// One for each link, in units of slopes.
    off: Vec<i64>,
    /// One for each junction, in `PARTS` of a head tick.
    step: Vec<i64>,
    /// The heads of all nodes, junctions first.
    heads: Vec<i64>,
    trial: Vec<i64>,
    /// By how much each junction misses its load at the heads tried last, in flow ticks.
    misses: Vec<i64>,
    ghost diagonals: { length diagonal.items ≡ factor.nodes },
    ghost offs: { length off.items ≡ factor.links },
    ghost steps: { length step.items ≡ factor.nodes },
}

/// The two nodes of each link.
pub(crate) fn ends_of_links(alloc: Global, net: &Net) -> Result<Vec<(u32, u32)>, OutOfMemory> {
    let mut rows = Vec::new(alloc);
    for link in 0..net.links() {
        let ends = net.ends(link);
        rows.push((ends.from, ends.to))?;
    }
    Ok(rows)
}

// Puts by how much the junctions miss a load, but for the held one.
fn put_misses(net: &Net, held: u32, load: i64, heads: &[i64], misses: &mut [i64])
    ensures { length misses.new ≡ length misses.old }
{
    for junction in 0..net.junctions() {
        let miss = if junction == held {
            0
        } else {
            middle_miss(net, heads, junction, load)
        };
        put_at(misses, junction, miss);
    }
}

// The greatest miss in magnitude.
fn greatest(misses: &[i64]) -> i64 {
    let mut most = 0i64;
    for miss in misses {
        most = most.max(miss.saturating_abs());
    }
    most
}

// Puts heads a part of a step away, held in the box.
fn move_by(heads: &[i64], step: &[i64], held: u32, part: f64, moved: &mut [i64])
    ensures { length moved.new ≡ length moved.old }
{
    let scale = part * HEAD_TICK_PART;
    let mut junction = 0u32;
    for ((entry, head), number) in moved.iter_mut().zip(heads).zip(step) {
        if junction != held {
            let way = saturating_f64_to_i64(nearest_i64_to_f64(*number) * scale);
            *entry = head.saturating_add(way).clamp(-BOX_LIMIT, BOX_LIMIT);
        }
        junction = junction.saturating_add(1);
    }
}

// The sum of the products of misses and step: its sign says on which side of the balance along the step they are.
fn product(misses: &[i64], step: &[i64]) -> f64 {
    let mut sum = 0.0;
    for (miss, number) in misses.iter().zip(step) {
        sum += nearest_i64_to_f64(*miss) * nearest_i64_to_f64(*number);
    }
    sum
}

// Puts each miss in the parts of steps.
fn put_parts(misses: &[i64], step: &mut [i64])
    ensures { length step.new ≡ length step.old }
{
    for (entry, miss) in step.iter_mut().zip(misses) {
        *entry = miss.saturating_mul(PARTS);
    }
}

// Whether heads are a certificate with a junction held.
fn serve(net: &Net, side: Side, held: u32, heads: &[i64]) -> bool {
    for junction in 0..net.junctions() {
        if !is_in_box(number_at(heads, junction)) {
            return false;
        }
        if junction != held && over(net, side, heads, junction) < 0 {
            return false;
        }
    }
    true
}

impl HeldBalance {
    /// Takes all the memory that the way takes in nets of this size.
    pub(crate) fn open(alloc: Global, net: &Net) -> Result<HeldBalance, OutOfMemory> {
        let rows = ends_of_links(alloc, net)?;
        let junctions = net.junctions();
        let factor = Factor::open(alloc, junctions, &rows)?;
        let nodes = net.nodes() as usize;
        Ok(HeldBalance {
            factor,
            diagonal: vec![in alloc; 0i64; junctions as usize]?,
            off: vec![in alloc; 0i64; rows.len()]?,
            step: vec![in alloc; 0i64; junctions as usize]?,
            heads: vec![in alloc; 0i64; nodes]?,
            trial: vec![in alloc; 0i64; nodes]?,
            misses: vec![in alloc; 0i64; junctions as usize]?,
        })
    }

    // Puts the step that closes the misses if flows go on along their slopes.
    fn put_step(&mut self, net: &Net, held: u32) {
        put_slopes(net, &self.heads, &mut self.off);
        put_diagonal(net, &self.heads, held, &self.off, &mut self.diagonal);
        self.factor.factor(&self.diagonal, &self.off);
        put_parts(&self.misses, &mut self.step);
        self.factor.solve(&mut self.step);
    }

    // Whether a part of the step doesn't go past the balance along it.
    fn is_short(&mut self, net: &Net, held: u32, load: i64, part: f64) -> bool {
        move_by(&self.heads, &self.step, held, part, &mut self.trial);
        put_misses(net, held, load, &self.trial, &mut self.misses);
        product(&self.misses, &self.step) >= 0.0
    }

    // Tries the step, and halves it while it goes too far; then a little more of it is tried.
    fn advance(&mut self, net: &Net, held: u32, load: i64) {
        copy(&self.heads, &mut self.trial);
        let mut part = 1.0;
        for _ in 0..HALVINGS {
            if self.is_short(net, held, load, part) {
                break;
            }
            part *= 0.5;
        }
        if part < 1.0 && !self.is_short(net, held, load, part * 1.5) {
            self.is_short(net, held, load, part);
        }
        copy(&self.trial, &mut self.heads);
    }

    // Goes near to where the load is balanced; by how much that is still missed.
    fn balance(&mut self, net: &Net, held: u32, load: i64) -> i64 {
        put_misses(net, held, load, &self.heads, &mut self.misses);
        let mut best = greatest(&self.misses);
        let mut vain = 0u32;
        for _ in 0..STEPS {
            self.put_step(net, held);
            self.advance(net, held, load);
            let miss = greatest(&self.misses);
            vain = if miss > best - best / 8 {
                vain.saturating_add(1)
            } else {
                0
            };
            best = best.min(miss);
            if vain > VAIN_STEPS {
                break;
            }
        }
        best
    }

    // Whether the balance of a load is a certificate; then it is put in the place of other heads.
    fn serves(&mut self, net: &Net, side: Side, held: u32, miss: i64, heads: &mut [i64]) -> bool
        ensures { length heads.new ≡ length heads.old }
    {
        self.balance(net, held, counted(side, miss));
        let serves = serve(net, side, held, &self.heads);
        if serves {
            copy(&self.heads, heads);
        }
        serves
    }

    // Goes on with less and less to pass by, as long as that is a certificate.
    fn come_nearer(&mut self, net: &Net, side: Side, held: u32, miss: i64, heads: &mut [i64])
        ensures { length heads.new ≡ length heads.old }
    {
        let mut less = miss / 2;
        for _ in 0..LOADS {
            if !self.serves(net, side, held, less, heads) {
                return;
            }
            less /= 2;
        }
    }

    /// Goes from heads of all nodes, a junction held among them, to a certificate with it held that is near the tightest,
    /// and puts it in their place where it comes there.
    pub(crate) fn find(&mut self, net: &Net, side: Side, held: u32, heads: &mut [i64])
        ensures { length heads.new ≡ length heads.old }
    {
        copy(heads, &mut self.heads);
        let mut miss = self.balance(net, held, 0).saturating_add(1);
        for _ in 0..LOADS {
            if self.serves(net, side, held, miss, heads) {
                self.come_nearer(net, side, held, miss, heads);
                return;
            }
            miss = miss.saturating_mul(4);
        }
    }
}
