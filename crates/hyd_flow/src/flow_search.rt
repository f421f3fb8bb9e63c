//! Room for the search of the vectors of named links, and what is proposed there.

ghost use Rattle.std.specs.Prelude.{◌≡◌, length, IsTrue, IfOk, Some};
ghost use Rattle.hyd_cert.specs.RecordView.{row_of};
ghost use Rattle.hyd_period_network.specs.NetAsPeriodNetwork.{grid_of};
ghost use Rattle.hyd_spec_certificates.specs.Certificate.{IsInBox};
ghost use Rattle.hyd_spec_certificates.specs.StartsRaisesAndLeaps.{IsStart};
ghost use Rattle.hyd_spec_certificates.specs.declared.Problem.TheVariants.{Main};
ghost use Rattle.hyd_spent_rounds.specs.SpentRounds.{AreSpent};

use hyd_cert::Record;
use hyd_period_network::Net;
use hyd_spec_certificates::{HeldJunction, Problem, Side};
use hyd_spent_rounds::are_spent;
use hyd_sweep::Sweeper;
use hyd_tight_starts::Response;
use std::alloc::{AllocError as OutOfMemory, Global};
use std::marker::Model;

/// Room for the search of the vectors of named links in nets of one size, opened once. Contracts see the number of
/// junctions.
#[derive(Drop)]
pub struct FlowSearch {
    pub(crate) sweeper: Sweeper,
    /// How heads respond on the UPPER side.
    upper: Response,
    /// How they respond on the LOWER side.
    lower: Response,
    /// The vector that is proposed.
    near: Vec<i64>,
    /// A start that is proposed.
    to: Vec<i64>,
    /// A bound of what rounds gain that is proposed.
    bound: Vec<i64>,
    turns: Vec<i64>,
}

impl Model for FlowSearch {
    ghost use Rattle.std.specs.Prelude.{◌≡◌, ℕ, length};

    ghost Value = { ℕ };

    ghost view = { λ s. length s.near.items };

    ghost invariant = { λ s. (s.sweeper ≡ length s.near.items) × ((length s.to.items ≡ length s.near.items)
        × ((length s.bound.items ≡ length s.near.items) × (length s.turns.items ≡ length s.near.items))) };
}

// Proposes what is to show that so many rounds are spent, and the step of the bound.
fn propose_spent(
    response: &mut Response,
    net: &Net,
    side: Side,
    held: HeldJunction,
    rounds: u32,
    near: &[i64],
    to: &mut [i64],
    bound: &mut [i64],
) -> u64
    ensures to_each { length to.new ≡ length to.old }
    ensures bound_each { length bound.new ≡ length bound.old }
{
    response.propose_start(net, side, held, near, to);
    response.propose_bound(net, side, held, rounds, to, bound)
}

// Proposes that in place of what didn't show it.
fn mend_spent(
    response: &mut Response,
    net: &Net,
    side: Side,
    held: HeldJunction,
    rounds: u32,
    near: &[i64],
    to: &mut [i64],
    bound: &mut [i64],
) -> u64
    ensures to_each { length to.new ≡ length to.old }
    ensures bound_each { length bound.new ≡ length bound.old }
{
    response.mend_start(net, side, held, near, to);
    let step = response.propose_bound(net, side, held, rounds, to, bound);
    response.mend_bound(net, side, held, step, bound);
    step
}

impl FlowSearch {
    /// Takes all the memory that the search takes in nets of this size, which have so many junctions.
    pub fn open(alloc: Global, net: &Net, junctions: u32) -> Result<FlowSearch, OutOfMemory>
        ensures { IfOk result (λ search. search ≡ junctions) }
    {
        let sweeper = Sweeper::open(alloc, junctions)?;
        let upper = Response::open(alloc, net)?;
        let lower = Response::open(alloc, net)?;
        let near = vec![in alloc; 0i64; junctions as usize]?;
        let to = vec![in alloc; 0i64; junctions as usize]?;
        let bound = vec![in alloc; 0i64; junctions as usize]?;
        let turns = vec![in alloc; 0i64; junctions as usize]?;
        Ok(FlowSearch {
            sweeper,
            upper,
            lower,
            near,
            to,
            bound,
            turns,
        })
    }

    /// Begins a period with the vectors of its record.
    pub(crate) fn begin(&mut self, net: &Net, row: &Record)
        ensures { self.new ≡ self.old }
    {
        let upper = row.vector(Problem::Main, Side::Upper);
        let lower = row.vector(Problem::Main, Side::Lower);
        self.upper.begin(net, Side::Upper, upper, lower);
        self.lower.begin(net, Side::Lower, lower, upper);
    }

    /// Proposes a vector of a side with a junction held.
    pub(crate) fn propose_near(&mut self, net: &Net, side: Side, held: HeldJunction)
        ensures { self.new ≡ self.old }
    {
        match side {
            Side::Upper => self.upper.propose_near(net, side, held, &mut self.near),
            Side::Lower => self.lower.propose_near(net, side, held, &mut self.near),
        }
    }

    /// Proposes one in place of a vector that isn't one.
    pub(crate) fn mend_near(&mut self, net: &Net, side: Side, held: HeldJunction)
        ensures { self.new ≡ self.old }
    {
        match side {
            Side::Upper => self.upper.mend_near(net, side, held, &mut self.near),
            Side::Lower => self.lower.mend_near(net, side, held, &mut self.near),
        }
    }

    /// Copies the proposed vector.
    pub(crate) fn copy_near(&self, heads: &mut [i64])
        requires { self.now ≡ length heads.old }
        ensures { length heads.new ≡ length heads.old }
    {
        heads.copy_from_slice(&self.near);
    }

    // Proposes what is to show that the rounds are spent, and the step of the bound.
    fn propose_spent(&mut self, net: &Net, side: Side, held: HeldJunction, rounds: u32) -> u64
        ensures { self.new ≡ self.old }
    {
        let near = &self.near;
        let to = &mut self.to;
        let bound = &mut self.bound;
        match side {
            Side::Upper => propose_spent(&mut self.upper, net, side, held, rounds, near, to, bound),
            Side::Lower => propose_spent(&mut self.lower, net, side, held, rounds, near, to, bound),
        }
    }

    // Proposes that in place of what didn't show it.
    fn mend_spent(&mut self, net: &Net, side: Side, held: HeldJunction, rounds: u32) -> u64
        ensures { self.new ≡ self.old }
    {
        let near = &self.near;
        let to = &mut self.to;
        let bound = &mut self.bound;
        match side {
            Side::Upper => mend_spent(&mut self.upper, net, side, held, rounds, near, to, bound),
            Side::Lower => mend_spent(&mut self.lower, net, side, held, rounds, near, to, bound),
        }
    }

    // Whether what is proposed shows that the rounds are spent.
    fn shows_spent(
        &mut self,
        net: &Net,
        side: Side,
        held: HeldJunction,
        start: &[i64],
        rounds: u32,
        step: u64,
        heads: &mut [i64],
    ) -> bool
        requires start { IsStart (Some held) (grid_of net.now) Main side start.now }
        requires held_in_box { IsInBox held.head }
        requires room { self.old ≡ length start.now }
        requires heads_each { length heads.old ≡ length start.now }
        ensures spent { IsTrue result → AreSpent held (grid_of net.now) side rounds start.now }
        ensures each { length heads.new ≡ length heads.old }
        ensures keeps { self.new ≡ self.old }
    {
        are_spent(
            net,
            side,
            held,
            start,
            rounds,
            &self.bound,
            step,
            &self.to,
            heads,
            &mut self.turns,
        )
    }

    /// Whether it is shown without rounds that so many from a start lead to no vector in which the junction is held. A
    /// vector is lent for it, of which nothing is kept.
    pub(crate) fn finds_spent(
        &mut self,
        net: &Net,
        side: Side,
        held: HeldJunction,
        start: &[i64],
        rounds: u32,
        heads: &mut [i64],
    ) -> bool
        requires start { IsStart (Some held) (grid_of net.now) Main side start.now }
        requires held_in_box { IsInBox held.head }
        requires room { self.old ≡ length start.now }
        requires heads_each { length heads.old ≡ length start.now }
        ensures spent { IsTrue result → AreSpent held (grid_of net.now) side rounds start.now }
        ensures each { length heads.new ≡ length heads.old }
        ensures keeps { self.new ≡ self.old }
    {
        self.propose_near(net, side, held);
        let step = self.propose_spent(net, side, held, rounds);
        if self.shows_spent(net, side, held, start, rounds, step, heads) {
            return true;
        }
        self.mend_near(net, side, held);
        let step = self.mend_spent(net, side, held, rounds);
        self.shows_spent(net, side, held, start, rounds, step, heads)
    }
}
