//! Rounds with leaps between them, and the room that they need.
#![tactic(auto)]

ghost use Rattle.std.specs.Prelude.{◌≡◌, length, None, IfOk};
ghost use Rattle.hyd_spec_certificates.specs.declared.Side.TheVariants.{Upper, Lower};
ghost use Rattle.hyd_spec_certificates.specs.StartsRaisesAndLeaps.{IsStart};
ghost use Rattle.hyd_period_network.specs.NetAsPeriodNetwork.{grid_of};
ghost use Rattle.hyd_period_network.specs.SoundNets.{HasProblem};
ghost use Rattle.hyd_sweep.specs.Sweeps.{SweepGives, EndsWhereApart, HoldsInBox};
ghost use Rattle.hyd_sweep.specs.LeapingRounds.{SweepGoes};

use crate::answers_of_sweeps::Swept;
use crate::rounds::{round, suits_everywhere};
use crate::strides::{leap_on, put_ways};
use hyd_period_network::Net;
use hyd_spec_certificates::{HeldJunction, Problem, Side};
use std::alloc::{AllocError as OutOfMemory, Global};
use std::marker::Model;

/// At most so many rounds in file order toward the tight vector, from heads that every certificate lies beyond, with
/// leaps after each: all of these together move each head less than 2^20 times as far as the round did. Three vectors
/// are lent for them, of which nothing is kept.
pub fn tighten_by_leaps(
    net: &Net,
    problem: Problem,
    side: Side,
    held: Option<HeldJunction>,
    u: &mut [i64],
    rounds: u32,
    ways: &mut [i64],
    to: &mut [i64],
    heads: &mut [i64],
) -> Swept
    requires start { IsStart held (grid_of net.now) problem side u.old }
    requires pinned { HasProblem net.now problem }
    requires held_in_box { HoldsInBox held }
    requires ways_each { length ways.old ≡ length u.old }
    requires to_each { length to.old ≡ length u.old }
    requires heads_each { length heads.old ≡ length u.old }
    ensures sweep { SweepGives held (grid_of net.now) problem side rounds u.old u.new result }
    ensures goes { SweepGoes held (grid_of net.now) problem side rounds u.old u.new result }
    ensures apart { EndsWhereApart (grid_of net.now) rounds result }
{
    let _junctions = net.junctions();
    for spent in 0..rounds {
        if suits_everywhere(net, problem, side, held, u) {
            return Swept::Least;
        }
        ways.copy_from_slice(u);
        if let Some(junction) = round(net, problem, side, held, u) {
            return Swept::NoCertificate { junction };
        }
        put_ways(net, u, ways);
        leap_on(net, problem, side, held, u, ways, to, heads);
    }
    if suits_everywhere(net, problem, side, held, u) {
        Swept::Least
    } else {
        Swept::RoundsSpent
    }
}

/// Room for the sweeps of a net, opened once. Contracts see the number of junctions that it is for.
#[derive(Drop)]
pub struct Sweeper {
    ways: Vec<i64>,
    to: Vec<i64>,
    heads: Vec<i64>,
}

impl Model for Sweeper {
    ghost use Rattle.std.specs.Prelude.{◌≡◌, ℕ, length};

    ghost Value = { ℕ };

    ghost view = { λ s. length s.ways.items };

    ghost invariant = { λ s. (length s.to.items ≡ length s.ways.items) × (length s.heads.items ≡ length s.ways.items) };
}

// So many numbers.
fn room(alloc: Global, count: u32) -> Result<Vec<i64>, OutOfMemory>
    ensures { IfOk result (λ room. length room.items ≡ count) }
{
    let mut room = Vec::new(alloc);
    for _ in 0..count {
        room.push(0)?;
    }
    Ok(room)
}

impl Sweeper {
    /// Room for nets with so many junctions.
    pub fn open(alloc: Global, junctions: u32) -> Result<Sweeper, OutOfMemory>
        ensures { IfOk result (λ sweeper. sweeper ≡ junctions) }
    {
        let ways = room(alloc, junctions)?;
        let to = room(alloc, junctions)?;
        let heads = room(alloc, junctions)?;
        Ok(Sweeper { ways, to, heads })
    }

    /// At most so many rounds in file order toward the tight vector, from heads that every certificate lies beyond,
    /// with leaps after each: where flows are small, plain rounds come nearer by single ticks.
    pub fn tighten(
        &mut self,
        net: &Net,
        problem: Problem,
        side: Side,
        held: Option<HeldJunction>,
        u: &mut [i64],
        rounds: u32,
    ) -> Swept
        requires room { self.old ≡ length u.old }
        requires start { IsStart held (grid_of net.now) problem side u.old }
        requires pinned { HasProblem net.now problem }
        requires held_in_box { HoldsInBox held }
        ensures sweep { SweepGives held (grid_of net.now) problem side rounds u.old u.new result }
        ensures goes { SweepGoes held (grid_of net.now) problem side rounds u.old u.new result }
        ensures apart { EndsWhereApart (grid_of net.now) rounds result }
        ensures keeps { self.new ≡ self.old }
    {
        tighten_by_leaps(
            net,
            problem,
            side,
            held,
            u,
            rounds,
            &mut self.ways,
            &mut self.to,
            &mut self.heads,
        )
    }

    /// At most so many rounds toward the tight UPPER vector, from the floor of the box or heads that lie below every
    /// UPPER certificate.
    pub fn tighten_super(
        &mut self,
        net: &Net,
        problem: Problem,
        u: &mut [i64],
        rounds: u32,
    ) -> Swept
        requires room { self.old ≡ length u.old }
        requires start { IsStart None (grid_of net.now) problem Upper u.old }
        requires pinned { HasProblem net.now problem }
        ensures sweep { SweepGives None (grid_of net.now) problem Upper rounds u.old u.new result }
        ensures goes { SweepGoes None (grid_of net.now) problem Upper rounds u.old u.new result }
        ensures apart { EndsWhereApart (grid_of net.now) rounds result }
        ensures keeps { self.new ≡ self.old }
    {
        self.tighten(net, problem, Side::Upper, None, u, rounds)
    }

    /// At most so many rounds toward the tight LOWER vector, from the ceiling of the box or heads that lie above every
    /// LOWER certificate.
    pub fn tighten_sub(&mut self, net: &Net, problem: Problem, u: &mut [i64], rounds: u32) -> Swept
        requires room { self.old ≡ length u.old }
        requires start { IsStart None (grid_of net.now) problem Lower u.old }
        requires pinned { HasProblem net.now problem }
        ensures sweep { SweepGives None (grid_of net.now) problem Lower rounds u.old u.new result }
        ensures goes { SweepGoes None (grid_of net.now) problem Lower rounds u.old u.new result }
        ensures apart { EndsWhereApart (grid_of net.now) rounds result }
        ensures keeps { self.new ≡ self.old }
    {
        self.tighten(net, problem, Side::Lower, None, u, rounds)
    }
}
