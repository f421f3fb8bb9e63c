//! Leaps along the way of a round, in strides of several lengths.
#![tactic(auto)]

ghost use Rattle.std.specs.Prelude.{◌≡◌, ◌<◌, ◌≤◌, ◌+◌, ◌-◌, ◌*◌, ◌^◌, ◌-ℤ◌, ◌≤ℤ◌, ℕ, pos, suc, length, unsigned_abs};
ghost use Rattle.std.specs.Prelude.{All, if◌then◌else◌};
ghost use Rattle.hyd_spec.specs.Assignment.{head_at};
ghost use Rattle.hyd_spec_certificates.specs.Certificate.{box_limit, IsInBox};
ghost use Rattle.hyd_theorems_on_definitions.specs.Sides.{along};
ghost use Rattle.hyd_period_network.specs.NetAsPeriodNetwork.{grid_of};
ghost use Rattle.hyd_period_network.specs.SoundNets.{HasProblem};
ghost use Rattle.hyd_sweep.specs.Sweeps.{HoldsInBox};
ghost use Rattle.hyd_sweep.specs.Leaps.{LeapsLeadTo};
ghost use Rattle.hyd_sweep.specs.Strides.{IsStride, reach, LiesWithin};

use crate::leaps::leap;
use hyd_period_network::Net;
use hyd_spec_certificates::{BOX_LIMIT, HeldJunction, Problem, Side};
use hyd_vector_check::head_of;

// More tries aren't made after a round: 18 longer strides, as many shorter ones, and three below 1.
const TRIES: u32 = 40;

// The longest stride. All strides after a round are together less than 2^20 times as long as the round's way.
const LONGEST: u64 = 1 << 18;

// The shortest stride is an eighth of the round's way.
const PARTS: u64 = 8;

// Farther than from one end of the box to the other, in head ticks.
const PAST_BOX: u128 = 3 * BOX_LIMIT as u128;

/// How far the next leap goes: so many parts of the way that a round went.
#[derive(Clone, Copy, Drop)]
pub(crate) struct Stride {
    times: u64,
    parts: u64,
    grows: bool,
}

impl Stride {
    /// As far again as the round.
    pub(crate) fn new() -> Stride
        ensures stride { IsStride result }
        ensures reach { reach result 40 ≤ 2 ^ 20 - 1 }
    {
        Stride {
            times: 1,
            parts: 1,
            grows: true,
        }
    }

    // Half as long a stride.
    fn shorter(self) -> Stride
        requires { IsStride self }
        ensures stride { IsStride result }
        ensures times { (left : ℕ) → reach result left ≤ self.times + suc left }
    {
        if self.times > 1 {
            return Stride {
                times: self.times / 2,
                parts: self.parts,
                grows: false,
            };
        }
        Stride {
            times: self.times,
            parts: self.parts.saturating_mul(2),
            grows: false,
        }
    }

    // The stride after this one: twice as long up to the first that is refused, then half as long each time.
    fn after(self, leapt: bool) -> Stride
        requires { IsStride self }
        ensures stride { IsStride result }
        ensures reach { (left : ℕ) → (if leapt then self.times else 0) + reach result left ≤ reach self (suc left) }
    {
        let grows = self.grows && leapt && self.times <= LONGEST / 2;
        if grows {
            return Stride {
                times: self.times * 2,
                parts: self.parts,
                grows,
            };
        }
        self.shorter()
    }

    // So far on along a way, in ticks, or past the box in any case.
    fn ticks(self, way: u64) -> u64
        requires { IsStride self }
        ensures within { result ≤ 3 * box_limit }
        ensures most { result ≤ self.times * way }
    {
        let ticks = u128::from(self.times) * u128::from(way) / u128::from(self.parts);
        ticks.min(PAST_BOX) as u64
    }

    // A head so far on.
    fn head(self, side: Side, from: i64, way: i64) -> i64
        requires stride { IsStride self }
        requires in_box { IsInBox from }
        ensures { (along side result -ℤ along side from) ≤ℤ pos (self.times * unsigned_abs way) }
    {
        let ticks = self.ticks(way.unsigned_abs()) as i64;
        match side {
            Side::Upper => from + ticks,
            Side::Lower => from - ticks,
        }
    }
}

/// Puts the way of each head from an earlier vector, which is replaced by it.
pub(crate) fn put_ways(net: &Net, u: &[i64], ways: &mut [i64])
    requires one_each { length u.now ≡ length net.now.junctions }
    requires ways_each { length ways.old ≡ length u.now }
    requires in_box { All IsInBox u.now }
    requires earlier_in_box { All IsInBox ways.old }
    ensures each { length ways.new ≡ length ways.old }
    ensures ways { (i : ℕ) → i < length u.now → head_at ways.new i ≡ (head_at u.now i -ℤ head_at ways.old i) }
{
    for i in 0..net.junctions() {
        ways[i as usize] = head_of(u, i) - head_of(ways, i);
    }
}

// Proposes the vector that is a stride on from u.
fn propose(net: &Net, side: Side, u: &[i64], ways: &[i64], stride: Stride, to: &mut [i64])
    requires one_each { length u.now ≡ length net.now.junctions }
    requires ways_each { length ways.now ≡ length u.now }
    requires to_each { length to.old ≡ length u.now }
    requires in_box { All IsInBox u.now }
    requires stride { IsStride stride }
    ensures each { length to.new ≡ length to.old }
    ensures near { LiesWithin side stride.times ways.now u.now to.new }
{
    for i in 0..net.junctions() {
        to[i as usize] = stride.head(side, head_of(u, i), head_of(ways, i));
    }
}

/// Leaps on along the ways of a round, in strides that grow while they are leaps, and shrink then. All leaps together
/// go less than 2^20 times as far as the ways.
pub(crate) fn leap_on(
    net: &Net,
    problem: Problem,
    side: Side,
    held: Option<HeldJunction>,
    u: &mut [i64],
    ways: &[i64],
    to: &mut [i64],
    heads: &mut [i64],
)
    requires one_each { length u.old ≡ length net.now.junctions }
    requires in_box { All IsInBox u.old }
    requires ways_each { length ways.now ≡ length u.old }
    requires to_each { length to.old ≡ length u.old }
    requires heads_each { length heads.old ≡ length u.old }
    requires pinned { HasProblem net.now problem }
    requires held_in_box { HoldsInBox held }
    ensures leads { LeapsLeadTo held (grid_of net.now) problem side u.old u.new }
    ensures near { LiesWithin side (2 ^ 20 - 1) ways.now u.old u.new }
    ensures to_each { length to.new ≡ length to.old }
    ensures heads_each { length heads.new ≡ length heads.old }
{
    let _junctions = net.junctions();
    let mut stride = Stride::new();
    for tried in 0..TRIES {
        if stride.parts > PARTS {
            return;
        }
        propose(net, side, u, ways, stride, to);
        let leapt = leap(net, problem, side, held, u, to, heads);
        stride = stride.after(leapt);
    }
}
