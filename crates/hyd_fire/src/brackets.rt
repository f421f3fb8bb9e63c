//! The bracket of what may be drawn at a junction.
#![tactic(auto)]

ghost use Rattle.std.specs.Prelude.{◌≡◌, ◌<◌, ◌≤◌, ◌*◌, ◌^◌, length, unsigned_abs, All, Some, slice_get};
ghost use Rattle.hyd_spec_certificates.specs.declared.Problem.TheVariants.{Main};
ghost use Rattle.hyd_spec_certificates.specs.declared.Side.TheVariants.{Upper, Lower};
ghost use Rattle.hyd_spec_certificates.specs.PeriodNetwork.{GridJunction};
ghost use Rattle.hyd_spec_certificates.specs.Certificate.{IsInBox};
ghost use Rattle.hyd_spec_certificates.specs.BoxesWithHeldJunction.{passing_draw};
ghost use Rattle.hyd_spec_pressure_targets.specs.BracketOfDraws.{IsEdge};
ghost use Rattle.hyd_spec_spread_targets.specs.BracketsOverPairs.{IsBracketOver};
ghost use Rattle.hyd_period_network.specs.NetAsPeriodNetwork.{grid_of};
ghost use Rattle.hyd_vector_check.specs.NetOutflowBySide.{net_outflow};
ghost use Rattle.hyd_fire.specs.SearchesOnSides.{IsSought};
ghost use Rattle.hyd_fire.specs.EdgesInRange.{IsSmallEdge};

use crate::searches::search;
use crate::study::Study;
use hyd_finders::Finder;
use hyd_period_network::Net;
use hyd_spec_certificates::{HeldJunction, LevelSpan, Problem, Side};
use hyd_spec_pressure_targets::{Bracket, Edge};
use hyd_sweep::{Swept, begin};
use hyd_vector_check::{flows_out, head_of, outflow};

// What flows out of a junction on balance at its head: at most for UPPER, at least for LOWER.
fn net_outflow(net: &Net, side: Side, u: &[i64], i: u32) -> i128
    requires one_each { length u.now ≡ length net.now.junctions }
    requires in_box { All IsInBox u.now }
    requires inside { i < length u.now }
    ensures value { (here : GridJunction) → slice_get (grid_of net.now).junctions i ≡ Some here
        → result ≡ net_outflow side (grid_of net.now) Main u.now i here }
    ensures small { unsigned_abs result ≤ 965 * 10 ^ 24 }
{
    let _junctions = net.junctions();
    let _nodes = net.nodes();
    let head = head_of(u, i);
    flows_out(net, Problem::Main, side, u, i, head) + outflow(net, side, i, head)
}

// The draw with which a junction would pass at its head.
fn passing_draw(net: &Net, side: Side, u: &[i64], i: u32) -> i128
    requires one_each { length u.now ≡ length net.now.junctions }
    requires in_box { All IsInBox u.now }
    requires inside { i < length u.now }
    ensures value { (here : GridJunction) → slice_get (grid_of net.now).junctions i ≡ Some here
        → result ≡ passing_draw (grid_of net.now) side u.now i here }
    ensures small { unsigned_abs result ≤ 10 ^ 27 }
{
    let leaves = net_outflow(net, side, u, i);
    let needed = i128::from(net.margin(i)) + 1;
    match side {
        Side::Upper => needed - leaves,
        Side::Lower => -(needed + leaves),
    }
}

// The edge that a search of so many rounds came to.
fn edge_by(
    net: &Net,
    side: Side,
    held: HeldJunction,
    rounds: u32,
    swept: Swept,
    heads: &[i64],
) -> Edge
    requires one_each { length heads.now ≡ length net.now.junctions }
    requires inside { held.junction < length net.now.junctions }
    requires sought { IsSought (Some held) (grid_of net.now) side rounds heads.now swept }
    ensures edge { IsEdge (grid_of net.now) side held rounds result }
    ensures small { IsSmallEdge result }
{
    let _junctions = net.junctions();
    match swept {
        Swept::Least => Edge::Flow(passing_draw(net, side, heads, held.junction)),
        Swept::NoCertificate { .. } => Edge::NoCertificate,
        Swept::RoundsSpent => Edge::RoundsSpent,
    }
}

impl Study {
    // Proposes heads with a junction held, and the order of turns that is to lead to them: a certificate of the finder's,
    // brought nearer. With no round there is nothing to start.
    fn propose_holding<F: Finder>(
        &mut self,
        net: &Net,
        finder: &mut F,
        side: Side,
        held: HeldJunction,
        rounds: u32,
    ) -> bool
        requires one_each { length self.old.upper ≡ length net.now.junctions }
        ensures keeps { self.new ≡ self.old }
        ensures told { F.told finder.new ≡ F.told finder.old }
    {
        if rounds == 0 {
            return false;
        }
        begin(side, &mut self.to);
        finder.propose(net, Problem::Main, side, &mut self.to);
        self.descent
            .descend(net, side, Some(held), &mut self.to, &mut self.order)
    }

    // One edge.
    fn edge<F: Finder>(
        &mut self,
        net: &Net,
        finder: &mut F,
        side: Side,
        held: HeldJunction,
        rounds: u32,
    ) -> Edge
        requires one_each { length self.old.upper ≡ length net.now.junctions }
        requires inside { held.junction < length net.now.junctions }
        requires in_box { IsInBox held.head }
        ensures edge { IsEdge (grid_of net.now) side held rounds result }
        ensures small { IsSmallEdge result }
        ensures keeps { self.new ≡ self.old }
        ensures told { F.told finder.new ≡ F.told finder.old }
    {
        let proposed = self.propose_holding(net, finder, side, held, rounds);
        let swept = search(
            net,
            side,
            Some(held),
            rounds,
            proposed,
            &self.to,
            &self.order,
            &mut self.sweeper,
            &mut self.heads,
        );
        edge_by(net, side, held, rounds, swept, &self.heads)
    }
}

/// How much may be drawn at a junction in a period, with the pressure of a target there, whose whole heads are
/// `target.lo` to `target.hi`: with the one edge, or less, the pressure is above the target, with the other edge, or
/// more, below it. Each edge is that of the tight vector that holds the junction at the target: the UPPER one on the
/// net `above`, the LOWER one on the net `below`, which is the same net where the data are known. So it is one number:
/// it doesn't depend on the finder, which only shortens the way. The finder is asked for certificates without a
/// junction held; from these the way leads to proposals of tight vectors, which turns of the junctions check. Else
/// rounds lead there from the end of the box, at most so many.
///
/// No memory is taken.
pub fn available<F: Finder>(
    above: &Net,
    below: &Net,
    study: &mut Study,
    finder: &mut F,
    junction: u32,
    target: LevelSpan,
    rounds: u32,
) -> Bracket
    requires one_each { length study.old.upper ≡ length above.now.junctions }
    requires alike { length above.now.junctions ≡ length below.now.junctions }
    requires inside { junction < length above.now.junctions }
    requires low_in_box { IsInBox target.lo }
    requires high_in_box { IsInBox target.hi }
    ensures bracket { IsBracketOver (record { upper = grid_of above.now; lower = grid_of below.now }) junction
        target.lo target.hi rounds result }
    ensures below_small { IsSmallEdge result.below }
    ensures above_small { IsSmallEdge result.above }
    ensures keeps { study.new ≡ study.old }
    ensures told { F.told finder.new ≡ F.told finder.old }
{
    let at_high = HeldJunction {
        junction,
        head: target.hi,
    };
    let at_low = HeldJunction {
        junction,
        head: target.lo,
    };
    let enough = study.edge(below, finder, Side::Lower, at_high, rounds);
    let too_much = study.edge(above, finder, Side::Upper, at_low, rounds);
    Bracket {
        below: enough,
        above: too_much,
    }
}
