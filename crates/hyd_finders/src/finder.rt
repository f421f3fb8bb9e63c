//! What finds certificates.
#![tactic(auto)]

ghost use Rattle.std.specs.Prelude.{◌≡◌, ℤ, List, length, Option, None, false};
ghost use Rattle.hyd_period_network.specs.SoundNets.{HasProblem};
ghost use Rattle.hyd_finders.specs.ProposedVectors.{Leaves};

use hyd_period_network::Net;
use hyd_spec_certificates::{Problem, Side};

/// Proposes vectors of heads for certificates, in head ticks. Nothing rests on a proposal: whoever takes one checks it.
/// A finder may tell one list of heads, which holds a vector for each problem and side.
pub trait Finder {
    /// The list that the finder tells, if it tells one.
    ghost told: { Self → Option (List ℤ) };

    /// Leaves heads in `out`, one for each junction, for a certificate of a problem and side. A finder that tells a
    /// list of the net's size leaves that list's vector; any other may leave what it likes.
    fn propose(&mut self, net: &Net, problem: Problem, side: Side, out: &mut [i64])
        requires one_each { length out.old ≡ length net.now.junctions }
        requires pinned { HasProblem net.now problem }
        ensures one_each { length out.new ≡ length out.old }
        ensures told { told self.new ≡ told self.old }
        ensures tells { Leaves (told self.old) net.now problem side out.new };

    /// Whether it proposes where a search for the tight vector of a problem and side starts. Then it leaves heads in
    /// `out`, one for each junction, that every certificate may lie beyond, and in `order` the junctions in an order in
    /// which turns may show that. It may leave what it likes.
    fn start(
        &mut self,
        net: &Net,
        problem: Problem,
        side: Side,
        out: &mut [i64],
        order: &mut [u32],
    ) -> bool
        requires one_each { length out.old ≡ length net.now.junctions }
        requires place_each { length order.old ≡ length net.now.junctions }
        requires pinned { HasProblem net.now problem }
        ensures one_each { length out.new ≡ length out.old }
        ensures place_each { length order.new ≡ length order.old }
        ensures told { told self.new ≡ told self.old };
}

/// Proposes nothing: it leaves the heads as they are.
#[derive(Clone, Copy, Drop)]
pub struct Null;

impl Finder for Null {
    ghost told = { λ n. None };

    fn propose(&mut self, _net: &Net, _problem: Problem, _side: Side, out: &mut [i64])
        ensures one_each { length out.new ≡ length out.old }
        ensures told { ◌≡◌ {A = Option (List ℤ)} None None }
        ensures as_it_is { out.new ≡ out.old }
    {}

    fn start(
        &mut self,
        _net: &Net,
        _problem: Problem,
        _side: Side,
        out: &mut [i64],
        order: &mut [u32],
    ) -> bool
        ensures none { result ≡ false }
        ensures one_each { length out.new ≡ length out.old }
        ensures place_each { length order.new ≡ length order.old }
        ensures told { ◌≡◌ {A = Option (List ℤ)} None None }
    {
        false
    }
}
