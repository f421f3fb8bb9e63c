//! Both vectors of a period with a pipe shut.
#![tactic(auto)]

ghost use Rattle.std.specs.Prelude.{◌≡◌, ◌<◌, ◌↔◌, length, IsTrue, if◌then◌else◌};
ghost use Rattle.hyd_spec_certificates.specs.declared.Problem.TheVariants.{Main};
ghost use Rattle.hyd_spec_certificates.specs.declared.Side.TheVariants.{Upper, Lower};
ghost use Rattle.hyd_spec_certificates.specs.Certificate.{IsCertificate};
ghost use Rattle.hyd_spec_pressure_targets.specs.ClosureWords.{AreSpentOn};
ghost use Rattle.hyd_period_network.specs.NetAsPeriodNetwork.{grid_of};
ghost use Rattle.hyd_fire.specs.declared.answers.Found.TheVariants.{Passing as FoundPassing, RoundsSpent as FoundSpent};
ghost use Rattle.hyd_fire.specs.SidesOfClosures.{IsFoundOn, IsShownBy, AreAllShown, IsLeft};

use crate::answers::{Found, Sides};
use crate::searches::search;
use crate::study::Study;
use crate::words::{is_low, is_safe};
use hyd_finders::Finder;
use hyd_period_network::Net;
use hyd_spec_certificates::{LevelSpan, Problem, Side};
use hyd_sweep::{Sweeper, Swept, begin};
use hyd_tight_starts::HeldDescent;
use hyd_vector_check::check;

// Whether the finder proposes a certificate, which then stands in `heads`.
fn propose<F: Finder>(net: &Net, finder: &mut F, side: Side, heads: &mut [i64]) -> bool
    requires one_each { length heads.old ≡ length net.now.junctions }
    ensures certificate { IsTrue result → IsCertificate (grid_of net.now) Main side heads.new }
    ensures each { length heads.new ≡ length heads.old }
    ensures told { F.told finder.new ≡ F.told finder.old }
{
    let _junctions = net.junctions();
    begin(side, heads);
    finder.propose(net, Problem::Main, side, heads);
    check(net, Problem::Main, side, heads).is_ok()
}

// What is found of a side whose rounds were spent.
fn passing_or_spent(passes: bool) -> Found
    ensures { result ≡ (if passes then FoundPassing else FoundSpent) }
{
    if passes {
        return Found::Passing;
    }
    Found::RoundsSpent
}

// Proposes heads for the tight vector, and the order of turns that is to lead to them, from a certificate that stands
// there. With no round there is nothing to start.
fn bring_nearer(
    net: &Net,
    side: Side,
    passes: bool,
    rounds: u32,
    vector: &[i64],
    descent: &mut HeldDescent,
    to: &mut [i64],
    order: &mut [u32],
) -> bool
    requires { length vector.now ≡ length to.old }
    ensures each { length to.new ≡ length to.old }
    ensures places { length order.new ≡ length order.old }
{
    if !passes {
        return false;
    }
    if rounds == 0 {
        return false;
    }
    to.copy_from_slice(vector);
    descent.descend(net, side, None, to, order)
}

// Searches for the tight vector of a side, which stands in `vector` where it is found; else that stays, a certificate
// where it passes.
fn settle(
    net: &Net,
    side: Side,
    passes: bool,
    rounds: u32,
    descent: &mut HeldDescent,
    to: &mut [i64],
    order: &mut [u32],
    sweeper: &mut Sweeper,
    heads: &mut [i64],
    vector: &mut [i64],
) -> Found
    requires one_each { length vector.old ≡ length net.now.junctions }
    requires heads_each { length heads.old ≡ length vector.old }
    requires to_each { length to.old ≡ length vector.old }
    requires room { sweeper.old ≡ length vector.old }
    requires certificate { IsTrue passes → IsCertificate (grid_of net.now) Main side vector.old }
    ensures found { IsFoundOn (grid_of net.now) rounds side vector.new result }
    ensures spent { result ≡ FoundPassing → AreSpentOn (grid_of net.now) rounds side }
    ensures each { length vector.new ≡ length vector.old }
    ensures heads_each { length heads.new ≡ length heads.old }
    ensures to_each { length to.new ≡ length to.old }
    ensures room { sweeper.new ≡ sweeper.old }
    ensures places { length order.new ≡ length order.old }
{
    let _junctions = net.junctions();
    let proposed = bring_nearer(net, side, passes, rounds, vector, descent, to, order);
    match search(net, side, None, rounds, proposed, to, order, sweeper, heads) {
        Swept::Least => {
            vector.copy_from_slice(heads);
            Found::Tight
        }
        Swept::NoCertificate { .. } => Found::NoCertificate,
        Swept::RoundsSpent => passing_or_spent(passes),
    }
}

// Whether the vectors that stand there show the word of a junction.
fn is_shown(sides: Sides, upper: &[i64], lower: &[i64], junction: u32, target: LevelSpan) -> bool
    requires upper { junction < length upper.now }
    requires lower { junction < length lower.now }
    ensures { IsTrue result
        ↔ IsShownBy (record { upper = upper.now; lower = lower.now }) sides junction target }
{
    is_safe(sides.lower, lower, junction, target) || is_low(sides.upper, upper, junction, target)
}

// Whether they show that of each junction.
fn are_all_shown(
    net: &Net,
    sides: Sides,
    upper: &[i64],
    lower: &[i64],
    targets: &[LevelSpan],
) -> bool
    requires upper { length upper.now ≡ length net.now.junctions }
    requires lower { length lower.now ≡ length net.now.junctions }
    requires targets { length targets.now ≡ length net.now.junctions }
    ensures { IsTrue result
        → AreAllShown (record { upper = upper.now; lower = lower.now }) sides targets.now }
{
    for junction in 0..net.junctions() {
        if !is_shown(sides, upper, lower, junction, targets[junction as usize]) {
            return false;
        }
    }
    true
}

impl Study {
    // Searches for the tight UPPER vector.
    fn settle_upper(&mut self, net: &Net, passes: bool, rounds: u32) -> Found
        requires one_each { length self.old.upper ≡ length net.now.junctions }
        requires certificate { IsTrue passes → IsCertificate (grid_of net.now) Main Upper self.old.upper }
        ensures found { IsFoundOn (grid_of net.now) rounds Upper self.new.upper result }
        ensures spent { result ≡ FoundPassing → AreSpentOn (grid_of net.now) rounds Upper }
        ensures each { length self.new.upper ≡ length self.old.upper }
        ensures lower { self.new.lower ≡ self.old.lower }
    {
        settle(
            net,
            Side::Upper,
            passes,
            rounds,
            &mut self.descent,
            &mut self.to,
            &mut self.order,
            &mut self.sweeper,
            &mut self.heads,
            &mut self.upper,
        )
    }

    // Searches for the tight LOWER vector.
    fn settle_lower(&mut self, net: &Net, passes: bool, rounds: u32) -> Found
        requires one_each { length self.old.lower ≡ length net.now.junctions }
        requires certificate { IsTrue passes → IsCertificate (grid_of net.now) Main Lower self.old.lower }
        ensures found { IsFoundOn (grid_of net.now) rounds Lower self.new.lower result }
        ensures spent { result ≡ FoundPassing → AreSpentOn (grid_of net.now) rounds Lower }
        ensures each { length self.new.lower ≡ length self.old.lower }
        ensures upper { self.new.upper ≡ self.old.upper }
    {
        settle(
            net,
            Side::Lower,
            passes,
            rounds,
            &mut self.descent,
            &mut self.to,
            &mut self.order,
            &mut self.sweeper,
            &mut self.heads,
            &mut self.lower,
        )
    }

    // Asks the finder for certificates of both sides, and tells of which there is one.
    fn propose_both<F: Finder>(&mut self, above: &Net, below: &Net, finder: &mut F) -> (bool, bool)
        requires one_each { length self.old.upper ≡ length above.now.junctions }
        requires alike { length above.now.junctions ≡ length below.now.junctions }
        ensures upper { IsTrue (result.0) → IsCertificate (grid_of above.now) Main Upper self.new.upper }
        ensures lower { IsTrue (result.1) → IsCertificate (grid_of below.now) Main Lower self.new.lower }
        ensures each { length self.new.upper ≡ length self.old.upper }
        ensures lower_each { length self.new.lower ≡ length self.old.upper }
        ensures told { F.told finder.new ≡ F.told finder.old }
    {
        let upper = propose(above, finder, Side::Upper, &mut self.upper);
        let lower = propose(below, finder, Side::Lower, &mut self.lower);
        (upper, lower)
    }
}

/// Finds the vectors of both sides of a period with a pipe shut, for words of its junctions: those of UPPER on the net
/// `above`, those of LOWER on the net `below`, which is the same net where the data are known; `targets` has the whole
/// heads of the target at each junction. The finder's certificates stand where these show the word of each junction, or
/// where the rounds that a search may take, at most so many from the end of the box, are spent; else the tight vectors.
///
/// No memory is taken.
pub fn close<F: Finder>(
    above: &Net,
    below: &Net,
    study: &mut Study,
    finder: &mut F,
    targets: &[LevelSpan],
    rounds: u32,
) -> Sides
    requires one_each { length study.old.upper ≡ length above.now.junctions }
    requires alike { length above.now.junctions ≡ length below.now.junctions }
    requires targets { length targets.now ≡ length above.now.junctions }
    ensures left { IsLeft (record { upper = grid_of above.now; lower = grid_of below.now }) rounds targets.now
        study.new result }
    ensures each { length study.new.upper ≡ length study.old.upper }
    ensures told { F.told finder.new ≡ F.told finder.old }
{
    let _above = above.junctions();
    let _below = below.junctions();
    let (upper_passes, lower_passes) = study.propose_both(above, below, finder);
    let both = Sides {
        upper: Found::Passing,
        lower: Found::Passing,
    };
    if upper_passes && lower_passes {
        if are_all_shown(above, both, &study.upper, &study.lower, targets) {
            return both;
        }
    }
    let lower = study.settle_lower(below, lower_passes, rounds);
    let one = Sides {
        upper: Found::Passing,
        lower,
    };
    if upper_passes {
        if are_all_shown(above, one, &study.upper, &study.lower, targets) {
            return one;
        }
    }
    let upper = study.settle_upper(above, upper_passes, rounds);
    Sides { upper, lower }
}
