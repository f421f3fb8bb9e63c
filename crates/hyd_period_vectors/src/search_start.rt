//! Where the search for a tight vector starts: at heads that the finder proposes, where turns of junctions show that
//! every certificate lies beyond them (the burning test, Dhar 1990), else at the vector of MAIN on the other side, or
//! at the end of the box where there is none yet.
#![tactic(auto)]

ghost use Rattle.std.specs.Prelude.{◌≡◌, ◌<◌, ◌↔◌, ℕ, length, All, None, false, IfSome, IfOk, IsTrue};
ghost use Rattle.hyd_spec.specs.Assignment.{head_at};
ghost use Rattle.hyd_spec_certificates.specs.declared.Problem.TheVariants.{Main};
ghost use Rattle.hyd_spec_certificates.specs.PeriodNetwork.{opposite};
ghost use Rattle.hyd_spec_certificates.specs.Certificate.{IsInBox};
ghost use Rattle.hyd_spec_certificates.specs.StartsRaisesAndLeaps.{IsStart};
ghost use Rattle.hyd_spec_certificates.specs.TurnsOfProblems.{turn};
ghost use Rattle.hyd_cert.specs.RecordView.{header_of, row_of};
ghost use Rattle.hyd_period_network.specs.NetAsPeriodNetwork.{grid_of};
ghost use Rattle.hyd_period_network.specs.SoundNets.{HasProblem};
ghost use Rattle.hyd_sweep.specs.Leaps.{nearer};
ghost use Rattle.hyd_period_vectors.specs.WayToProposedHeads.{ComesInTurn, AreInTurn};
ghost use Rattle.hyd_theorems_on_definitions.specs.SoundLawsAndGrids.{TanksInOrder};
ghost use Rattle.hyd_period_vectors.specs.SoughtVectors.{HasOther, IsAtHand, IsBegun, Fits};

use hyd_cert::Record;
use hyd_finders::Finder;
use hyd_period_network::Net;
use hyd_spec_certificates::{Problem, Side};
use hyd_sweep::{begin, nearer};
use hyd_vector_check::{head_of, is_in_box, passes};
use std::alloc::{AllocError as OutOfMemory, Global};
use std::marker::Model;

// The head one tick nearer, where both lie in the box.
fn nearer_in_box(side: Side, head: i64) -> Option<i64>
    ensures short { IfSome result (λ h. h ≡ nearer side head) }
    ensures in_box { IfSome result IsInBox }
    ensures head_in_box { IfSome result (λ h. IsInBox head) }
{
    if !is_in_box(head) {
        return None;
    }
    let short = nearer(side, head);
    if !is_in_box(short) {
        return None;
    }
    Some(short)
}

// Puts every head one tick nearer than proposed, and tells whether all these lie in the box.
fn put_nearer(net: &Net, side: Side, to: &[i64], heads: &mut [i64]) -> bool
    requires one_each { length to.now ≡ length net.now.junctions }
    requires heads_each { length heads.old ≡ length to.now }
    ensures nearer { IsTrue result → (k : ℕ) → k < length to.now
        → head_at heads.new k ≡ nearer side (head_at to.now k) }
    ensures in_box { IsTrue result → All IsInBox heads.new }
    ensures to_in_box { IsTrue result → All IsInBox to.now }
    ensures each { length heads.new ≡ length heads.old }
{
    for i in 0..net.junctions() {
        let Some(head) = nearer_in_box(side, head_of(to, i)) else {
            return false;
        };
        heads[i as usize] = head;
    }
    true
}

// Puts a junction to its proposed head, where it fails one tick nearer.
fn take_turn(net: &Net, problem: Problem, side: Side, to: &[i64], heads: &mut [i64], i: u32)
    requires one_each { length to.now ≡ length net.now.junctions }
    requires turns { AreInTurn (grid_of net.now) problem side to.now heads.old }
    requires pinned { HasProblem net.now problem }
    ensures { AreInTurn (grid_of net.now) problem side to.now heads.new }
{
    let junctions = net.junctions();
    if i >= junctions {
        return;
    }
    if passes(net, problem, side, heads, i) {
        return;
    }
    heads[i as usize] = head_of(to, i);
}

// Takes the turns of junctions in an order.
fn take_turns(net: &Net, problem: Problem, side: Side, to: &[i64], order: &[u32], heads: &mut [i64])
    requires one_each { length to.now ≡ length net.now.junctions }
    requires turns { AreInTurn (grid_of net.now) problem side to.now heads.old }
    requires pinned { HasProblem net.now problem }
    ensures { AreInTurn (grid_of net.now) problem side to.now heads.new }
{
    for i in order {
        take_turn(net, problem, side, to, heads, *i);
    }
}

// Whether a head stands as proposed.
fn is_same(to: &[i64], heads: &[i64], i: u32) -> bool
    requires inside { i < length to.now }
    requires heads_each { length heads.now ≡ length to.now }
    ensures { IsTrue result ↔ head_at heads.now i ≡ head_at to.now i }
{
    head_of(heads, i) == head_of(to, i)
}

// Whether all heads stand as proposed.
fn are_same(net: &Net, to: &[i64], heads: &[i64]) -> bool
    requires one_each { length to.now ≡ length net.now.junctions }
    requires heads_each { length heads.now ≡ length to.now }
    ensures { IsTrue result → (k : ℕ) → k < length to.now → head_at heads.now k ≡ head_at to.now k }
{
    for i in 0..net.junctions() {
        if !is_same(to, heads, i) {
            return false;
        }
    }
    true
}

// Whether the turns of an order lead to the proposed heads, which every certificate lies beyond then.
fn are_reached(
    net: &Net,
    problem: Problem,
    side: Side,
    to: &[i64],
    order: &[u32],
    heads: &mut [i64],
) -> bool
    requires one_each { length to.now ≡ length net.now.junctions }
    requires heads_each { length heads.old ≡ length to.now }
    requires pinned { HasProblem net.now problem }
    ensures start { IsTrue result → IsStart None (grid_of net.now) problem side heads.new }
    ensures comes { IsTrue result → ComesInTurn (grid_of net.now) problem side heads.new heads.new }
    ensures each { length heads.new ≡ length heads.old }
{
    let _junctions = net.junctions();
    if !put_nearer(net, side, to, heads) {
        return false;
    }
    take_turns(net, problem, side, to, order, heads);
    are_same(net, to, heads)
}

fn opposite(side: Side) -> Side
    ensures { result ≡ opposite side }
{
    match side {
        Side::Upper => Side::Lower,
        Side::Lower => Side::Upper,
    }
}

// Whether a vector is sought before that of MAIN on the other side.
fn is_first(problem: Problem, side: Side) -> bool
    ensures { result ≡ false → turn Main (opposite side) < turn problem side }
{
    match problem {
        Problem::Main => match side {
            Side::Upper => true,
            Side::Lower => false,
        },
        Problem::Pinned(_) => false,
    }
}

/// Puts a start: the vector of MAIN on the other side, or the end of the box where that is sought later.
pub(crate) fn begin_near(net: &Net, row: &Record, problem: Problem, side: Side, heads: &mut [i64])
    requires one_each { length heads.old ≡ length net.now.junctions }
    requires order { TanksInOrder (grid_of net.now) }
    requires fits { Fits net.now (header_of row.now) }
    requires other { HasOther (grid_of net.now) problem side (row_of row.now) }
    ensures start { IsStart None (grid_of net.now) problem side heads.new }
    ensures begun { IsAtHand (grid_of net.now) problem side heads.new }
    ensures each { length heads.new ≡ length heads.old }
{
    let _junctions = net.junctions();
    if is_first(problem, side) {
        begin(side, heads);
        return;
    }
    heads.copy_from_slice(row.vector(Problem::Main, opposite(side)));
}

/// Room for what a finder proposes as a start, opened once. Contracts see the number of junctions that it is for.
#[derive(Drop)]
pub(crate) struct Starter {
    to: Vec<i64>,
    order: Vec<u32>,
}

impl Model for Starter {
    ghost use Rattle.std.specs.Prelude.{◌≡◌, ℕ, length};

    ghost Value = { ℕ };

    ghost view = { λ s. length s.to.items };

    ghost invariant = { λ s. length s.order.items ≡ length s.to.items };
}

impl Starter {
    /// Room for nets with so many junctions.
    pub(crate) fn open(alloc: Global, junctions: u32) -> Result<Starter, OutOfMemory>
        ensures { IfOk result (λ starter. starter ≡ junctions) }
    {
        let to = vec![in alloc; 0i64; junctions as usize]?;
        let order = vec![in alloc; 0u32; junctions as usize]?;
        Ok(Starter { to, order })
    }

    /// Puts a start for so many rounds: the finder's where turns show that it is one, else the one at hand. With no
    /// round there is nothing to start, and the finder isn't asked.
    pub(crate) fn start<F: Finder>(
        &mut self,
        net: &Net,
        finder: &mut F,
        problem: Problem,
        side: Side,
        rounds: u32,
        row: &Record,
        heads: &mut [i64],
    )
        requires room { self.old ≡ length heads.old }
        requires one_each { length heads.old ≡ length net.now.junctions }
        requires pinned { HasProblem net.now problem }
        requires order { TanksInOrder (grid_of net.now) }
        requires fits { Fits net.now (header_of row.now) }
        requires other { HasOther (grid_of net.now) problem side (row_of row.now) }
        ensures start { IsStart None (grid_of net.now) problem side heads.new }
        ensures begun { IsBegun (grid_of net.now) problem side heads.new }
        ensures each { length heads.new ≡ length heads.old }
        ensures keeps { self.new ≡ self.old }
        ensures told { F.told finder.new ≡ F.told finder.old }
    {
        let _junctions = net.junctions();
        if rounds == 0 {
            begin_near(net, row, problem, side, heads);
            return;
        }
        if !finder.start(net, problem, side, &mut self.to, &mut self.order) {
            begin_near(net, row, problem, side, heads);
            return;
        }
        if !are_reached(net, problem, side, &self.to, &self.order, heads) {
            begin_near(net, row, problem, side, heads);
        }
    }
}
