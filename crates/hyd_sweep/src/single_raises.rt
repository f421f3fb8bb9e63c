//! Raises of single junctions.
#![tactic(auto)]

ghost use Rattle.std.specs.Prelude.{◌≡◌, ◌<◌, ◌≤◌, ℕ, pos, ◌+◌, ◌-ℤ◌, ◌≤ℤ◌, ◌↔◌, length, All, IsTrue, MatchOption};
ghost use Rattle.std.specs.Prelude.{None};
ghost use Rattle.hyd_spec.specs.Assignment.{head_at};
ghost use Rattle.hyd_spec_certificates.specs.declared.Side.TheVariants.{Upper, Lower};
ghost use Rattle.hyd_spec_certificates.specs.Certificate.{box_limit, IsInBox};
ghost use Rattle.hyd_theorems_on_definitions.specs.SoundLawsAndGrids.{IsSteady};
ghost use Rattle.hyd_theorems_on_definitions.specs.Sides.{along};
ghost use Rattle.hyd_period_network.specs.NetAsPeriodNetwork.{grid_of};
ghost use Rattle.hyd_period_network.specs.SoundNets.{HasProblem};
ghost use Rattle.hyd_vector_check.specs.NetOutflowBySide.{PassesWith};
ghost use Rattle.hyd_sweep.specs.Sweeps.{IsFree, IsHeldAt, further, RaisesTo, HasNoValue, RaiseGives, HoldsInBox};

use crate::answers_of_sweeps::Raised;
use crate::heads_along_side::{further, is_beyond, room};
use crate::next_trial_head::Aim;
use hyd_period_network::Net;
use hyd_spec_certificates::{HeldJunction, Problem, Side};
use hyd_vector_check::{head_of, surplus};

fn is_enough(surplus: i128) -> bool
    ensures { IsTrue result ↔ pos 0 ≤ℤ surplus }
{
    surplus >= 0
}

// The least number of ticks from its head at which the junction passes, or one more than the room where there is none.
fn ticks_to_pass(net: &Net, problem: Problem, side: Side, u: &[i64], i: u32, room: u64) -> u64
    requires steady { IsSteady (grid_of net.now) }
    requires one_each { length u.now ≡ length net.now.junctions }
    requires pinned { HasProblem net.now problem }
    requires inside { i < length u.now }
    requires in_box { All IsInBox u.now }
    requires room { pos room ≡ pos box_limit -ℤ along side (head_at u.now i) }
    requires small { room ≤ 2000000000000000000 }
    ensures at_most { result ≤ room + 1 }
    ensures before { (k : ℕ) → k < result
        → PassesWith (grid_of net.now) problem side u.now i (further side (head_at u.now i) k) → ⊥ }
    ensures after { (k : ℕ) → result ≤ k → k ≤ room
        → PassesWith (grid_of net.now) problem side u.now i (further side (head_at u.now i) k) }
{
    let here = head_of(u, i);
    // Where halving would no longer end within the aim's number of trials, it halves.
    let mut aim = Aim::new();
    let mut low = 0;
    let mut high = room + 1;
    while low < high {
        let ticks = aim.next(low, high);
        let surplus = surplus(net, problem, side, u, i, further(side, here, ticks));
        aim = aim.after(surplus);
        if is_enough(surplus) {
            high = ticks;
        } else {
            low = ticks + 1;
        }
    }
    low
}

// The value of the raise of a junction that isn't held.
fn free_value(
    net: &Net,
    problem: Problem,
    side: Side,
    held: Option<HeldJunction>,
    u: &[i64],
    i: u32,
) -> Option<i64>
    requires steady { IsSteady (grid_of net.now) }
    requires one_each { length u.now ≡ length net.now.junctions }
    requires pinned { HasProblem net.now problem }
    requires inside { i < length u.now }
    requires in_box { All IsInBox u.now }
    requires free { IsFree held i }
    ensures { MatchOption result (HasNoValue held (grid_of net.now) problem side u.now i)
        (λ x. RaisesTo held (grid_of net.now) problem side u.now i x) }
{
    let here = head_of(u, i);
    let room = room(side, here);
    let ticks = ticks_to_pass(net, problem, side, u, i, room);
    if ticks > room {
        return None;
    }
    Some(further(side, here, ticks))
}

/// The head at which a junction is held, if it is.
pub(crate) fn held_head(held: Option<HeldJunction>, i: u32) -> Option<i64>
    requires { HoldsInBox held }
    ensures { MatchOption result (IsFree held i) (λ h. IsHeldAt held i h × IsInBox h) }
{
    match held {
        Some(there) => {
            if there.junction == i {
                Some(there.head)
            } else {
                None
            }
        }
        None => None,
    }
}

// The value of the raise of a junction.
fn value(
    net: &Net,
    problem: Problem,
    side: Side,
    held: Option<HeldJunction>,
    u: &[i64],
    i: u32,
) -> Option<i64>
    requires steady { IsSteady (grid_of net.now) }
    requires one_each { length u.now ≡ length net.now.junctions }
    requires pinned { HasProblem net.now problem }
    requires inside { i < length u.now }
    requires in_box { All IsInBox u.now }
    requires held_in_box { HoldsInBox held }
    ensures { MatchOption result (HasNoValue held (grid_of net.now) problem side u.now i)
        (λ x. RaisesTo held (grid_of net.now) problem side u.now i x) }
{
    match held_head(held, i) {
        Some(head) => {
            if is_beyond(side, head_of(u, i), head) {
                Some(head)
            } else {
                None
            }
        }
        None => free_value(net, problem, side, held, u, i),
    }
}

/// Raises junction i: puts it to the nearest head in the box, its own or farther out, at which it passes with the other
/// heads as they are. A held junction is put to its head, and has no value where its own lies beyond that.
pub fn raise(
    net: &Net,
    problem: Problem,
    side: Side,
    held: Option<HeldJunction>,
    u: &mut [i64],
    i: u32,
) -> Raised
    requires one_each { length u.old ≡ length net.now.junctions }
    requires pinned { HasProblem net.now problem }
    requires inside { i < length u.old }
    requires in_box { All IsInBox u.old }
    requires held_in_box { HoldsInBox held }
    ensures { RaiseGives held (grid_of net.now) problem side i u.old u.new result }
{
    let _junctions = net.junctions();
    match value(net, problem, side, held, u, i) {
        None => Raised::NoValue,
        Some(head) => {
            if head == u[i as usize] {
                Raised::Passed
            } else {
                u[i as usize] = head;
                Raised::Moved
            }
        }
    }
}

/// Raises junction i on the UPPER side.
pub fn raise_super(net: &Net, problem: Problem, u: &mut [i64], i: u32) -> Raised
    requires one_each { length u.old ≡ length net.now.junctions }
    requires pinned { HasProblem net.now problem }
    requires inside { i < length u.old }
    requires in_box { All IsInBox u.old }
    ensures { RaiseGives None (grid_of net.now) problem Upper i u.old u.new result }
{
    raise(net, problem, Side::Upper, None, u, i)
}

/// Raises junction i on the LOWER side.
pub fn raise_sub(net: &Net, problem: Problem, u: &mut [i64], i: u32) -> Raised
    requires one_each { length u.old ≡ length net.now.junctions }
    requires pinned { HasProblem net.now problem }
    requires inside { i < length u.old }
    requires in_box { All IsInBox u.old }
    ensures { RaiseGives None (grid_of net.now) problem Lower i u.old u.new result }
{
    raise(net, problem, Side::Lower, None, u, i)
}
