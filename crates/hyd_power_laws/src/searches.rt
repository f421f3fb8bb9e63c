//! The greatest whole flow that a test holds for, from a guess on which nothing rests.
#![tactic(auto)]

ghost use Rattle.std.specs.Prelude.{◌≡◌, ◌+◌, ◌^◌, ◌≤◌, ◌<◌, true, false};
ghost use Rattle.hyd_power_laws.specs.FlowsWithin.{is_within};
ghost use Rattle.hyd_power_laws.specs.Brackets.{IsBracket, holds_at};

use crate::flow_tests::FlowTest;

// The greatest flow.
const MOST: u64 = 1 << 62;

// Two flows: the test holds for the lesser one, or it is 0, and doesn't hold for the greater one, or that is above all.
#[derive(Clone, Copy, Drop)]
struct Bracket {
    within: u64,
    beyond: u64,
}

/// The flow after which the test ends to hold, where it goes on to lesser flows; 0 where it holds for none.
pub(crate) fn greatest_within(test: &FlowTest, guess: u64) -> u64
    ensures { IsBracket test.now result (result + 1) }
{
    let guess = guess.max(1).min(MOST);
    if test.holds(guess) {
        return halved(test, bracket_upward(test, guess));
    }
    halved(test, bracket_downward(test, guess))
}

// From a flow that the test holds for, by steps that double.
fn bracket_upward(test: &FlowTest, guess: u64) -> Bracket
    requires some { 1 ≤ guess }
    requires short { guess ≤ 2 ^ 62 }
    requires holds { holds_at test.now guess ≡ true }
    ensures { IsBracket test.now result.within result.beyond }
{
    let mut within = guess;
    let mut step = 1;
    while within < MOST {
        let next = within + step.min(MOST - within);
        if !test.holds(next) {
            return Bracket {
                within,
                beyond: next,
            };
        }
        within = next;
        step = doubled(step);
    }
    Bracket {
        within,
        beyond: MOST + 1,
    }
}

// From a flow that it doesn't hold for.
fn bracket_downward(test: &FlowTest, guess: u64) -> Bracket
    requires some { 1 ≤ guess }
    requires short { guess ≤ 2 ^ 62 }
    requires fails { holds_at test.now guess ≡ false }
    ensures { IsBracket test.now result.within result.beyond }
{
    let mut beyond = guess;
    let mut step = 1;
    while beyond > 1 {
        let next = beyond - step.min(beyond - 1);
        if test.holds(next) {
            return Bracket {
                within: next,
                beyond,
            };
        }
        beyond = next;
        step = doubled(step);
    }
    Bracket { within: 0, beyond }
}

// Twice a step, held at the greatest flow.
fn doubled(step: u64) -> u64
    requires some { 1 ≤ step }
    ensures some { 1 ≤ result }
{
    step.min(MOST) * 2
}

// The lesser flow of a bracket halved until its flows are neighbours.
fn halved(test: &FlowTest, bracket: Bracket) -> u64
    requires { IsBracket test.now bracket.within bracket.beyond }
    ensures { IsBracket test.now result (result + 1) }
{
    let mut within = bracket.within;
    let mut beyond = bracket.beyond;
    while beyond - within > 1 {
        let middle = within + (beyond - within) / 2;
        if test.holds(middle) {
            within = middle;
        } else {
            beyond = middle;
        }
    }
    within
}
