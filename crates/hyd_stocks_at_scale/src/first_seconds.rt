//! When a content meets a target.
#![tactic(auto)]

ghost use Rattle.std.specs.Prelude.{◌≡◌, ◌*◌, ◌^◌, ◌<◌, ◌≤◌, unsigned_abs};
ghost use Rattle.std.specs.Bool.{OnTrue, OnFalse};
ghost use Rattle.hyd_tank.specs.Contents.{IsFirstMeeting};
ghost use Rattle.hyd_stocks_at_scale.specs.Motions.{IsMotion, exact_shares};
ghost use Rattle.hyd_stocks_at_scale.specs.Targets.{Meets, IsSmall, IsFirstMet};

use crate::motions::{Motion, shares_after};
use hyd_num::mul_div_ceil;

/// What a content in shares has to meet, at least where it rises and at most where it falls.
#[derive(Clone, Copy, Drop)]
pub(crate) enum Target {
    Always,
    Never,
    Shares(i128),
}

/// Whether a content has met a target after some seconds.
pub(crate) fn meets(motion: Motion, target: Target, rising: bool, seconds: u32) -> bool
    requires motion { IsMotion motion }
    requires target { IsSmall target }
    ensures yes { OnTrue result (Meets rising target (exact_shares motion seconds)) }
    ensures no { OnFalse result (Meets rising target (exact_shares motion seconds) → ⊥) }
{
    match target {
        Target::Always => true,
        Target::Never => false,
        Target::Shares(shares) if rising => shares <= shares_after(motion, seconds),
        Target::Shares(shares) => shares_after(motion, seconds) <= shares,
    }
}

/// The first second, from 1 on, at which a rate a second has met a need, or the cap where none up to it does.
fn first_meeting(need: i128, rate: i128, cap: u32) -> u32
    requires { unsigned_abs need < 2 ^ 127 }
    ensures { IsFirstMeeting need rate cap result }
{
    if need <= rate {
        return cap.min(1);
    }
    if rate <= 0 {
        return cap;
    }
    mul_div_ceil(need, 1, rate).min(i128::from(cap)) as u32
}

/// The first second, from 1 on, at which a content has met a target, or the cap where none up to it does.
pub(crate) fn first_met(motion: Motion, target: Target, rising: bool, cap: u32) -> u32
    requires motion { IsMotion motion }
    requires target { IsSmall target }
    ensures { IsFirstMet motion target rising cap result }
{
    match target {
        Target::Always => cap.min(1),
        Target::Never => cap,
        Target::Shares(shares) if rising => {
            first_meeting(shares - motion.start, motion.rate, cap)
        }
        Target::Shares(shares) => first_meeting(motion.start - shares, -motion.rate, cap),
    }
}
