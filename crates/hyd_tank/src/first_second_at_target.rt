//! The first second at which a content meets a target.
#![tactic(auto)]

ghost use Rattle.std.specs.Prelude.{◌^◌, ◌<◌, unsigned_abs};
ghost use Rattle.hyd_tank.specs.Contents.{IsFirstMeeting};

use hyd_num::mul_div_ceil;

/// What a content in parts has to meet, at least where it rises and at most where it falls.
#[derive(Clone, Copy, Drop)]
pub(crate) enum Target {
    Always,
    Never,
    Parts(i128),
}

/// The first second, from 1 on, at which a rate a second has met a need, or the cap where none up to it does.
pub(crate) fn first_meeting(need: i128, rate: i128, cap: u32) -> u32
    requires { unsigned_abs need < 2 ^ 127 }
    ensures { IsFirstMeeting need rate cap result }
{
    if need <= rate {
        return cap.min(1);
    }
    if rate <= 0 {
        return cap;
    }
    mul_div_ceil(need, 1, rate).min(i128::from(cap)) as u32
}
