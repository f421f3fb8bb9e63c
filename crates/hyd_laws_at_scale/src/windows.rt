//! The low and the high flow of a law.
#![tactic(auto)]

ghost use Rattle.std.specs.Prelude.{◌≡◌, ◌*◌, ◌^◌, ◌≤◌, unsigned_abs};

/// The low and the high flow at a head difference or a pressure, in parts of a flow tick: the exact flow lies between
/// them.
#[derive(Clone, Copy, Drop)]
pub struct Window {
    pub low: i128,
    pub high: i128,
    pub ghost low_small: { unsigned_abs low ≤ 241 * 10 ^ 20 },
    pub ghost high_small: { unsigned_abs high ≤ 241 * 10 ^ 20 },
}

/// The window of these two flows.
pub(crate) fn window_of(low: i128, high: i128) -> Window
    requires low { unsigned_abs low ≤ 241 * 10 ^ 20 }
    requires high { unsigned_abs high ≤ 241 * 10 ^ 20 }
    ensures low { result.low ≡ low }
    ensures high { result.high ≡ high }
{
    Window { low, high }
}
