//! The scale of a witness.
#![tactic(auto)]

ghost use Rattle.std.specs.Prelude.{◌≤◌};

/// In how many parts a tick is taken: `2^power`, at most 1,024.
#[derive(Clone, Copy, Drop)]
pub struct Scale {
    pub power: u32,
    pub ghost small: { power ≤ 10 },
}
