//! Capacities of pipes with Hazen-Williams coefficients, kept in the order in which they were made.
#![tactic(auto)]

ghost use Rattle.std.specs.Prelude.{◌≡◌, IfSome};
ghost use Rattle.std.specs.Bool.{OnTrue};
ghost use Rattle.hyd_kept_capacities.specs.KeptPromises.{IsPowerPipeCapacity};

use crate::same_numbers::{differ, differ_in_units};
use hyd_spec_power_laws::{HazenWilliamsPipe, PowerCapacity};
use std::alloc::Global;
use std::marker::Model;

/// Capacities in the order in which they were made, and how many of them were taken again. Contracts see how many are
/// kept.
#[derive(Drop)]
pub(crate) struct KeptPowerPipes {
    kept: Vec<PowerCapacity>,
    taken: usize,
}

impl Model for KeptPowerPipes {
    ghost use Rattle.std.specs.Prelude.{ℕ, length};
    ghost use Rattle.std.specs.List.{All};
    ghost use Rattle.hyd_kept_capacities.specs.KeptPromises.{IsPowerPipeCapacity};

    ghost Value = { ℕ };

    ghost view = { λ pipes. length pipes.kept.items };

    ghost invariant = { λ pipes. All IsPowerPipeCapacity pipes.kept.items };
}

// Whether two pipes have the same numbers.
fn are_same(one: HazenWilliamsPipe, other: HazenWilliamsPipe) -> bool
    ensures { OnTrue result (one ≡ other) }
{
    if differ(one.length, other.length) {
        return false;
    }
    if differ(one.diameter, other.diameter) {
        return false;
    }
    if differ(one.coefficient, other.coefficient) {
        return false;
    }
    if differ(one.minor, other.minor) {
        return false;
    }
    if differ_in_units(one.us, other.us) {
        return false;
    }
    true
}

impl KeptPowerPipes {
    /// None yet. It takes no memory.
    pub(crate) fn new(alloc: Global) -> KeptPowerPipes {
        KeptPowerPipes {
            kept: Vec::new(alloc),
            taken: 0,
        }
    }

    /// Keeps a capacity behind the others, where there is memory for it.
    pub(crate) fn keep(&mut self, capacity: PowerCapacity)
        requires { IsPowerPipeCapacity capacity }
    {
        let _ = self.kept.push(capacity);
    }

    /// The last capacity, where it is of this pipe.
    pub(crate) fn last(&self, pipe: HazenWilliamsPipe) -> Option<PowerCapacity>
        ensures pipe { IfSome result (λ c. c.pipe ≡ pipe) }
        ensures promises { IfSome result (λ c. IsPowerPipeCapacity c) }
    {
        let count = self.kept.len();
        if count == 0 {
            return None;
        }
        let last = self.kept[count - 1];
        if !are_same(last.pipe, pipe) {
            return None;
        }
        Some(last)
    }

    /// The first capacity that isn't taken yet, where it is of this pipe.
    pub(crate) fn take(&mut self, pipe: HazenWilliamsPipe) -> Option<PowerCapacity>
        ensures pipe { IfSome result (λ c. c.pipe ≡ pipe) }
        ensures promises { IfSome result (λ c. IsPowerPipeCapacity c) }
    {
        if self.taken >= self.kept.len() {
            return None;
        }
        let next = self.kept[self.taken];
        if !are_same(next.pipe, pipe) {
            return None;
        }
        self.taken += 1;
        Some(next)
    }
}
