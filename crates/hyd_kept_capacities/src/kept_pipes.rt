//! Capacities of pipes with Manning's coefficients, kept in the order in which they were made.
#![tactic(auto)]

ghost use Rattle.std.specs.Prelude.{◌≡◌, IfSome};
ghost use Rattle.std.specs.Bool.{OnTrue};
ghost use Rattle.hyd_kept_capacities.specs.KeptPromises.{IsPipeCapacity};

use crate::same_numbers::{differ, differ_in_units};
use hyd_num::{Capacity, Decimal, Origin};
use std::alloc::Global;
use std::marker::Model;

/// The numbers of a file from which a pipe's capacity is made, as in the origin of a pipe.
#[derive(Clone, Copy, Drop)]
pub(crate) struct PipeNumbers {
    pub(crate) length: Decimal,
    pub(crate) diameter: Decimal,
    pub(crate) roughness: Decimal,
    pub(crate) minor: Decimal,
    pub(crate) us: bool,
}

/// Capacities in the order in which they were made, and how many of them were taken again. Contracts see how many are
/// kept.
#[derive(Drop)]
pub(crate) struct KeptPipes {
    kept: Vec<Capacity>,
    taken: usize,
}

impl Model for KeptPipes {
    ghost use Rattle.std.specs.Prelude.{ℕ, length};
    ghost use Rattle.std.specs.List.{All};
    ghost use Rattle.hyd_kept_capacities.specs.KeptPromises.{IsPipeCapacity};

    ghost Value = { ℕ };

    ghost view = { λ pipes. length pipes.kept.items };

    ghost invariant = { λ pipes. All IsPipeCapacity pipes.kept.items };
}

// Whether a capacity is made from these numbers.
fn has_numbers(origin: Origin, numbers: PipeNumbers) -> bool
    ensures { OnTrue result
        (origin ≡ Origin.Pipe numbers.us numbers.length numbers.diameter numbers.roughness numbers.minor) }
{
    let Origin::Pipe {
        length,
        diameter,
        roughness,
        minor,
        us,
    } = origin
    else {
        return false;
    };
    if differ(length, numbers.length) {
        return false;
    }
    if differ(diameter, numbers.diameter) {
        return false;
    }
    if differ(roughness, numbers.roughness) {
        return false;
    }
    if differ(minor, numbers.minor) {
        return false;
    }
    if differ_in_units(us, numbers.us) {
        return false;
    }
    true
}

impl KeptPipes {
    /// None yet. It takes no memory.
    pub(crate) fn new(alloc: Global) -> KeptPipes {
        KeptPipes {
            kept: Vec::new(alloc),
            taken: 0,
        }
    }

    /// Keeps a capacity behind the others, where there is memory for it.
    pub(crate) fn keep(&mut self, capacity: Capacity)
        requires { IsPipeCapacity capacity }
    {
        let _ = self.kept.push(capacity);
    }

    /// The last capacity, where it is of these numbers.
    pub(crate) fn last(&self, numbers: PipeNumbers) -> Option<Capacity>
        ensures origin { IfSome result (λ c. c.origin
            ≡ Origin.Pipe numbers.us numbers.length numbers.diameter numbers.roughness numbers.minor) }
        ensures promises { IfSome result (λ c. IsPipeCapacity c) }
    {
        let count = self.kept.len();
        if count == 0 {
            return None;
        }
        let last = self.kept[count - 1];
        if !has_numbers(last.origin, numbers) {
            return None;
        }
        Some(last)
    }

    /// The first capacity that isn't taken yet, where it is of these numbers.
    pub(crate) fn take(&mut self, numbers: PipeNumbers) -> Option<Capacity>
        ensures origin { IfSome result (λ c. c.origin
            ≡ Origin.Pipe numbers.us numbers.length numbers.diameter numbers.roughness numbers.minor) }
        ensures promises { IfSome result (λ c. IsPipeCapacity c) }
    {
        if self.taken >= self.kept.len() {
            return None;
        }
        let next = self.kept[self.taken];
        if !has_numbers(next.origin, numbers) {
            return None;
        }
        self.taken += 1;
        Some(next)
    }
}
