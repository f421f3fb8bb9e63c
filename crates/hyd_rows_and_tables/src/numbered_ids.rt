//! IDs that are looked for often while a file is read.
#![tactic(auto)]

ghost use Rattle.std.specs.Prelude.{◌≡◌, ◌+◌, ◌^◌, ◌<◌, ◌↔◌, [], ◌∷◌, ◌++◌, length, map, position, slice_get, if◌then◌else◌};
ghost use Rattle.std.specs.Prelude.{Contains, IsSome, IfSome, IfOk, OnErr, false};
ghost use Rattle.std.specs.Str.{bytes_eq};
ghost use Rattle.hyd_net.specs.Ids.{AreDistinct};

use hyd_net::{Names, OutOfMemory};
use indexmap::IndexSet;
use std::alloc::Global;
use std::marker::Model;

/// IDs in the order of their numbers, each only once, found by their hash. Contracts see the list of the IDs' bytes: the
/// ID of number i stands at position i.
#[derive(Drop)]
pub struct NumberedIds {
    alloc: Global,
    ids: IndexSet<Vec<u8>>,
}

impl Model for NumberedIds {
    ghost use Rattle.std.specs.Prelude.{ℕ, List, map};
    ghost use Rattle.hyd_net.specs.Ids.{IsTable};

    ghost Value = { List (List ℕ) };

    ghost view = { λ n. map (λ id. id.items) n.ids.keys };

    ghost invariant = { λ n. IsTable (map (λ id. id.items) n.ids.keys) };
}

impl NumberedIds {
    /// The empty table. It takes no memory.
    pub fn new(alloc: Global) -> NumberedIds
        ensures empty { result ≡ [] }
    {
        NumberedIds {
            alloc,
            ids: IndexSet::new(alloc),
        }
    }

    /// Gives an ID that isn't there the next number, and answers whether it wasn't there.
    pub fn add(&mut self, id: &[u8]) -> Result<bool, OutOfMemory>
        requires { length self.old < 2 ^ 31 }
        ensures present { IfOk result (λ added. (added ≡ false) ↔ Contains self.old id.now) }
        ensures absent_at_err { OnErr result (¬ Contains self.old id.now) }

        ensures names { IfOk result (λ added. self.new ≡ (if added then self.old ++ id.now ∷ [] else self.old)) }
        ensures err { OnErr result (self.new ≡ self.old) }
        ensures distinct { AreDistinct self.new }
    {
        if self.ids.contains(id) {
            return Ok(false);
        }
        let owned = Vec::from_slice(self.alloc, id)?;
        self.ids.insert(owned)?;
        Ok(true)
    }

    /// The number of an ID, if it is there.
    pub fn number(&self, id: &[u8]) -> Option<u32>
        ensures found { IsSome result ↔ Contains self.now id.now }
        ensures place { IfSome result (λ number. slice_get self.now number ≡ Some id.now) }
        ensures value { result ≡ position (bytes_eq id.now) self.now }
    {
        let number = self.ids.get_index_of(id)?;
        Some(number as u32)
    }

    /// The IDs alone, in the order of their numbers, as a network keeps them.
    pub fn names(&self) -> Result<Names, OutOfMemory>
        ensures { IfOk result (λ names. names ≡ self.now) }
    {
        let ids = copied(self.alloc, self.ids.as_slice())?;
        Ok(Names::from_distinct(self.alloc, ids))
    }
}

// The same IDs in memory of their own.
fn copied(alloc: Global, ids: &[Vec<u8>]) -> Result<Vec<Vec<u8>>, OutOfMemory>
    ensures { IfOk result (λ copies. map (λ id. id.items) copies.items ≡ map (λ id. id.items) ids.now) }
{
    let mut copies = Vec::with_capacity(alloc, ids.len())?;
    for id in ids {
        let copy = Vec::from_slice(alloc, id.as_slice())?;
        copies.push(copy)?;
    }
    Ok(copies)
}
