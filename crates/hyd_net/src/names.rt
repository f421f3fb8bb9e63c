//! `Names`, the IDs of a network's nodes or links.
ghost use Rattle.std.specs.Prelude.{◌≡◌, ◌+◌, ◌^◌, ◌<◌, ◌≤◌, ◌↔◌, [], ◌∷◌, ◌++◌, length, map, position, slice_get, if◌then◌else◌};
ghost use Rattle.std.specs.Prelude.{Contains, IsSome, IfSome, IfOk, OnErr, IsTrue, true, false};
ghost use Rattle.std.specs.Str.{bytes_eq};
ghost use Rattle.hyd_net.specs.Ids.{AreDistinct};

use std::alloc::{AllocError as OutOfMemory, Global};
use std::marker::Model;

/// The IDs of nodes or of links in the order of their numbers, each only once. Contracts see the
/// list of the IDs' bytes: the ID of number i stands at position i.
///
/// A search goes through the list, as `add` does, too: whoever has many IDs to find keeps a table of its own and makes
/// the list of it (`from_distinct`).
#[derive(Drop)]
pub struct Names {
    alloc: Global,
    ids: Vec<Vec<u8>>,
}

impl Model for Names {
    ghost use Rattle.std.specs.Prelude.{ℕ, List, map};
    ghost use Rattle.hyd_net.specs.Ids.{IsTable};

    ghost Value = { List (List ℕ) };

    ghost view = { λ n. map (λ id. id.items) n.ids.items };

    ghost invariant = { λ n. IsTable (map (λ id. id.items) n.ids.items) };
}

// The place of the first ID that is equal to this one.
fn first_equal(ids: &[Vec<u8>], id: &[u8]) -> Option<usize>
    ensures { result ≡ position (λ known. bytes_eq id.now known.items) ids.now }
{
    ids.iter().position(|known| id == known.as_slice())
}

impl Names {
    /// The empty list. It takes no memory.
    pub fn new(alloc: Global) -> Names
        ensures empty { result ≡ [] }
    {
        Names {
            alloc,
            ids: Vec::new(alloc),
        }
    }

    /// The list of IDs of which no two are equal. It takes no memory.
    pub fn from_distinct(alloc: Global, ids: Vec<Vec<u8>>) -> Names
        requires distinct { AreDistinct (map (λ id. id.items) ids.items) }
        requires few { length ids.items ≤ 2 ^ 31 }
        ensures { result ≡ map (λ id. id.items) ids.items }
    {
        Names { alloc, ids }
    }

    /// Gives an ID that isn't there the next number, and answers whether it wasn't there.
    pub fn add(&mut self, id: &[u8]) -> Result<bool, OutOfMemory>
        requires { length self.old < 2 ^ 31 }
        ensures present { IfOk result (λ added. (added ≡ false) ↔ Contains self.old id.now) }
        ensures absent_at_err { OnErr result (¬ Contains self.old id.now) }

        ensures names { IfOk result (λ added. self.new ≡ (if added then self.old ++ id.now ∷ [] else self.old)) }
        ensures err { OnErr result (self.new ≡ self.old) }
        ensures distinct { AreDistinct self.new }
    {
        if self.contains(id) {
            return Ok(false);
        }
        let owned = Vec::from_slice(self.alloc, id)?;
        self.ids.push(owned)?;
        Ok(true)
    }

    fn contains(&self, id: &[u8]) -> bool
        ensures { (result ≡ true) ↔ Contains self.now id.now }
    {
        self.number(id).is_some()
    }

    /// The number of an ID, if it is there.
    pub fn number(&self, id: &[u8]) -> Option<u32>
        ensures found { IsSome result ↔ Contains self.now id.now }
        ensures place { IfSome result (λ number. slice_get self.now number ≡ Some id.now) }
        ensures value { result ≡ position (bytes_eq id.now) self.now }
    {
        let number = first_equal(self.ids.as_slice(), id)?;
        Some(number as u32)
    }

    /// The ID of a number.
    pub fn id(&self, number: u32) -> &[u8]
        requires { number < length self.now }
        ensures { slice_get self.now number ≡ Some result.now }
    {
        self.ids[number as usize].as_slice()
    }

    /// Whether two lists have the same IDs in the same order.
    pub(crate) fn same(&self, other: &Names) -> bool
        ensures { IsTrue result ↔ (self.now ≡ other.now) }
    {
        self.ids.as_slice() == other.ids.as_slice()
    }
}
