//! `List`, the list that every public field holds.
ghost use Rattle.std.specs.Prelude.{◌≡◌, ◌+◌, ◌<◌, ◌≤◌, [], ◌∷◌, ◌++◌, length, IfOk, IsOk, OnOk, OnErr};
ghost use Rattle.std.specs.Borrow.{sem};
ghost use Rattle.hyd_net.specs.ListAfterBorrow.{lends_items};

use std::alloc::{AllocError as OutOfMemory, Global};
use std::marker::Model;

/// A list that keeps its allocator. Contracts see its items as `list`, and as `spare` a number of
/// items that still fit without memory being taken.
#[derive(Drop)]
pub struct List<T> {
    items: Vec<T>,
}

impl<T> Model for List<T> {
    ghost use Rattle.std.specs.Prelude.{◌-◌};
    ghost use Rattle.std.specs.Vec.{vec_len, vec_capacity};
    ghost use Rattle.hyd_net.specs.ListView.{ListView};

    ghost Value = { ListView T };

    ghost view = { λ l. record { list = l.items.items; spare = vec_capacity l.items - vec_len l.items } };
}

impl<T: Drop> List<T> {
    /// The empty list. It takes no memory.
    pub fn new(alloc: Global) -> List<T>
        ensures empty { result.list ≡ [] }
    {
        List {
            items: Vec::new(alloc),
        }
    }

    /// The empty list, with room for so many items.
    pub fn with_room(alloc: Global, items: usize) -> Result<List<T>, OutOfMemory>
        ensures empty { IfOk result (λ list. list.list ≡ []) }
        ensures room { IfOk result (λ list. items ≤ list.spare) }
    {
        let mut list = List::new(alloc);
        list.reserve(items)?;
        Ok(list)
    }

    /// Makes room for `more` further items.
    pub fn reserve(&mut self, more: usize) -> Result<(), OutOfMemory>
        ensures list { self.new.list ≡ self.old.list }
        ensures room { OnOk result (more ≤ self.new.spare) }
        ensures keeps_room { self.old.spare ≤ self.new.spare }
        ensures succeeds { more ≤ self.old.spare → IsOk result }
        ensures err { OnErr result (self.new.spare ≡ self.old.spare) }
    {
        self.items.reserve(more)
    }

    /// Appends an item. With a spare above 0 this takes no memory and succeeds.
    pub fn push(&mut self, item: T) -> Result<(), OutOfMemory>
        ensures ok { OnOk result (self.new.list ≡ self.old.list ++ item ∷ []) }
        ensures err { OnErr result (self.new.list ≡ self.old.list) }
        ensures succeeds { 0 < self.old.spare → IsOk result }
        ensures spare { self.old.spare ≤ self.new.spare + 1 }
    {
        self.items.push(item)?;
        Ok(())
    }

    /// Empties the list and gives all its room back as spare.
    pub fn clear(&mut self)
        ensures empty { self.new.list ≡ [] }
        ensures spare { self.new.spare ≡ self.old.spare + length self.old.list }
    {
        self.items.clear();
    }

    /// The number of items.
    pub fn len(&self) -> usize
        ensures { result ≡ length self.now.list }
    {
        self.items.len()
    }

    /// The items in order.
    pub fn as_slice(&self) -> &[T]
        ensures { result.now ≡ self.now.list }
    {
        self.items.as_slice()
    }

    /// The items in order, to be written in place. What is written there is in the list after the
    /// borrow, and the spare stays.
    pub fn as_mut_slice(&mut self) -> &mut [T]
        ensures* writes_back { sem 𝓛 (lends_items T.row self.entry result) }
        ensures items { result.now ≡ self.old.list }
    {
        self.items.as_mut_slice()
    }
}
