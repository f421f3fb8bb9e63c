//! What controls and rules change.
ghost use Rattle.std.specs.Prelude.{◌≡◌, ◌+◌, ◌<◌, [], ◌∷◌, ◌++◌, length, IfOk};
ghost use Rattle.hyd_net.specs.Sound.{IsSound};

use crate::actions_by_priority::Offer;
use hyd_net::{List, OutOfMemory, Project};
use hyd_spec::Change;
use std::alloc::Global;
use std::marker::Model;

/// The changes of the states of links, in order. Contracts see its rows as `list`, and as `spare` the number of rows
/// that still fit.
#[derive(Drop)]
pub struct Changes {
    pub(crate) rows: List<Change>,
    /// The best offer so far to each link, once rules have offered something. It has room for each row that fits.
    pub(crate) best: Vec<Option<Offer>>,
    /// How many rows fit.
    pub(crate) room: usize,
}

impl Model for Changes {
    ghost use Rattle.std.specs.Prelude.{◌-◌, length};
    ghost use Rattle.hyd_net.specs.ListView.{ListView};
    ghost use Rattle.hyd_spec.specs.declared.Change.{Change};

    ghost Value = { ListView Change };

    ghost use Rattle.hyd_controls_and_rules.specs.ReservedMemory.{HasRoom};

    ghost view = { λ c. record { list = c.rows.list; spare = c.room - length c.rows.list } };

    ghost invariant = { HasRoom };
}

impl Changes {
    /// No changes, with room for one row for each control and one for each link.
    pub fn open(alloc: Global, project: &Project) -> Result<Changes, OutOfMemory>
        requires { IsSound project.now }
        ensures empty { IfOk result (λ changes. changes.list ≡ []) }
        ensures spare { IfOk result (λ changes. changes.spare
            ≡ length project.now.controls.list + length project.now.links.list) }
    {
        let room = project.controls.len() + project.links.len();
        let mut rows = List::new(alloc);
        rows.reserve(room)?;
        let best = Vec::with_capacity(alloc, room)?;
        Ok(Changes { rows, best, room })
    }

    /// The rows in order.
    pub fn rows(&self) -> &[Change]
        ensures { result.now ≡ self.now.list }
    {
        self.rows.as_slice()
    }

    /// Empties it and gives all its room back as spare.
    pub fn clear(&mut self)
        ensures empty { self.new.list ≡ [] }
        ensures spare { self.new.spare ≡ self.old.spare + length self.old.list }
    {
        self.rows.clear();
    }

    /// Appends a row, for which there is room.
    pub(crate) fn push(&mut self, change: Change)
        requires { 0 < self.old.spare }
        ensures rows { self.new.list ≡ self.old.list ++ change ∷ [] }
        ensures spare { self.old.spare ≡ self.new.spare + 1 }
    {
        self.rows.push(change).unwrap();
    }
}
