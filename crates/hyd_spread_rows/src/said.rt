//! What the rows that were read say of each subject: the last row for all, and for each node the last that names it.
#![tactic(auto)]

ghost use Rattle.std.specs.Prelude.{◌≡◌, ◌<◌, ◌++◌, ◌∷◌, [], ℕ, List};
ghost use Rattle.std.specs.Prelude.{IfOk, IfSome, Some, None, length, slice_index_or, vec_len};
ghost use Rattle.hyd_spec.specs.ProgramTypes.{Project};
ghost use Rattle.hyd_net.specs.Ids.{AreDistinct};
ghost use Rattle.hyd_spec_spread_rows.specs.TextsOfSpreads.{is_subject};
ghost use Rattle.hyd_spread_rows.specs.RowsRead.{IsRow};
ghost use Rattle.hyd_spread_rows.specs.RowsSaid.{IsSaid, AreSaid, HasPlaces, all_after, named_after, ends_at};

use crate::rows::Row;
use hyd_net::OutOfMemory;
use hyd_spec_spread_rows::{Ends, Subject};
use std::alloc::Global;

/// What was said of a subject.
#[derive(Drop)]
pub(crate) struct Said {
    /// Of all.
    pub(crate) all: Option<Ends>,
    /// Of each node alone, by its number.
    pub(crate) named: Vec<Option<Ends>>,
}

/// What was said of each subject.
#[derive(Drop)]
pub(crate) struct Tables {
    pub(crate) demands: Said,
    pub(crate) emitters: Said,
    pub(crate) heads: Said,
    pub(crate) levels: Said,
}

/// Whether two subjects are the same.
pub(crate) fn is_same(one: Subject, other: Subject) -> bool
    ensures { result ≡ is_subject (Some one) other }
{
    match one {
        Subject::Demand => matches!(other, Subject::Demand),
        Subject::Emitter => matches!(other, Subject::Emitter),
        Subject::Head => matches!(other, Subject::Head),
        Subject::Level => matches!(other, Subject::Level),
    }
}

impl Said {
    // Nothing yet, with a place for each of so many nodes.
    fn new(alloc: Global, nodes: usize) -> Result<Said, OutOfMemory>
        ensures all { IfOk result (λ said. said.all ≡ None) }
        ensures places { IfOk result (λ said. vec_len said.named ≡ nodes) }
        ensures named { IfOk result (λ said. (node : ℕ) → slice_index_or said.named.items node None ≡ None) }
    {
        let mut named = Vec::with_capacity(alloc, nodes)?;
        for _node in 0..nodes {
            named.push(None)?;
        }
        Ok(Said { all: None, named })
    }

    // Puts the ends for all, or for a node alone.
    fn set(&mut self, node: Option<u32>, ends: Ends)
        requires { IfSome node (λ node. node < vec_len self.old.named) }
        ensures all { self.new.all ≡ all_after node self.old.all ends }
        ensures named { self.new.named.items ≡ named_after node self.old.named.items ends }
    {
        match node {
            None => self.all = Some(ends),
            Some(node) => self.named[node as usize] = Some(ends),
        }
    }

    // Takes in a row, where it is about this subject.
    fn hear(&mut self, subject: Subject, row: &Row)
        requires { IfSome row.now.node (λ node. node < vec_len self.old.named) }
        ensures places { vec_len self.new.named ≡ vec_len self.old.named }
        ensures said { (project : Project) (rows : List (List (List ℕ))) (words : List (List ℕ))
            → AreDistinct project.node_ids → vec_len self.old.named ≡ length project.node_ids
            → IsRow project words row.now → IsSaid project subject rows self.old
            → IsSaid project subject (rows ++ words ∷ []) self.new }
    {
        if !is_same(row.subject, subject) {
            return;
        }
        self.set(row.node, row.ends);
    }

    /// The ends for a node, its own where no row speaks of it.
    pub(crate) fn ends(&self, node: usize, own: Ends) -> Ends
        requires { node < vec_len self.now.named }
        ensures { result ≡ ends_at self.now own node }
    {
        match self.named[node] {
            Some(ends) => ends,
            None => self.all.unwrap_or(own),
        }
    }
}

impl Tables {
    /// Nothing yet, with a place for each node.
    pub(crate) fn new(alloc: Global, nodes: usize) -> Result<Tables, OutOfMemory>
        ensures places { IfOk result (λ tables. (project : Project) → length project.node_ids ≡ nodes
            → HasPlaces project tables) }
        ensures said { IfOk result (λ tables. (project : Project) → AreSaid project [] tables) }
    {
        let demands = Said::new(alloc, nodes)?;
        let emitters = Said::new(alloc, nodes)?;
        let heads = Said::new(alloc, nodes)?;
        let levels = Said::new(alloc, nodes)?;
        Ok(Tables {
            demands,
            emitters,
            heads,
            levels,
        })
    }

    /// Takes in a row.
    pub(crate) fn hear(&mut self, project: &hyd_net::Project, row: &Row)
        requires places { HasPlaces project.now self.old }
        requires there { IfSome row.now.node (λ node. node < length project.now.node_ids) }
        ensures places { HasPlaces project.now self.new }
        ensures said { (rows : List (List (List ℕ))) (words : List (List ℕ)) → AreDistinct project.now.node_ids
            → IsRow project.now words row.now → AreSaid project.now rows self.old
            → AreSaid project.now (rows ++ words ∷ []) self.new }
    {
        self.demands.hear(Subject::Demand, row);
        self.emitters.hear(Subject::Emitter, row);
        self.heads.hear(Subject::Head, row);
        self.levels.hear(Subject::Level, row);
    }
}
