//! Where the numbers of a factor stand. This is found once, and holds for all numbers.
ghost use Rattle.std.specs.Prelude.{◌≡◌, ◌<◌, ◌-◌, length, slice_get, take, drop};
ghost use Rattle.std.specs.List.{All};
ghost use Rattle.hyd_sparse.specs.Tables.{IsColumn, IsSpan, IsUpdate, IsTerm};

use crate::tables::{Column, Span, Term, Update};

/// The columns in the order of elimination, and the tables whose stretches are theirs.
#[derive(Drop)]
pub(crate) struct Pattern {
    pub columns: Vec<Column>,
    /// The row of each entry below the diagonal.
    pub rows: Vec<u32>,
    pub updates: Vec<Update>,
    pub terms: Vec<Term>,
    /// For each place, the one to swap it with: all in turn bring the nodes' numbers into the order
    /// of elimination.
    pub swaps: Vec<u32>,
    /// For how many links numbers off the diagonal are handed in.
    pub links: usize,
    ghost rows_inside: { All (λ row. row < length columns.items) rows.items },
    ghost updates_inside: { All (IsUpdate (length columns.items) (length rows.items)) updates.items },
    ghost terms_inside: { All (IsTerm (length columns.items) links) terms.items },
    ghost swaps_inside: { All (λ place. place < length columns.items) swaps.items },
    ghost columns_inside: { All (IsColumn (length columns.items) (length rows.items) (length updates.items)
        (length terms.items)) columns.items },
}

impl Pattern {
    pub fn column(&self, place: usize) -> Column
        requires { place < length self.now.columns.items }
        ensures column { slice_get self.now.columns.items place ≡ Some result }
        ensures inside { IsColumn (length self.now.columns.items) (length self.now.rows.items)
            (length self.now.updates.items) (length self.now.terms.items) result }
    {
        self.columns[place]
    }

    pub fn rows_of(&self, entries: Span) -> &[u32]
        requires { IsSpan (length self.now.rows.items) entries }
        ensures rows { result.now ≡ take (entries.to - entries.from) (drop entries.from self.now.rows.items) }
        ensures inside { All (λ row. row < length self.now.columns.items) result.now }
    {
        &self.rows[entries.from..entries.to]
    }

    pub fn updates_of(&self, updates: Span) -> &[Update]
        requires { IsSpan (length self.now.updates.items) updates }
        ensures updates { result.now ≡ take (updates.to - updates.from) (drop updates.from self.now.updates.items) }
        ensures inside { All (IsUpdate (length self.now.columns.items) (length self.now.rows.items)) result.now }
    {
        &self.updates[updates.from..updates.to]
    }

    pub fn terms_of(&self, terms: Span) -> &[Term]
        requires { IsSpan (length self.now.terms.items) terms }
        ensures terms { result.now ≡ take (terms.to - terms.from) (drop terms.from self.now.terms.items) }
        ensures inside { All (IsTerm (length self.now.columns.items) self.now.links) result.now }
    {
        &self.terms[terms.from..terms.to]
    }
}
