//! `Factor`, the factor of a matrix.
ghost use Rattle.std.specs.Prelude.{◌≡◌, length, IfOk};

use crate::numeric_factorization::eliminate;
use crate::pattern::Pattern;
use crate::pattern_from_links::make_pattern;
use crate::solution::{solve, solve_reals};
use std::alloc::{AllocError as OutOfMemory, Global};
use std::marker::Model;

/// The number that stands for 1 in the matrix: its numbers are whole multiples of 2^-29.
pub const UNIT: i64 = 536870912;

/// A symmetric matrix over the nodes of a network as the product L D L^T, with the nodes in an order
/// of elimination in which L has few entries. Its numbers off the diagonal belong to links; the
/// numbers of links between the same two nodes add up. All its memory is taken when it is opened.
///
/// The gradient method has junctions for nodes and slopes for numbers, flow ticks a head tick.
/// Contracts see how many nodes and links there are, and promise nothing of the numbers.
#[derive(Drop)]
pub struct Factor {
    pattern: Pattern,
    /// The diagonal D.
    pivots: Vec<f64>,
    /// The entries of L below its diagonal, which is all ones.
    values: Vec<f64>,
    /// Sums of one column's rows while it is eliminated, zeros before and after.
    sums: Vec<f64>,
}

impl Model for Factor {
    ghost use Rattle.std.specs.Prelude.{◌≡◌, length};
    ghost use Rattle.hyd_sparse.specs.FactorView.{Shape};

    ghost Value = { Shape };

    ghost view = { λ factor. record { nodes = length factor.pattern.columns.items; links = factor.pattern.links } };

    ghost invariant = { λ factor.
        (length factor.pivots.items ≡ length factor.pattern.columns.items)
        × (length factor.values.items ≡ length factor.pattern.rows.items)
        × (length factor.sums.items ≡ length factor.pattern.columns.items) };
}

impl Factor {
    /// Orders the n nodes, and makes room for all numbers. Each row names a link's two nodes, and is
    /// the place of one number off the diagonal. A row that names a number past the nodes, or one node
    /// twice, has no such place: it may stand there, and its number is passed over.
    pub fn open(alloc: Global, n: u32, rows: &[(u32, u32)]) -> Result<Factor, OutOfMemory>
        ensures nodes { IfOk result (λ factor. factor.nodes ≡ n) }
        ensures links { IfOk result (λ factor. factor.links ≡ length rows.now) }
    {
        let pattern = make_pattern(alloc, n, rows)?;
        let pivots = vec![in alloc; 1.0; pattern.columns.len()]?;
        let values = vec![in alloc; 0.0; pattern.rows.len()]?;
        let sums = vec![in alloc; 0.0; pattern.columns.len()]?;
        Ok(Factor {
            pattern,
            pivots,
            values,
            sums,
        })
    }

    /// Factors the matrix with these numbers in units of 1 / `UNIT`: `diagonal` has one for each node,
    /// `off` one for each row that the factor was opened with. Before the first call the matrix is 1.
    pub fn factor(&mut self, diagonal: &[i64], off: &[i64])
        requires diagonal { length diagonal.now ≡ self.old.nodes }
        requires off { length off.now ≡ self.old.links }
        ensures { self.new ≡ self.old }
    {
        eliminate(
            &self.pattern,
            diagonal,
            off,
            &mut self.pivots,
            &mut self.values,
            &mut self.sums,
        );
    }

    /// Puts in place of b, which has a number for each node, the solution x of A x = b for the matrix
    /// A, cut to whole numbers. Sums that would pass 64 bits are held at the type's ends.
    pub fn solve(&self, b: &mut [i64])
        requires { length b.old ≡ self.now.nodes }
        ensures { length b.new ≡ length b.old }
    {
        solve(&self.pattern, &self.pivots, &self.values, b);
    }

    /// Factors the matrix with these numbers in floating point: `diagonal` has one for each node, `off`
    /// one for each row that the factor was opened with; lists of other lengths are passed over. Pivots
    /// are 2^-30 at least.
    pub fn factor_reals(&mut self, diagonal: &[f64], off: &[f64])
        ensures { self.new ≡ self.old }
    {
        if diagonal.len() == self.pattern.columns.len() && off.len() == self.pattern.links {
            eliminate(
                &self.pattern,
                diagonal,
                off,
                &mut self.pivots,
                &mut self.values,
                &mut self.sums,
            );
        }
    }

    /// Puts in place of b, which has a number for each node, the solution x of A x = b for the matrix
    /// A, in floating point. A list of another length is left as it is.
    pub fn solve_reals(&self, b: &mut [f64])
        ensures { length b.new ≡ length b.old }
    {
        if b.len() == self.pattern.columns.len() {
            solve_reals(&self.pattern, &self.pivots, &self.values, b);
        }
    }
}
