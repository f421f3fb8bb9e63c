//! The matrix of slopes at given heads, and the step that it gives.
#![tactic(auto)]

ghost use Rattle.std.specs.Prelude.{◌≡◌, length};

use crate::slopes::{put_diagonal, put_slopes};
use crate::ways::Ways;
use hyd_laws_at_scale::Scale;
use hyd_period_network::Net;
use hyd_sparse::Factor;
use std::alloc::{AllocError as OutOfMemory, Global};

/// The parts of a head part in which steps are counted.
pub(crate) const PIECES: i64 = 16;

/// The slopes of all flows at some heads as a matrix over the junctions, and the step that closes their misses if flows
/// go on along their slopes (Newton's method).
#[derive(Drop)]
pub(crate) struct Tangent {
    factor: Factor,
    /// One for each junction, in units of slopes.
    diagonal: Vec<i64>,
    /// One for each link, in units of slopes.
    off: Vec<i64>,
    /// One for each junction, in `PIECES` of a head part.
    step: Vec<i64>,
    ghost diagonals: { length diagonal.items ≡ factor.nodes },
    ghost offs: { length off.items ≡ factor.links },
    ghost steps: { length step.items ≡ factor.nodes },
}

// The two nodes of each link.
fn ends_of_links(alloc: Global, net: &Net) -> Result<Vec<(u32, u32)>, OutOfMemory> {
    let mut rows = Vec::new(alloc);
    for link in 0..net.links() {
        let ends = net.ends(link);
        rows.push((ends.from, ends.to))?;
    }
    Ok(rows)
}

// Puts the misses in pieces.
fn put_pieces(misses: &[i64], step: &mut [i64])
    ensures { length step.new ≡ length step.old }
{
    for (entry, miss) in step.iter_mut().zip(misses) {
        *entry = miss.saturating_mul(PIECES);
    }
}

impl Tangent {
    /// Orders the junctions of a net, and makes room for all numbers.
    pub(crate) fn open(alloc: Global, net: &Net) -> Result<Tangent, OutOfMemory> {
        let rows = ends_of_links(alloc, net)?;
        let junctions = net.junctions();
        let factor = Factor::open(alloc, junctions, &rows)?;
        Ok(Tangent {
            factor,
            diagonal: vec![in alloc; 0i64; junctions as usize]?,
            off: vec![in alloc; 0i64; rows.len()]?,
            step: vec![in alloc; 0i64; junctions as usize]?,
        })
    }

    /// The step of each junction, in `PIECES` of a head part.
    pub(crate) fn step(&self) -> &[i64] {
        &self.step
    }

    /// Puts the slopes at given heads of all nodes, where the junctions miss their balance by so much, and the step
    /// that closes the misses along them.
    pub(crate) fn put(
        &mut self,
        net: &Net,
        ways: &[Ways],
        scale: Scale,
        heads: &[i128],
        misses: &[i64],
    ) {
        put_slopes(net, ways, scale, heads, &mut self.off);
        put_diagonal(net, scale, heads, misses, &self.off, &mut self.diagonal);
        self.factor.factor(&self.diagonal, &self.off);
        put_pieces(misses, &mut self.step);
        self.factor.solve(&mut self.step);
    }
}
