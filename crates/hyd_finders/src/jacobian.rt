//! The matrix of slopes at given heads, and the step that it gives.
#![tactic(auto)]

use crate::conjugate_gradients::Gradients;
use crate::flow_curves::Curve;
use crate::number_lists::copy_reals;
use crate::slopes::{put_diagonal, put_slopes};
use hyd_period_network::Net;
use hyd_sparse::Factor;
use std::alloc::{AllocError as OutOfMemory, Global};

/// The slopes of all flows at some heads as a matrix over the junctions, and the step that closes their misses if flows
/// go on along their slopes (Newton's method).
#[derive(Drop)]
pub(crate) struct Tangent {
    /// The factor of the slopes, or of others that it was made for last.
    factor: Factor,
    gradients: Gradients,
    /// One for each junction, in flow ticks a head tick.
    diagonal: Vec<f64>,
    /// One for each link, in flow ticks a head tick.
    off: Vec<f64>,
    /// One for each junction, in head ticks.
    step: Vec<f64>,
}

// The two nodes of each link.
fn ends_of_links(alloc: Global, net: &Net) -> Result<Vec<(u32, u32)>, OutOfMemory> {
    let mut rows = Vec::new(alloc);
    for link in 0..net.links() {
        let ends = net.ends(link);
        rows.push((ends.from, ends.to))?;
    }
    Ok(rows)
}

impl Tangent {
    /// Orders the junctions of a net, and makes room for all numbers.
    pub(crate) fn open(alloc: Global, net: &Net) -> Result<Tangent, OutOfMemory> {
        let rows = ends_of_links(alloc, net)?;
        let junctions = net.junctions();
        let factor = Factor::open(alloc, junctions, &rows)?;
        Ok(Tangent {
            factor,
            gradients: Gradients::open(alloc, junctions)?,
            diagonal: vec![in alloc; 0.0; junctions as usize]?,
            off: vec![in alloc; 0.0; rows.len()]?,
            step: vec![in alloc; 0.0; junctions as usize]?,
        })
    }

    /// The diagonal: the slopes at each junction.
    pub(crate) fn diagonal(&self) -> &[f64] {
        &self.diagonal
    }

    /// The step of each junction, in head ticks.
    pub(crate) fn step(&self) -> &[f64] {
        &self.step
    }

    /// Puts the slopes at given heads of all nodes, where the junctions miss their balance by so much.
    pub(crate) fn put(
        &mut self,
        net: &Net,
        curves: &[Curve],
        flat: &[Option<f64>],
        heads: &[i64],
        misses: &[f64],
    ) {
        put_slopes(net, curves, heads, &mut self.off);
        put_diagonal(net, flat, heads, misses, &self.off, &mut self.diagonal);
    }

    /// The slopes of links with the sign turned.
    pub(crate) fn slopes(&self) -> &[f64] {
        &self.off
    }

    /// The same, to be put.
    pub(crate) fn slopes_to_put(&mut self) -> &mut [f64] {
        &mut self.off
    }

    /// Puts the step that closes the misses along the slopes.
    pub(crate) fn solve(&mut self, misses: &[f64]) {
        self.factor.factor_reals(&self.diagonal, &self.off);
        copy_reals(misses, &mut self.step);
        self.factor.solve_reals(&mut self.step);
    }

    /// The same where the slopes of links stand already, and those of outflows are taken at given heads.
    pub(crate) fn solve_by_links(
        &mut self,
        net: &Net,
        flat: &[Option<f64>],
        heads: &[i64],
        misses: &[f64],
    ) {
        put_diagonal(net, flat, heads, misses, &self.off, &mut self.diagonal);
        self.solve(misses);
    }

    // Whether the factor that was made last leads to the step.
    fn is_solved_nearby(&mut self, net: &Net, misses: &[f64]) -> bool {
        self.gradients.solve(
            net,
            &self.factor,
            &self.diagonal,
            &self.off,
            misses,
            &mut self.step,
        )
    }

    /// Puts the step that closes the misses along the slopes, where they are near by the factor that was made last, if
    /// that leads there.
    pub(crate) fn solve_at(&mut self, net: &Net, misses: &[f64], near: bool) {
        if !near || !self.is_solved_nearby(net, misses) {
            self.solve(misses);
        }
    }
}
