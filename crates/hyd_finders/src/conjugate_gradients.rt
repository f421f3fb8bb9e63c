//! Steps by conjugate gradients (Hestenes and Stiefel 1952), where the factor of slopes nearby makes them few.
#![tactic(auto)]

ghost use Rattle.std.specs.Prelude.{◌≡◌, length};

use crate::number_lists::{add_multiples, add_real_at, clear, copy_reals, product, real_at};
use hyd_period_network::Net;
use hyd_sparse::Factor;
use std::alloc::{AllocError as OutOfMemory, Global};

/// The most iterations: beyond these a factor of the slopes themselves is had for less.
const ITERATIONS: u32 = 4;

/// The part of the misses, squared, that a step may leave.
const LEFT: f64 = 1e-6;

/// Room for iterations over the junctions of a net, opened once.
#[derive(Drop)]
pub(crate) struct Gradients {
    /// What the step so far leaves of the misses.
    residues: Vec<f64>,
    /// The same as a step by the factor.
    answers: Vec<f64>,
    direction: Vec<f64>,
    /// What a step along the direction changes.
    image: Vec<f64>,
}

// Puts the diagonal's part of what a direction changes.
fn put_own(diagonal: &[f64], direction: &[f64], image: &mut [f64])
    ensures { length image.new ≡ length image.old }
{
    for ((entry, slope), number) in image.iter_mut().zip(diagonal).zip(direction) {
        *entry = *slope * *number;
    }
}

// Adds the part of the links.
fn add_links(net: &Net, off: &[f64], direction: &[f64], image: &mut [f64])
    ensures { length image.new ≡ length image.old }
{
    for link in 0..net.links() {
        let ends = net.ends(link);
        let slope = real_at(off, link);
        add_real_at(image, ends.from, slope * real_at(direction, ends.to));
        add_real_at(image, ends.to, slope * real_at(direction, ends.from));
    }
}

// Turns the direction: the answers, and a part of the direction before.
fn turn(answers: &[f64], part: f64, direction: &mut [f64])
    ensures { length direction.new ≡ length direction.old }
{
    for (entry, number) in direction.iter_mut().zip(answers) {
        *entry = *number + part * *entry;
    }
}

impl Gradients {
    /// Room for a net's junctions.
    pub(crate) fn open(alloc: Global, junctions: u32) -> Result<Gradients, OutOfMemory> {
        let size = junctions as usize;
        Ok(Gradients {
            residues: vec![in alloc; 0.0; size]?,
            answers: vec![in alloc; 0.0; size]?,
            direction: vec![in alloc; 0.0; size]?,
            image: vec![in alloc; 0.0; size]?,
        })
    }

    // Puts the residues as a step by the factor, and gives their product with it.
    fn answer(&mut self, factor: &Factor) -> f64 {
        copy_reals(&self.residues, &mut self.answers);
        factor.solve_reals(&mut self.answers);
        product(&self.residues, &self.answers)
    }

    // Goes along the direction as far as serves, and tells whether what is left is little enough. Fails where it goes
    // nowhere.
    fn advance(
        &mut self,
        net: &Net,
        diagonal: &[f64],
        off: &[f64],
        grade: f64,
        step: &mut [f64],
    ) -> bool
        ensures { length step.new ≡ length step.old }
    {
        put_own(diagonal, &self.direction, &mut self.image);
        add_links(net, off, &self.direction, &mut self.image);
        let rise = product(&self.direction, &self.image);
        if !(rise > 0.0) {
            return false;
        }
        add_multiples(&self.direction, grade / rise, step);
        add_multiples(&self.image, -(grade / rise), &mut self.residues);
        true
    }

    /// Puts the step that closes the misses along slopes, by the factor of others, and tells whether a few iterations
    /// came near enough.
    pub(crate) fn solve(
        &mut self,
        net: &Net,
        factor: &Factor,
        diagonal: &[f64],
        off: &[f64],
        misses: &[f64],
        step: &mut [f64],
    ) -> bool
        ensures { length step.new ≡ length step.old }
    {
        clear(step);
        copy_reals(misses, &mut self.residues);
        let goal = product(misses, misses) * LEFT;
        let mut grade = self.answer(factor);
        copy_reals(&self.answers, &mut self.direction);
        for _ in 0..ITERATIONS {
            if !self.advance(net, diagonal, off, grade, step) {
                return false;
            }
            if product(&self.residues, &self.residues) <= goal {
                return true;
            }
            let next = self.answer(factor);
            turn(&self.answers, next / grade, &mut self.direction);
            grade = next;
        }
        false
    }
}
