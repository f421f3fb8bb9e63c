//! Tight vectors: sweeps find them, checks accept them and refuse them where a junction is one tick nearer, and the
//! gradient method proposes certificates.
#![tactic(auto)]

ghost use Rattle.std.specs.Prelude.{◌≡◌, ◌<◌, length, IfOk};
ghost use Rattle.hyd_period_network.specs.SoundNets.{HasProblem};

use crate::networks::Row;
use hyd_finders::{Finder, Gradient};
use hyd_net::OutOfMemory;
use hyd_period_network::Net;
use hyd_spec_certificates::{Problem, Side};
use hyd_sweep::{Sweeper, Swept, begin};
use hyd_test_helpers::is_problem;
use hyd_vector_check::{Fails, check};
use std::alloc::Global;

// So many rounds at most toward a tight vector, from where sweeps begin: what they found, and the heads.
fn swept(
    alloc: Global,
    net: &Net,
    problem: Problem,
    side: Side,
    rounds: u32,
) -> Result<(Swept, Vec<i64>), OutOfMemory>
    requires { HasProblem net.now problem }
{
    let junctions = net.junctions();
    let mut sweeper = Sweeper::open(alloc, junctions)?;
    let mut heads = vec![in alloc; 0i64; junctions as usize]?;
    begin(side, &mut heads);
    let found = sweeper.tighten(net, problem, side, None, &mut heads, rounds);
    Ok((found, heads))
}

// The head one tick nearer.
fn nearer(side: Side, head: i64) -> i64 {
    match side {
        Side::Upper => head.saturating_sub(1),
        Side::Lower => head.saturating_add(1),
    }
}

// Whether a vector fails at a junction that is moved one tick nearer.
fn fails_nearer(
    alloc: Global,
    net: &Net,
    problem: Problem,
    side: Side,
    vector: &[i64],
    junction: u32,
) -> Result<bool, OutOfMemory>
    requires problem { HasProblem net.now problem }
    requires each { length vector.now ≡ length net.now.junctions }
    requires there { junction < length net.now.junctions }
{
    let mut moved = Vec::from_slice(alloc, vector)?;
    let head = moved[junction as usize];
    moved[junction as usize] = nearer(side, head);
    Ok(check(net, problem, side, &moved) == Err(Fails { junction }))
}

// Whether a vector is a certificate, and fails at each junction that is moved one tick nearer.
fn is_sharp(
    alloc: Global,
    net: &Net,
    problem: Problem,
    side: Side,
    vector: &[i64],
) -> Result<bool, OutOfMemory>
    requires { HasProblem net.now problem }
{
    let junctions = net.junctions();
    if vector.len() != junctions as usize || check(net, problem, side, vector).is_err() {
        return Ok(false);
    }
    for junction in 0..junctions {
        if !fails_nearer(alloc, net, problem, side, vector, junction)? {
            return Ok(false);
        }
    }
    Ok(true)
}

// Whether sweeps find a vector, and it is sharp.
fn is_found(alloc: Global, net: &Net, row: Row) -> Result<bool, OutOfMemory> {
    if !is_problem(net, row.0) {
        return Ok(false);
    }
    let (found, heads) = swept(alloc, net, row.0, row.1, 200)?;
    if !matches!(found, Swept::Least) || heads.as_slice() != row.2 {
        return Ok(false);
    }
    is_sharp(alloc, net, row.0, row.1, row.2)
}

/// Whether sweeps find each vector, and it is sharp.
pub(crate) fn are_found(alloc: Global, net: &Net, rows: &[Row]) -> Result<bool, OutOfMemory> {
    for row in rows {
        if !is_found(alloc, net, *row)? {
            return Ok(false);
        }
    }
    Ok(true)
}

// Whether sweeps spend 200 rounds.
fn is_spent(alloc: Global, net: &Net, side: Side) -> Result<bool, OutOfMemory> {
    let (found, _heads) = swept(alloc, net, Problem::Main, side, 200)?;
    Ok(matches!(found, Swept::RoundsSpent))
}

/// Whether sweeps spend 200 rounds on both sides.
pub(crate) fn are_spent(alloc: Global, net: &Net) -> Result<bool, OutOfMemory> {
    Ok(is_spent(alloc, net, Side::Upper)? && is_spent(alloc, net, Side::Lower)?)
}

// What the gradient method proposes from where sweeps begin.
fn proposed(alloc: Global, net: &Net, problem: Problem, side: Side) -> Result<Vec<i64>, OutOfMemory>
    requires { HasProblem net.now problem }
    ensures { IfOk result (λ heads. length heads.items ≡ length net.now.junctions) }
{
    let mut finder = Gradient::open(alloc, net)?;
    let mut heads = vec![in alloc; 0i64; net.junctions() as usize]?;
    begin(side, &mut heads);
    finder.propose(net, problem, side, &mut heads);
    Ok(heads)
}

// Whether that is a certificate.
fn is_proposed(alloc: Global, net: &Net, problem: Problem, side: Side) -> Result<bool, OutOfMemory>
    requires { HasProblem net.now problem }
{
    let heads = proposed(alloc, net, problem, side)?;
    Ok(check(net, problem, side, &heads).is_ok())
}

// Whether the gradient method proposes certificates of both sides of a problem.
fn are_both_proposed(alloc: Global, net: &Net, problem: Problem) -> Result<bool, OutOfMemory> {
    if !is_problem(net, problem) {
        return Ok(false);
    }
    Ok(
        is_proposed(alloc, net, problem, Side::Upper)?
            && is_proposed(alloc, net, problem, Side::Lower)?,
    )
}

/// Whether the gradient method proposes certificates of both sides, with all tanks free and with each pinned.
pub(crate) fn are_proposed(alloc: Global, net: &Net) -> Result<bool, OutOfMemory> {
    for tank in 0..net.tanks() {
        if !are_both_proposed(alloc, net, Problem::Pinned(tank))? {
            return Ok(false);
        }
    }
    are_both_proposed(alloc, net, Problem::Main)
}

// Whether the gradient method proposes that the search for a tight vector starts there.
fn is_start(alloc: Global, net: &Net, row: Row) -> Result<bool, OutOfMemory> {
    if !is_problem(net, row.0) {
        return Ok(false);
    }
    let junctions = net.junctions() as usize;
    let mut finder = Gradient::open(alloc, net)?;
    let mut heads = vec![in alloc; 0i64; junctions]?;
    let mut order = vec![in alloc; 0u32; junctions]?;
    let starts = finder.start(net, row.0, row.1, &mut heads, &mut order);
    Ok(starts && heads.as_slice() == row.2)
}

/// Whether the gradient method proposes that the search for each vector starts there.
pub(crate) fn are_starts(alloc: Global, net: &Net, rows: &[Row]) -> Result<bool, OutOfMemory> {
    for row in rows {
        if !is_start(alloc, net, *row)? {
            return Ok(false);
        }
    }
    Ok(true)
}
