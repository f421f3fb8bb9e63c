//! The ends that rows give to all nodes.
#![tactic(auto)]

ghost use Rattle.std.specs.Prelude.{◌≡◌, ◌+◌, ◌<◌, ◌≤◌, ℕ, List};
ghost use Rattle.std.specs.Prelude.{IfOk, length, slice_index_or, slice_get, Some, vec_len};
ghost use Rattle.hyd_spec.specs.ProgramTypes.{Tank};
ghost use Rattle.hyd_spec_spread_rows.specs.declared.Ends.{Ends};
ghost use Rattle.hyd_net.specs.Sound.{IsSound};
ghost use Rattle.hyd_spec_spread_rows.specs.TextsOfSpreads.{at_both as both, demand_ends, emitter_ends, head_ends};
ghost use Rattle.hyd_spec_spread_rows.specs.TextsOfSpreads.{level_ends};
ghost use Rattle.hyd_spread_rows.specs.RowsSaid.{AreSaid, HasPlaces, ends_at};

use crate::numbers::ONE;
use crate::said::{Said, Tables};
use hyd_net::{OutOfMemory, Project, Tank};
use hyd_spec_spread_rows::Ends;
use std::alloc::Global;

/// What a spread leaves open: two ends for the demand of each junction, for the coefficient of its emitter (of a
/// junction without one they mean nothing), for the head of each reservoir and for the initial level of each tank, in
/// the network's order. Factors are in billionths, offsets of heads and levels in head ticks.
#[derive(Drop)]
pub struct SpreadRows {
    pub demands: Vec<Ends>,
    pub emitters: Vec<Ends>,
    pub heads: Vec<Ends>,
    pub levels: Vec<Ends>,
}

/// The ends for so many nodes from one on, which all have the same own ends.
pub(crate) fn for_nodes(
    alloc: Global,
    said: &Said,
    from: usize,
    count: usize,
    own: Ends,
) -> Result<Vec<Ends>, OutOfMemory>
    requires { from + count ≤ vec_len said.now.named }
    ensures count { IfOk result (λ v. vec_len v ≡ count) }
    ensures each { IfOk result (λ v. (k : ℕ) → k < count
        → slice_index_or v.items k own ≡ ends_at said.now own (from + k)) }
{
    let mut each = Vec::with_capacity(alloc, count)?;
    for k in 0..count {
        each.push(said.ends(from + k, own))?;
    }
    Ok(each)
}

// A tank's initial level as both ends.
fn own_level(tank: &Tank) -> Ends
    ensures { result ≡ both tank.now.initial }
{
    Ends {
        low: i128::from(tank.initial),
        high: i128::from(tank.initial),
    }
}

/// The ends for tanks, which are the nodes from one on.
pub(crate) fn for_tanks(
    alloc: Global,
    said: &Said,
    from: usize,
    tanks: &[Tank],
) -> Result<Vec<Ends>, OutOfMemory>
    requires { from + length tanks.now ≤ vec_len said.now.named }
    ensures count { IfOk result (λ v. vec_len v ≡ length tanks.now) }
    ensures each { IfOk result (λ v. (k : ℕ) (tank : Tank) (own : Ends) → slice_get tanks.now k ≡ Some tank
        → slice_index_or v.items k own ≡ ends_at said.now (both tank.initial) (from + k)) }
{
    let mut each = Vec::with_capacity(alloc, tanks.len())?;
    for k in 0..tanks.len() {
        each.push(said.ends(from + k, own_level(&tanks[k])))?;
    }
    Ok(each)
}

// The same end twice.
fn at_both(end: i128) -> Ends
    ensures { result ≡ both end }
{
    Ends {
        low: end,
        high: end,
    }
}

/// The ends for all nodes of a network.
pub(crate) fn resolve(
    alloc: Global,
    project: &Project,
    tables: &Tables,
) -> Result<SpreadRows, OutOfMemory>
    requires sound { IsSound project.now }
    requires places { HasPlaces project.now tables.now }
    ensures demands { IfOk result (λ found. (rows : List (List (List ℕ))) → AreSaid project.now rows tables.now
        → found.demands.items ≡ demand_ends project.now rows) }
    ensures emitters { IfOk result (λ found. (rows : List (List (List ℕ))) → AreSaid project.now rows tables.now
        → found.emitters.items ≡ emitter_ends project.now rows) }
    ensures heads { IfOk result (λ found. (rows : List (List (List ℕ))) → AreSaid project.now rows tables.now
        → found.heads.items ≡ head_ends project.now rows) }
    ensures levels { IfOk result (λ found. (rows : List (List (List ℕ))) → AreSaid project.now rows tables.now
        → found.levels.items ≡ level_ends project.now rows) }
{
    let junctions = project.junctions.len();
    let reservoirs = project.reservoirs.len();
    let tanks = project.tanks.as_slice();
    let demands = for_nodes(alloc, &tables.demands, 0, junctions, at_both(ONE))?;
    let emitters = for_nodes(alloc, &tables.emitters, 0, junctions, at_both(ONE))?;
    let heads = for_nodes(alloc, &tables.heads, junctions, reservoirs, at_both(0))?;
    let levels = for_tanks(alloc, &tables.levels, junctions + reservoirs, tanks)?;
    Ok(SpreadRows {
        demands,
        emitters,
        heads,
        levels,
    })
}
