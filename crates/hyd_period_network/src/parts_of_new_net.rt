//! The parts of a net whose links are all shut.
#![tactic(auto)]

ghost use Rattle.std.specs.Prelude.{◌≡◌, map, replicate, IfOk};
ghost use Rattle.std.specs.List.{AllZip};
ghost use Rattle.hyd_period_network.specs.Demands.{IsNetJunction};
ghost use Rattle.hyd_period_network.specs.NetsSetToPeriods.{ends_of};

use crate::junctions_ends_and_settings::{Ends, NetJunction};
use hyd_law::Quad;
use hyd_net::{Junction, Link};
use std::alloc::{AllocError as OutOfMemory, Global};

fn ends_of(link: &Link) -> Ends
    ensures { result ≡ ends_of link.now }
{
    Ends {
        from: link.from,
        to: link.to,
    }
}

/// The two nodes of each link.
pub(crate) fn all_ends(alloc: Global, links: &[Link]) -> Result<Vec<Ends>, OutOfMemory>
    ensures { IfOk result (λ v. v.items ≡ map ends_of links.now) }
{
    let mut ends = Vec::with_capacity(alloc, links.len())?;
    for link in links {
        ends.push(ends_of(link))?;
    }
    Ok(ends)
}

fn net_junction(junction: &Junction) -> NetJunction
    ensures { IsNetJunction junction.now result }
{
    let emitter = match junction.emitter {
        Some(cap) => Some(Quad { cap }),
        None => None,
    };
    NetJunction {
        elevation: junction.elevation,
        emitter,
    }
}

/// The junctions with their elevations and their emitters' laws.
pub(crate) fn net_junctions(
    alloc: Global,
    junctions: &[Junction],
) -> Result<Vec<NetJunction>, OutOfMemory>
    ensures { IfOk result (λ v. AllZip IsNetJunction junctions.now v.items) }
{
    let mut made = Vec::with_capacity(alloc, junctions.len())?;
    for junction in junctions {
        made.push(net_junction(junction))?;
    }
    Ok(made)
}

/// So many copies of a value.
pub(crate) fn copies<T: Copy>(alloc: Global, value: T, count: usize) -> Result<Vec<T>, OutOfMemory>
    ensures { IfOk result (λ v. v.items ≡ replicate count value) }
{
    let mut items = Vec::new(alloc);
    items.resize(count, value)?;
    Ok(items)
}
