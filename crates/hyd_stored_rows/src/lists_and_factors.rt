//! That lists and names take many items, and that factors of matrices solve systems whose solutions are known.

ghost use Rattle.std.specs.Prelude.{◌≡◌, length};

use crate::words::small_at;
use hyd_net::{List, Names};
use hyd_sparse::{Factor, UNIT};
use std::alloc::{AllocError, Global};
use std::fmt::Write;

/// How many items a list takes, and the last number of as many names.
pub(crate) fn put_many_items(
    alloc: Global,
    asked: &str,
    out: &mut String,
) -> Result<(), AllocError> {
    let count = small_at(asked, 0);
    put_list(alloc, count, out)?;
    put_names(alloc, count, out)
}

/// Writes the length of a list of so many numbers, and its last one.
fn put_list(alloc: Global, count: u32, out: &mut String) -> Result<(), AllocError> {
    let mut list = List::new(alloc);
    for number in 0..count {
        list.push(number)?;
    }
    let last = list.as_slice().last().copied().unwrap_or(0);
    write!(out, "list of {} with {last} at its end, ", list.len())
}

/// Writes how many of so many names are new, and the number of the last.
fn put_names(alloc: Global, count: u32, out: &mut String) -> Result<(), AllocError> {
    let mut names = Names::new(alloc);
    let mut new = 0u32;
    for number in 0..count.min(1_000_000) {
        if names.add(format!(in alloc; "J{number}")?.as_bytes())? {
            new = new.saturating_add(1);
        }
    }
    match names.number(b"J9999") {
        Some(number) => write!(out, "{new} names with J9999 at {number}"),
        None => write!(out, "{new} names without J9999"),
    }
}

fn number_at(numbers: &[i64], node: u32) -> i64 {
    numbers.get(node as usize).copied().unwrap_or(0)
}

fn add(numbers: &mut [i64], node: u32, number: i64)
    ensures { length numbers.new ≡ length numbers.old }
{
    if let Some(entry) = numbers.get_mut(node as usize) {
        *entry = entry.saturating_add(number);
    }
}

/// Puts heads that rise and fall.
fn put_heads(heads: &mut [i64])
    ensures { length heads.new ≡ length heads.old }
{
    for (place, head) in heads.iter_mut().enumerate() {
        *head = (place as i64 % 7 - 3) * 1000003;
    }
}

/// Puts slopes from 1 to 5 with the sign turned.
fn put_slopes(off: &mut [i64])
    ensures { length off.new ≡ length off.old }
{
    for (place, number) in off.iter_mut().enumerate() {
        *number = -UNIT * (place as i64 % 5 + 1);
    }
}

/// Adds the links' slopes to the diagonal.
fn add_slopes(links: &[(u32, u32)], off: &[i64], diagonal: &mut [i64])
    ensures { length diagonal.new ≡ length diagonal.old }
{
    for (ends, number) in links.iter().zip(off) {
        add(diagonal, ends.0, number.saturating_neg());
        add(diagonal, ends.1, number.saturating_neg());
    }
}

/// Adds what flows out of each node along the links: the slope times the difference of heads, where
/// a head past the nodes is 0.
fn add_flows(links: &[(u32, u32)], off: &[i64], heads: &[i64], loads: &mut [i64])
    ensures { length loads.new ≡ length loads.old }
{
    for (ends, number) in links.iter().zip(off) {
        let difference = number_at(heads, ends.0).saturating_sub(number_at(heads, ends.1));
        let flow = (number.saturating_neg() / UNIT).saturating_mul(difference);
        add(loads, ends.0, flow);
        add(loads, ends.1, flow.saturating_neg());
    }
}

fn greatest_difference(some: &[i64], others: &[i64]) -> i64 {
    let mut greatest = 0i64;
    for (one, other) in some.iter().zip(others) {
        greatest = one.saturating_sub(*other).saturating_abs().max(greatest);
    }
    greatest
}

/// How far a solution is at most from the heads that the loads were made for. Each node has an
/// outflow of its head besides its links.
fn greatest_miss(alloc: Global, nodes: u32, links: &[(u32, u32)]) -> Result<i64, AllocError> {
    let mut heads = vec![in alloc; 0i64; nodes as usize]?;
    let mut off = vec![in alloc; 0i64; links.len()]?;
    let mut diagonal = vec![in alloc; UNIT; nodes as usize]?;
    let mut loads = vec![in alloc; 0i64; nodes as usize]?;
    put_heads(&mut heads);
    put_slopes(&mut off);
    add_slopes(links, &off, &mut diagonal);
    put_heads(&mut loads);
    add_flows(links, &off, &heads, &mut loads);
    let mut factor = Factor::open(alloc, nodes, links)?;
    factor.factor(&diagonal, &off);
    factor.solve(&mut loads);
    Ok(greatest_difference(&loads, &heads))
}

/// Chains of so many nodes, each node joined to the one at its place in the next chain.
fn grid(alloc: Global, chains: u32, nodes: u32) -> Result<Vec<(u32, u32)>, AllocError> {
    let mut links = Vec::new(alloc);
    let count = chains.saturating_mul(nodes);
    for node in 0..count {
        let next = node.saturating_add(1);
        if next.checked_rem(nodes).unwrap_or(0) != 0 {
            links.push((node, next))?;
        }
        let across = node.saturating_add(nodes);
        if across < count {
            links.push((node, across))?;
        }
    }
    Ok(links)
}

/// Whether the solution of a grid misses the heads that its loads were made for by one at most: solutions are cut to whole
/// numbers. It has two links more: one beside another one, and one to a node past the others.
pub(crate) fn put_grid(alloc: Global, asked: &str, out: &mut String) -> Result<(), AllocError> {
    let chains = small_at(asked, 0);
    let nodes = small_at(asked, 1);
    let mut links = grid(alloc, chains, nodes)?;
    let count = chains.saturating_mul(nodes);
    links.push((0, 1))?;
    links.push((count, 0))?;
    let miss = greatest_miss(alloc, count, &links)?;
    out.push_str(if miss <= 1 {
        "misses by one at most"
    } else {
        "misses"
    })
}

/// The solution of 2 and 2 on the diagonal and 1 beside it, all in units: 2 x + y = 3, x + 2 y = 0. The rows that name a
/// third node, or one node twice, are passed over.
pub(crate) fn put_two_nodes(alloc: Global, out: &mut String) -> Result<(), AllocError> {
    let mut factor = Factor::open(alloc, 2, &[(0, 1), (2, 0), (1, 1)])?;
    factor.factor(&[2, 2], &[1, 7, 7]);
    let mut loads = [3, 0];
    factor.solve(&mut loads);
    let miss = greatest_difference(&loads, &[2 * UNIT, -UNIT]);
    write!(out, "{}", miss < 10)
}

/// Whether solutions past the type's ends are held there.
pub(crate) fn put_great_loads(alloc: Global, out: &mut String) -> Result<(), AllocError> {
    let mut factor = Factor::open(alloc, 2, &[])?;
    factor.factor(&[1, 1], &[]);
    let mut loads = [i64::MAX, i64::MIN];
    factor.solve(&mut loads);
    write!(out, "{}", loads == [i64::MAX, i64::MIN])
}
