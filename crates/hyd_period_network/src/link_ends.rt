//! The rows of link ends.
#![tactic(auto)]

ghost use Rattle.std.specs.Prelude.{◌≡◌, ◌<◌, ◌≤◌, ◌^◌, [], length, IfOk, OnOk};
ghost use Rattle.hyd_period_network.specs.LinkEnds.{AddsTie, AreRows};

use crate::junctions_ends_and_settings::{Ends, Tie};
use smallvec::SmallVec;
use std::alloc::{AllocError as OutOfMemory, Global};

// Appends a link end to the row of its node, where the node is a junction.
fn add_tie(rows: &mut Vec<SmallVec<Tie, 4>>, node: u32, tie: Tie) -> Result<(), OutOfMemory>
    ensures { OnOk result (AddsTie node tie rows.old.items rows.new.items) }
{
    if (node as usize) < rows.len() {
        rows[node as usize].push(tie)?;
    }
    Ok(())
}

fn empty_rows(alloc: Global, junctions: usize) -> Result<Vec<SmallVec<Tie, 4>>, OutOfMemory>
    ensures count { IfOk result (λ rows. length rows.items ≡ junctions) }
    ensures each { IfOk result (λ rows. AreRows [] rows.items) }
{
    let mut rows = Vec::with_capacity(alloc, junctions)?;
    for _ in 0..junctions {
        rows.push(SmallVec::new(alloc))?;
    }
    Ok(rows)
}

/// The rows of the link ends at each junction.
pub(crate) fn rows_of(
    alloc: Global,
    junctions: usize,
    ends: &[Ends],
) -> Result<Vec<SmallVec<Tie, 4>>, OutOfMemory>
    requires { length ends.now ≤ 2 ^ 31 }
    ensures count { IfOk result (λ rows. length rows.items ≡ junctions) }
    ensures each { IfOk result (λ rows. AreRows ends.now rows.items) }
{
    let mut rows = empty_rows(alloc, junctions)?;
    for (number, link) in ends.iter().enumerate() {
        let number = number as u32;
        add_tie(
            &mut rows,
            link.from,
            Tie {
                link: number,
                other: link.to,
                out: true,
            },
        )?;
        add_tie(
            &mut rows,
            link.to,
            Tie {
                link: number,
                other: link.from,
                out: false,
            },
        )?;
    }
    Ok(rows)
}
