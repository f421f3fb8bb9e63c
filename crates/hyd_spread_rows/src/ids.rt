//! The IDs of a network's nodes, found by their hash.
#![tactic(auto)]

ghost use Rattle.std.specs.Prelude.{◌≡◌, IfOk, length};
ghost use Rattle.hyd_net.specs.Sound.{IsSound};

use hyd_net::{OutOfMemory, Project};
use hyd_rows_and_tables::NumberedIds;
use std::alloc::Global;

/// How many nodes a network has.
pub(crate) fn count(project: &Project) -> usize
    requires { IsSound project.now }
    ensures { result ≡ length project.now.node_ids }
{
    project.junctions.len() + project.reservoirs.len() + project.tanks.len()
}

/// The IDs of its nodes in the order of their numbers.
pub(crate) fn numbered(alloc: Global, project: &Project) -> Result<NumberedIds, OutOfMemory>
    requires { IsSound project.now }
    ensures { IfOk result (λ ids. ids ≡ project.now.node_ids) }
{
    let mut ids = NumberedIds::new(alloc);
    for number in 0..count(project) {
        ids.add(project.node_ids.id(number as u32))?;
    }
    Ok(ids)
}
