//! The fault of a text whose spread leaves a network no outermost networks.

ghost use Rattle.std.specs.Prelude.{◌≡◌, ◌<◌, ◌≤◌, ◌^◌, length};
ghost use Rattle.hyd_net.specs.Sound.{IsSound};
ghost use Rattle.hyd_spec_spread_rows.specs.TextsOfSpreads.{spread_in};
ghost use Rattle.hyd_spec_spread_starts.specs.StartsOfSpreads.{CanBegin};
ghost use Rattle.hyd_spread_networks.specs.RefusedSpreads.{IsRefusedFor};
ghost use Rattle.hyd_spread_rows.specs.SpreadsRead.{IfFault};
ghost use Rattle.hyd_spread_files.specs.RefusedSpreads.{line_of, IsSpreadFault};

use hyd_net::{Cause, Project};
use hyd_spread_networks::SpreadNetsRefused;
use hyd_spread_rows::{SpreadFault, SpreadRefused, Subject, line_for};

// The fault of the row that counts for a node. The text has at most 64 MiB.
fn fault_at(project: &Project, text: &[u8], subject: Subject, node: u32) -> SpreadFault
    requires sound { IsSound project.now }
    requires node { node < length project.now.node_ids }
    requires short { length text.now ≤ 2 ^ 26 }
    ensures line { result.line ≡ line_of project.now subject node text.now }
    ensures cause { result.cause ≡ Cause.Range }
{
    SpreadFault {
        line: line_for(project, text, subject, node).unwrap_or(0),
        cause: Cause::Range,
    }
}

/// Why a network has no nets for the spread of a text, with which a run could begin else, as a fault of the text.
pub fn nets_fault(project: &Project, text: &[u8], refused: SpreadNetsRefused) -> SpreadRefused
    requires sound { IsSound project.now }
    requires begins { CanBegin project.now text.now }
    requires refused { IsRefusedFor project.now (spread_in project.now text.now) refused }
    ensures { IfFault result (λ fault. IsSpreadFault project.now text.now fault.line fault.cause) }
{
    match refused {
        SpreadNetsRefused::OutOfMemory => SpreadRefused::OutOfMemory,
        SpreadNetsRefused::Emitter(junction) => {
            SpreadRefused::Fault(fault_at(project, text, Subject::Emitter, junction))
        }
        SpreadNetsRefused::Head(reservoir) => {
            let node = project.junctions.len() + reservoir as usize;
            SpreadRefused::Fault(fault_at(project, text, Subject::Head, node as u32))
        }
    }
}
