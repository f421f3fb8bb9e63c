//! The memory that a check takes besides its run.

ghost use Rattle.std.specs.Prelude.{◌≡◌, IfOk};
ghost use Rattle.hyd_net.specs.Sound.{IsSound};
ghost use Rattle.hyd_cert.specs.RecordView.{header_of};
ghost use Rattle.hyd_sim.specs.RunView.{header_for};
ghost use Rattle.hyd_check_command.specs.RoomOfChecks.{IsRoomFor};

use hyd_cert::{FlowPart, Record, version_of};
use hyd_net::{List, OutOfMemory, Project};
use hyd_open_check::room_for_events;
use hyd_spec_certificates::Event;
use std::alloc::Global;

/// Room for a check of a certificate of a network, whatever its version: it is known only once the text is read.
#[derive(Drop)]
pub(crate) struct CheckRoom {
    /// Room for a record.
    pub row: Record,
    /// Room for the flows behind it.
    pub part: FlowPart,
    /// Room for the events at an end that is open by some seconds.
    pub opened: List<Event>,
}

/// A record for the certificates of a network.
fn record_for(alloc: Global, project: &Project) -> Result<Record, OutOfMemory>
    requires { IsSound project.now }
    ensures { IfOk result (λ row. header_of row ≡ header_for project.now) }
{
    let junctions = project.junctions.len() as u32;
    let tanks = project.tanks.len() as u32;
    Record::open(alloc, version_of(project), junctions, tanks)
}

/// Takes room for a check of a certificate of a network.
pub(crate) fn room_for(alloc: Global, project: &Project) -> Result<CheckRoom, OutOfMemory>
    requires { IsSound project.now }
    ensures room { IfOk result (IsRoomFor project.now) }
{
    let row = record_for(alloc, project)?;
    let part = FlowPart::open(alloc, row.junctions)?;
    let opened = room_for_events(alloc, project)?;
    Ok(CheckRoom { row, part, opened })
}
