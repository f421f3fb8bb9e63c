//! The IDs of junctions and links by their numbers.

ghost use Rattle.std.specs.Prelude.{◌≡◌, ◌<◌, length};
ghost use Rattle.hyd_net.specs.Sound.{IsSound};
ghost use Rattle.hyd_spec_reports.specs.ReportLine.{node_id, link_id};

use hyd_net::Project;

/// The ID of a junction.
pub(crate) fn junction_id(project: &Project, junction: u32) -> &[u8]
    requires sound { IsSound project.now }
    requires inside { junction < length project.now.junctions.list }
    ensures { result.now ≡ node_id project.now junction }
{
    project.node_ids.id(junction)
}

/// The ID of a link.
pub(crate) fn link_id(project: &Project, link: u32) -> &[u8]
    requires sound { IsSound project.now }
    requires inside { link < length project.now.links.list }
    ensures { result.now ≡ link_id project.now link }
{
    project.link_ids.id(link)
}
