//! The IDs of nodes and links by their numbers. A number that there isn't has the empty one.

ghost use Rattle.std.specs.Prelude.{◌≡◌};
ghost use Rattle.hyd_net.specs.Sound.{IsSound};
ghost use Rattle.hyd_spec_reports.specs.ReportLine.{node_id, link_id};

use hyd_net::Project;

/// The ID of a node.
pub(crate) fn node_id(project: &Project, node: u32) -> &[u8]
    requires { IsSound project.now }
    ensures { result.now ≡ node_id project.now node }
{
    let nodes = project.junctions.len() + project.reservoirs.len() + project.tanks.len();
    if (node as usize) < nodes {
        return project.node_ids.id(node);
    }
    b""
}

/// The ID of a link.
pub(crate) fn link_id(project: &Project, link: u32) -> &[u8]
    requires { IsSound project.now }
    ensures { result.now ≡ link_id project.now link }
{
    if (link as usize) < project.links.len() {
        return project.link_ids.id(link);
    }
    b""
}
