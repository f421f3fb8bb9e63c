//! The IDs of tanks, links and rules by their numbers. A number that there isn't has the empty one.

ghost use Rattle.std.specs.Prelude.{◌≡◌};
ghost use Rattle.hyd_net.specs.Sound.{IsSound};
ghost use Rattle.hyd_spec_reports.specs.ReportLine.{node_id, tank_id, link_id, rule_id};

use hyd_net::Project;

/// The ID of a node.
fn node_id(project: &Project, node: usize) -> &[u8]
    requires { IsSound project.now }
    ensures { result.now ≡ node_id project.now node }
{
    let nodes = project.junctions.len() + project.reservoirs.len() + project.tanks.len();
    if node < nodes {
        return project.node_ids.id(node as u32);
    }
    b""
}

/// The ID of a tank.
pub(crate) fn tank_id(project: &Project, tank: u32) -> &[u8]
    requires { IsSound project.now }
    ensures { result.now ≡ tank_id project.now tank }
{
    let before = project.junctions.len() + project.reservoirs.len();
    node_id(project, before + tank as usize)
}

/// The ID of a link.
pub(crate) fn link_id(project: &Project, link: u32) -> &[u8]
    requires { IsSound project.now }
    ensures { result.now ≡ link_id project.now link }
{
    if (link as usize) < project.links.len() {
        return project.link_ids.id(link);
    }
    b""
}

/// The ID of a rule.
pub(crate) fn rule_id(project: &Project, rule: u32) -> &[u8]
    ensures { result.now ≡ rule_id project.now rule }
{
    let rules = project.rules.as_slice();
    if (rule as usize) < rules.len() {
        return rules[rule as usize].id.as_slice();
    }
    b""
}
