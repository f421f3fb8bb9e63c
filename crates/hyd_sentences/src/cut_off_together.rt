//! Two junctions that are joined to each other alone.

ghost use Rattle.std.specs.Prelude.{◌≡◌, length};
ghost use Rattle.hyd_net.specs.ControlsAndRules.{node_count};

use crate::sentences::write_pair;
use crate::shown::Name;
use crate::stopped::{DuePeriod, node_id};
use hyd_net::{Link, LinkState, Project};
use std::fmt::{self, Display, Formatter};

/// The first two junctions that are joined to each other alone in a period.
#[derive(Clone, Copy)]
pub(crate) struct CutOffTogether<'a> {
    /// The network.
    pub project: &'a Project,
    /// The period.
    pub due: DuePeriod<'a>,
    pub ghost nodes: { length project.now.node_ids ≡ node_count project.now },
}

// Whether a link is closed in a period; where that isn't known, whether it is in the file.
fn is_closed(due: DuePeriod<'_>, number: u32, link: &Link) -> bool {
    match due.links.get(number as usize) {
        Some(state) => matches!(state, LinkState::Closed),
        None => matches!(link.start, LinkState::Closed),
    }
}

// Whether a node is one of two.
fn is_either(node: u32, first: u32, second: u32) -> bool {
    node == first || node == second
}

// Whether a link joins one of two nodes to a third one.
fn leads_away(link: &Link, first: u32, second: u32) -> bool {
    is_either(link.from, first, second) != is_either(link.to, first, second)
}

// Whether no open link joins one of two nodes to a third one.
fn are_alone(project: &Project, due: DuePeriod<'_>, first: u32, second: u32) -> bool {
    for (number, link) in (0..u32::MAX).zip(project.links.as_slice()) {
        if leads_away(link, first, second) && !is_closed(due, number, link) {
            return false;
        }
    }
    true
}

// Whether a link joins two junctions, and is open in a period.
fn joins_junctions(project: &Project, due: DuePeriod<'_>, number: u32, link: &Link) -> bool {
    let junctions = project.junctions.len();
    (link.from as usize) < junctions
        && (link.to as usize) < junctions
        && link.from != link.to
        && !is_closed(due, number, link)
}

// The first link between two junctions that are joined to each other alone.
fn pair_of(project: &Project, due: DuePeriod<'_>) -> Option<(u32, u32)> {
    for (number, link) in (0..u32::MAX).zip(project.links.as_slice()) {
        if joins_junctions(project, due, number, link)
            && are_alone(project, due, link.from, link.to)
        {
            return Some((link.from, link.to));
        }
    }
    None
}

impl Display for CutOffTogether<'_> {
    fn fmt<W: fmt::Write>(&self, f: &mut Formatter<W>) -> fmt::Result {
        let project = self.project;
        match pair_of(project, self.due) {
            Some((first, second)) => write_pair(
                Name(node_id(project, first)),
                Name(node_id(project, second)),
                f,
            ),
            None => Ok(()),
        }
    }
}
