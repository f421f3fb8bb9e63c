//! The links at and near a junction through which water may not pass.

ghost use Rattle.std.specs.Prelude.{◌≡◌, length};

use crate::sentences::{Barrier, Place, place_of_links, write_dead_end};
use crate::shown::Name;
use crate::stopped::link_id;
use hyd_net::{Action, Link, LinkKind, LinkState, Project};
use std::fmt::{self, Display, Formatter};

// How many links are named at most.
const MOST_LINKS: usize = 6;

// How many kinds of barriers there are.
const KINDS: u8 = 5;

/// The links at a junction, or where none of them is a barrier those beside them.
#[derive(Clone, Copy)]
pub(crate) struct Around<'a> {
    /// The network.
    pub project: &'a Project,
    /// The junction.
    pub node: u32,
    pub ghost links: { length project.now.link_ids ≡ length project.now.links.list },
}

/// A junction behind a check valve, where no water is drawn.
#[derive(Clone, Copy)]
pub(crate) struct DeadEnd<'a> {
    /// The network.
    pub project: &'a Project,
    /// The junction.
    pub node: u32,
    pub ghost links: { length project.now.link_ids ≡ length project.now.links.list },
}

// Whether a link ends at a node.
fn ends_at(link: &Link, node: u32) -> bool {
    link.from == node || link.to == node
}

// The end of a link at which a node isn't.
fn other_end(link: &Link, node: u32) -> u32 {
    if link.from == node {
        return link.to;
    }
    link.from
}

// Whether a link passes water from its first node to its second one alone.
fn is_one_way(link: &Link) -> bool {
    matches!(
        link.kind,
        LinkKind::CheckPipe(_) | LinkKind::Pump { .. } | LinkKind::CurvePump { .. }
    )
}

// The pattern of a pump's speeds.
fn pattern_of(link: &Link) -> Option<u32> {
    match link.kind {
        LinkKind::Pump { pattern, .. } => pattern,
        LinkKind::CurvePump { pattern, .. } => pattern,
        _ => None,
    }
}

// Whether a link's pattern has a 0.
fn is_off_at_times(project: &Project, link: &Link) -> bool {
    let Some(number) = pattern_of(link) else {
        return false;
    };
    match project.patterns.as_slice().get(number as usize) {
        Some(pattern) => pattern.multipliers.as_slice().contains(&0),
        None => false,
    }
}

// The number of the first control that closes a link, counted from 1.
fn closing_control(project: &Project, link: u32) -> Option<u64> {
    let mut number = 0_u64;
    for control in project.controls.as_slice() {
        number = number.saturating_add(1);
        if control.link == link && matches!(control.to, LinkState::Closed) {
            return Some(number);
        }
    }
    None
}

// Whether some actions close a link.
fn do_close(actions: &[Action], link: u32) -> bool {
    for action in actions {
        if action.link == link && matches!(action.to, LinkState::Closed) {
            return true;
        }
    }
    false
}

// The ID of the first rule that closes a link.
fn closing_rule(project: &Project, link: u32) -> Option<&[u8]> {
    for rule in project.rules.as_slice() {
        if do_close(rule.yes.as_slice(), link) || do_close(rule.no.as_slice(), link) {
            return Some(rule.id.as_slice());
        }
    }
    None
}

// The barrier of a kind that a link is.
fn barrier_of<'a>(project: &'a Project, number: u32, link: &Link, kind: u8) -> Option<Barrier<'a>> {
    match kind {
        0 if matches!(link.start, LinkState::Closed) => Some(Barrier::Closed),
        1 if is_one_way(link) => Some(Barrier::OneWay),
        2 if is_off_at_times(project, link) => Some(Barrier::Pattern),
        3 => Some(Barrier::Control(closing_control(project, number)?)),
        4 => Some(Barrier::Rule(closing_rule(project, number)?)),
        _ => None,
    }
}

// Whether a link is a barrier of any kind.
fn is_barrier(project: &Project, number: u32, link: &Link) -> bool {
    for kind in 0..KINDS {
        if barrier_of(project, number, link, kind).is_some() {
            return true;
        }
    }
    false
}

// Whether a node is a junction that a link joins to another one. What lies beyond a reservoir or a tank isn't beside
// that.
fn is_beside(project: &Project, node: u32, junction: u32) -> bool {
    if node as usize >= project.junctions.len() {
        return false;
    }
    for link in project.links.as_slice() {
        if ends_at(link, junction) && other_end(link, junction) == node {
            return true;
        }
    }
    false
}

// Whether a link ends at a junction, or at a node beside it.
fn is_in_place(project: &Project, link: &Link, junction: u32, place: Place) -> bool {
    match place {
        Place::At => ends_at(link, junction),
        Place::Near => {
            is_beside(project, link.from, junction) || is_beside(project, link.to, junction)
        }
        Place::Beyond | Place::Nowhere => false,
    }
}

// Whether a link is one that is named.
fn is_named(project: &Project, number: u32, link: &Link, junction: u32, place: Place) -> bool {
    is_in_place(project, link, junction, place) && is_barrier(project, number, link)
}

// Whether there is a link that is named for a place.
fn has_named(project: &Project, junction: u32, place: Place) -> bool {
    for (number, link) in (0..u32::MAX).zip(project.links.as_slice()) {
        if is_named(project, number, link, junction, place) {
            return true;
        }
    }
    false
}

// Whether a link ends at a junction.
fn has_links(project: &Project, junction: u32) -> bool {
    for link in project.links.as_slice() {
        if ends_at(link, junction) {
            return true;
        }
    }
    false
}

// The place of the links that are named.
fn place_of(project: &Project, junction: u32) -> Place {
    if !has_links(project, junction) {
        return Place::Nowhere;
    }
    if has_named(project, junction, Place::At) {
        return Place::At;
    }
    if has_named(project, junction, Place::Near) {
        return Place::Near;
    }
    Place::Beyond
}

// What a link is.
fn kind_word(link: &Link) -> &'static str {
    match link.kind {
        LinkKind::Pipe(_) | LinkKind::CheckPipe(_) => "pipe",
        LinkKind::Pump { .. } | LinkKind::CurvePump { .. } => "pump",
        LinkKind::Tcv { .. } | LinkKind::Fcv { .. } | LinkKind::Gpv { .. } => "valve",
    }
}

// What stands before the first of several things, and before each other one.
fn joint(is_first: bool, first: &'static str) -> &'static str {
    if is_first {
        return first;
    }
    ", "
}

// Writes what barriers a link is.
fn write_barriers<W: fmt::Write>(
    project: &Project,
    number: u32,
    link: &Link,
    f: &mut Formatter<W>,
) -> fmt::Result {
    let mut is_first = true;
    for kind in 0..KINDS {
        if let Some(barrier) = barrier_of(project, number, link, kind) {
            write!(f, "{}{barrier}", joint(is_first, " ("))?;
            is_first = false;
        }
    }
    f.write_str(")")
}

// Writes the links that are named for a place, the first few of them.
fn write_links<W: fmt::Write>(
    around: &Around<'_>,
    place: Place,
    f: &mut Formatter<W>,
) -> fmt::Result {
    let Around { project, node, .. } = *around;
    let mut count = 0_usize;
    for (number, link) in (0..u32::MAX).zip(project.links.as_slice()) {
        if is_named(project, number, link, node, place) {
            if count == MOST_LINKS {
                return f.write_str(" and others");
            }
            let id = Name(link_id(project, number));
            write!(f, "{}{} {id}", joint(count == 0, " "), kind_word(link))?;
            write_barriers(project, number, link, f)?;
            count = count.saturating_add(1);
        }
    }
    Ok(())
}

impl Display for Around<'_> {
    fn fmt<W: fmt::Write>(&self, f: &mut Formatter<W>) -> fmt::Result {
        let place = place_of(self.project, self.node);
        f.write_str(place_of_links(place))?;
        write_links(self, place, f)
    }
}

// Whether no water is drawn at a junction at any time.
fn draws_nothing(project: &Project, junction: u32) -> bool {
    let Some(found) = project.junctions.as_slice().get(junction as usize) else {
        return false;
    };
    if found.emitter.is_some() {
        return false;
    }
    for demand in found.demands.as_slice() {
        if demand.base != 0 {
            return false;
        }
    }
    true
}

// The first pipe with a check valve at a junction or beside it.
fn valve_at(project: &Project, junction: u32, place: Place) -> Option<u32> {
    for (number, link) in (0..u32::MAX).zip(project.links.as_slice()) {
        if matches!(link.kind, LinkKind::CheckPipe(_))
            && is_in_place(project, link, junction, place)
        {
            return Some(number);
        }
    }
    None
}

impl Display for DeadEnd<'_> {
    fn fmt<W: fmt::Write>(&self, f: &mut Formatter<W>) -> fmt::Result {
        let DeadEnd { project, node, .. } = *self;
        if !draws_nothing(project, node) {
            return Ok(());
        }
        match valve_at(project, node, Place::At) {
            Some(valve) => write_dead_end(Name(link_id(project, valve)), f),
            None => Ok(()),
        }
    }
}
