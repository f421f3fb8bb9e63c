//! Networks read from texts with levels and states at the start, and how tables write states and changes.
#![tactic(auto)]

ghost use Rattle.std.specs.Prelude.{IfOk};
ghost use Rattle.hyd_net.specs.Sound.{IsSound};

use hyd_inp::read_project;
use hyd_net::{LinkState, OutOfMemory, Project};
use hyd_spec::{Change, Source};
use hyd_spec_certificates::LevelSpan;
use std::alloc::Global;
use std::test::Fail;

/// The network of a text.
pub(crate) fn read(alloc: Global, text: &str) -> Result<Project, Fail>
    ensures { IfOk result (λ project. IsSound project) }
{
    Ok(read_project(alloc, text.as_bytes())?)
}

/// All levels from one to another.
pub(crate) fn levels(ends: (i64, i64)) -> LevelSpan {
    LevelSpan {
        lo: ends.0,
        hi: ends.1,
    }
}

/// The states of the links at first.
pub(crate) fn starts(alloc: Global, project: &Project) -> Result<Vec<LinkState>, OutOfMemory> {
    let links = project.links.as_slice();
    let mut states = Vec::new(alloc);
    for link in links {
        states.push(link.start)?;
    }
    Ok(states)
}

/// The state of a link in a table: a speed in billionths, a greatest flow in billionths and in flow ticks.
#[derive(Clone, Copy, PartialEq, Eq, Drop)]
pub(crate) enum To {
    Open,
    Closed,
    Speed(i64),
    Limit(i64, i64),
}

/// A change in a table: what changed a link, the link, and its state.
pub(crate) type By = (Source, u32, To);

// A state as tables have it. None of them has a throttle control valve.
fn told(state: &LinkState) -> Option<To> {
    match state {
        LinkState::Open => Some(To::Open),
        LinkState::Closed => Some(To::Closed),
        LinkState::Speed(nano) => Some(To::Speed(*nano)),
        LinkState::Throttle { .. } => None,
        LinkState::Limit { nano, ticks } => Some(To::Limit(*nano, *ticks)),
    }
}

/// Whether links are in these states.
pub(crate) fn are_states(states: &[LinkState], expected: &[To]) -> bool {
    if states.len() != expected.len() {
        return false;
    }
    for number in 0..states.len() {
        if told(&states[number]) != Some(expected[number]) {
            return false;
        }
    }
    true
}

// Whether two changes have one source.
fn is_source(source: Source, expected: Source) -> bool {
    match (source, expected) {
        (Source::Control(number), Source::Control(other)) => number == other,
        (Source::Rule(number), Source::Rule(other)) => number == other,
        _ => false,
    }
}

fn is_change(change: &Change, expected: &By) -> bool {
    is_source(change.source, expected.0)
        && change.link == expected.1
        && told(&change.to) == Some(expected.2)
}

/// Whether changes are these.
pub(crate) fn are_changes(changes: &[Change], expected: &[By]) -> bool {
    if changes.len() != expected.len() {
        return false;
    }
    for number in 0..changes.len() {
        if !is_change(&changes[number], &expected[number]) {
            return false;
        }
    }
    true
}
