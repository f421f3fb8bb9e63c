//! What a stop of a run means, and what to try.

ghost use Rattle.std.specs.Prelude.{◌≡◌, length};
ghost use Rattle.hyd_net.specs.ControlsAndRules.{node_count};

use crate::cut_off_together::CutOffTogether;
use crate::links_around::{Around, DeadEnd};
use crate::quantities::{Clock, Measure, Quantity};
use crate::sentences::{Bounded, Compared, Meaning, Pinned, Reached, Watched};
use crate::tanks_at_bounds::TanksAtBounds;
use crate::undecided_end::{UndecidedEnd, undecided_end};
use hyd_net::{Clause, Control, LinkState, Project, Tank, Value, What, When};
use hyd_num::Span;
use hyd_spec_certificates::{LevelSpan, Problem, Side, StopCause};
use hyd_units::Way;
use std::fmt::{self, Display, Formatter};

/// What is known of the period in which a run stops. Each list may be empty, where that isn't known.
#[derive(Clone, Copy)]
pub struct DuePeriod<'a> {
    /// The levels of tanks at its start, in head ticks above their bottoms.
    pub levels: &'a [LevelSpan],
    /// What flows into tanks in it, in flow ticks.
    pub inflows: &'a [Span],
    /// The states of links in it.
    pub links: &'a [LinkState],
}

impl DuePeriod<'_> {
    /// A period of which nothing is known.
    pub fn unknown() -> DuePeriod<'static> {
        DuePeriod {
            levels: &[],
            inflows: &[],
            links: &[],
        }
    }
}

/// What a stop of a run means: the period's start, what isn't decided there, and what to try.
#[derive(Clone, Copy)]
pub struct Stopped<'a> {
    /// The network.
    pub project: &'a Project,
    /// The time at which the period begins, in seconds.
    pub time: u32,
    /// Why the run stops.
    pub cause: StopCause,
    /// What is known of that period.
    pub due: DuePeriod<'a>,
    pub ghost nodes: { length project.now.node_ids ≡ node_count project.now },
    pub ghost links: { length project.now.link_ids ≡ length project.now.links.list },
}

/// The ID of a node; empty where there is no such node.
pub(crate) fn node_id(project: &Project, node: u32) -> &[u8]
    requires { length project.now.node_ids ≡ node_count project.now }
{
    let before = project
        .junctions
        .len()
        .saturating_add(project.reservoirs.len());
    let nodes = before.saturating_add(project.tanks.len());
    if (node as usize) < nodes {
        return project.node_ids.id(node);
    }
    b""
}

/// The ID of a tank.
pub(crate) fn tank_id(project: &Project, tank: u32) -> &[u8]
    requires { length project.now.node_ids ≡ node_count project.now }
{
    let before = project
        .junctions
        .len()
        .saturating_add(project.reservoirs.len());
    match u32::try_from(before.saturating_add(tank as usize)) {
        Ok(node) => node_id(project, node),
        Err(_) => b"",
    }
}

/// The ID of a link; empty where there is no such link.
pub(crate) fn link_id(project: &Project, link: u32) -> &[u8]
    requires { length project.now.link_ids ≡ length project.now.links.list }
{
    if (link as usize) < project.links.len() {
        return project.link_ids.id(link);
    }
    b""
}

/// Which tank is pinned, and on which side a vector lies.
pub(crate) fn bounded_by(project: &Project, problem: Problem, side: Side) -> Bounded<'_>
    requires { length project.now.node_ids ≡ node_count project.now }
{
    let pinned = match problem {
        Problem::Main => Pinned::None,
        Problem::Pinned(tank) => Pinned::Tank(tank_id(project, tank)),
    };
    Bounded { pinned, side }
}

// A quantity of a network.
fn measured(project: &Project, measure: Measure, ticks: i128, way: Way) -> Quantity {
    Quantity {
        ticks,
        measure,
        unit: project.options.unit,
        way,
    }
}

// An interval, and nothing that it straddles.
fn interval(project: &Project, measure: Measure, lo: i128, hi: i128) -> Compared {
    Compared {
        lo: measured(project, measure, lo, Way::Down),
        hi: measured(project, measure, hi, Way::Up),
    }
}

// The bound that a tank's level straddles, or comes nearest to: whether it is the maximum, and the bound.
fn straddled(tank: &Tank, lo: i128, hi: i128) -> (bool, i128) {
    let maximum = i128::from(tank.maximum);
    let minimum = i128::from(tank.minimum);
    if hi.saturating_sub(maximum) >= minimum.saturating_sub(lo) {
        return (true, maximum);
    }
    (false, minimum)
}

// A tank of which it is open whether it is full or empty.
fn tank_meaning(project: &Project, tank: u32, lo: i128, hi: i128) -> Meaning<'_>
    requires { length project.now.node_ids ≡ node_count project.now }
{
    let id = tank_id(project, tank);
    let level = interval(project, Measure::Head, lo, hi);
    match project.tanks.as_slice().get(tank as usize) {
        Some(found) => {
            let (full, bound) = straddled(found, lo, hi);
            let bound = measured(project, Measure::Head, bound, Way::Down);
            Meaning::Tank {
                id,
                level,
                full,
                bound,
            }
        }
        None => Meaning::General,
    }
}

// A level control of which it is open whether it acts.
fn control_meaning(project: &Project, number: u32, lo: i128, hi: i128) -> Meaning<'_>
    requires { length project.now.node_ids ≡ node_count project.now }
{
    let level = interval(project, Measure::Head, lo, hi);
    match project.controls.as_slice().get(number as usize) {
        Some(
            Control {
                when: When::Level { tank, ticks, .. },
                ..
            },
        ) => Meaning::Control {
            number: u64::from(number).saturating_add(1),
            tank: tank_id(project, *tank),
            level,
            bound: measured(project, Measure::Head, i128::from(*ticks), Way::Down),
        },
        _ => Meaning::General,
    }
}

// The level by which a period may end, or not.
fn reached_by(project: &Project, end: UndecidedEnd) -> Reached<'_>
    requires { length project.now.node_ids ≡ node_count project.now }
{
    Reached {
        tank: tank_id(project, end.tank),
        level: interval(project, Measure::Head, end.lo, end.hi),
        aim: end.aim,
        target: measured(project, Measure::Head, end.target, Way::Down),
    }
}

// A period of which it is open in which second it ends.
fn event_meaning(stopped: Stopped<'_>, earliest: u32, latest: u32) -> Meaning<'_> {
    let project = stopped.project;
    let start = u64::from(stopped.time);
    let reached = match undecided_end(project, stopped.due, earliest) {
        Some(end) => Some(reached_by(project, end)),
        None => None,
    };
    Meaning::Event {
        earliest: Clock(start.saturating_add(u64::from(earliest))),
        latest: Clock(start.saturating_add(u64::from(latest))),
        reached,
        unit: project.options.unit,
    }
}

// What a clause of a rule speaks of, and how that is measured.
fn watched_by(project: &Project, what: What) -> (Watched<'_>, Option<Measure>)
    requires nodes { length project.now.node_ids ≡ node_count project.now }
    requires links { length project.now.link_ids ≡ length project.now.links.list }
{
    match what {
        What::Head(node) => (Watched::Head(node_id(project, node)), Some(Measure::Head)),
        What::Pressure(node) => {
            (
                Watched::Pressure(node_id(project, node)),
                Some(Measure::Pressure),
            )
        }
        What::Level(tank) => (Watched::Level(tank_id(project, tank)), Some(Measure::Head)),
        What::Flow(link) => (Watched::Flow(link_id(project, link)), Some(Measure::Flow)),
        What::Setting(_) | What::Status(_) | What::Time | What::Clock => (Watched::Other, None),
    }
}

// A rule of which it is open whether it holds.
fn rule_meaning(project: &Project, rule: u32, clause: u32, lo: i128, hi: i128) -> Meaning<'_>
    requires nodes { length project.now.node_ids ≡ node_count project.now }
    requires links { length project.now.link_ids ≡ length project.now.links.list }
{
    let Some(found) = project.rules.as_slice().get(rule as usize) else {
        return Meaning::General;
    };
    let Some(part) = found.clauses.as_slice().get(clause as usize) else {
        return Meaning::General;
    };
    let Clause { what, value, .. } = part.clause;
    let (watched, measure) = watched_by(project, what);
    match (measure, value) {
        (Some(measure), Value::Amount { number, .. }) => Meaning::Rule {
            id: found.id.as_slice(),
            clause: u64::from(clause).saturating_add(1),
            watched,
            level: interval(project, measure, lo, hi),
            value: number.nano,
        },
        _ => Meaning::General,
    }
}

// What a stop means.
fn meaning_of(stopped: Stopped<'_>) -> Meaning<'_> {
    let project = stopped.project;
    match stopped.cause {
        StopCause::NoCertificate {
            problem,
            side,
            junction,
            ..
        } => Meaning::NoCertificate {
            bounded: bounded_by(project, problem, side),
            junction: node_id(project, junction),
        },
        StopCause::TankOpen { tank, lo, hi, .. } => tank_meaning(project, tank, lo, hi),
        StopCause::RuleOpen {
            rule,
            clause,
            lo,
            hi,
            ..
        } => { rule_meaning(project, rule, clause, lo, hi) }
        StopCause::ControlOpen {
            control,
            lo,
            hi,
            ..
        } => control_meaning(project, control, lo, hi),
        StopCause::EventOpen {
            earliest,
            latest,
            ..
        } => event_meaning(stopped, earliest, latest),
        StopCause::RoundsSpent {
            problem,
            side,
            rounds,
            ..
        } => Meaning::Rounds {
            bounded: bounded_by(project, problem, side),
            rounds,
        },
        StopCause::Demand {
            junction,
            value,
            ..
        } => Meaning::Demand {
            junction: node_id(project, junction),
            demand: measured(project, Measure::Flow, value, Way::Down),
        },
    }
}

// Writes what may cut a junction off in a period.
fn write_cut_off<W: fmt::Write>(
    stopped: Stopped<'_>,
    node: u32,
    f: &mut Formatter<W>,
) -> fmt::Result {
    let project = stopped.project;
    let levels = stopped.due.levels;
    let around = Around { project, node };
    let dead_end = DeadEnd { project, node };
    let tanks = TanksAtBounds { project, levels };
    write!(f, "{around}{dead_end}{tanks}")
}

// Writes what may have spent the rounds of a period.
fn write_spent<W: fmt::Write>(stopped: Stopped<'_>, f: &mut Formatter<W>) -> fmt::Result {
    let Stopped { project, due, .. } = stopped;
    let pair = CutOffTogether { project, due };
    let tanks = TanksAtBounds {
        project,
        levels: due.levels,
    };
    write!(f, "{pair}{tanks}")
}

impl Display for Stopped<'_> {
    fn fmt<W: fmt::Write>(&self, f: &mut Formatter<W>) -> fmt::Result {
        let time = Clock(u64::from(self.time));
        let meaning = meaning_of(*self);
        write!(f, "stopped in the period that begins at {time}: {meaning}")?;
        match self.cause {
            StopCause::NoCertificate { junction, .. } => write_cut_off(*self, junction, f),
            StopCause::RoundsSpent { .. } => write_spent(*self, f),
            _ => Ok(()),
        }
    }
}
