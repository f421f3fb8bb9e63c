//! Pump patterns and simple controls at starts of periods, one after another.
#![tactic(auto)]

ghost use Rattle.hyd_net.specs.Sound.{IsSound};

use crate::networks_states_and_changes::{By, To, are_changes, are_states, levels, starts};
use hyd_controls_and_rules::{Changes, LevelOpen, settle};
use hyd_net::{LinkState, OutOfMemory, Project};
use hyd_spec::Source;
use hyd_test_helpers::METRE;
use std::alloc::Global;

/// A tank, a pipe, a pump with a pattern, a pump without, and a flow control valve. The clock begins at 11 PM.
pub(crate) const CONTROLS: &str = "[OPTIONS]\nUNITS CMD\nHEADLOSS C-M\n\
    [TIMES]\nDURATION 48\nPATTERN START 0:30\nSTART CLOCKTIME 11 PM\n\
    [JUNCTIONS]\nJ 0 10\n\
    [RESERVOIRS]\nR 100\n\
    [TANKS]\nT 50 5 0 10 20\n\
    [PIPES]\nP R J 100 300 0.01 0\n\
    [PUMPS]\nU J T HEAD C PATTERN S\nB J T HEAD C SPEED 0.9\n\
    [VALVES]\nV R T 300 FCV 500 0\n\
    [CURVES]\nC 1000 30\n\
    [PATTERNS]\nS 1 0 0.8\n\
    [CONTROLS]\nLINK P CLOSED IF NODE T ABOVE 8\nLINK P OPEN IF NODE T BELOW 6\n\
    PUMP U 1.5 AT TIME 1:30\nVALVE V CLOSED AT CLOCKTIME 12:30 AM\nVALVE V 250 AT TIME 1:30\n\
    PUMP B CLOSED IF TANK T ABOVE 9\nPUMP B OPEN IF TANK T BELOW 2\n";

/// The valve's greatest flow at first.
const LIMIT: To = To::Limit(500_000_000_000, 5_000_000_000);

/// The half of it.
const HALF: To = To::Limit(250_000_000_000, 2_500_000_000);

/// A time, the level of the tank from one to another, the control that is open, if any, the states of the links, and
/// what changed them.
#[derive(Drop)]
struct Start {
    time: u32,
    level: (i64, i64),
    open: Option<LevelOpen>,
    states: &'static [To],
    changes: &'static [By],
}

/// Each row begins with the states of the one before.
static STARTS: [Start; 10] = [
    Start {
        time: 0,
        level: (5 * METRE, 5 * METRE),
        open: None,
        states: &[
            To::Open,
            To::Speed(1_000_000_000),
            To::Speed(900_000_000),
            LIMIT,
        ],
        changes: &[],
    },
    Start {
        time: 600,
        level: (8 * METRE, 85_000_000_000_000),
        open: None,
        states: &[
            To::Closed,
            To::Speed(1_000_000_000),
            To::Speed(900_000_000),
            LIMIT,
        ],
        changes: &[(Source::Control(0), 0, To::Closed)],
    },
    Start {
        time: 1_800,
        level: (7 * METRE, 7 * METRE),
        open: None,
        states: &[To::Closed, To::Closed, To::Speed(900_000_000), LIMIT],
        changes: &[],
    },
    Start {
        time: 1_800,
        level: (59_000_000_000_000, 61_000_000_000_000),
        open: Some(LevelOpen {
            control: 1,
            lo: 59_000_000_000_000,
            hi: 61_000_000_000_000,
        }),
        states: &[To::Closed, To::Closed, To::Speed(900_000_000), LIMIT],
        changes: &[],
    },
    Start {
        time: 2_400,
        level: (79_000_000_000_000, 91_000_000_000_000),
        open: Some(LevelOpen {
            control: 0,
            lo: 79_000_000_000_000,
            hi: 91_000_000_000_000,
        }),
        states: &[To::Closed, To::Closed, To::Speed(900_000_000), LIMIT],
        changes: &[],
    },
    Start {
        time: 2_400,
        level: (8 * METRE, 91_000_000_000_000),
        open: Some(LevelOpen {
            control: 5,
            lo: 8 * METRE,
            hi: 91_000_000_000_000,
        }),
        states: &[To::Closed, To::Closed, To::Speed(900_000_000), LIMIT],
        changes: &[],
    },
    Start {
        time: 5_400,
        level: (9 * METRE, 95_000_000_000_000),
        open: None,
        states: &[To::Closed, To::Speed(1_500_000_000), To::Closed, HALF],
        changes: &[
            (Source::Control(2), 1, To::Speed(1_500_000_000)),
            (Source::Control(3), 3, To::Closed),
            (Source::Control(4), 3, HALF),
            (Source::Control(5), 2, To::Closed),
        ],
    },
    Start {
        time: 5_400,
        level: (METRE, 2 * METRE),
        open: None,
        states: &[
            To::Open,
            To::Speed(1_500_000_000),
            To::Speed(1_000_000_000),
            HALF,
        ],
        changes: &[
            (Source::Control(1), 0, To::Open),
            (Source::Control(2), 1, To::Speed(1_500_000_000)),
            (Source::Control(3), 3, To::Closed),
            (Source::Control(4), 3, HALF),
            (Source::Control(6), 2, To::Speed(1_000_000_000)),
        ],
    },
    Start {
        time: 5_400,
        level: (6 * METRE, 6 * METRE),
        open: None,
        states: &[
            To::Open,
            To::Speed(1_500_000_000),
            To::Speed(1_000_000_000),
            HALF,
        ],
        changes: &[
            (Source::Control(2), 1, To::Speed(1_500_000_000)),
            (Source::Control(3), 3, To::Closed),
            (Source::Control(4), 3, HALF),
        ],
    },
    Start {
        time: 91_800,
        level: (65_000_000_000_000, 75_000_000_000_000),
        open: None,
        states: &[
            To::Open,
            To::Speed(800_000_000),
            To::Speed(1_000_000_000),
            To::Closed,
        ],
        changes: &[(Source::Control(3), 3, To::Closed)],
    },
];

// Whether a control is open as is said, or none is.
fn is_open(found: Option<LevelOpen>, expected: Option<LevelOpen>) -> bool {
    match (found, expected) {
        (Some(open), Some(other)) => {
            open.control == other.control && open.lo == other.lo && open.hi == other.hi
        }
        (None, None) => true,
        _ => false,
    }
}

// Whether the period of a row begins as it says.
fn begins(
    alloc: Global,
    project: &Project,
    states: &mut [LinkState],
    row: &Start,
) -> Result<bool, OutOfMemory>
    requires { IsSound project.now }
{
    if project.tanks.len() != 1 || states.len() != project.links.len() {
        return Ok(false);
    }
    let mut changes = Changes::open(alloc, project)?;
    let level = levels(row.level);
    let settled = settle(project, row.time, &[level], states, &mut changes);
    Ok(
        is_open(settled.err(), row.open)
            && are_states(states, row.states)
            && are_changes(changes.rows(), row.changes),
    )
}

// The first of some rows whose period begins otherwise.
fn first_wrong(
    alloc: Global,
    project: &Project,
    rows: &[Start],
) -> Result<Option<usize>, OutOfMemory>
    requires { IsSound project.now }
{
    let mut states = starts(alloc, project)?;
    for (number, row) in rows.iter().enumerate() {
        if !begins(alloc, project, &mut states, row)? {
            return Ok(Some(number));
        }
    }
    Ok(None)
}

fn rows() -> &'static [Start] {
    &STARTS
}

/// The first row whose period begins otherwise.
pub(crate) fn wrong_start(alloc: Global, project: &Project) -> Result<Option<usize>, OutOfMemory>
    requires { IsSound project.now }
{
    first_wrong(alloc, project, rows())
}
