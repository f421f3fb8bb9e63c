//! What is known of rules at an instant.
#![tactic(auto)]

ghost use Rattle.std.specs.Prelude.{unsigned_abs, All, IfSome};
ghost use Rattle.hyd_net.specs.Sound.{IsSound};
ghost use Rattle.hyd_controls_and_rules.specs.RuleReadings.{IsBounded};

use crate::networks_states_and_changes::{levels, starts};
use hyd_controls_and_rules::decide;
use hyd_net::{LinkState, OutOfMemory, Project};
use hyd_num::Span;
use hyd_spec_certificates::Truth;
use hyd_test_helpers::METRE;
use std::alloc::Global;

/// Rules of each kind of clause. The clock begins at 11 PM, and rules are tried each 6 minutes.
pub(crate) const CLAUSES: &str = "[OPTIONS]\nUNITS CMD\nHEADLOSS C-M\n\
    [TIMES]\nDURATION 48\nSTART CLOCKTIME 11 PM\n\
    [JUNCTIONS]\nJ 10 10\n\
    [RESERVOIRS]\nR 100\n\
    [TANKS]\nT 50 5 0 10 20\n\
    [PIPES]\nP R J 100 300 0.01 0\n\
    [PUMPS]\nU J T HEAD C\n\
    [VALVES]\nV R T 300 FCV 500 0\n\
    [CURVES]\nC 1000 30\n\
    [RULES]\nRULE GROUPS\nIF TANK T LEVEL > 5\nOR LINK P FLOW > 100\nAND SYSTEM TIME >= 2\n\
    THEN PIPE P STATUS IS CLOSED\nRULE MAGNITUDE\nIF LINK P FLOW < 50\n\
    THEN PIPE P STATUS IS CLOSED\nRULE NIGHT\nIF SYSTEM CLOCKTIME >= 10 PM\n\
    OR SYSTEM CLOCKTIME < 6\nTHEN PIPE P STATUS IS CLOSED\nRULE MIDNIGHT\n\
    IF SYSTEM CLOCKTIME = 0\nTHEN PIPE P STATUS IS CLOSED\nRULE MOMENT\nIF SYSTEM TIME = 1:30\n\
    THEN PIPE P STATUS IS CLOSED\nRULE HEADS\nIF JUNCTION J PRESSURE BELOW 20\n\
    AND NODE R HEAD >= 100\nAND TANK T HEAD > 54\nTHEN PIPE P STATUS IS CLOSED\nRULE STATES\n\
    IF PUMP U STATUS IS OPEN\nAND VALVE V SETTING >= 500\nAND VALVE V STATUS IS ACTIVE\n\
    AND PIPE P STATUS NOT CLOSED\nTHEN PIPE P STATUS IS CLOSED\n";

/// Levels in head ticks, from one to another: 6 metres, 4 to 6, 4 to 5.
const SIX: (i64, i64) = (6 * METRE, 6 * METRE);

const FOUR_TO_SIX: (i64, i64) = (4 * METRE, 6 * METRE);

const FOUR_TO_FIVE: (i64, i64) = (4 * METRE, 5 * METRE);

/// No flow.
const STILL: (i128, i128) = (0, 0);

/// A head of 40 metres.
const HIGH: (i64, i64) = (40 * METRE, 40 * METRE);

/// The head of the reservoir.
const RESERVOIR: (i64, i64) = (100 * METRE, 100 * METRE);

/// A rule and an instant, the tank's level, the pipe's flow and the junction's head, each from one to another, and what
/// is known of the rule.
type Instant = (u32, u32, (i64, i64), (i128, i128), (i64, i64), Truth);

static INSTANTS: [Instant; 31] = [
    (0, 7_200, SIX, STILL, HIGH, Truth::True),
    (0, 7_199, SIX, STILL, HIGH, Truth::False),
    (
        0,
        7_200,
        FOUR_TO_FIVE,
        (1_000_000_000, 1_000_000_000),
        HIGH,
        Truth::False,
    ),
    (
        0,
        7_200,
        FOUR_TO_FIVE,
        (-1_010_000_000, -1_005_000_000),
        HIGH,
        Truth::True,
    ),
    (
        0,
        7_200,
        FOUR_TO_SIX,
        (-1_200_000_000, -1_010_000_000),
        HIGH,
        Truth::True,
    ),
    (
        0,
        7_200,
        FOUR_TO_SIX,
        (-1_200_000_000, 800_000_000),
        HIGH,
        Truth::Open {
            clause: 0,
            lo: 40_000_000_000_000,
            hi: 60_000_000_000_000,
        },
    ),
    (
        0,
        7_200,
        FOUR_TO_FIVE,
        (-1_200_000_000, 800_000_000),
        HIGH,
        Truth::Open {
            clause: 1,
            lo: 0,
            hi: 1_200_000_000,
        },
    ),
    (
        0,
        3_600,
        FOUR_TO_SIX,
        (-1_200_000_000, 800_000_000),
        HIGH,
        Truth::False,
    ),
    (1, 0, SIX, (-490_000_000, 499_999_999), HIGH, Truth::True),
    (
        1,
        0,
        SIX,
        (-500_000_000, 490_000_000),
        HIGH,
        Truth::Open {
            clause: 0,
            lo: 0,
            hi: 500_000_000,
        },
    ),
    (1, 0, SIX, (-600_000_000, -500_000_000), HIGH, Truth::False),
    (
        1,
        0,
        SIX,
        (300_000_000, 600_000_000),
        HIGH,
        Truth::Open {
            clause: 0,
            lo: 300_000_000,
            hi: 600_000_000,
        },
    ),
    (2, 0, SIX, STILL, HIGH, Truth::True),
    (2, 25_199, SIX, STILL, HIGH, Truth::True),
    (2, 25_200, SIX, STILL, HIGH, Truth::False),
    (2, 82_799, SIX, STILL, HIGH, Truth::False),
    (2, 82_800, SIX, STILL, HIGH, Truth::True),
    (3, 3_599, SIX, STILL, HIGH, Truth::False),
    (3, 3_600, SIX, STILL, HIGH, Truth::True),
    (3, 3_959, SIX, STILL, HIGH, Truth::True),
    (3, 3_960, SIX, STILL, HIGH, Truth::False),
    (3, 90_000, SIX, STILL, HIGH, Truth::True),
    (4, 5_399, SIX, STILL, HIGH, Truth::False),
    (4, 5_400, SIX, STILL, HIGH, Truth::True),
    (4, 5_759, SIX, STILL, HIGH, Truth::True),
    (4, 5_760, SIX, STILL, HIGH, Truth::False),
    (
        5,
        0,
        (50_000_000_000_000, 50_000_000_000_000),
        STILL,
        (290_000_000_000_000, 299_000_000_000_000),
        Truth::True,
    ),
    (
        5,
        0,
        (40_000_000_000_000, 40_000_000_000_000),
        STILL,
        (290_000_000_000_000, 299_000_000_000_000),
        Truth::False,
    ),
    (
        5,
        0,
        (40_000_000_000_000, 45_000_000_000_000),
        STILL,
        (290_000_000_000_000, 300_000_000_000_000),
        Truth::Open {
            clause: 0,
            lo: 190_000_000_000_000,
            hi: 200_000_000_000_000,
        },
    ),
    (
        5,
        0,
        (40_000_000_000_000, 45_000_000_000_000),
        STILL,
        (290_000_000_000_000, 290_000_000_000_000),
        Truth::Open {
            clause: 2,
            lo: 540_000_000_000_000,
            hi: 545_000_000_000_000,
        },
    ),
    (6, 0, SIX, STILL, HIGH, Truth::True),
];

/// OR binds tighter than AND: the third rule waits for the fifth hour.
pub(crate) const GROUPS: &str = "[OPTIONS]\nUNITS CFS\nHEADLOSS C-M\n\
    [RESERVOIRS]\nA 100\nB 99.534\n\
    [PIPES]\nP A B 1000 12 0.01 0\nQ A B 1000 12 0.01 0\n\
    [TIMES]\nDURATION 2\n\
    [RULES]\nRULE 1\nIF SYSTEM TIME >= 1\nTHEN PIPE P STATUS IS CLOSED\nRULE 2\n\
    IF SYSTEM TIME >= 1\nTHEN PIPE P STATUS IS OPEN\nRULE 3\nIF SYSTEM TIME >= 0\n\
    OR SYSTEM TIME >= 0\nAND SYSTEM TIME >= 5\nTHEN PIPE Q STATUS IS CLOSED\n";

// A flow from one to another, where it is bounded.
fn flow(ends: (i128, i128)) -> Option<Span>
    ensures { IfSome result (λ flow. IsBounded flow) }
{
    let most = 1_000_000_000_000_000_000_000_000_000;
    if ends.0 > ends.1 || ends.0.unsigned_abs() > most || ends.1.unsigned_abs() > most {
        return None;
    }
    Some(Span {
        lo: ends.0,
        hi: ends.1,
    })
}

// Nothing flows.
fn no_flow() -> Span
    ensures { IsBounded result }
{
    Span { lo: 0, hi: 0 }
}

// The flows of three links.
fn flows(first: Span, other: Span) -> [Span; 3]
    requires first { IsBounded first }
    requires other { IsBounded other }
    ensures { All IsBounded result }
{
    [first, other, other]
}

// What is known of a rule, in a network of a junction, a reservoir, a tank and three links.
fn known(project: &Project, states: &[LinkState], row: &Instant) -> Option<Truth>
    requires { IsSound project.now }
{
    let first = flow(row.3)?;
    if row.0 as usize >= project.rules.len()
        || project.junctions.len() != 1
        || project.reservoirs.len() != 1
        || project.tanks.len() != 1
        || project.links.len() != 3
        || states.len() != 3
    {
        return None;
    }
    let low = [row.4.0, RESERVOIR.0];
    let high = [row.4.1, RESERVOIR.1];
    let flows = flows(first, no_flow());
    let level = levels(row.2);
    Some(decide(project, row.0, &low, &high, &flows, &[level], states, row.1))
}

// Whether this is known.
fn is_truth(known: Option<Truth>, expected: Truth) -> bool {
    match (known, expected) {
        (Some(Truth::True), Truth::True) => true,
        (Some(Truth::False), Truth::False) => true,
        (
            Some(Truth::Open { clause, lo, hi }),
            Truth::Open {
                clause: other,
                lo: low,
                hi: high,
            },
        ) => clause == other && lo == low && hi == high,
        _ => false,
    }
}

// The first of some rows of which something else is known.
fn first_wrong(project: &Project, states: &[LinkState], rows: &[Instant]) -> Option<usize>
    requires { IsSound project.now }
{
    for (number, row) in rows.iter().enumerate() {
        if !is_truth(known(project, states, row), row.5) {
            return Some(number);
        }
    }
    None
}

fn instants() -> &'static [Instant] {
    &INSTANTS
}

/// The first row of which something else is known.
pub(crate) fn wrong_instant(alloc: Global, project: &Project) -> Result<Option<usize>, OutOfMemory>
    requires { IsSound project.now }
{
    let states = starts(alloc, project)?;
    Ok(first_wrong(project, &states, instants()))
}

// The flows of two links.
fn both(flow: Span) -> [Span; 2]
    requires { IsBounded flow }
    ensures { All IsBounded result }
{
    [flow, flow]
}

// What is known of the third rule at a time, in a network of two reservoirs and two pipes.
fn known_at(project: &Project, states: &[LinkState], time: u32) -> Option<Truth>
    requires { IsSound project.now }
{
    if project.rules.len() != 3
        || project.junctions.len() != 0
        || project.reservoirs.len() != 2
        || project.tanks.len() != 0
        || project.links.len() != 2
        || states.len() != 2
    {
        return None;
    }
    let heads = [0, 0];
    let flows = both(no_flow());
    Some(decide(project, 2, &heads, &heads, &flows, &[], states, time))
}

/// The number of the first of two times, 3,600 and 18,000 seconds, at which the third rule isn't known to be false and
/// then true.
pub(crate) fn wrong_group(alloc: Global, project: &Project) -> Result<Option<usize>, OutOfMemory>
    requires { IsSound project.now }
{
    let states = starts(alloc, project)?;
    if !is_truth(known_at(project, &states, 3_600), Truth::False) {
        return Ok(Some(0));
    }
    if !is_truth(known_at(project, &states, 18_000), Truth::True) {
        return Ok(Some(1));
    }
    Ok(None)
}
