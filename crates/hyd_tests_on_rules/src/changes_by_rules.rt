//! What rules change.
#![tactic(auto)]

ghost use Rattle.hyd_net.specs.Sound.{IsSound};

use crate::networks_states_and_changes::{By, To, are_changes, are_states, starts};
use hyd_controls_and_rules::{Changes, act};
use hyd_net::{LinkState, OutOfMemory, Project};
use hyd_spec::Source;
use std::alloc::Global;

/// Rules with equal and other priorities and with none.
pub(crate) const RANKS: &str = "[OPTIONS]\nUNITS CMD\nHEADLOSS C-M\n\
    [JUNCTIONS]\nJ 10 10\n\
    [RESERVOIRS]\nR 100\n\
    [PIPES]\nP R J 100 300 0.01 0\nQ R J 100 300 0.01 0\n\
    [PUMPS]\nU R J HEAD C\n\
    [CURVES]\nC 1000 30\n\
    [RULES]\nRULE A\nIF SYSTEM TIME > 1\nTHEN PIPE P STATUS IS CLOSED\n\
    AND PIPE Q STATUS IS CLOSED\nPRIORITY 2\nRULE B\nIF SYSTEM TIME > 2\n\
    THEN PIPE P STATUS IS OPEN\nELSE PIPE Q STATUS IS OPEN\nPRIORITY 2\nRULE C\n\
    IF SYSTEM TIME > 3\nTHEN PUMP U SETTING IS 1.5\nAND PUMP U STATUS IS CLOSED\n\
    ELSE PIPE P STATUS IS OPEN\nPRIORITY 2.5\nRULE D\nIF SYSTEM TIME > 4\n\
    THEN PIPE Q STATUS IS CLOSED\nELSE PUMP U STATUS IS OPEN\nRULE E\nIF SYSTEM TIME > 5\n\
    THEN PIPE Q STATUS IS OPEN\nELSE PUMP U SETTING IS 0\nPRIORITY -1\n";

/// Which rules are true, the states of the links then, and what changed them.
#[derive(Drop)]
struct Offer {
    values: [bool; 5],
    states: &'static [To],
    changes: &'static [By],
}

/// Each row begins with the states of the one before.
static OFFERS: [Offer; 9] = [
    Offer {
        values: [true, true, true, true, true],
        states: &[To::Closed, To::Closed, To::Speed(1_500_000_000)],
        changes: &[
            (Source::Rule(0), 0, To::Closed),
            (Source::Rule(0), 1, To::Closed),
            (Source::Rule(2), 2, To::Speed(1_500_000_000)),
        ],
    },
    Offer {
        values: [true, false, true, true, true],
        states: &[To::Closed, To::Closed, To::Speed(1_500_000_000)],
        changes: &[],
    },
    Offer {
        values: [false, true, true, false, false],
        states: &[To::Open, To::Closed, To::Speed(1_500_000_000)],
        changes: &[(Source::Rule(1), 0, To::Open)],
    },
    Offer {
        values: [false, false, false, false, false],
        states: &[To::Open, To::Open, To::Closed],
        changes: &[
            (Source::Rule(1), 1, To::Open),
            (Source::Rule(4), 2, To::Closed),
        ],
    },
    Offer {
        values: [false, false, false, true, true],
        states: &[To::Open, To::Open, To::Closed],
        changes: &[],
    },
    Offer {
        values: [false, true, false, false, true],
        states: &[To::Open, To::Open, To::Speed(1_000_000_000)],
        changes: &[(Source::Rule(3), 2, To::Speed(1_000_000_000))],
    },
    Offer {
        values: [true, true, false, true, false],
        states: &[To::Open, To::Closed, To::Closed],
        changes: &[
            (Source::Rule(0), 1, To::Closed),
            (Source::Rule(4), 2, To::Closed),
        ],
    },
    Offer {
        values: [false, false, true, false, false],
        states: &[To::Open, To::Open, To::Speed(1_500_000_000)],
        changes: &[
            (Source::Rule(1), 1, To::Open),
            (Source::Rule(2), 2, To::Speed(1_500_000_000)),
        ],
    },
    Offer {
        values: [false, false, true, false, true],
        states: &[To::Open, To::Open, To::Speed(1_500_000_000)],
        changes: &[],
    },
];

// Whether rules that are true or false as in a row lead to its states, by its changes.
fn leads(
    alloc: Global,
    project: &Project,
    states: &mut [LinkState],
    row: &Offer,
) -> Result<bool, OutOfMemory>
    requires { IsSound project.now }
{
    if project.rules.len() != 5 || states.len() != project.links.len() {
        return Ok(false);
    }
    let mut changes = Changes::open(alloc, project)?;
    act(project, &row.values, states, &mut changes);
    Ok(are_states(states, row.states) && are_changes(changes.rows(), row.changes))
}

// The first of some rows that isn't as the rules lead.
fn first_wrong(
    alloc: Global,
    project: &Project,
    rows: &[Offer],
) -> Result<Option<usize>, OutOfMemory>
    requires { IsSound project.now }
{
    let mut states = starts(alloc, project)?;
    for (number, row) in rows.iter().enumerate() {
        if !leads(alloc, project, &mut states, row)? {
            return Ok(Some(number));
        }
    }
    Ok(None)
}

fn offers() -> &'static [Offer] {
    &OFFERS
}

/// The first row that isn't as the rules lead.
pub(crate) fn wrong_offer(alloc: Global, project: &Project) -> Result<Option<usize>, OutOfMemory>
    requires { IsSound project.now }
{
    first_wrong(alloc, project, offers())
}
