//! The ways in which a run stops, and what is said of each.

ghost use Rattle.std.specs.Prelude.{◌≤ℤ◌};
ghost use Rattle.hyd_net.specs.Sound.{IsSound};

use hyd_net::{LinkState, Project};
use hyd_num::Span;
use hyd_run::{Low, LowPressures};
use hyd_sentences::{DuePeriod, Stopped};
use hyd_spec_certificates::{LevelSpan, Problem, Side, StopCause};
use std::io;

/// Stops of a run of `network.inp`, each way at least once, in the order of `number_of`.
const STOPS: &[StopCause] = &[
    StopCause::NoCertificate {
        period: 2,
        problem: Problem::Main,
        side: Side::Upper,
        junction: 1,
    },
    StopCause::NoCertificate {
        period: 2,
        problem: Problem::Pinned(1),
        side: Side::Lower,
        junction: 0,
    },
    StopCause::TankOpen {
        period: 2,
        tank: 0,
        lo: 49_999_999_999_999,
        hi: 50_000_000_000_001,
    },
    StopCause::TankOpen {
        period: 2,
        tank: 1,
        lo: 9_999_000_000_000,
        hi: 10_000_000_000_000,
    },
    StopCause::RuleOpen {
        period: 2,
        rule: 0,
        clause: 1,
        lo: 19_999_999_999_999,
        hi: 20_000_000_000_001,
    },
    StopCause::RuleOpen {
        period: 2,
        rule: 1,
        clause: 0,
        lo: 4_999_999_999,
        hi: 5_000_000_001,
    },
    StopCause::RuleOpen {
        period: 2,
        rule: 2,
        clause: 0,
        lo: 0,
        hi: 900_000_000_000_000,
    },
    StopCause::RuleOpen {
        period: 2,
        rule: 3,
        clause: 0,
        lo: 399_990_000_000_000,
        hi: 400_010_000_000_000,
    },
    StopCause::ControlOpen {
        period: 2,
        control: 1,
        lo: 39_999_000_000_000,
        hi: 40_001_000_000_000,
    },
    StopCause::EventOpen {
        period: 2,
        earliest: 1_324,
        latest: 1_325,
    },
    StopCause::RoundsSpent {
        period: 2,
        problem: Problem::Main,
        side: Side::Lower,
        rounds: 200,
    },
    StopCause::RoundsSpent {
        period: 2,
        problem: Problem::Pinned(0),
        side: Side::Upper,
        rounds: 1_000,
    },
    StopCause::Demand {
        period: 2,
        junction: 0,
        value: 2_000_000_000_000_000,
    },
    StopCause::Demand {
        period: 2,
        junction: 1,
        value: -1_000_000_000_000_000_000_000_000_000_000,
    },
    StopCause::TankOpen {
        period: 2,
        tank: 9,
        lo: 0,
        hi: 1,
    },
];

/// The levels of the tanks where a period begins: T between its bounds, and S empty.
const LEVELS: &[LevelSpan] = &[
    LevelSpan {
        lo: 39_000_000_000_000,
        hi: 39_000_000_000_010,
    },
    LevelSpan {
        lo: 10_000_000_000_000,
        hi: 10_000_000_000_000,
    },
];

/// What flows into them, in flow ticks: so much into T, and nothing into S.
fn inflows(lo: i128, hi: i128) -> [Span; 2]
    requires { lo ≤ℤ hi }
{
    [Span { lo, hi }, Span { lo: 0, hi: 0 }]
}

/// The states of the links, of which two are closed: P and V.
fn states() -> [LinkState; 4] {
    [
        LinkState::Closed,
        LinkState::Open,
        LinkState::Open,
        LinkState::Closed,
    ]
}

/// The number of a way to stop.
fn number_of(cause: &StopCause) -> u8 {
    match cause {
        StopCause::NoCertificate { .. } => 0,
        StopCause::TankOpen { .. } => 1,
        StopCause::RuleOpen { .. } => 2,
        StopCause::ControlOpen { .. } => 3,
        StopCause::EventOpen { .. } => 4,
        StopCause::RoundsSpent { .. } => 5,
        StopCause::Demand { .. } => 6,
    }
}

/// Tells a way to stop that has no case.
fn tell_if_lacking(rt: &HostRuntime, number: u8) -> io::Result<()> {
    if STOPS.iter().any(|cause| number_of(cause) == number) {
        return Ok(());
    }
    println!(rt; "stop {number} HAS NO CASE")
}

/// Says what a stop means.
fn say(rt: &HostRuntime, project: &Project, cause: StopCause, due: DuePeriod<'_>) -> io::Result<()>
    requires { IsSound project.now }
{
    println!(rt;
        "{}",
        Stopped {
            project,
            time: 3_600,
            cause,
            due
        }
    )
}

/// Says what it means that it isn't decided whether a period ends after 3,392 seconds or one more, with so much flowing
/// into T.
fn say_open(rt: &HostRuntime, project: &Project, inflows: &[Span]) -> io::Result<()>
    requires { IsSound project.now }
{
    let due = DuePeriod {
        levels: LEVELS,
        inflows,
        links: &[],
    };
    let open = StopCause::EventOpen {
        period: 2,
        earliest: 3_392,
        latest: 3_393,
    };
    say(rt, project, open, due)
}

/// Says what stops mean of a period of which something is known: T comes to the level of a control, or is full, then S
/// is empty.
fn say_of_known(rt: &HostRuntime, project: &Project) -> io::Result<()>
    requires { IsSound project.now }
{
    say_open(rt, project, &inflows(8_002_000_000, 8_003_000_000))?;
    say_open(rt, project, &inflows(88_022_000_000, 88_024_500_000))?;
    let links = states();
    let due = DuePeriod {
        levels: LEVELS,
        inflows: &[],
        links: &links,
    };
    for cause in STOPS {
        if number_of(cause) == 0 || number_of(cause) == 5 {
            say(rt, project, *cause, due)?;
        }
    }
    Ok(())
}

/// Says what it means of a network without a line of units that it isn't decided when a period ends.
pub(crate) fn say_of_no_units(rt: &HostRuntime, project: &Project) -> io::Result<()>
    requires { IsSound project.now }
{
    let open = StopCause::EventOpen {
        period: 0,
        earliest: 108,
        latest: 109,
    };
    say(rt, project, open, DuePeriod::unknown())
}

/// Says that pressures may be below 0.
fn say_low(rt: &HostRuntime, project: &Project) -> io::Result<()>
    requires { IsSound project.now }
{
    println!(rt;
        "{}",
        LowPressures {
            project,
            low: Low {
                count: 7,
                junction: 1,
                time: 45_296
            }
        }
    )
}

/// Says what each stop means.
pub(crate) fn say_all(rt: &HostRuntime, project: &Project) -> io::Result<()>
    requires { IsSound project.now }
{
    for cause in STOPS {
        say(rt, project, *cause, DuePeriod::unknown())?;
    }
    say_of_known(rt, project)?;
    say_low(rt, project)?;
    for number in 0..7_u8 {
        tell_if_lacking(rt, number)?;
    }
    Ok(())
}
