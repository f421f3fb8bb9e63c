//! Levels of a tank without a volume curve and its first seconds, against an independent program in exact arithmetic.
#![tactic(auto)]

ghost use Rattle.std.specs.Prelude.{◌≡◌, ◌^◌, ◌*◌, ◌≤◌, pos, unsigned_abs};
ghost use Rattle.hyd_net.specs.NumberRanges.{Lies};
ghost use Rattle.hyd_tank.specs.StockIntervals.{IsCylinder};

use hyd_net::Tank;
use hyd_num::{Decimal, Span};
use hyd_spec::TankState;
use hyd_spec_certificates::LevelSpan;
use hyd_tank::*;
use hyd_test_helpers::METRE;

/// A level that is known, what becomes of it under an inflow, and what it is carried to.
#[derive(Clone, Copy)]
struct Row {
    level: i64,
    inflow: i128,
    seconds: u32,
    next: LevelSpan,
    carried: LevelSpan,
    ghost level_range: { Lies (pos 10000000000000) (pos 100000000000000) level },
    ghost inflow_range: { unsigned_abs inflow ≤ 10 ^ 27 },
    ghost seconds_range: { seconds ≤ 10 ^ 8 },
}

/// A level that is known, and the first second at which it reaches a target.
#[derive(Clone, Copy)]
struct Aim {
    level: i64,
    inflow: i128,
    target: i64,
    rising: bool,
    cap: u32,
    second: u32,
    ghost level_range: { Lies (pos 10000000000000) (pos 100000000000000) level },
    ghost inflow_range: { unsigned_abs inflow ≤ 10 ^ 27 },
    ghost target_range: { unsigned_abs target ≤ 2 * 10 ^ 17 },
}

// Both ends of a level interval.
fn ends(level: LevelSpan) -> (i64, i64) {
    (level.lo, level.hi)
}

// The word of how full a tank is.
fn fullness(state: Option<TankState>) -> &'static str {
    match state {
        Some(TankState::Full) => "full",
        Some(TankState::Empty) => "empty",
        Some(TankState::Between) => "between",
        None => "open",
    }
}

/// 20 metres across, from 1 to 10 metres.
fn tank() -> Tank
    ensures cylinder { IsCylinder result }
    ensures minimum { result.minimum ≡ pos 10000000000000 }
    ensures maximum { result.maximum ≡ pos 100000000000000 }
{
    Tank {
        bottom: 0,
        initial: 5 * METRE,
        minimum: METRE,
        maximum: 10 * METRE,
        area: 314_159_265_400,
        diameter: Decimal {
            nano: 20_000_000_000,
        },
        shape: None,
        overflow: false,
    }
}

fn span(lo: i64, hi: i64) -> LevelSpan {
    LevelSpan { lo, hi }
}

#[test]
fn levels_are_rounded_widened_and_held(rt: HostRuntime) {
    let rows = [
        Row {
            level: METRE,
            inflow: 0,
            seconds: 3_600,
            next: span(METRE, METRE),
            carried: span(METRE, METRE),
        },
        Row {
            level: METRE + 1,
            inflow: 0,
            seconds: 3_600,
            next: span(METRE, METRE + 11),
            carried: span(METRE + 1, METRE + 1),
        },
        Row {
            level: 10 * METRE,
            inflow: 0,
            seconds: 3_600,
            next: span(10 * METRE, 10 * METRE),
            carried: span(10 * METRE, 10 * METRE),
        },
        Row {
            level: 10 * METRE - 1,
            inflow: 0,
            seconds: 3_600,
            next: span(10 * METRE - 11, 10 * METRE),
            carried: span(10 * METRE - 1, 10 * METRE - 1),
        },
        Row {
            level: 5 * METRE,
            inflow: 0,
            seconds: 0,
            next: span(5 * METRE - 10, 5 * METRE + 10),
            carried: span(5 * METRE, 5 * METRE),
        },
        Row {
            level: 5 * METRE,
            inflow: 1,
            seconds: 1,
            next: span(5 * METRE - 10, 5 * METRE + 11),
            carried: span(5 * METRE, 5 * METRE + 1),
        },
        Row {
            level: 5 * METRE,
            inflow: -1,
            seconds: 1,
            next: span(5 * METRE - 11, 5 * METRE + 10),
            carried: span(5 * METRE - 1, 5 * METRE),
        },
        Row {
            level: 5 * METRE,
            inflow: 50_000_000_000,
            seconds: 3_600,
            next: span(56_631_455_961_286, 56_631_455_961_307),
            carried: span(56_631_455_961_296, 56_631_455_961_297),
        },
        Row {
            level: 5 * METRE,
            inflow: -50_000_000_000,
            seconds: 3_600,
            next: span(43_368_544_038_693, 43_368_544_038_714),
            carried: span(43_368_544_038_703, 43_368_544_038_704),
        },
        Row {
            level: 5 * METRE,
            inflow: 50_000_000_000,
            seconds: 90_000,
            next: span(10 * METRE, 10 * METRE),
            carried: span(10 * METRE, 10 * METRE),
        },
        Row {
            level: 5 * METRE,
            inflow: 1_000_000_000_000_000_000_000_000_000,
            seconds: 100_000_000,
            next: span(10 * METRE, 10 * METRE),
            carried: span(10 * METRE, 10 * METRE),
        },
        Row {
            level: 5 * METRE,
            inflow: -1_000_000_000_000_000_000_000_000_000,
            seconds: 100_000_000,
            next: span(METRE, METRE),
            carried: span(METRE, METRE),
        },
        Row {
            level: 10 * METRE - 25,
            inflow: 1,
            seconds: 3,
            next: span(10 * METRE - 35, 10 * METRE - 14),
            carried: span(10 * METRE - 25, 10 * METRE - 24),
        },
        Row {
            level: METRE + 25,
            inflow: -1,
            seconds: 3,
            next: span(METRE + 14, METRE + 35),
            carried: span(METRE + 24, METRE + 25),
        },
    ];
    let tank = tank();
    for row in rows {
        let level = LevelSpan {
            lo: row.level,
            hi: row.level,
        };
        let inflow = Span {
            lo: row.inflow,
            hi: row.inflow,
        };
        assert_eq!(rt;
            ends(next_level(&tank, level, inflow, row.seconds)),
            ends(row.next)
        );
        assert_eq!(rt;
            ends(level_at(&tank, level, inflow, row.seconds)),
            ends(row.carried)
        );
    }
}

#[test]
fn targets_are_met_at_whole_seconds(rt: HostRuntime) {
    let rows = [
        Aim {
            level: 5 * METRE,
            inflow: 50_000_000_000,
            target: 10 * METRE,
            rising: true,
            cap: 100_000,
            second: 27_144,
        },
        Aim {
            level: 5 * METRE,
            inflow: 50_000_000_000,
            target: 10 * METRE,
            rising: true,
            cap: 1_000,
            second: 1_000,
        },
        Aim {
            level: 5 * METRE,
            inflow: 50_000_000_000,
            target: 5 * METRE + 1,
            rising: true,
            cap: 1_000,
            second: 1,
        },
        Aim {
            level: 5 * METRE,
            inflow: 50_000_000_000,
            target: 5 * METRE,
            rising: true,
            cap: 1_000,
            second: 1,
        },
        Aim {
            level: 5 * METRE,
            inflow: 0,
            target: 5 * METRE + 1,
            rising: true,
            cap: 1_000,
            second: 1_000,
        },
        Aim {
            level: 5 * METRE,
            inflow: -50_000_000_000,
            target: 10 * METRE,
            rising: true,
            cap: 1_000,
            second: 1_000,
        },
        Aim {
            level: 5 * METRE,
            inflow: -50_000_000_000,
            target: METRE,
            rising: false,
            cap: 1_000_000,
            second: 21_715,
        },
        Aim {
            level: 5 * METRE,
            inflow: -50_000_000_000,
            target: 49_998_710_558_000,
            rising: false,
            cap: 1_000,
            second: 1,
        },
        Aim {
            level: 5 * METRE,
            inflow: 1_000_000_000_000_000_000_000_000_000,
            target: 20_000 * METRE,
            rising: true,
            cap: 1_000,
            second: 1,
        },
        Aim {
            level: 5 * METRE,
            inflow: -1_000_000_000_000_000_000_000_000_000,
            target: METRE,
            rising: false,
            cap: 1_000,
            second: 1,
        },
        Aim {
            level: 5 * METRE,
            inflow: 50_000_000_000,
            target: 10 * METRE,
            rising: true,
            cap: 0,
            second: 0,
        },
        Aim {
            level: 5 * METRE,
            inflow: 1,
            target: 10 * METRE,
            rising: true,
            cap: 100_000_000,
            second: 100_000_000,
        },
    ];
    let tank = tank();
    for row in rows {
        let level = LevelSpan {
            lo: row.level,
            hi: row.level,
        };
        let inflow = Span {
            lo: row.inflow,
            hi: row.inflow,
        };
        let seconds = first_second(&tank, level, inflow, row.target, row.rising, row.cap);
        assert_eq!(rt; seconds, (row.second, row.second));
    }
}

#[test]
fn intervals_keep_both_ends(rt: HostRuntime) {
    let tank = tank();
    let level = LevelSpan {
        lo: 5 * METRE,
        hi: 5 * METRE + 1_000,
    };
    let inflow = Span {
        lo: 10_000_000_000,
        hi: 30_000_000_000,
    };
    assert_eq!(rt;
        ends(next_level(&tank, level, inflow, 7)),
        (50_002_578_899_530, 50_007_736_699_632)
    );
    let seconds = first_second(&tank, level, inflow, 51_000_000_000_000, true, 1_000_000);
    assert_eq!(rt; seconds, (905, 2715));

    // The bands of 0.0005 foot at the two bounds, and one tick beside them.
    assert_eq!(rt;
        fullness(state_of(&tank, span(99_998_476_000_000, 10 * METRE))),
        "full"
    );
    assert_eq!(rt;
        fullness(state_of(&tank, span(99_998_475_999_999, 10 * METRE))),
        "open"
    );
    assert_eq!(rt;
        fullness(state_of(&tank, span(10_001_524_000_001, 99_998_475_999_999))),
        "between"
    );
    assert_eq!(rt;
        fullness(state_of(&tank, span(METRE, 10_001_524_000_000))),
        "empty"
    );
}
