//! Flows of pipes with Hazen-Williams losses against values worked out by an independent program.
#![tactic(auto)]

ghost use Rattle.std.specs.Prelude.{pos, ◌<ℤ◌};

use hyd_num::Decimal;
use hyd_power_capacities::hazen_williams_capacity;
use hyd_power_laws::{power_high, power_low};
use hyd_spec_power_laws::{HazenWilliamsPipe, PowerCapacity};

/// The ends of a capacity, low before high, each its mantissa before its exponent.
type Ends = (u64, i32, u64, i32);

fn ends(capacity: &PowerCapacity) -> Ends {
    (
        capacity.low.mant,
        capacity.low.exp,
        capacity.high.mant,
        capacity.high.exp,
    )
}

/// The flows at a head difference of at most 3 * 10^18 head ticks.
fn flows(capacity: &PowerCapacity, d: i64) -> Option<(i128, i128)> {
    if d.unsigned_abs() <= 3_000_000_000_000_000_000 {
        return Some((power_low(capacity, d), power_high(capacity, d)));
    }
    None
}

/// The first head difference of a table at which something else passes at least or at most.
fn first_other(capacity: &PowerCapacity, rows: &[(i64, i128, i128)]) -> Option<i64> {
    for (d, low, high) in rows {
        if flows(capacity, *d) != Some((*low, *high)) {
            return Some(*d);
        }
    }
    None
}

/// What a pipe's capacity gives otherwise than a table has it; `Some(0)` where its ends do.
fn other(pipe: HazenWilliamsPipe, wanted: Ends, rows: &[(i64, i128, i128)]) -> Option<i64>
    requires length { pos 0 <ℤ pipe.length.nano }
    requires diameter { pos 0 <ℤ pipe.diameter.nano }
    requires coefficient { pos 0 <ℤ pipe.coefficient.nano }
{
    let Ok(capacity) = hazen_williams_capacity(pipe) else {
        return Some(0);
    };
    if ends(&capacity) != wanted {
        return Some(0);
    }
    first_other(&capacity, rows)
}

#[test]
fn a_wide_pipe(rt: HostRuntime) {
    let pipe = HazenWilliamsPipe {
        length: Decimal {
            nano: 10_530_000_000_000,
        },
        diameter: Decimal {
            nano: 18_000_000_000,
        },
        coefficient: Decimal {
            nano: 100_000_000_000,
        },
        minor: Decimal { nano: 0 },
        us: true,
    };
    let wanted = (
        5_424_571_589_137_885_643,
        21_930,
        5_424_571_589_137_912_607,
        21_930,
    );
    let rows = [
        (0, 0, 0),
        (1, 3_755, 3_756),
        (-1, -3_756, -3_755),
        (13, 15_002, 15_003),
        (-4_096, -335_125, -335_124),
        (1_000_000, 6_522_721, 6_522_722),
        (-123_456_789_012, -3_661_229_640, -3_661_229_639),
        (290_000_000_000_000, 241_968_142_290, 241_968_142_291),
        (
            100_000_000_000_000_000,
            5_674_840_449_932,
            5_674_840_449_933,
        ),
        (
            -3_000_000_000_000_000_000,
            -35_606_995_257_315,
            -35_606_995_257_314,
        ),
        (
            3_000_000_000_000_000_000,
            35_606_995_257_314,
            35_606_995_257_315,
        ),
    ];
    assert_eq!(rt; other(pipe, wanted, &rows), None);
}

#[test]
fn a_pipe_with_fittings(rt: HostRuntime) {
    let pipe = HazenWilliamsPipe {
        length: Decimal {
            nano: 100_000_000_000,
        },
        diameter: Decimal {
            nano: 100_000_000_000,
        },
        coefficient: Decimal {
            nano: 130_000_000_000,
        },
        minor: Decimal {
            nano: 2_500_000_000,
        },
        us: false,
    };
    let wanted = (
        5_605_833_317_409_956_370,
        16_954,
        5_605_833_317_409_995_607,
        16_954,
    );
    let rows = [
        (0, 0, 0),
        (1, 580, 581),
        (-1, -581, -580),
        (13, 2_315, 2_316),
        (-4_096, -51_542, -51_541),
        (1_000_000, 997_868, 997_869),
        (-123_456_789_012, -547_658_834, -547_658_833),
        (290_000_000_000_000, 35_123_682_672, 35_123_682_673),
        (100_000_000_000_000_000, 794_594_689_477, 794_594_689_478),
        (
            -3_000_000_000_000_000_000,
            -4_847_160_566_666,
            -4_847_160_566_665,
        ),
        (
            3_000_000_000_000_000_000,
            4_847_160_566_665,
            4_847_160_566_666,
        ),
    ];
    assert_eq!(rt; other(pipe, wanted, &rows), None);
}

#[test]
fn a_narrow_pipe_with_fittings(rt: HostRuntime) {
    let pipe = HazenWilliamsPipe {
        length: Decimal { nano: 3_000_000 },
        diameter: Decimal { nano: 50_000_000 },
        coefficient: Decimal {
            nano: 40_000_000_000,
        },
        minor: Decimal {
            nano: 1_000_000_000_000,
        },
        us: true,
    };
    let wanted = (
        5_471_153_771_840_122_374,
        -139,
        5_471_153_771_840_163_804,
        -139,
    );
    let rows = [
        (0, 0, 0),
        (1, 0, 1),
        (-1, -1, 0),
        (13, 0, 1),
        (-4_096, -4, -3),
        (1_000_000, 48, 49),
        (-123_456_789_012, -17_035, -17_034),
        (290_000_000_000_000, 825_684, 825_685),
        (100_000_000_000_000_000, 15_333_472, 15_333_473),
        (-3_000_000_000_000_000_000, -83_986_892, -83_986_891),
        (3_000_000_000_000_000_000, 83_986_891, 83_986_892),
    ];
    assert_eq!(rt; other(pipe, wanted, &rows), None);
}

#[test]
fn a_pipe_that_loses_too_little_is_refused(rt: HostRuntime) {
    let pipe = HazenWilliamsPipe {
        length: Decimal { nano: 1 },
        diameter: Decimal {
            nano: 9_000_000_000_000,
        },
        coefficient: Decimal {
            nano: 9_000_000_000_000,
        },
        minor: Decimal { nano: 0 },
        us: false,
    };
    assert!(rt; hazen_williams_capacity(pipe).is_err());
}
