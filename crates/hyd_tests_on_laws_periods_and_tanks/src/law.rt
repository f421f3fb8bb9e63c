//! Laws of links and of demands at both sides of each knee, against values worked out by an independent program.
#![tactic(auto)]

ghost use Rattle.std.specs.Prelude.{◌≡◌, ◌≤◌, ◌*◌, ◌^◌, ℤ, ◌≤ℤ◌, unsigned_abs, IfOk};
ghost use Rattle.hyd_law.specs.KnotsOfStraightLines.{IsCurve};
ghost use Rattle.hyd_law.specs.LinkLaws.{IsSoundLink, LinkAccepts};
ghost use Rattle.hyd_law.specs.DemandLaws.{IsSoundOut, OutAccepts};
ghost use Rattle.hyd_theorems_on_definitions.specs.SoundLawsAndGrids.{IsSoundCapacity};

use hyd_capacities::pda_capacity;
use hyd_law::{
    Bent, Capped, Fixed, Held, Knot, Law, Lifted, Linear, LinkLaw, OneWay, OutLaw, Pda, Quad, Shut,
};
use hyd_net::{List, OutOfMemory, ShutoffHead};
use hyd_num::{Capacity, Decimal, Span};
use std::alloc::Global;
use std::test::Fail;

/// What passes at least and at most at a head difference of at most 2 * 10^18 head ticks.
fn link_flows(law: &LinkLaw, d: i64) -> Option<(i128, i128)>
    requires sound { IsSoundLink law.now }
    requires accepts { (x : ℤ) → unsigned_abs x ≤ 2 * 10 ^ 18 → LinkAccepts law.now x }
{
    if d.unsigned_abs() <= 2_000_000_000_000_000_000 {
        return Some((law.low(d), law.high(d)));
    }
    None
}

/// The first head difference of a table at which something else passes at least or at most.
fn first_other(law: &LinkLaw, rows: &[(i64, i128, i128)]) -> Option<i64>
    requires sound { IsSoundLink law.now }
    requires accepts { (x : ℤ) → unsigned_abs x ≤ 2 * 10 ^ 18 → LinkAccepts law.now x }
{
    for (d, low, high) in rows {
        if link_flows(law, *d) != Some((*low, *high)) {
            return Some(*d);
        }
    }
    None
}

/// What leaves at least and at most at a pressure of at most 2 * 10^18 head ticks.
fn demand_flows(law: &OutLaw, d: i64) -> Option<(i128, i128)>
    requires sound { IsSoundOut law.now }
    requires accepts { (x : ℤ) → unsigned_abs x ≤ 2 * 10 ^ 18 → OutAccepts law.now x }
{
    if d.unsigned_abs() <= 2_000_000_000_000_000_000 {
        return Some((law.low(d), law.high(d)));
    }
    None
}

/// The capacity with which 30 metres drive 100,000 cubic metres a day.
fn capacity() -> Capacity
    ensures { IsSoundCapacity result }
{
    pda_capacity(
        1_000_000_000_000,
        Decimal { nano: 0 },
        Decimal {
            nano: 30_000_000_000,
        },
        false,
    )
}

/// The quadratic law.
fn quad() -> Quad
    ensures { IsSoundCapacity result.cap }
{
    Quad { cap: capacity() }
}

#[test]
fn losses_without_a_knee_are_as_calculated(rt: HostRuntime) {
    let law = LinkLaw::Shut(Shut);
    assert_eq!(rt; link_flows(&law, 2_000_000_000_000_000_000), Some((0, 0)));

    let law = LinkLaw::Quad(quad());
    let rows = [
        (0, 0, 0),
        (1, 57_735, 57_736),
        (-1, -57_736, -57_735),
        (3, 99_999, 100_001),
        (-3, -100_001, -99_999),
        (70_000_000_000_000, 483_045_891_539, 483_045_891_540),
        (-70_000_000_000_000, -483_045_891_540, -483_045_891_539),
        (
            2_000_000_000_000_000_000,
            81_649_658_092_772,
            81_649_658_092_773,
        ),
        (
            -2_000_000_000_000_000_000,
            -81_649_658_092_773,
            -81_649_658_092_772,
        ),
    ];
    assert_eq!(rt; first_other(&law, &rows), None, "quadratic");

    let law = LinkLaw::Linear(Linear);
    let rows = [
        (0, 0, 0),
        (1, 8_026, 8_027),
        (-1, -8_027, -8_026),
        (1_000_000, 8_026_822_656, 8_026_822_656),
        (-1_000_000, -8_026_822_656, -8_026_822_656),
        (
            2_000_000_000_000_000_000,
            16_053_645_312_000_000_000_000,
            16_053_645_312_000_000_000_000,
        ),
    ];
    assert_eq!(rt; first_other(&law, &rows), None, "linear");
}

#[test]
fn laws_one_way_are_as_calculated(rt: HostRuntime) {
    let law = LinkLaw::QuadOneWay(OneWay {
        forward: true,
        inner: quad(),
    });
    let rows = [(-1, 0, 0), (0, 0, 0), (1, 57_735, 57_736)];
    assert_eq!(rt; first_other(&law, &rows), None, "forward");

    let law = LinkLaw::LinearOneWay(OneWay {
        forward: false,
        inner: Linear,
    });
    let rows = [(-1, -8_027, -8_026), (0, 0, 0), (1, 0, 0)];
    assert_eq!(rt; first_other(&law, &rows), None, "reverse");
}

/// A pump at speed 0.7 of a curve whose one point is at 10 metres: it lifts 6.5333 metres.
fn pump() -> LinkLaw
    ensures sound { IsSoundLink result }
    ensures accepts { (x : ℤ) → unsigned_abs x ≤ 2 * 10 ^ 18 → LinkAccepts result x }
{
    LinkLaw::Pump(OneWay {
        forward: true,
        inner: Lifted {
            lift: Span {
                lo: 65_333_333_333_333,
                hi: 65_333_333_333_334,
            },
            head: ShutoffHead::FourThirds(Decimal {
                nano: 10_000_000_000,
            }),
            speed: 700_000_000,
            us: false,
            inner: quad(),
        },
    })
}

#[test]
fn a_pump_is_as_calculated(rt: HostRuntime) {
    let law = pump();
    let rows = [
        (-65_333_333_333_335, 0, 0),
        (-65_333_333_333_334, 0, 0),
        (-65_333_333_333_333, 0, 57_736),
        (-65_333_333_333_332, 57_735, 81_650),
        (0, 466_666_666_666, 466_666_666_667),
    ];
    assert_eq!(rt; first_other(&law, &rows), None, "pump");
}

#[test]
fn limits_are_as_calculated(rt: HostRuntime) {
    let half = Capped {
        cap: 500_000_000_000,
        inner: quad(),
    };
    let law = LinkLaw::Limit(half);
    let rows = [
        (74_999_999_999_699, 499_999_999_998, 499_999_999_999),
        (75_000_000_000_000, 499_999_999_999, 500_000_000_000),
        (75_000_000_000_301, 500_000_000_000, 500_000_000_000),
        (-75_000_000_000_000, -500_000_000_001, -499_999_999_999),
    ];
    assert_eq!(rt; first_other(&law, &rows), None, "limit");

    let law = LinkLaw::LimitOneWay(OneWay {
        forward: true,
        inner: half,
    });
    let rows = [
        (-1, 0, 0),
        (74_999_999_999_699, 499_999_999_998, 499_999_999_999),
        (75_000_000_000_301, 500_000_000_000, 500_000_000_000),
    ];
    assert_eq!(rt; first_other(&law, &rows), None, "limit forward");

    let ten = Capped {
        cap: 80_268_226_560,
        inner: Linear,
    };
    let law = LinkLaw::LinearLimit(ten);
    let rows = [
        (9_999_999, 80_268_218_533, 80_268_218_534),
        (10_000_000, 80_268_226_560, 80_268_226_560),
        (10_000_001, 80_268_226_560, 80_268_226_560),
        (-10_000_001, -80_268_234_587, -80_268_234_586),
    ];
    assert_eq!(rt; first_other(&law, &rows), None, "linear limit");

    let law = LinkLaw::LinearLimitOneWay(OneWay {
        forward: true,
        inner: ten,
    });
    let rows = [
        (-1, 0, 0),
        (9_999_999, 80_268_218_533, 80_268_218_534),
        (10_000_001, 80_268_226_560, 80_268_226_560),
    ];
    assert_eq!(rt; first_other(&law, &rows), None, "linear limit forward");
}

/// A list of these knots.
fn listed(alloc: Global, knots: &[Knot]) -> Result<List<Knot>, OutOfMemory>
    requires { IsCurve knots.now }
    ensures { IfOk result (λ list. IsCurve list.list) }
{
    let mut list = List::new(alloc);
    for knot in knots {
        list.push(*knot)?;
    }
    Ok(list)
}

/// Straight lines through these knots, held from a least to a greatest flow.
fn bent(least: i64, most: i64, knots: List<Knot>) -> LinkLaw
    requires curve { IsCurve knots.list }
    requires bounds { least ≤ℤ most }
    ensures sound { IsSoundLink result }
    ensures accepts { (x : ℤ) → unsigned_abs x ≤ 2 * 10 ^ 18 → LinkAccepts result x }
{
    LinkLaw::Bent(Held {
        least,
        most,
        inner: Bent { knots },
    })
}

fn knot(head: i64, flow: i64) -> Knot
    ensures { result ≡ record { head = head; flow = flow } }
{
    Knot { head, flow }
}

#[test]
fn curves_are_as_calculated(rt: HostRuntime) -> Result<(), Fail> {
    let pump = [
        knot(-400_000_000_000_000, 0),
        knot(-350_000_000_000_000, 5_000_000_000),
        knot(-250_000_000_000_000, 9_000_000_000),
        knot(-100_000_000_000_000, 12_000_000_000),
    ];
    let law = bent(0, 100_000_000_000_000_000, listed(rt.alloc(), &pump)?);
    let rows = [
        (-500_000_000_000_000, 0, 0),
        (-400_000_000_000_001, 0, 0),
        (-400_000_000_000_000, 0, 0),
        (-399_999_999_999_999, 0, 1),
        (-350_000_000_000_001, 4_999_999_999, 5_000_000_000),
        (-350_000_000_000_000, 5_000_000_000, 5_000_000_000),
        (-349_999_999_999_999, 5_000_000_000, 5_000_000_001),
        (-250_000_000_000_001, 8_999_999_999, 9_000_000_000),
        (-250_000_000_000_000, 9_000_000_000, 9_000_000_000),
        (-249_999_999_999_999, 9_000_000_000, 9_000_000_001),
        (-100_000_000_000_001, 11_999_999_999, 12_000_000_000),
        (-100_000_000_000_000, 12_000_000_000, 12_000_000_000),
        (-99_999_999_999_999, 12_000_000_000, 12_000_000_001),
        (0, 14_000_000_000, 14_000_000_000),
        (
            1_000_000_000_000_000_000,
            20_014_000_000_000,
            20_014_000_000_000,
        ),
    ];
    assert_eq!(rt; first_other(&law, &rows), None, "pump's curve");
    Ok(())
}

#[test]
fn steep_curves_are_as_calculated(rt: HostRuntime) -> Result<(), Fail> {
    let valve = [
        knot(-1, -1_000_000_000_000_000),
        knot(0, 0),
        knot(0, 0),
        knot(1, 1_000_000_000_000_000),
    ];
    let law = bent(
        -100_000_000_000_000_000,
        100_000_000_000_000_000,
        listed(rt.alloc(), &valve)?,
    );
    let rows = [
        (-101, -100_000_000_000_000_000, -100_000_000_000_000_000),
        (-100, -100_000_000_000_000_000, -100_000_000_000_000_000),
        (-99, -99_000_000_000_000_000, -99_000_000_000_000_000),
        (-1, -1_000_000_000_000_000, -1_000_000_000_000_000),
        (0, 0, 0),
        (1, 1_000_000_000_000_000, 1_000_000_000_000_000),
        (99, 99_000_000_000_000_000, 99_000_000_000_000_000),
        (100, 100_000_000_000_000_000, 100_000_000_000_000_000),
        (101, 100_000_000_000_000_000, 100_000_000_000_000_000),
    ];
    assert_eq!(rt; first_other(&law, &rows), None, "valve's curve");

    let steps = [knot(-3, -7), knot(-3, 2), knot(4, 9), knot(4, 11)];
    let law = bent(-100, 100, listed(rt.alloc(), &steps)?);
    let rows = [
        (-4, -7, -7),
        (-3, 2, 2),
        (-2, 3, 3),
        (0, 5, 5),
        (3, 8, 8),
        (4, 11, 11),
        (5, 11, 11),
    ];
    assert_eq!(rt; first_other(&law, &rows), None, "steps");
    Ok(())
}

/// The law of 100 cubic metres a day from 5 to 45 pounds a square inch.
fn by_pressure() -> OutLaw
    ensures sound { IsSoundOut result }
    ensures accepts { (x : ℤ) → unsigned_abs x ≤ 2 * 10 ^ 18 → OutAccepts result x }
{
    let minimum = Decimal {
        nano: 5_000_000_000,
    };
    let required = Decimal {
        nano: 45_000_000_000,
    };
    OutLaw::Pda(Pda {
        demand: 1_000_000_000,
        cap: pda_capacity(1_000_000_000, minimum, required, true),
        p0: Span {
            lo: 35_171_936_302_792,
            hi: 35_171_936_302_793,
        },
        pf: Span {
            lo: 316_547_426_725_132,
            hi: 316_547_426_725_133,
        },
        minimum,
        required,
        us: true,
    })
}

#[test]
fn demands_are_as_calculated(rt: HostRuntime) {
    let law = OutLaw::Fixed(Fixed { demand: -7 });
    assert_eq!(rt; demand_flows(&law, 0), Some((-7, -7)));

    let law = by_pressure();
    for (p, low, high) in [
        (-1_000_000_000_000_000_000, 0, 0),
        (35_171_936_302_791, 0, 0),
        (35_171_936_302_792, 0, 0),
        (35_171_936_302_793, 0, 60),
        (35_171_936_302_794, 59, 85),
        (175_859_681_513_962, 707_106_781, 707_106_782),
        (316_547_426_725_131, 999_999_999, 1_000_000_000),
        (316_547_426_725_132, 999_999_999, 1_000_000_000),
        (316_547_426_725_133, 1_000_000_000, 1_000_000_000),
        (316_547_426_725_134, 1_000_000_000, 1_000_000_000),
    ] {
        assert_eq!(rt; demand_flows(&law, p), Some((low, high)), "pressure {p}");
    }
}
