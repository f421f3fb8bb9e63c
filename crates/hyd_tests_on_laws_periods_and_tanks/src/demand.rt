//! Demands and heads of reservoirs over time, against values worked out by an independent program.
#![tactic(auto)]

ghost use Rattle.std.specs.Prelude.{◌≡◌, [], ◌∷◌, pos, false, Some, length, IfOk, codes};
ghost use Rattle.hyd_num.specs.declared.flow_units.FlowUnit.TheVariants.{Cmd};
ghost use Rattle.hyd_net.specs.Sound.{IsSound};

use hyd_demands_and_reservoir_heads::{DemandRange, demand_at, head_at};
use hyd_net::{
    Demand, Junction, List, Names, Options, OutOfMemory, Pattern, Project, Reservoir, Times,
};
use hyd_num::{Decimal, FlowUnit};
use std::alloc::Global;
use std::test::Fail;

fn one<T: Drop>(alloc: Global, item: T) -> Result<List<T>, OutOfMemory>
    ensures { IfOk result (λ list. list.list ≡ item ∷ []) }
{
    let mut list = List::new(alloc);
    list.push(item)?;
    Ok(list)
}

fn two<T: Drop>(alloc: Global, first: T, second: T) -> Result<List<T>, OutOfMemory>
    ensures { IfOk result (λ list. list.list ≡ first ∷ (second ∷ [])) }
{
    let mut list = one(alloc, first)?;
    list.push(second)?;
    Ok(list)
}

fn names(alloc: Global) -> Result<Names, OutOfMemory>
    ensures { IfOk result (λ names. names ≡ codes "J" ∷ (codes "R" ∷ [])) }
{
    let mut names = Names::new(alloc);
    names.add(b"J")?;
    names.add(b"R")?;
    Ok(names)
}

const TIMES: Times = Times {
    duration: 86_400,
    hydraulic: 3_600,
    pattern: 7_200,
    pattern_start: 3_600,
    report: 3_600,
    report_start: 0,
    start_clock: 0,
    rule: 360,
};

/// The demand multiplier is 2.5 and a billionth.
fn options() -> Options
    ensures unit { result.unit ≡ Cmd }
    ensures given { result.pda ≡ false }
    ensures minimum { result.p0.nano ≡ pos 0 }
    ensures required { result.pf.nano ≡ pos 100000000 }
    ensures multiplier { result.multiplier.nano ≡ pos 2500000001 }
    ensures pattern { result.default_pattern ≡ Some 0 }
{
    Options {
        unit: FlowUnit::Cmd,
        pda: false,
        p0: Decimal { nano: 0 },
        pf: Decimal { nano: 100_000_000 },
        multiplier: Decimal {
            nano: 2_500_000_001,
        },
        default_pattern: Some(0),
    }
}

/// A junction of two categories, one of them by the default pattern, and a reservoir.
pub(crate) fn network(alloc: Global) -> Result<Project, OutOfMemory>
    ensures sound { IfOk result (λ project. IsSound project) }
    ensures junctions { IfOk result (λ project. length project.junctions.list ≡ 1) }
    ensures reservoirs { IfOk result (λ project. length project.reservoirs.list ≡ 1) }
    ensures tanks { IfOk result (λ project. length project.tanks.list ≡ 0) }
    ensures links { IfOk result (λ project. length project.links.list ≡ 0) }
{
    let halves = Pattern {
        multipliers: two(alloc, 1_000_000_000, 500_000_000)?,
    };
    let jumps = Pattern {
        multipliers: two(alloc, -333_333_333, 3_000_000_000)?,
    };
    let usual = Demand {
        base: 1_000_000_007,
        pattern: None,
    };
    let own = Demand {
        base: 200_000_000_000_001,
        pattern: Some(1),
    };
    let junction = Junction {
        elevation: 0,
        demands: two(alloc, usual, own)?,
        emitter: None,
    };
    let reservoir = Reservoir {
        head: -1_000_000_000_000_001,
        pattern: Some(0),
    };
    Ok(Project {
        options: options(),
        times: TIMES,
        node_ids: names(alloc)?,
        link_ids: Names::new(alloc),
        junctions: one(alloc, junction)?,
        reservoirs: one(alloc, reservoir)?,
        tanks: List::new(alloc),
        links: List::new(alloc),
        patterns: two(alloc, halves, jumps)?,
        shapes: List::new(alloc),
        bends: List::new(alloc),
        controls: List::new(alloc),
        rules: List::new(alloc),
    })
}

/// A time, the demand of the junction then, and the head of the reservoir.
type Row = (u32, Result<i64, DemandRange>, i64);

const LOW: Result<i64, DemandRange> = Ok(-166_664_166_399_982);

const HIGH: Result<i64, DemandRange> = Err(DemandRange {
    value: 1_500_001_250_600_015,
});

const ROWS: [Row; 6] = [
    (0, LOW, -1_000_000_000_000_001),
    (3_599, LOW, -1_000_000_000_000_001),
    (3_600, HIGH, -500_000_000_000_000),
    (10_799, HIGH, -500_000_000_000_000),
    (10_800, LOW, -1_000_000_000_000_001),
    (18_000, HIGH, -500_000_000_000_000),
];

/// The first time at which demand or head is another.
fn first_other(project: &Project) -> Option<u32>
    requires sound { IsSound project.now }
    requires junctions { length project.now.junctions.list ≡ 1 }
    requires reservoirs { length project.now.reservoirs.list ≡ 1 }
{
    for (time, demand, head) in ROWS {
        if demand_at(project, 0, time) != demand || head_at(project, 0, time) != head {
            return Some(time);
        }
    }
    None
}

/// The first time at which demand or head of the network is another.
fn first_other_time(alloc: Global) -> Result<Option<u32>, OutOfMemory> {
    let project = network(alloc)?;
    Ok(first_other(&project))
}

#[test]
fn demands_and_heads_are_as_calculated(rt: HostRuntime) -> Result<(), Fail> {
    assert_eq!(rt; first_other_time(rt.alloc())?, None);
    Ok(())
}
