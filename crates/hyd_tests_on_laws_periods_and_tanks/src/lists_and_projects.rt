//! Lists, tables of IDs and the comparison of networks, on small examples.
#![tactic(auto)]

use hyd_cert::version_of;
use hyd_net::{List, Names, Options, OutOfMemory, Project, Reservoir, Tank, Times, same};
use hyd_num::{Decimal, FlowUnit};
use hyd_test_helpers::METRE;
use std::alloc::Global;
use std::test::Fail;

#[test]
fn lists_grow_change_and_empty(rt: HostRuntime) -> Result<(), Fail> {
    let mut list = List::new(rt.alloc());
    list.reserve(2)?;
    list.push(3u32)?;
    list.push(5)?;
    list.as_mut_slice()[1] = 7;
    assert_eq!(rt; list.as_slice(), [3, 7].as_slice());

    // No memory has room for so many.
    assert!(rt; list.reserve(usize::MAX).is_err());
    assert_eq!(rt; list.as_slice(), [3, 7].as_slice());

    list.clear();
    assert_eq!(rt; list.len(), 0);
    Ok(())
}

#[test]
fn names_are_numbered_once(rt: HostRuntime) -> Result<(), Fail> {
    let mut names = Names::new(rt.alloc());
    assert!(rt; names.add(b"J1")?);
    assert!(rt; names.add(b"j1")?);
    assert!(rt; !names.add(b"J1")?);
    assert_eq!(rt; names.number(b"J1"), Some(0));
    assert_eq!(rt; names.number(b"j1"), Some(1));
    assert_eq!(rt; names.number(b"J2"), None);
    assert_eq!(rt; names.id(1), b"j1".as_slice());
    Ok(())
}

/// A reservoir and a tank, and room for some links.
fn network(
    alloc: Global,
    head: i64,
    diameter: Decimal,
    spare: usize,
) -> Result<Project, OutOfMemory> {
    let mut reservoirs = List::new(alloc);
    reservoirs.push(Reservoir {
        head,
        pattern: None,
    })?;
    let mut tanks = List::new(alloc);
    tanks.push(tank(diameter))?;
    let mut links = List::new(alloc);
    links.reserve(spare)?;
    Ok(Project {
        options: options(),
        times: times(),
        node_ids: Names::new(alloc),
        link_ids: Names::new(alloc),
        junctions: List::new(alloc),
        reservoirs,
        tanks,
        links,
        patterns: List::new(alloc),
        shapes: List::new(alloc),
        bends: List::new(alloc),
        controls: List::new(alloc),
        rules: List::new(alloc),
    })
}

fn options() -> Options {
    Options {
        unit: FlowUnit::Cmd,
        pda: false,
        p0: Decimal { nano: 0 },
        pf: Decimal { nano: 100_000_000 },
        multiplier: Decimal {
            nano: 1_000_000_000,
        },
        default_pattern: None,
    }
}

fn times() -> Times {
    Times {
        duration: 3600,
        hydraulic: 3600,
        pattern: 3600,
        pattern_start: 0,
        report: 3600,
        report_start: 0,
        start_clock: 0,
        rule: 360,
    }
}

fn tank(diameter: Decimal) -> Tank {
    Tank {
        bottom: 0,
        initial: 5 * METRE,
        minimum: 0,
        maximum: 10 * METRE,
        area: 314_159_265_400,
        diameter,
        shape: None,
        overflow: false,
    }
}

/// Twenty metres across.
const WIDE: Decimal = Decimal {
    nano: 20_000_000_000,
};

/// Whether a network is the same as another one.
fn is_same_as(
    alloc: Global,
    one: &Project,
    head: i64,
    diameter: Decimal,
    spare: usize,
) -> Result<bool, OutOfMemory> {
    let other = network(alloc, head, diameter, spare)?;
    Ok(same(one, &other))
}

/// Whether a network with 20 metres across and a head of 100 metres is the same as another one.
fn is_same(alloc: Global, head: i64, diameter: Decimal, spare: usize) -> Result<bool, OutOfMemory> {
    let one = network(alloc, 100 * METRE, WIDE, 0)?;
    is_same_as(alloc, &one, head, diameter, spare)
}

#[test]
fn projects_are_the_same_but_for_what_is_left_aside(rt: HostRuntime) -> Result<(), Fail> {
    let narrow = Decimal {
        nano: 19_999_999_999,
    };
    assert!(rt; is_same(rt.alloc(), 100 * METRE, narrow, 10)?);
    assert!(rt; !is_same(rt.alloc(), 100 * METRE - 1, narrow, 0)?);
    Ok(())
}

/// The version of a network's certificates, and that once its tanks overflow.
fn versions(project: &mut Project) -> (u32, u32) {
    let before = version_of(project);
    for tank in project.tanks.as_mut_slice() {
        tank.overflow = true;
    }
    (before, version_of(project))
}

/// The versions for the network.
fn versions_of_network(alloc: Global) -> Result<(u32, u32), OutOfMemory> {
    let mut project = network(alloc, 100 * METRE, WIDE, 0)?;
    Ok(versions(&mut project))
}

#[test]
fn a_tank_that_overflows_has_the_second_version(rt: HostRuntime) -> Result<(), Fail> {
    assert_eq!(rt; versions_of_network(rt.alloc())?, (1, 2));
    Ok(())
}
