//! A demand by the default pattern, over more than its length.
#![tactic(auto)]

ghost use Rattle.hyd_net.specs.Sound.{IsSound};

use crate::networks_from_texts::read;
use hyd_demands_and_reservoir_heads::demand_at;
use hyd_net::Project;
use std::alloc::Global;
use std::test::Fail;

const TEXT: &str = "[OPTIONS]\nUNITS CMD\nHEADLOSS C-M\nDEMAND MULTIPLIER 0.5\n\
    [JUNCTIONS]\nJ 0 10\n\
    [RESERVOIRS]\nR 0\n\
    [PATTERNS]\n1 1 2 0\n";

/// Times, and the demand then.
const ROWS: [(u32, i64); 4] = [
    (0, 50_000_000),
    (3_600, 100_000_000),
    (7_200, 0),
    (10_800, 50_000_000),
];

/// The first time at which the demand of the one junction is another.
fn first_other(project: &Project) -> Option<u32>
    requires { IsSound project.now }
{
    if project.junctions.len() != 1 {
        return Some(0);
    }
    for (time, demand) in ROWS {
        if demand_at(project, 0, time) != Ok(demand) {
            return Some(time);
        }
    }
    None
}

/// The first time at which the demand of the network is another.
fn first_other_time(alloc: Global) -> Result<Option<u32>, Fail> {
    let project = read(alloc, TEXT)?;
    Ok(first_other(&project))
}

#[test]
fn a_demand_by_the_default_pattern(rt: HostRuntime) -> Result<(), Fail> {
    assert_eq!(rt; first_other_time(rt.alloc())?, None);
    Ok(())
}
