//! The ways in which a certificate is refused, and what is said of each.

ghost use Rattle.hyd_net.specs.Sound.{IsSound};

use hyd_net::Project;
use hyd_sentences::{LineFault, RefusedFlow, RefusedLine, RefusedRecord};
use hyd_spec_certificates::{CertRefused, Problem, Side};
use hyd_spec_flows::FlowFails;
use std::io;

/// Refusals of records, each at least once.
const RECORDS: &[CertRefused] = &[
    CertRefused::Place { period: 3 },
    CertRefused::Demand { period: 3 },
    CertRefused::Fails {
        period: 3,
        problem: Problem::Main,
        side: Side::Upper,
        junction: 1,
    },
    CertRefused::Fails {
        period: 3,
        problem: Problem::Pinned(1),
        side: Side::Lower,
        junction: 0,
    },
    CertRefused::Open { period: 3 },
    CertRefused::Length { period: 3 },
    CertRefused::After { period: 3 },
];

/// Refusals of parts: a link that isn't there, one that ends at a reservoir, and heads of each side.
const PARTS: &[FlowFails] = &[
    FlowFails::Name { link: 4 },
    FlowFails::Name { link: 0 },
    FlowFails::Vector {
        link: 1,
        side: Side::Upper,
        junction: 0,
    },
    FlowFails::Vector {
        link: 1,
        side: Side::Lower,
        junction: 1,
    },
];

/// Refusals of lines, each with a line.
const LINES: &[(u64, LineFault)] = &[
    (1, LineFault::Grammar),
    (12, LineFault::Grammar),
    (1, LineFault::Counts),
    (12, LineFault::End),
];

/// The number of a way to refuse a record.
fn number_of_record(cause: &CertRefused) -> u8 {
    match cause {
        CertRefused::Place { .. } => 0,
        CertRefused::Demand { .. } => 1,
        CertRefused::Fails { .. } => 2,
        CertRefused::Open { .. } => 3,
        CertRefused::Length { .. } => 4,
        CertRefused::After { .. } => 5,
    }
}

/// The number of a way to refuse a line.
fn number_of_line(fault: &LineFault) -> u8 {
    match fault {
        LineFault::Grammar => 0,
        LineFault::Counts => 1,
        LineFault::End => 2,
    }
}

/// Tells the refusals that have no case.
fn tell_lacking(rt: &HostRuntime) -> io::Result<()> {
    for number in 0..6_u8 {
        if !RECORDS
            .iter()
            .any(|cause| number_of_record(cause) == number)
        {
            println!(rt; "refused record {number} HAS NO CASE")?;
        }
    }
    for number in 0..3_u8 {
        if !LINES
            .iter()
            .any(|(_, fault)| number_of_line(fault) == number)
        {
            println!(rt; "refused line {number} HAS NO CASE")?;
        }
    }
    Ok(())
}

/// Says why the flow of a link can't be bounded, of each refused part.
fn say_parts(rt: &HostRuntime, project: &Project) -> io::Result<()>
    requires { IsSound project.now }
{
    for cause in PARTS {
        println!(rt;
            "{}",
            RefusedFlow {
                project,
                period: 3,
                cause: *cause
            }
        )?;
    }
    Ok(())
}

/// Says what of each refused certificate isn't so.
pub(crate) fn say_all(rt: &HostRuntime, project: &Project) -> io::Result<()>
    requires { IsSound project.now }
{
    for cause in RECORDS {
        println!(rt;
            "{}",
            RefusedRecord {
                project,
                cause: *cause
            }
        )?;
    }
    say_parts(rt, project)?;
    for (line, fault) in LINES {
        println!(rt;
            "{}",
            RefusedLine {
                line: *line,
                fault: *fault
            }
        )?;
    }
    tell_lacking(rt)
}
