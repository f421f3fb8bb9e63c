//! What of a certificate isn't so.

ghost use Rattle.std.specs.Prelude.{◌≡◌, length};
ghost use Rattle.hyd_net.specs.ControlsAndRules.{node_count};

use crate::sentences::{FaultyLine, Unbounded, Untrue};
use crate::stopped::{bounded_by, link_id, node_id};
use hyd_net::Project;
use hyd_spec_certificates::CertRefused;
use hyd_spec_flows::FlowFails;
use std::fmt::{self, Display, Formatter};

/// What of a record of a certificate isn't so.
#[derive(Clone, Copy)]
pub struct RefusedRecord<'a> {
    /// The network.
    pub project: &'a Project,
    /// Why the record is refused.
    pub cause: CertRefused,
    pub ghost nodes: { length project.now.node_ids ≡ node_count project.now },
}

/// Why the flow of a link that is named behind a record of a certificate can't be bounded.
#[derive(Clone, Copy)]
pub struct RefusedFlow<'a> {
    /// The network.
    pub project: &'a Project,
    /// The number of the record, counted from 0.
    pub period: u32,
    /// Why the part behind it is refused.
    pub cause: FlowFails,
    pub ghost nodes: { length project.now.node_ids ≡ node_count project.now },
    pub ghost links: { length project.now.link_ids ≡ length project.now.links.list },
}

/// What of a line of a certificate isn't so.
#[derive(Clone, Copy)]
pub struct RefusedLine {
    /// The line, counted from 1.
    pub line: u64,
    /// What is wrong with it.
    pub fault: LineFault,
}

/// What is wrong with a line of a certificate.
#[derive(Clone, Copy)]
pub enum LineFault {
    /// It can't stand there.
    Grammar,
    /// The first line is that of another network.
    Counts,
    /// The END line isn't true.
    End,
}

// The period of a record, and what of it isn't so.
fn untrue_of(record: RefusedRecord<'_>) -> (u32, Untrue<'_>) {
    match record.cause {
        CertRefused::Place { period } => (period, Untrue::Place),
        CertRefused::Demand { period } => (period, Untrue::Demand),
        CertRefused::Fails {
            period,
            problem,
            side,
            junction,
        } => (
            period,
            Untrue::Fails {
                bounded: bounded_by(record.project, problem, side),
                junction: node_id(record.project, junction),
            },
        ),
        CertRefused::Open { period } => (period, Untrue::Open),
        CertRefused::Length { period } => (period, Untrue::Length),
        CertRefused::After { period } => (period, Untrue::After),
    }
}

// Why the flow of a named link can't be bounded.
fn unbounded_of(part: RefusedFlow<'_>) -> Unbounded<'_> {
    let project = part.project;
    match part.cause {
        FlowFails::Name { link } => {
            if link as usize >= project.links.len() {
                return Unbounded::NoLink { number: link };
            }
            Unbounded::Name {
                link: link_id(project, link),
            }
        }
        FlowFails::Vector { link, junction, .. } => Unbounded::Heads {
            link: link_id(project, link),
            junction: node_id(project, junction),
        },
    }
}

impl Display for RefusedRecord<'_> {
    fn fmt<W: fmt::Write>(&self, f: &mut Formatter<W>) -> fmt::Result {
        let (period, untrue) = untrue_of(*self);
        write!(
            f,
            "the certificate isn't right in period {period}: {untrue}"
        )
    }
}

impl Display for RefusedFlow<'_> {
    fn fmt<W: fmt::Write>(&self, f: &mut Formatter<W>) -> fmt::Result {
        let period = self.period;
        let unbounded = unbounded_of(*self);
        write!(
            f,
            "the certificate isn't right in period {period}: {unbounded}"
        )
    }
}

impl Display for RefusedLine {
    fn fmt<W: fmt::Write>(&self, f: &mut Formatter<W>) -> fmt::Result {
        let line = self.line;
        let fault = self.fault;
        write!(
            f,
            "the certificate isn't right in line {line}: {}",
            FaultyLine { line, fault }
        )
    }
}
