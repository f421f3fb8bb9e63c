//! What is said of a period of a witness that isn't met.

ghost use Rattle.std.specs.Prelude.{◌≡◌, length};
ghost use Rattle.hyd_net.specs.ControlsAndRules.{node_count};

use crate::ids::{junction_id, link_id};
use hyd_net::Project;
use hyd_spec_witnesses::{MetClause, Unmet};
use std::fmt::{self, Display, Formatter};

// What is said of each clause that names no place.
const START: &str =
    "it doesn't follow from the period before it, or the first one from the file: its number, its time, or the level or the volume of a tank is another one";

const LENGTH: &str =
    "its length is another one than the demands, patterns, tanks, controls and rules give";

/// A period of a witness that isn't met.
#[derive(Clone, Copy)]
pub struct UnmetPeriod<'a> {
    /// The network.
    pub project: &'a Project,
    /// The number of the period, counted from 0.
    pub period: u32,
    /// The first clause that fails, and where.
    pub unmet: Unmet,
    pub ghost nodes: { length project.now.node_ids ≡ node_count project.now },
    pub ghost links: { length project.now.link_ids ≡ length project.now.links.list },
}

impl UnmetPeriod<'_> {
    // Writes which clause fails, and where.
    fn write_clause<W: fmt::Write>(&self, f: &mut Formatter<W>) -> fmt::Result {
        let project = self.project;
        let number = self.unmet.number;
        match self.unmet.clause {
            MetClause::Start => f.write_str(START),
            MetClause::Link => write!(
                f,
                "the flow of link {} isn't what the heads at its two ends give",
                link_id(project, number)
            ),
            MetClause::Demand => write!(
                f,
                "the demand flow of junction {} isn't what its demand and its pressure give, or its demand is above 10^8 m3 a day in magnitude",
                junction_id(project, number)
            ),
            MetClause::Emitter => write!(
                f,
                "the emitter flow of junction {} isn't what its pressure gives; without an emitter it is 0",
                junction_id(project, number)
            ),
            MetClause::Balance => write!(
                f,
                "the flows at junction {} don't balance: what enters it by links isn't its demand flow and its emitter flow",
                junction_id(project, number)
            ),
            MetClause::Length => f.write_str(LENGTH),
        }
    }
}

impl Display for UnmetPeriod<'_> {
    fn fmt<W: fmt::Write>(&self, f: &mut Formatter<W>) -> fmt::Result {
        let period = self.period;
        write!(f, "period {period} of the witness isn't met: ")?;
        self.write_clause(f)?;
        f.write_str(" (docs/WITNESSES.md, \"When a period is met\")")
    }
}
