//! What rules look at.

use hyd_laws_at_scale::Scale;
use hyd_net::{LinkState, Project};
use hyd_stocks_at_scale::ExactLevel;
use hyd_witness_texts::Moment;

/// An instant of a period of a witness: what rules look at.
#[derive(Clone, Copy, Drop)]
pub struct Instant<'a> {
    pub project: &'a Project,
    /// In how many parts a tick is taken.
    pub scale: Scale,
    /// The period: when it begins, the heads of its junctions, the flows of its links, and the levels of its tanks as
    /// it begins.
    pub moment: &'a Moment,
    /// The states that links are commanded to be in throughout the period.
    pub links: &'a [LinkState],
    /// The level of each tank carried to the instant.
    pub levels: &'a [ExactLevel],
    /// The instant, in seconds.
    pub time: u32,
}
