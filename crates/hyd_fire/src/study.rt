//! Room for questions about targets.
#![tactic(auto)]

ghost use Rattle.std.specs.Prelude.{◌≡◌, length, IfOk};

use hyd_period_network::Net;
use hyd_sweep::Sweeper;
use hyd_tight_starts::HeldDescent;
use std::alloc::{AllocError as OutOfMemory, Global};
use std::marker::Model;

/// Room for questions about targets in nets of one size, opened once. Contracts see the vectors of both sides that a
/// closure left.
#[derive(Drop)]
pub struct Study {
    pub(crate) upper: Vec<i64>,
    pub(crate) lower: Vec<i64>,
    /// The heads of the search that goes on.
    pub(crate) heads: Vec<i64>,
    /// The heads that are proposed.
    pub(crate) to: Vec<i64>,
    /// The order of turns that is to lead to them.
    pub(crate) order: Vec<u32>,
    pub(crate) descent: HeldDescent,
    pub(crate) sweeper: Sweeper,
}

impl Model for Study {
    ghost use Rattle.std.specs.Prelude.{◌≡◌, length};
    ghost use Rattle.hyd_fire.specs.StudyView.{StudyView};

    ghost Value = { StudyView };

    ghost view = { λ s. record { upper = s.upper.items; lower = s.lower.items } };

    ghost invariant = { λ s. (length s.lower.items ≡ length s.upper.items)
        × ((length s.heads.items ≡ length s.upper.items) × ((length s.to.items ≡ length s.upper.items)
        × (s.sweeper ≡ length s.upper.items))) };
}

impl Study {
    /// Takes all the memory that the questions take.
    pub fn open(alloc: Global, net: &Net) -> Result<Study, OutOfMemory>
        ensures upper { IfOk result (λ study. length study.upper ≡ length net.now.junctions) }
        ensures lower { IfOk result (λ study. length study.lower ≡ length net.now.junctions) }
    {
        let junctions = net.junctions();
        let upper = vec![in alloc; 0i64; junctions as usize]?;
        let lower = vec![in alloc; 0i64; junctions as usize]?;
        let heads = vec![in alloc; 0i64; junctions as usize]?;
        let to = vec![in alloc; 0i64; junctions as usize]?;
        let order = vec![in alloc; 0u32; junctions as usize]?;
        let descent = HeldDescent::open(alloc, net)?;
        let sweeper = Sweeper::open(alloc, junctions)?;
        Ok(Study {
            upper,
            lower,
            heads,
            to,
            order,
            descent,
            sweeper,
        })
    }
}
