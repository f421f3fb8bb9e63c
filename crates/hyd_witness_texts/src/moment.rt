//! A period of a witness.

ghost use Rattle.std.specs.Prelude.{◌≡◌, pos, All, length, IfOk};
ghost use Rattle.hyd_witness_texts.specs.MomentView.{counts_in, moment_of, HasCounts};

use crate::counts::NetworkCounts;
use hyd_net::List;
use std::alloc::{AllocError as OutOfMemory, Global};

/// A period as a witness tells it. Heads, levels, volumes and flows are parts of ticks.
#[derive(Drop)]
pub struct Moment {
    /// Its number, counted from 0.
    pub number: u32,
    /// When it begins, in seconds.
    pub time: u32,
    /// How long it lasts, in seconds.
    pub length: u32,
    /// The head of each junction.
    pub heads: List<i128>,
    /// The flow of each link.
    pub flows: List<i128>,
    /// The demand flow of each junction.
    pub demands: List<i128>,
    /// The emitter flow of each junction.
    pub emitters: List<i128>,
    /// The level of each tank as the period begins.
    pub levels: List<i128>,
    /// The volume of each tank as the period begins, 0 where it has no curve.
    pub volumes: List<i128>,
}

impl Moment {
    /// A moment of a network with so many of each, in which all is 0. All its memory is taken here.
    pub fn open(alloc: Global, counts: NetworkCounts) -> Result<Moment, OutOfMemory>
        ensures counts { IfOk result (λ moment. HasCounts (counts_in counts) (moment_of moment)) }
        ensures numbers { IfOk result (λ moment. (moment.number ≡ 0) × (moment.time ≡ 0) × (moment.length ≡ 0)) }
        ensures heads { IfOk result (λ moment. All (λ v. v ≡ pos 0) moment.heads.list) }
        ensures flows { IfOk result (λ moment. All (λ v. v ≡ pos 0) moment.flows.list) }
        ensures demands { IfOk result (λ moment. All (λ v. v ≡ pos 0) moment.demands.list) }
        ensures emitters { IfOk result (λ moment. All (λ v. v ≡ pos 0) moment.emitters.list) }
        ensures levels { IfOk result (λ moment. All (λ v. v ≡ pos 0) moment.levels.list) }
        ensures volumes { IfOk result (λ moment. All (λ v. v ≡ pos 0) moment.volumes.list) }
    {
        Ok(Moment {
            number: 0,
            time: 0,
            length: 0,
            heads: zeros(alloc, counts.junctions)?,
            flows: zeros(alloc, counts.links)?,
            demands: zeros(alloc, counts.junctions)?,
            emitters: zeros(alloc, counts.junctions)?,
            levels: zeros(alloc, counts.tanks)?,
            volumes: zeros(alloc, counts.tanks)?,
        })
    }
}

/// A list of so many values of 0.
fn zeros(alloc: Global, count: u32) -> Result<List<i128>, OutOfMemory>
    ensures count { IfOk result (λ values. length values.list ≡ count) }
    ensures zeros { IfOk result (λ values. All (λ v. v ≡ pos 0) values.list) }
{
    let mut values = List::with_room(alloc, count as usize)?;
    for _ in 0..count {
        values.push(0)?;
    }
    Ok(values)
}
