//! The nets of a network for a spread, opened.
#![tactic(auto)]

ghost use Rattle.std.specs.Prelude.{◌≡◌, IfOk, IfErr, vec_len};
ghost use Rattle.hyd_net.specs.Sound.{IsSound};
ghost use Rattle.hyd_spec_certificates.specs.declared.Side.{Side};
ghost use Rattle.hyd_period_network.specs.NetsSetToPeriods.{IsFresh};
ghost use Rattle.hyd_spread_rows.specs.SpreadsRead.{spread_of, AreInRange};
ghost use Rattle.hyd_spread_networks.specs.NetsOfSpreads.{AreNetsOf, net_on};
ghost use Rattle.hyd_spread_networks.specs.RefusedSpreads.{IsRefusedFor};

use crate::emitters::outermost_emitters;
use crate::fault::SpreadNetsRefused;
use crate::heads::judge_heads;
use crate::nets::SpreadNets;
use hyd_net::{OutOfMemory, Project};
use hyd_period_network::Net;
use hyd_spread_rows::SpreadRows;
use std::alloc::Global;

fn zeros(alloc: Global, count: usize) -> Result<Vec<i64>, OutOfMemory>
    ensures { IfOk result (λ v. vec_len v ≡ count) }
{
    let mut items = Vec::new(alloc);
    items.resize(count, 0)?;
    Ok(items)
}

impl SpreadNets {
    /// The nets of a network for a spread, with the emitters of the outermost networks, and with all the memory that
    /// periods take. In both each link is shut and each head and each demand is 0. Fails with
    /// [`SpreadNetsRefused::Head`] where a head of a reservoir, by its pattern and its offsets, leaves the range of
    /// heads, and else with [`SpreadNetsRefused::Emitter`] where the least or the greatest coefficient of an emitter is
    /// 0, above a million, or of a capacity out of range.
    pub fn open(
        alloc: Global,
        project: &Project,
        rows: SpreadRows,
    ) -> Result<SpreadNets, SpreadNetsRefused>
        requires sound { IsSound project.now }
        requires range { AreInRange rows }
        ensures spread { IfOk result (λ nets. nets.spread ≡ spread_of rows) }
        ensures of { IfOk result (AreNetsOf project.now) }
        ensures fresh { IfOk result (λ nets. (side : Side) → IsFresh (net_on side nets)) }
        ensures refused { IfErr result (IsRefusedFor project.now (spread_of rows)) }
    {
        judge_heads(project, &rows)?;
        let emitters = outermost_emitters(alloc, project, &rows)?;
        let mut upper = Net::open(alloc, project)?;
        upper.set_emitters(&emitters);
        let mut lower = Net::open(alloc, project)?;
        lower.set_emitters(&emitters);
        let least_demands = zeros(alloc, project.junctions.len())?;
        let greatest_demands = zeros(alloc, project.junctions.len())?;
        let least_heads = zeros(alloc, project.reservoirs.len())?;
        let greatest_heads = zeros(alloc, project.reservoirs.len())?;
        Ok(SpreadNets {
            rows,
            upper,
            lower,
            least_demands,
            greatest_demands,
            least_heads,
            greatest_heads,
        })
    }
}
