//! The net of a network, with the states of tanks and links in the period that it is set to.
#![tactic(auto)]

ghost use Rattle.std.specs.Prelude.{IfOk};
ghost use Rattle.hyd_net.specs.Sound.{IsSound};
ghost use Rattle.hyd_period_network.specs.NetsSetToPeriods.{AreLevels};
ghost use Rattle.hyd_course.specs.NetsSetForMoments.{IsSetNet};

use hyd_net::{LinkState, OutOfMemory, Project};
use hyd_period_network::Net;
use hyd_spec::TankState;
use hyd_spec_certificates::LevelSpan;
use std::alloc::Global;

/// The net of a network, which can be set to the period of a moment, with the states of tanks and links in it.
#[derive(Drop)]
pub struct SetNet {
    pub net: Net,
    /// All levels of each tank. The net takes some, but whether a flow is met is judged by those of a moment.
    pub levels: Vec<LevelSpan>,
    /// The state of each tank.
    pub tanks: Vec<TankState>,
    /// The state of each link.
    pub links: Vec<LinkState>,
}

// All levels of each tank.
fn all_levels(alloc: Global, project: &Project) -> Result<Vec<LevelSpan>, OutOfMemory>
    requires { IsSound project.now }
    ensures { IfOk result (λ levels. AreLevels project.now levels.items) }
{
    let tanks = project.tanks.as_slice();
    let mut levels = Vec::new(alloc);
    for tank in tanks {
        levels.push(LevelSpan {
            lo: tank.minimum,
            hi: tank.maximum,
        })?;
    }
    Ok(levels)
}

impl SetNet {
    /// The net of a network, that isn't set yet, with all the memory that setting it takes.
    pub fn open(alloc: Global, project: &Project) -> Result<SetNet, OutOfMemory>
        requires { IsSound project.now }
        ensures { IfOk result (IsSetNet project.now) }
    {
        let levels = all_levels(alloc, project)?;
        let tanks = vec![in alloc; TankState::Between; project.tanks.len()]?;
        let links = vec![in alloc; LinkState::Closed; project.links.len()]?;
        let net = Net::open(alloc, project)?;
        Ok(SetNet {
            net,
            levels,
            tanks,
            links,
        })
    }
}
