//! The net given its emitters, and put into a period with given demands and heads of reservoirs.
#![tactic(auto)]

ghost use Rattle.std.specs.Prelude.{◌≡◌, length, All, IfSome};
ghost use Rattle.hyd_net.specs.NumberRanges.{IsHead};
ghost use Rattle.hyd_net.specs.Sound.{IsSound};
ghost use Rattle.hyd_spec.specs.ProgramTypes.{Project, Capacity};
ghost use Rattle.std.specs.Prelude.{Option};
ghost use Rattle.hyd_theorems_on_definitions.specs.SoundLawsAndGrids.{IsSoundCapacity};
ghost use Rattle.hyd_demands_and_reservoir_heads.specs.DemandsAndHeadsByNumber.{IsInRange};
ghost use Rattle.hyd_period_network.specs.LawsInSettings.{AreStates};
ghost use Rattle.hyd_period_network.specs.NetAsPeriodNetwork.{states_of, own_laws};
ghost use Rattle.hyd_period_network.specs.NetsSetToPeriods.{IsNetOf, AreLevels, AreShut, own_laws_of};
ghost use Rattle.hyd_period_network.specs.GivenData.{with_emitters, IsNetButEmitters, IsPutWith};

use crate::fixed_heads::set_tanks;
use crate::given_data::{give_demands, give_emitters, give_heads};
use crate::net::Net;
use crate::states_and_forbidden_ways::set_links;
use hyd_net::{LinkState, Project};
use hyd_num::Capacity;
use hyd_spec::TankState;
use hyd_spec_certificates::LevelSpan;

impl Net {
    /// Gives each junction an emitter of this capacity, or none, in place of the one that it has. All else is as before.
    pub fn set_emitters(&mut self, emitters: &[Option<Capacity>])
        requires each { length emitters.now ≡ length self.old.junctions }
        requires sound { All (λ (e : Option Capacity). IfSome e IsSoundCapacity) emitters.now }
        ensures given { self.new ≡ record self.old { junctions = with_emitters self.old.junctions emitters.now } }
        ensures of { (project : Project) → IsNetOf project self.old → IsNetButEmitters project self.new }
    {
        give_emitters(&mut self.junctions, emitters);
    }

    /// Puts the net into a period as [`Net::set_period`] does, but with these demands of junctions, in flow ticks, and
    /// these heads of reservoirs, in head ticks, whatever the network's own are. A law of a link is made anew only where
    /// its setting changed, a capacity only where the demand did. No memory is taken. The emitters are as before.
    pub fn set_period_with(
        &mut self,
        project: &Project,
        demands: &[i64],
        heads: &[i64],
        links: &[LinkState],
        levels: &[LevelSpan],
        tanks: &[TankState],
    )
        requires sound { IsSound project.now }
        requires of { IsNetButEmitters project.now self.old }
        requires each_demand { length demands.now ≡ length project.now.junctions.list }
        requires in_range { All IsInRange demands.now }
        requires each_head { length heads.now ≡ length project.now.reservoirs.list }
        requires heads { All IsHead heads.now }
        requires states { AreStates project.now links.now }
        requires levels { AreLevels project.now levels.now }
        requires tanks { length tanks.now ≡ length project.now.tanks.list }
        ensures stays { IsNetButEmitters project.now self.new }
        ensures junctions { self.new.junctions ≡ self.old.junctions }
        ensures put { IsPutWith project.now demands.now heads.now levels.now tanks.now links.now self.new }
        ensures states { states_of self.new ≡ links.now }
        ensures own { own_laws self.new ≡ own_laws_of project.now project.now.links.list links.now }
        ensures shut { AreShut project.now tanks.now self.new.laws }
    {
        give_demands(project, demands, &mut self.demands);
        give_heads(heads, &mut self.reservoirs);
        set_tanks(project, levels, &mut self.tanks);
        set_links(project, links, tanks, &mut self.settings, &mut self.laws);
    }
}
