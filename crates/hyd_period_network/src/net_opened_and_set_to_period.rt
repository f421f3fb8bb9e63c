//! The net opened for a network, with nothing known, and set to a period.
#![tactic(auto)]

ghost use Rattle.std.specs.Prelude.{◌≡◌, length, map, IfOk, IfErr, OnOk, OnErr};
ghost use Rattle.hyd_net.specs.Sound.{IsSound};
ghost use Rattle.hyd_spec_certificates.specs.SpansAsIntervals.{levels_of};
ghost use Rattle.hyd_spec_certificates.specs.PeriodNetwork.{IsGrid};
ghost use Rattle.hyd_spec_certificates.specs.Valid.{DemandsAreInRange};
ghost use Rattle.hyd_spec_certificates.specs.Stops.{IsFirstDemand};
ghost use Rattle.hyd_period_network.specs.LawsInSettings.{AreStates};
ghost use Rattle.hyd_period_network.specs.NetAsPeriodNetwork.{grid_of, states_of, own_laws};
ghost use Rattle.hyd_period_network.specs.NetsSetToPeriods.{IsNetOf, IsFresh, AreLevels, AreShut, own_laws_of};

use crate::demands::{kept_demands, set_demands};
use crate::fault::PeriodDemand;
use crate::fixed_heads::{set_reservoirs, set_tanks};
use crate::junctions_ends_and_settings::Setting;
use crate::laws_of_new_net::closed_laws;
use crate::link_ends::rows_of;
use crate::net::Net;
use crate::parts_of_new_net::{all_ends, copies, net_junctions};
use crate::states_and_forbidden_ways::set_links;
use hyd_law::{Fixed, OutLaw};
use hyd_net::{LinkState, Project};
use hyd_spec::TankState;
use hyd_spec_certificates::LevelSpan;
use std::alloc::{AllocError as OutOfMemory, Global};

impl Net {
    /// The net of a network, in which each link is shut and each head and each demand is 0.
    pub fn open(alloc: Global, project: &Project) -> Result<Net, OutOfMemory>
        requires { IsSound project.now }
        ensures of { IfOk result (IsNetOf project.now) }
        ensures fresh { IfOk result IsFresh }
    {
        let shut = Setting {
            state: LinkState::Closed,
            no_forward: false,
            no_reverse: false,
        };
        let nothing = OutLaw::Fixed(Fixed { demand: 0 });
        let junctions = net_junctions(alloc, project.junctions.as_slice())?;
        let demands = copies(alloc, nothing, project.junctions.len())?;
        let reservoirs = copies(alloc, 0, project.reservoirs.len())?;
        let tanks = copies(alloc, LevelSpan { lo: 0, hi: 0 }, project.tanks.len())?;
        let ends = all_ends(alloc, project.links.as_slice())?;
        let settings = copies(alloc, shut, project.links.len())?;
        let laws = closed_laws(alloc, project)?;
        let nodes = junctions.len() + reservoirs.len() + tanks.len();
        let rows = rows_of(alloc, nodes, &ends)?;
        Ok(Net {
            junctions,
            demands,
            reservoirs,
            tanks,
            ends,
            settings,
            laws,
            rows,
        })
    }

    /// Puts the net into the period that begins at a time, in seconds, with the links in these states, the tanks at
    /// these levels, in head ticks above their bottoms, and in these states. What differs from what the net holds is
    /// written, and nothing else: a law of a link is made anew only where its setting changed, a capacity only where
    /// the demand did. No memory is taken. Each list is passed over once; from the first junction whose demand changes
    /// on, junctions are passed over again, since none is written before all are known to be in range. Fails with the
    /// first junction whose demand is out of range, and then all is as before.
    pub fn set_period(
        &mut self,
        project: &Project,
        time: u32,
        links: &[LinkState],
        levels: &[LevelSpan],
        tanks: &[TankState],
    ) -> Result<(), PeriodDemand>
        requires sound { IsSound project.now }
        requires of { IsNetOf project.now self.old }
        requires states { AreStates project.now links.now }
        requires levels { AreLevels project.now levels.now }
        requires tanks { length tanks.now ≡ length project.now.tanks.list }
        ensures stays { IsNetOf project.now self.new }
        ensures grid { OnOk result (IsGrid project.now time (map levels_of levels.now) tanks.now links.now
            (grid_of self.new)) }
        ensures states { OnOk result (states_of self.new ≡ links.now) }
        ensures own { OnOk result (own_laws self.new ≡ own_laws_of project.now project.now.links.list links.now) }
        ensures shut { OnOk result (AreShut project.now tanks.now self.new.laws) }
        ensures in_range { OnOk result (DemandsAreInRange project.now time) }
        ensures refused { IfErr result (λ fault. IsFirstDemand project.now time fault.junction fault.value) }
        ensures unchanged { OnErr result (self.new ≡ self.old) }
    {
        let kept = kept_demands(project, time, &self.demands)?;
        set_demands(project, time, kept, &mut self.demands);
        set_reservoirs(project, time, &mut self.reservoirs);
        set_tanks(project, levels, &mut self.tanks);
        set_links(project, links, tanks, &mut self.settings, &mut self.laws);
        Ok(())
    }
}
