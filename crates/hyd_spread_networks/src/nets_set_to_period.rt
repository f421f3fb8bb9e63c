//! The nets of both sides, put into a period.
#![tactic(auto)]

ghost use Rattle.std.specs.Prelude.{◌≡◌, length, map, IfErr, OnOk, OnErr};
ghost use Rattle.hyd_net.specs.Sound.{IsSound};
ghost use Rattle.hyd_spec_certificates.specs.SpansAsIntervals.{levels_of};
ghost use Rattle.hyd_spec_certificates.specs.declared.Side.{Side};
ghost use Rattle.hyd_spec_spread.specs.OutermostGrids.{IsOutermostGrid};
ghost use Rattle.hyd_spec_spread_runs.specs.RunsForSpreads.{AreDemandsInRange};
ghost use Rattle.hyd_period_network.specs.LawsInSettings.{AreStates};
ghost use Rattle.hyd_period_network.specs.NetAsPeriodNetwork.{grid_of, states_of, own_laws};
ghost use Rattle.hyd_period_network.specs.NetsSetToPeriods.{AreLevels, AreShut, own_laws_of};
ghost use Rattle.hyd_spread_networks.specs.NetsOfSpreads.{AreNetsOf, net_on};
ghost use Rattle.hyd_spec_spread_stops.specs.StopsOfSpreads.{IsFirstDemandOver};

use crate::demands::put_demands;
use crate::fault::DemandOver;
use crate::heads::put_heads;
use crate::nets::SpreadNets;
use hyd_net::{LinkState, Project};
use hyd_spec::TankState;
use hyd_spec_certificates::LevelSpan;

impl SpreadNets {
    /// Puts the nets into the period that begins at a time, in seconds, with the links in these states, the tanks at
    /// these levels, in head ticks above their bottoms, and in these states: the UPPER net gets the least demands and
    /// the greatest heads of reservoirs that the spread allows then, the LOWER net the greatest demands and the least
    /// heads. No memory is taken. Fails with the first junction of whose demand an end is out of range, and then all is
    /// as before.
    pub fn set_period(
        &mut self,
        project: &Project,
        time: u32,
        links: &[LinkState],
        levels: &[LevelSpan],
        tanks: &[TankState],
    ) -> Result<(), DemandOver>
        requires sound { IsSound project.now }
        requires of { AreNetsOf project.now self.old }
        requires states { AreStates project.now links.now }
        requires levels { AreLevels project.now levels.now }
        requires tanks { length tanks.now ≡ length project.now.tanks.list }
        ensures stays { AreNetsOf project.now self.new }
        ensures spread { self.new.spread ≡ self.old.spread }
        ensures grids { OnOk result ((side : Side) → IsOutermostGrid project.now self.old.spread side time
            (map levels_of levels.now) tanks.now links.now (grid_of (net_on side self.new))) }
        ensures states { OnOk result ((side : Side) → states_of (net_on side self.new) ≡ links.now) }
        ensures own { OnOk result ((side : Side) → own_laws (net_on side self.new)
            ≡ own_laws_of project.now project.now.links.list links.now) }
        ensures shut { OnOk result ((side : Side) → AreShut project.now tanks.now (net_on side self.new).laws) }
        ensures in_range { OnOk result (AreDemandsInRange project.now self.old.spread time) }
        ensures refused { IfErr result (λ fault. IsFirstDemandOver project.now self.old.spread time fault.junction
            fault.value) }
        ensures unchanged { OnErr result (self.new ≡ self.old) }
    {
        put_demands(
            project,
            time,
            &self.rows,
            &mut self.least_demands,
            &mut self.greatest_demands,
        )?;
        put_heads(
            project,
            time,
            &self.rows,
            &mut self.least_heads,
            &mut self.greatest_heads,
        );
        self.upper.set_period_with(
            project,
            &self.least_demands,
            &self.greatest_heads,
            links,
            levels,
            tanks,
        );
        self.lower.set_period_with(
            project,
            &self.greatest_demands,
            &self.least_heads,
            links,
            levels,
            tanks,
        );
        Ok(())
    }
}
