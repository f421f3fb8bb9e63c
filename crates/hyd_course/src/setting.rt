//! The net of a network, set to the period of a moment.
#![tactic(auto)]

ghost use Rattle.std.specs.Prelude.{◌≡◌, ◌<◌, pos, Some, IfErr, OnOk, length, slice_get, slice_index_or};
ghost use Rattle.std.specs.List.{AllZip};
ghost use Rattle.hyd_net.specs.Sound.{IsSound};
ghost use Rattle.hyd_spec.specs.ProgramTypes.{Tank};
ghost use Rattle.hyd_spec.specs.NodeNumbers.{tank_count};
ghost use Rattle.hyd_spec.specs.Tank.{tank_state};
ghost use Rattle.hyd_spec.specs.PumpPatternsAndSimpleControls.{started, acts_at};
ghost use Rattle.hyd_spec.specs.History.{tank_states};
ghost use Rattle.hyd_spec_certificates.specs.Stops.{IsFirstDemand};
ghost use Rattle.hyd_theorems_on_histories.specs.Agreement.{IsOwnState};
ghost use Rattle.hyd_laws_at_scale.specs.Scales.{parts_of};
ghost use Rattle.hyd_course.specs.NetsSetForMoments.{IsSetNet, IsSetAt};

use crate::set_net::SetNet;
use hyd_laws_at_scale::Scale;
use hyd_length_at_scale::start_links;
use hyd_met_flows::number_at;
use hyd_net::{LinkState, Project};
use hyd_period_network::PeriodDemand;
use hyd_spec::TankState;
use hyd_stocks_at_scale::state_at;

// The state of a tank at its level.
fn tank_at(project: &Project, scale: Scale, levels: &[i128], tank: usize) -> TankState
    requires sound { IsSound project.now }
    requires tank { tank < length project.now.tanks.list }
    requires each { length levels.now ≡ tank_count project.now }
    ensures { (each : Tank) → slice_get project.now.tanks.list tank ≡ Some each
        → result ≡ tank_state (parts_of scale) each (slice_index_or levels.now tank (pos 0)) }
{
    let tanks = project.tanks.as_slice();
    state_at(&tanks[tank], scale, number_at(levels, tank))
}

// Puts the states of tanks at their levels.
fn put_tanks(project: &Project, scale: Scale, levels: &[i128], tanks: &mut [TankState])
    requires sound { IsSound project.now }
    requires each_level { length levels.now ≡ tank_count project.now }
    requires each { length tanks.old ≡ tank_count project.now }
    ensures { tanks.new ≡ tank_states (parts_of scale) project.now.tanks.list levels.now }
{
    for tank in 0..project.tanks.len() {
        tanks[tank] = tank_at(project, scale, levels, tank);
    }
}

// Puts the states of links at the start of a period, after they were commanded so.
fn put_links(
    project: &Project,
    scale: Scale,
    time: u32,
    levels: &[i128],
    commanded: &[LinkState],
    links: &mut [LinkState],
)
    requires sound { IsSound project.now }
    requires each_level { length levels.now ≡ tank_count project.now }
    requires each_state { length commanded.now ≡ length project.now.links.list }
    requires each { length links.old ≡ length project.now.links.list }
    ensures { links.new ≡ started project.now time (acts_at (parts_of scale) levels.now) commanded.now }
{
    links.copy_from_slice(commanded);
    start_links(project, scale, time, levels, links);
}

impl SetNet {
    /// Sets the net to a period that begins at a time (seconds) with levels of tanks (parts of a head tick), after
    /// links were commanded to be in these states: the tanks are then in the states of their levels, the links in those
    /// that pump patterns and controls give them. It takes no memory. Fails with the first junction whose demand is out
    /// of range then.
    pub fn set(
        &mut self,
        project: &Project,
        scale: Scale,
        time: u32,
        levels: &[i128],
        commanded: &[LinkState],
    ) -> Result<(), PeriodDemand>
        requires sound { IsSound project.now }
        requires of { IsSetNet project.now self.old }
        requires each_level { length levels.now ≡ tank_count project.now }
        requires states { AllZip (IsOwnState project.now) project.now.links.list commanded.now }
        ensures stays { IsSetNet project.now self.new }
        ensures set { OnOk result (IsSetAt project.now (parts_of scale) time levels.now commanded.now self.new) }
        ensures refused { IfErr result (λ fault. IsFirstDemand project.now time fault.junction fault.value) }
    {
        put_tanks(project, scale, levels, &mut self.tanks);
        put_links(project, scale, time, levels, commanded, &mut self.links);
        self.net
            .set_period(project, time, &self.links, &self.levels, &self.tanks)
    }
}
