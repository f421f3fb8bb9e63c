//! The network of the first period.
#![tactic(auto)]

ghost use Rattle.std.specs.Prelude.{◌≡◌, ◌<◌, length, slice_set, IfOk, IfErr, OnOk};
ghost use Rattle.hyd_net.specs.Sound.{IsSound};
ghost use Rattle.hyd_spec.specs.ProgramTypes.{Closed};
ghost use Rattle.hyd_spec_certificates.specs.PeriodNetwork.{IsGrid};
ghost use Rattle.hyd_spec_certificates.specs.RecordAndStanding.{initial_standing};
ghost use Rattle.hyd_spec_certificates.specs.Valid.{DemandsAreInRange};
ghost use Rattle.hyd_spec_certificates.specs.Stops.{IsFirstDemand};
ghost use Rattle.hyd_spec_pressure_targets.specs.FirstPeriod.{IsFirstGrid, IsFirstGridWithShut};
ghost use Rattle.hyd_theorems_on_definitions.specs.SoundLawsAndGrids.{TanksInOrder};
ghost use Rattle.hyd_period_network.specs.NetAsPeriodNetwork.{grid_of};
ghost use Rattle.hyd_period_network.specs.LawsInSettings.{AreStates};
ghost use Rattle.hyd_first_period.specs.FirstPeriods.{IsFirst, IsReady};

use crate::links_at_start::states_at_start;
use hyd_net::{LinkState, OutOfMemory, Project};
use hyd_period_facts::TankStart;
use hyd_period_network::{Net, PeriodDemand};
use std::alloc::Global;

/// The network of the first period of a network, and what sets it: the stocks of tanks and the states of links with
/// which that period begins.
#[derive(Drop)]
pub struct FirstPeriod {
    net: Net,
    stocks: TankStart,
    /// The states that pump patterns and controls give links.
    started: Vec<LinkState>,
    /// The states that the net is set to.
    links: Vec<LinkState>,
}

// A run begins with these stocks, as none was before.
fn first_stocks(alloc: Global, project: &Project) -> Result<TankStart, OutOfMemory>
    requires { IsSound project.now }
    ensures { IfOk result (IsFirst project.now) }
{
    let mut stocks = TankStart::open(alloc, project)?;
    stocks.begin(project);
    Ok(stocks)
}

// Puts states of links in place of others.
fn put_states(states: &[LinkState], links: &mut [LinkState])
    requires { length links.old ≡ length states.now }
    ensures { links.new ≡ states.now }
{
    links.copy_from_slice(states);
}

// Closes one link.
fn put_closed(links: &mut [LinkState], link: u32)
    requires { link < length links.old }
    ensures { links.new ≡ slice_set links.old link Closed }
{
    links[link as usize] = LinkState::Closed;
}

impl FirstPeriod {
    /// Takes all the memory that setting a network to its first period takes. The net isn't set yet.
    pub fn open(alloc: Global, project: &Project) -> Result<FirstPeriod, OutOfMemory>
        requires { IsSound project.now }
        ensures { IfOk result (IsReady project.now) }
    {
        let stocks = first_stocks(alloc, project)?;
        let started = states_at_start(alloc, project, stocks.levels.as_slice())?;
        let links = started.clone()?;
        let net = Net::open(alloc, project)?;
        Ok(FirstPeriod {
            net,
            stocks,
            started,
            links,
        })
    }

    /// The net as it was set last.
    pub fn net(&self) -> &Net
        ensures { result.now ≡ self.now.net }
    {
        &self.net
    }

    /// Sets the net to the first period. Fails with the first junction whose demand is out of range in it, and then the
    /// net is as before.
    pub fn start(&mut self, project: &Project) -> Result<(), PeriodDemand>
        requires sound { IsSound project.now }
        requires ready { IsReady project.now self.old }
        ensures ready { IsReady project.now self.new }
        ensures grid { OnOk result (IsFirstGrid project.now (grid_of self.new.net)) }
        ensures order { OnOk result (TanksInOrder (grid_of self.new.net)) }
        ensures in_range { OnOk result (DemandsAreInRange project.now 0) }
        ensures refused { IfErr result (λ fault. IsFirstDemand project.now 0 fault.junction fault.value) }
    {
        self.restore();
        self.set(project)
    }

    /// Sets the net to the first period with one link closed, whatever patterns and controls set that to.
    pub fn start_with_shut(&mut self, project: &Project, link: u32)
        requires sound { IsSound project.now }
        requires ready { IsReady project.now self.old }
        requires in_range { DemandsAreInRange project.now 0 }
        requires inside { link < length project.now.links.list }
        ensures ready { IsReady project.now self.new }
        ensures grid { IsFirstGridWithShut project.now link (grid_of self.new.net) }
        ensures order { TanksInOrder (grid_of self.new.net) }
    {
        self.restore();
        self.close(link);
        if self.set(project).is_err() {
            unreachable!()
        }
    }

    // Puts the states with which the period starts in place of those at hand.
    fn restore(&mut self)
        requires { length self.old.links.items ≡ length self.old.started.items }
        ensures links { self.new.links.items ≡ self.old.started.items }
        ensures started { self.new.started ≡ self.old.started }
        ensures net { self.new.net ≡ self.old.net }
        ensures stocks { self.new.stocks ≡ self.old.stocks }
    {
        put_states(&self.started, &mut self.links);
    }

    // Closes one of the links at hand.
    fn close(&mut self, link: u32)
        requires { link < length self.old.links.items }
        ensures links { self.new.links.items ≡ slice_set self.old.links.items link Closed }
        ensures started { self.new.started ≡ self.old.started }
        ensures net { self.new.net ≡ self.old.net }
        ensures stocks { self.new.stocks ≡ self.old.stocks }
    {
        put_closed(&mut self.links, link);
    }

    // Sets the net to the states of links that are at hand.
    fn set(&mut self, project: &Project) -> Result<(), PeriodDemand>
        requires sound { IsSound project.now }
        requires ready { IsReady project.now self.old }
        requires states { AreStates project.now self.old.links.items }
        ensures ready { IsReady project.now self.new }
        ensures grid { OnOk result (IsGrid project.now 0 (initial_standing project.now).levels
            (initial_standing project.now).tanks self.old.links.items (grid_of self.new.net)) }
        ensures order { OnOk result (TanksInOrder (grid_of self.new.net)) }
        ensures in_range { OnOk result (DemandsAreInRange project.now 0) }
        ensures refused { IfErr result (λ fault. IsFirstDemand project.now 0 fault.junction fault.value) }
    {
        self.net.set_period(
            project,
            0,
            &self.links,
            self.stocks.levels.as_slice(),
            self.stocks.tanks.as_slice(),
        )
    }
}
