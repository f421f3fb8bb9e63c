//! The networks of the first period for a spread, one a side.
#![tactic(auto)]

ghost use Rattle.std.specs.Prelude.{◌≡◌, ◌<◌, length, slice_set, IfOk, IfErr, OnOk};
ghost use Rattle.hyd_net.specs.Sound.{IsSound};
ghost use Rattle.hyd_spec.specs.ProgramTypes.{Closed};
ghost use Rattle.hyd_spec_certificates.specs.declared.Side.{Side};
ghost use Rattle.hyd_spec_spread.specs.OutermostGrids.{IsOutermostGrid};
ghost use Rattle.hyd_spec_spread_runs.specs.RunsForSpreads.{standing_within, AreDemandsInRange};
ghost use Rattle.hyd_spec_spread_stops.specs.StopsOfSpreads.{IsFirstDemandOver};
ghost use Rattle.hyd_spec_spread_targets.specs.FirstPeriodWithin.{IsFirstPair, IsFirstPairWithShut};
ghost use Rattle.hyd_period_network.specs.NetAsPeriodNetwork.{grid_of};
ghost use Rattle.hyd_period_network.specs.LawsInSettings.{AreStates};
ghost use Rattle.hyd_spread_rows.specs.SpreadsRead.{spread_of};
ghost use Rattle.hyd_spread_networks.specs.NetsOfSpreads.{net_on, pair_of};
ghost use Rattle.hyd_spread_networks.specs.RefusedSpreads.{IsRefusedFor};
ghost use Rattle.hyd_spread_start.specs.StartsOfRuns.{BeginsRun};
ghost use Rattle.hyd_spread_targets.specs.FirstPeriodsOver.{IsReadyOver};

use hyd_first_period::states_at_start;
use hyd_net::{LinkState, Project};
use hyd_period_facts::TankStart;
use hyd_period_network::Net;
use hyd_spec_certificates::Side;
use hyd_spread_networks::{DemandOver, SpreadNets, SpreadNetsRefused};
use hyd_spread_start::SpreadStart;
use std::alloc::Global;

/// The networks of the first period of a network for a spread, one a side, and what sets them: the stocks of tanks and
/// the states of links with which that period begins.
#[derive(Drop)]
pub struct FirstPeriodOver {
    nets: SpreadNets,
    stocks: TankStart,
    /// The states that pump patterns and controls give links.
    started: Vec<LinkState>,
    /// The states that the nets are set to.
    links: Vec<LinkState>,
}

// Puts states of links in place of others.
fn put_states(states: &[LinkState], links: &mut [LinkState])
    requires { length links.old ≡ length states.now }
    ensures { links.new ≡ states.now }
{
    links.copy_from_slice(states);
}

// Closes one link.
fn put_closed(links: &mut [LinkState], link: u32)
    requires { link < length links.old }
    ensures { links.new ≡ slice_set links.old link Closed }
{
    links[link as usize] = LinkState::Closed;
}

impl FirstPeriodOver {
    /// Takes all the memory that setting the nets to the first period takes, for a spread with which a run could begin.
    /// The nets aren't set yet. Fails where the network has no nets for the spread, or for want of memory.
    pub fn open(
        alloc: Global,
        project: &Project,
        start: SpreadStart,
    ) -> Result<FirstPeriodOver, SpreadNetsRefused>
        requires sound { IsSound project.now }
        requires start { BeginsRun project.now start }
        ensures ready { IfOk result (IsReadyOver project.now) }
        ensures spread { IfOk result (λ first. first.nets.spread ≡ spread_of start.rows) }
        ensures refused { IfErr result (IsRefusedFor project.now (spread_of start.rows)) }
    {
        let standing = start.standing;
        let nets = SpreadNets::open(alloc, project, start.rows)?;
        let stocks = standing.stocks;
        let started = states_at_start(alloc, project, stocks.levels.as_slice())?;
        let links = started.clone()?;
        Ok(FirstPeriodOver {
            nets,
            stocks,
            started,
            links,
        })
    }

    /// The net of a side as it was set last.
    pub fn net(&self, side: Side) -> &Net
        ensures { result.now ≡ net_on side self.now.nets }
    {
        self.nets.on(side)
    }

    /// Sets the nets to the first period. Fails with the first junction of whose demand an end is out of range in it,
    /// and then the nets are as before.
    pub fn start(&mut self, project: &Project) -> Result<(), DemandOver>
        requires sound { IsSound project.now }
        requires ready { IsReadyOver project.now self.old }
        ensures ready { IsReadyOver project.now self.new }
        ensures spread { self.new.nets.spread ≡ self.old.nets.spread }
        ensures pair { OnOk result (IsFirstPair project.now self.old.nets.spread (pair_of self.new.nets)) }
        ensures in_range { OnOk result (AreDemandsInRange project.now self.old.nets.spread 0) }
        ensures refused { IfErr result (λ fault. IsFirstDemandOver project.now self.old.nets.spread 0 fault.junction
            fault.value) }
    {
        self.restore();
        self.set(project)
    }

    /// Sets the nets to the first period with one link closed, whatever patterns and controls set that to.
    pub fn start_with_shut(&mut self, project: &Project, link: u32)
        requires sound { IsSound project.now }
        requires ready { IsReadyOver project.now self.old }
        requires in_range { AreDemandsInRange project.now self.old.nets.spread 0 }
        requires inside { link < length project.now.links.list }
        ensures ready { IsReadyOver project.now self.new }
        ensures spread { self.new.nets.spread ≡ self.old.nets.spread }
        ensures pair { IsFirstPairWithShut project.now self.old.nets.spread link (pair_of self.new.nets) }
    {
        self.restore();
        self.close(link);
        if self.set(project).is_err() {
            unreachable!()
        }
    }

    // Puts the states with which the period starts in place of those at hand.
    fn restore(&mut self)
        requires { length self.old.links.items ≡ length self.old.started.items }
        ensures links { self.new.links.items ≡ self.old.started.items }
        ensures started { self.new.started ≡ self.old.started }
        ensures nets { self.new.nets ≡ self.old.nets }
        ensures stocks { self.new.stocks ≡ self.old.stocks }
    {
        put_states(&self.started, &mut self.links);
    }

    // Closes one of the links at hand.
    fn close(&mut self, link: u32)
        requires { link < length self.old.links.items }
        ensures links { self.new.links.items ≡ slice_set self.old.links.items link Closed }
        ensures started { self.new.started ≡ self.old.started }
        ensures nets { self.new.nets ≡ self.old.nets }
        ensures stocks { self.new.stocks ≡ self.old.stocks }
    {
        put_closed(&mut self.links, link);
    }

    // Sets the nets to the states of links that are at hand.
    fn set(&mut self, project: &Project) -> Result<(), DemandOver>
        requires sound { IsSound project.now }
        requires ready { IsReadyOver project.now self.old }
        requires states { AreStates project.now self.old.links.items }
        ensures ready { IsReadyOver project.now self.new }
        ensures spread { self.new.nets.spread ≡ self.old.nets.spread }
        ensures grids { OnOk result ((side : Side) → IsOutermostGrid project.now self.old.nets.spread side 0
            (standing_within project.now self.old.nets.spread).levels
            (standing_within project.now self.old.nets.spread).tanks self.old.links.items
            (grid_of (net_on side self.new.nets))) }
        ensures in_range { OnOk result (AreDemandsInRange project.now self.old.nets.spread 0) }
        ensures refused { IfErr result (λ fault. IsFirstDemandOver project.now self.old.nets.spread 0 fault.junction
            fault.value) }
    {
        self.nets.set_period(
            project,
            0,
            &self.links,
            self.stocks.levels.as_slice(),
            self.stocks.tanks.as_slice(),
        )
    }
}
