//! The state of a run for a spread.

use hyd_net::Project;
use hyd_open_certificates::OpenRow;
use hyd_open_period_end::OpenPeriodEnd;
use hyd_open_sim::OpenSettings;
use hyd_open_sim_start::Standing;
use hyd_period_facts::Facts;
use hyd_spec_certificates::{Event, StopCause};
use hyd_spread_networks::SpreadNets;
use hyd_spread_vectors::SpreadSearch;
use std::marker::Model;

/// A run of a network for a spread, whose ends of periods may be open by some seconds: the standing between two periods,
/// and what the last period left. Contracts see its parts.
#[derive(Drop)]
pub struct SpreadSim {
    pub(crate) project: Project,
    pub(crate) settings: OpenSettings,
    pub(crate) nets: SpreadNets,
    pub(crate) search: SpreadSearch,
    pub(crate) found: OpenRow,
    pub(crate) facts: Facts,
    pub(crate) standing: Standing,
    /// What the end of the last period left, and room for the ends of others.
    pub(crate) close: OpenPeriodEnd,
    /// Why the run stopped.
    pub(crate) stopped: Option<StopCause>,
}

impl Model for SpreadSim {
    ghost use Rattle.std.specs.Coded.{codes};
    ghost use Rattle.hyd_spec_power_laws.specs.contracts.power_capacities.PowerCapacity as power;
    ghost use Rattle.hyd_spread_sim.specs.SpreadRunView.{SpreadSimView, IsSpreadSim};

    ghost Value = { SpreadSimView };

    // A loss by powers says of its minor loss that it is near 1 where there is one.
    ghost coded = { Prim.hlevel (codes, power.the_row.coded) };

    ghost view = { λ s. record {
      project = s.project;
      settings = s.settings;
      nets = s.nets;
      room = s.search;
      found = s.found;
      facts = s.facts;
      here = s.standing;
      close = s.close;
      stopped = s.stopped;
    } };

    ghost invariant = { λ s. IsSpreadSim (record {
      project = s.project;
      settings = s.settings;
      nets = s.nets;
      room = s.search;
      found = s.found;
      facts = s.facts;
      here = s.standing;
      close = s.close;
      stopped = s.stopped;
    }) };
}

impl SpreadSim {
    ghost use Rattle.std.specs.Prelude.{◌≡◌};
    ghost use Rattle.hyd_spread_sim.specs.SpreadRunView.{IsSpreadSim, standing_of};

    /// The network that is run.
    pub fn project(&self) -> &Project
        ensures project { result.now ≡ self.now.project }
        ensures is_sim { IsSpreadSim self.now }
    {
        &self.project
    }

    /// How many periods were done.
    pub fn number(&self) -> u32
        ensures { result ≡ (standing_of self.now).known.number }
    {
        self.standing.number
    }

    /// The first second in which the next period begins.
    pub fn time(&self) -> u32
        ensures { result ≡ (standing_of self.now).known.time }
    {
        self.standing.time
    }

    /// In how many later seconds it may begin.
    pub fn late(&self) -> u32
        ensures { result ≡ (standing_of self.now).late }
    {
        self.standing.late
    }

    /// Whether the period at the end of the run was done.
    pub fn is_finished(&self) -> bool
        ensures { result ≡ (standing_of self.now).known.finished }
    {
        self.standing.finished
    }

    /// The nets of the last period.
    pub fn nets(&self) -> &SpreadNets
        ensures { result.now ≡ self.now.nets }
    {
        &self.nets
    }

    /// The record of the last period.
    pub fn found(&self) -> &OpenRow
        ensures { result.now ≡ self.now.found }
    {
        &self.found
    }

    /// The facts of the last period.
    pub fn facts(&self) -> &Facts
        ensures { result.now ≡ self.now.facts }
    {
        &self.facts
    }

    /// In how many later seconds after its first end the last period may have ended.
    pub fn late_at_end(&self) -> u32
        ensures { result ≡ self.now.close.late }
    {
        self.close.late
    }

    /// What happened at its end where that is open by some seconds. (The events of an end that is known to the second
    /// are among the facts.)
    pub fn opened(&self) -> &[Event]
        ensures { result.now ≡ self.now.close.opened.list }
    {
        self.close.opened.as_slice()
    }
}
