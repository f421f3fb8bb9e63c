//! The state of a run.

use crate::open_settings::OpenSettings;
use hyd_net::Project;
use hyd_open_certificates::OpenRow;
use hyd_open_period_end::OpenPeriodEnd;
use hyd_open_sim_start::Standing;
use hyd_period_facts::Facts;
use hyd_period_network::Net;
use hyd_period_vectors::Search;
use hyd_spec_certificates::{Event, StopCause};
use std::marker::Model;

/// A run of a network whose ends of periods may be open by some seconds: the standing between two periods, and what the
/// last period left. Contracts see its parts.
#[derive(Drop)]
pub struct OpenSim {
    pub(crate) project: Project,
    pub(crate) settings: OpenSettings,
    pub(crate) net: Net,
    pub(crate) search: Search,
    pub(crate) found: OpenRow,
    pub(crate) facts: Facts,
    pub(crate) standing: Standing,
    /// What the end of the last period left, and room for the ends of others.
    pub(crate) close: OpenPeriodEnd,
    /// Why the run stopped.
    pub(crate) stopped: Option<StopCause>,
}

impl Model for OpenSim {
    ghost use Rattle.std.specs.Coded.{codes};
    ghost use Rattle.hyd_spec_power_laws.specs.contracts.power_capacities.PowerCapacity as power;
    ghost use Rattle.hyd_open_sim.specs.RunView.{OpenSimView, IsOpenSim};

    ghost Value = { OpenSimView };

    // A loss by powers says of its minor loss that it is near 1 where there is one.
    ghost coded = { Prim.hlevel (codes, power.the_row.coded) };

    ghost view = { λ s. record {
      project = s.project;
      settings = s.settings;
      net = s.net;
      room = s.search;
      found = s.found;
      facts = s.facts;
      here = s.standing;
      close = s.close;
      stopped = s.stopped;
    } };

    ghost invariant = { λ s. IsOpenSim (record {
      project = s.project;
      settings = s.settings;
      net = s.net;
      room = s.search;
      found = s.found;
      facts = s.facts;
      here = s.standing;
      close = s.close;
      stopped = s.stopped;
    }) };
}

impl OpenSim {
    ghost use Rattle.std.specs.Prelude.{◌≡◌};
    ghost use Rattle.hyd_open_sim.specs.RunView.{IsOpenSim, standing_of};

    /// The network that is run.
    pub fn project(&self) -> &Project
        ensures project { result.now ≡ self.now.project }
        ensures is_sim { IsOpenSim self.now }
    {
        &self.project
    }

    /// The most rounds of raises toward one vector that it was asked for.
    pub fn rounds(&self) -> u32
        ensures { result ≡ self.now.settings.search.rounds }
    {
        self.settings.search.rounds
    }

    /// By how many seconds the end of a period may be open at most.
    pub fn slack(&self) -> u32
        ensures { result ≡ self.now.settings.slack }
    {
        self.settings.slack
    }

    /// How many periods were done.
    pub fn number(&self) -> u32
        ensures { result ≡ (standing_of self.now).known.number }
    {
        self.standing.number
    }

    /// The first second in which the next period begins.
    pub fn time(&self) -> u32
        ensures { result ≡ (standing_of self.now).known.time }
    {
        self.standing.time
    }

    /// In how many later seconds it may begin.
    pub fn late(&self) -> u32
        ensures { result ≡ (standing_of self.now).late }
    {
        self.standing.late
    }

    /// Whether the period at the end of the run was done.
    pub fn is_finished(&self) -> bool
        ensures { result ≡ (standing_of self.now).known.finished }
    {
        self.standing.finished
    }

    /// The network of the last period.
    pub fn net(&self) -> &Net
        ensures { result.now ≡ self.now.net }
    {
        &self.net
    }

    /// The record of the last period.
    pub fn found(&self) -> &OpenRow
        ensures { result.now ≡ self.now.found }
    {
        &self.found
    }

    /// The facts of the last period.
    pub fn facts(&self) -> &Facts
        ensures { result.now ≡ self.now.facts }
    {
        &self.facts
    }

    /// How many seconds after its first start the last period ended first.
    pub fn first_end(&self) -> u32
        ensures { result ≡ self.now.close.first }
    {
        self.close.first
    }

    /// In how many later seconds it may have ended.
    pub fn late_at_end(&self) -> u32
        ensures { result ≡ self.now.close.late }
    {
        self.close.late
    }

    /// What happened at its end where that is open by some seconds. (The events of an end that is known to the second
    /// are among the facts.)
    pub fn opened(&self) -> &[Event]
        ensures { result.now ≡ self.now.close.opened.list }
    {
        self.close.opened.as_slice()
    }
}
