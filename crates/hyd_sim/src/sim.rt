//! The state of a run.

use crate::settings::Settings;
use crate::standing_between_periods::Standing;
use hyd_cert::Record;
use hyd_net::Project;
use hyd_period_end::PeriodEnd;
use hyd_period_facts::Facts;
use hyd_period_network::Net;
use hyd_period_vectors::Search;
use hyd_spec_certificates::StopCause;
use std::marker::Model;

/// A run of a network: the standing between two periods, and what the last period left. Contracts see its parts.
#[derive(Drop)]
pub struct Sim {
    pub(crate) project: Project,
    pub(crate) settings: Settings,
    pub(crate) net: Net,
    pub(crate) search: Search,
    pub(crate) row: Record,
    pub(crate) facts: Facts,
    pub(crate) standing: Standing,
    /// What the end of the last period left, and room for the ends of others.
    pub(crate) close: PeriodEnd,
    /// Why the run stopped.
    pub(crate) stopped: Option<StopCause>,
}

impl Model for Sim {
    ghost use Rattle.std.specs.Coded.{codes};
    ghost use Rattle.hyd_spec_power_laws.specs.contracts.power_capacities.PowerCapacity as power;
    ghost use Rattle.hyd_sim.specs.RunView.{SimView, IsSim};

    ghost Value = { SimView };

    // A loss by powers says of its minor loss that it is near 1 where there is one.
    ghost coded = { Prim.hlevel (codes, power.the_row.coded) };

    ghost view = { λ s. record {
      project = s.project;
      settings = s.settings;
      net = s.net;
      room = s.search;
      row = s.row;
      facts = s.facts;
      here = s.standing;
      close = s.close;
      stopped = s.stopped;
    } };

    ghost invariant = { λ s. IsSim (record {
      project = s.project;
      settings = s.settings;
      net = s.net;
      room = s.search;
      row = s.row;
      facts = s.facts;
      here = s.standing;
      close = s.close;
      stopped = s.stopped;
    }) };
}

impl Sim {
    ghost use Rattle.std.specs.Prelude.{◌≡◌};
    ghost use Rattle.hyd_sim.specs.RunView.{IsSim, standing_of};

    /// The network that is run.
    pub fn project(&self) -> &Project
        ensures project { result.now ≡ self.now.project }
        ensures is_sim { IsSim self.now }
    {
        &self.project
    }

    /// The most rounds of raises toward one vector that it was asked for.
    pub fn rounds(&self) -> u32
        ensures { result ≡ self.now.settings.rounds }
    {
        self.settings.rounds
    }

    /// How many periods were done.
    pub fn number(&self) -> u32
        ensures { result ≡ (standing_of self.now).number }
    {
        self.standing.number
    }

    /// When the next period begins, in seconds.
    pub fn time(&self) -> u32
        ensures { result ≡ (standing_of self.now).time }
    {
        self.standing.time
    }

    /// Whether the period at the end of the run was done.
    pub fn is_finished(&self) -> bool
        ensures { result ≡ (standing_of self.now).finished }
    {
        self.standing.finished
    }

    /// The network of the last period.
    pub fn net(&self) -> &Net
        ensures { result.now ≡ self.now.net }
    {
        &self.net
    }

    /// The record of the last period.
    pub fn row(&self) -> &Record
        ensures { result.now ≡ self.now.row }
    {
        &self.row
    }

    /// The facts of the last period.
    pub fn facts(&self) -> &Facts
        ensures { result.now ≡ self.now.facts }
    {
        &self.facts
    }
}
