//! The heads and flows of a period that rules look at.

ghost use Rattle.std.specs.Prelude.{pos, IfOk, All};
ghost use Rattle.hyd_net.specs.Sound.{IsSound};

use crate::flows::put_flows;
use crate::heads::put_heads;
use hyd_cert::Record;
use hyd_net::{List, Project};
use hyd_num::Span;
use hyd_period_network::Net;
use hyd_spec_certificates::{Problem, Side};
use std::alloc::{AllocError as OutOfMemory, Global};

/// What rules look at in a period, beside the carried levels of tanks and the states of links (EPANET 2.2 User Manual,
/// chapter 3, rule-based controls).
#[derive(Drop)]
pub struct Readings {
    /// The heads of junctions and then of reservoirs from below, in head ticks.
    pub low: List<i64>,
    /// The same from above.
    pub high: List<i64>,
    /// The flows of links, in flow ticks.
    pub flows: List<Span>,
}

impl Readings {
    ghost use Rattle.hyd_spec_certificates.specs.Decided.{heads_below, heads_above};
    ghost use Rattle.hyd_cert.specs.RecordView.{row_of};
    ghost use Rattle.hyd_period_network.specs.NetAsPeriodNetwork.{grid_of};
    ghost use Rattle.hyd_period_network.specs.NetsSetToPeriods.{IsNetOf};
    ghost use Rattle.hyd_period_facts.specs.PassedOn.{IsVector, AreInOrder};
    ghost use Rattle.hyd_controls_and_rules.specs.RuleReadings.{IsBounded};
    ghost use Rattle.hyd_period_length.specs.Readings.{AreRead};
    ghost use Rattle.hyd_period_length.specs.ReservedMemory.{HasRoom, AreNone};

    /// Readings of no period, with room for those of each period of a network: filling them takes no memory.
    pub fn open(alloc: Global, project: &Project) -> Result<Readings, OutOfMemory>
        requires { IsSound project.now }
        ensures none { IfOk result AreNone }
        ensures room { IfOk result (HasRoom project.now) }
    {
        let heads = project.junctions.len() + project.reservoirs.len();
        Ok(Readings {
            low: List::with_room(alloc, heads)?,
            high: List::with_room(alloc, heads)?,
            flows: List::with_room(alloc, project.links.len())?,
        })
    }

    /// Puts what rules look at in a period of a network: the heads of junctions by the record's vectors with all tanks
    /// alike, the heads of reservoirs, and the flow box of each link between these vectors. The LOWER heads lie at or
    /// below the UPPER ones, as those of certificates do. What was read before goes; no memory is taken.
    pub fn put(&mut self, project: &Project, net: &Net, row: &Record)
        requires of { IsNetOf project.now net.now }
        requires lower { IsVector net.now (row_of row.now).main.lower }
        requires upper { IsVector net.now (row_of row.now).main.upper }
        requires ordered { AreInOrder (pos 0) (heads_below (grid_of net.now) (row_of row.now))
            (heads_above (grid_of net.now) (row_of row.now)) }
        requires room { HasRoom project.now self.old }
        ensures read { AreRead (grid_of net.now) (row_of row.now) self.new.low.list self.new.high.list
            self.new.flows.list }
        ensures bounded { All IsBounded self.new.flows.list }
        ensures room { HasRoom project.now self.new }
    {
        let _project = project;
        let low = row.vector(Problem::Main, Side::Lower);
        let high = row.vector(Problem::Main, Side::Upper);
        put_heads(net, low, &mut self.low);
        put_heads(net, high, &mut self.high);
        put_flows(net, low, high, &mut self.flows);
    }
}
