//! The heads and flows of a period that rules look at.
#![tactic(auto)]

ghost use Rattle.std.specs.Prelude.{◌≡◌, length, All};
ghost use Rattle.hyd_spec.specs.NodeNumbers.{nodes_before_tanks};
ghost use Rattle.hyd_spec_spread_runs.specs.OutermostPairs.{spanned, spanning};
ghost use Rattle.hyd_spec_spread_runs.specs.RunsForSpreads.{AreCertificatesOver};
ghost use Rattle.hyd_cert.specs.RecordView.{row_of};
ghost use Rattle.hyd_controls_and_rules.specs.RuleReadings.{IsBounded};
ghost use Rattle.hyd_period_length.specs.ReservedMemory.{HasRoom};
ghost use Rattle.hyd_period_length.specs.Readings.{AreRead};
ghost use Rattle.hyd_spread_bounds.specs.BothSides.{pair_of};
ghost use Rattle.hyd_spread_readings.specs.NetsInPeriods.{AreInPeriod};

use crate::flows::put_flows;
use crate::heads::put_heads;
use hyd_cert::Record;
use hyd_net::Project;
use hyd_period_length::Readings;
use hyd_period_network::Net;
use hyd_spec_certificates::{Problem, Side};
use hyd_spread_bounds::heads_in_order;

/// Puts what rules look at in a period: the heads of junctions by the record's vectors with all tanks alike, the heads of
/// reservoirs, and the flow box of each link between these vectors, from below by the LOWER net and from above by the
/// UPPER one. What was read before goes; no memory is taken.
pub fn put_readings(
    project: &Project,
    upper: &Net,
    lower: &Net,
    row: &Record,
    readings: &mut Readings,
)
    requires nets { AreInPeriod project.now upper.now lower.now }
    requires certificates { AreCertificatesOver project.now (pair_of upper.now lower.now) (row_of row.now) }
    requires room { HasRoom project.now readings.old }
    ensures read { AreRead (spanned (pair_of upper.now lower.now))
        (spanning (pair_of upper.now lower.now) (row_of row.now))
        readings.new.low.list readings.new.high.list readings.new.flows.list }
    ensures bounded { All IsBounded readings.new.flows.list }
    ensures each_low { length readings.new.low.list ≡ nodes_before_tanks project.now }
    ensures each_high { length readings.new.high.list ≡ nodes_before_tanks project.now }
    ensures each_flow { length readings.new.flows.list ≡ length project.now.links.list }
    ensures room { HasRoom project.now readings.new }
{
    let _project = project;
    let _above = upper.junctions();
    let _below = lower.junctions();
    let _links = upper.links();
    heads_in_order();
    let low = row.vector(Problem::Main, Side::Lower);
    let high = row.vector(Problem::Main, Side::Upper);
    put_heads(
        upper,
        lower,
        low,
        high,
        &mut readings.low,
        &mut readings.high,
    );
    put_flows(upper, lower, low, high, &mut readings.flows);
}
