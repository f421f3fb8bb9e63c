//! What a period's vectors tell of it on the nets of both sides: what flows into tanks, and what rules look at.
#![tactic(auto)]

ghost use Rattle.std.specs.Prelude.{◌≡◌};
ghost use Rattle.hyd_net.specs.Sound.{IsSound};
ghost use Rattle.hyd_spec.specs.NodeNumbers.{tank_count};
ghost use Rattle.hyd_spec_spread_runs.specs.OutermostPairs.{spanned, spanning};
ghost use Rattle.hyd_spec_spread_runs.specs.RunsForSpreads.{AreCertificatesOver};
ghost use Rattle.hyd_cert.specs.RecordView.{row_of};
ghost use Rattle.hyd_period_length.specs.ReservedMemory.{HasRoom};
ghost use Rattle.hyd_period_facts.specs.FactsBeforeEnd.{HaveTanks};
ghost use Rattle.hyd_period_end.specs.FactsBeforeVectors.{AreReady};
ghost use Rattle.hyd_open_period_end.specs.LookedAt.{AreLookedAt, AreReadings};
ghost use Rattle.hyd_theorems_on_definitions.specs.SoundLawsAndGrids.{TanksInOrder};
ghost use Rattle.hyd_spread_bounds.specs.BothSides.{pair_of, IsOrderedPair};
ghost use Rattle.hyd_spread_networks.specs.NetsOfSpreads.{AreNetsOf, pair_of as pair_on};
ghost use Rattle.hyd_spread_readings.specs.NetsInPeriods.{AreInPeriod};

use hyd_cert::Record;
use hyd_net::Project;
use hyd_period_facts::Facts;
use hyd_period_length::Readings;
use hyd_period_network::Net;
use hyd_spec_certificates::Side;
use hyd_spread_networks::SpreadNets;
use hyd_spread_readings::{put_inflows, put_readings};

// Puts what flows into tanks and what rules look at, by the nets of both sides.
fn look_on_both(
    project: &Project,
    upper: &Net,
    lower: &Net,
    row: &Record,
    readings: &mut Readings,
    facts: &mut Facts,
)
    requires sound { IsSound project.now }
    requires nets { AreInPeriod project.now upper.now lower.now }
    requires certificates { AreCertificatesOver project.now (pair_of upper.now lower.now) (row_of row.now) }
    requires tanks { row.now.tanks ≡ tank_count project.now }
    requires ready { AreReady project.now facts.old }
    requires room { HasRoom project.now readings.old }
    ensures looked { AreLookedAt project.now (spanned (pair_of upper.now lower.now))
        (spanning (pair_of upper.now lower.now) (row_of row.now)) facts.new readings.new }
    ensures readings { AreReadings project.now readings.new }
    ensures have { HaveTanks project.now facts.new }
    ensures ready { AreReady project.now facts.new }
    ensures keeps { facts.new ≡ record facts.old { inflows = facts.new.inflows } }
    ensures room { HasRoom project.now readings.new }
{
    put_inflows(project, upper, lower, row, &mut facts.inflows);
    put_readings(project, upper, lower, row, readings);
}

/// Puts what flows into tanks and what rules look at in a period of a run for a spread, by the vectors of its record,
/// which are certificates on the nets of both sides: each bound is by the vector of its side on the net of that side. It
/// takes no memory. The sides of the nets of a period are in order (`outermost_in_order` of `hyd_spread_bounds`).
pub fn look(
    project: &Project,
    nets: &SpreadNets,
    row: &Record,
    readings: &mut Readings,
    facts: &mut Facts,
)
    requires sound { IsSound project.now }
    requires of { AreNetsOf project.now nets.now }
    requires pair { IsOrderedPair (pair_on nets.now) }
    requires levels { TanksInOrder (pair_on nets.now).lower }
    requires certificates { AreCertificatesOver project.now (pair_on nets.now) (row_of row.now) }
    requires tanks { row.now.tanks ≡ tank_count project.now }
    requires ready { AreReady project.now facts.old }
    requires room { HasRoom project.now readings.old }
    ensures looked { AreLookedAt project.now (spanned (pair_on nets.now))
        (spanning (pair_on nets.now) (row_of row.now)) facts.new readings.new }
    ensures readings { AreReadings project.now readings.new }
    ensures have { HaveTanks project.now facts.new }
    ensures ready { AreReady project.now facts.new }
    ensures keeps { facts.new ≡ record facts.old { inflows = facts.new.inflows } }
    ensures room { HasRoom project.now readings.new }
{
    let upper = nets.on(Side::Upper);
    let lower = nets.on(Side::Lower);
    look_on_both(project, upper, lower, row, readings, facts);
}
