//! The standing behind a period of a run for a spread.
#![tactic(auto)]

ghost use Rattle.std.specs.Prelude.{◌≡◌, ℕ, false};
ghost use Rattle.hyd_net.specs.Sound.{IsSound};
ghost use Rattle.hyd_spec_spread.specs.Spreads.{IsSpread};
ghost use Rattle.hyd_open_period_end.specs.EndOfOpenPeriod.{HasRoom};
ghost use Rattle.hyd_open_sim.specs.EndedPeriods.{next_standing};
ghost use Rattle.hyd_open_sim_start.specs.StandingsOfOpenRuns.{IsStanding, standing_for};
ghost use Rattle.hyd_spread_sim.specs.MadeOver.{IsMadeOver};

use hyd_net::Project;
use hyd_open_certificates::OpenRow;
use hyd_open_period_end::OpenPeriodEnd;
use hyd_open_sim::move_on;
use hyd_open_sim_start::Standing;
use hyd_period_facts::Facts;
use hyd_spec_certificates::Side;
use hyd_spread_networks::SpreadNets;

/// Moves on behind a period that was done, to the standing that its record leads on to. When it ended and what happened
/// there stay.
pub(crate) fn go_on(
    standing: &mut Standing,
    project: &Project,
    nets: &SpreadNets,
    found: &OpenRow,
    facts: &Facts,
    close: &mut OpenPeriodEnd,
)
    requires sound { IsSound project.now }
    requires spread { IsSpread project.now nets.now.spread }
    requires standing { IsStanding project.now standing.old }
    requires unfinished { standing.old.finished ≡ false }
    requires made { (slack : ℕ) × IsMadeOver project.now slack standing.old nets.now found.now facts.now close.old }
    requires room { HasRoom project.now close.old }
    ensures standing { standing_for standing.new ≡ next_standing project.now standing.old close.old }
    ensures is { IsStanding project.now standing.new }
    ensures first { close.new.first ≡ close.old.first }
    ensures late { close.new.late ≡ close.old.late }
    ensures opened { close.new.opened ≡ close.old.opened }
    ensures close { HasRoom project.now close.new }
{
    // What flows into tanks is in order where both nets are steady.
    let _upper = nets.on(Side::Upper).junctions();
    let _lower = nets.on(Side::Lower).junctions();
    let _found = found;
    let _facts = facts;
    move_on(standing, project, close);
}
