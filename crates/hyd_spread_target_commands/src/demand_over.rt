//! The stop at a demand of which an end is out of range.

ghost use Rattle.std.specs.Prelude.{◌≡◌};
ghost use Rattle.hyd_net.specs.Sound.{IsSound};
ghost use Rattle.hyd_spec_spread.specs.Spreads.{Spread};
ghost use Rattle.hyd_spec_spread_stops.specs.StopsOfSpreads.{IsFirstDemandOver};
ghost use Rattle.hyd_command_answers.specs.DeskContents.{seen};
ghost use Rattle.hyd_command_answers.specs.FaultsAndRefusals.{HasCause};
ghost use Rattle.hyd_spread_target_commands.specs.SpreadDemands.{AnswersDemandOver};

use hyd_command_answers::{Status, fault_status};
use hyd_io::Desk;
use hyd_net::Project;
use hyd_period_network::PeriodDemand;
use hyd_spread_networks::DemandOver;
use hyd_target_commands::{print_demand, say_demand};

// The same demand, of the first period.
fn in_period(demand: DemandOver) -> PeriodDemand
    ensures junction { result.junction ≡ demand.junction }
    ensures value { result.value ≡ demand.value }
{
    let DemandOver { junction, value } = demand;
    PeriodDemand { junction, value }
}

/// Prints the line of the first demand of which an end is out of range in the first period, and answers so, or by the
/// fault that kept it from being printed.
pub(crate) fn stop_by_demand<D: Desk>(project: &Project, demand: DemandOver, desk: &mut D) -> Status
    requires { IsSound project.now }
    ensures cause { HasCause result (D.counts desk.old) (D.counts desk.new) }
    ensures answers { (spread : Spread) → IsFirstDemandOver project.now spread 0 demand.junction demand.value
        → AnswersDemandOver project.now spread result
        (seen D.files D.written D.printed desk.old) (seen D.files D.written D.printed desk.new) }
    ensures openings_stay { D.openings desk.new ≡ D.openings desk.old }
{
    let demand = in_period(demand);
    match print_demand(project, demand, desk) {
        Ok(()) => {
            say_demand(project, demand, desk);
            Status::Demand
        }
        Err(fault) => fault_status(fault),
    }
}
