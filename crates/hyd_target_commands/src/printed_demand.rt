//! The line of a demand out of range.

ghost use Rattle.std.specs.Prelude.{◌≡◌, IfErr, OnOk, OnErr};
ghost use Rattle.hyd_io.specs.declared.output.Channel.TheVariants.{Report};
ghost use Rattle.hyd_io.specs.Output.{HasOutCause};
ghost use Rattle.hyd_io.specs.DeskBytes.{append_known, PutOut};
ghost use Rattle.hyd_net.specs.Sound.{IsSound};
ghost use Rattle.hyd_spec_certificates.specs.declared.StopCause.TheVariants.{Demand as DemandOutOfRange};
ghost use Rattle.hyd_spec_reports.specs.ReportLine.{stop_line};
ghost use Rattle.hyd_spec_certificates.specs.Stops.{IsFirstDemand};
ghost use Rattle.hyd_command_answers.specs.DeskContents.{seen};
ghost use Rattle.hyd_command_answers.specs.FaultsAndRefusals.{HasCause};
ghost use Rattle.hyd_target_commands.specs.PrintedDemands.{AnswersDemand};

use hyd_command_answers::{Status, fault_status};
use hyd_io::{Channel, Desk, OutFault, Pen};
use hyd_net::Project;
use hyd_period_network::PeriodDemand;
use hyd_report::put_stop;
use hyd_sentences::{DuePeriod, Stopped};
use hyd_spec_certificates::StopCause;

// The stop at the first period, whose demand is out of range.
fn demand_cause(demand: PeriodDemand) -> StopCause
    ensures { result ≡ DemandOutOfRange 0 demand.junction demand.value }
{
    StopCause::Demand {
        period: 0,
        junction: demand.junction,
        value: demand.value,
    }
}

/// Prints the line of a demand out of range in the first period. Its faults are those of `Pen::put` and `Pen::flush`.
pub fn print_demand<D: Desk>(
    project: &Project,
    demand: PeriodDemand,
    desk: &mut D,
) -> Result<(), OutFault>
    requires { IsSound project.now }
    ensures whole { OnOk result (D.printed desk.new ≡ append_known (D.printed desk.old)
        (stop_line project.now 0 (DemandOutOfRange 0 demand.junction demand.value))) }
    ensures front { OnErr result (PutOut (D.printed desk.old) (D.printed desk.new)
        (stop_line project.now 0 (DemandOutOfRange 0 demand.junction demand.value))) }
    ensures cause { IfErr result (λ fault. HasOutCause Report fault (D.counts desk.old) (D.counts desk.new)) }
    ensures steady { OnOk result (D.counts desk.new ≡ D.counts desk.old) }
    ensures files_stay { D.files desk.new ≡ D.files desk.old }
    ensures written_stays { D.written desk.new ≡ D.written desk.old }
    ensures openings_stay { D.openings desk.new ≡ D.openings desk.old }
{
    let cause = demand_cause(demand);
    let mut pen = Pen::new(Channel::Report);
    put_stop(project, 0, &cause, &mut pen, desk)?;
    pen.flush(desk)
}

/// Says to a person what a demand out of range in the first period means.
pub fn say_demand<D: Desk>(project: &Project, demand: PeriodDemand, desk: &D)
    requires { IsSound project.now }
{
    desk.say(&Stopped {
        project,
        time: 0,
        cause: demand_cause(demand),
        due: DuePeriod::unknown(),
    });
}

/// Prints the line of the first demand out of range in the first period, and answers so, or by the fault that kept it
/// from being printed.
pub(crate) fn stop_by_demand<D: Desk>(
    project: &Project,
    demand: PeriodDemand,
    desk: &mut D,
) -> Status
    requires sound { IsSound project.now }
    requires first { IsFirstDemand project.now 0 demand.junction demand.value }
    ensures cause { HasCause result (D.counts desk.old) (D.counts desk.new) }
    ensures answers { AnswersDemand project.now result
        (seen D.files D.written D.printed desk.old) (seen D.files D.written D.printed desk.new) }
    ensures openings_stay { D.openings desk.new ≡ D.openings desk.old }
{
    match print_demand(project, demand, desk) {
        Ok(()) => {
            say_demand(project, demand, desk);
            Status::Demand
        }
        Err(fault) => fault_status(fault),
    }
}
