//! What each command does with a network that was read. All memory that the task needs is taken first.

ghost use Rattle.std.specs.Prelude.{◌≡◌, None};
ghost use Rattle.hyd_net.specs.Sound.{IsSound};
ghost use Rattle.hyd_spec_certificates.specs.RecordAndStanding.{initial_standing};
ghost use Rattle.hyd_sim.specs.RunView.{standing_of};
ghost use Rattle.hyd_command_answers.specs.DeskContents.{seen};
ghost use Rattle.hyd_command_answers.specs.FaultsAndRefusals.{HasCause};
ghost use Rattle.hyd_cli.specs.TaskWithNetwork.{MayDo, settings_for, DoesTask};

use crate::command_gen::write_and_run;
use crate::command_run::run_by_gradient;
use hyd_command_answers::Status;
use hyd_command_words::{DEFAULT_ROUNDS, DEFAULT_WIDTH, Files};
use hyd_io::Desk;
use hyd_net::Project;
use hyd_sim::{Settings, Sim};
use std::alloc::Global;

/// What the run of a generated network is asked for.
const USUAL: Settings = Settings {
    rounds: DEFAULT_ROUNDS,
    width: DEFAULT_WIDTH,
    tight: false,
};

/// What is to be done with a network.
#[derive(Clone, Copy)]
pub(crate) enum Task<'a> {
    /// It is run: the certificate goes to CERT, and the report is printed.
    Run { cert: &'a str, settings: Settings },
    /// Its text goes to NET, and it is run: the certificate goes to CERT, and a summary is printed.
    Gen { text: &'a [u8], files: Files<'a> },
}

/// What a task asks a run for.
fn settings_for(task: Task<'_>) -> Settings
    ensures { result ≡ settings_for task.entry }
{
    match task {
        Task::Run { settings, .. } => settings,
        Task::Gen { .. } => USUAL,
    }
}

/// Does a task with the network of a run at its start.
fn do_by_run<D: Desk>(alloc: Global, sim: &mut Sim, task: Task<'_>, desk: &mut D) -> Status
    requires start { standing_of sim.old ≡ initial_standing sim.old.project }
    requires running { sim.old.stopped ≡ None }
    requires settings { sim.old.settings ≡ settings_for task }
    requires names { MayDo D.may_create task }
    ensures cause { HasCause result (D.counts desk.old) (D.counts desk.new) }
    ensures does { DoesTask task.entry sim.old.project result
        (seen D.files D.written D.printed desk.old) (seen D.files D.written D.printed desk.new)
        (D.openings desk.old) (D.openings desk.new) (D.ready desk.new) }
{
    match task {
        Task::Run { cert, .. } => run_by_gradient(alloc, sim, cert, desk),
        Task::Gen { text, files } => write_and_run(alloc, sim, text, files, desk),
    }
}

/// Opens a run of a network that was read, does a task with it, and closes it.
pub(crate) fn do_with_network<D: Desk>(
    alloc: Global,
    project: Project,
    task: Task<'_>,
    desk: &mut D,
) -> Status
    requires sound { IsSound project }
    requires names { MayDo D.may_create task }
    ensures cause { HasCause result (D.counts desk.old) (D.counts desk.new) }
    ensures does { DoesTask task.entry project result
        (seen D.files D.written D.printed desk.old) (seen D.files D.written D.printed desk.new)
        (D.openings desk.old) (D.openings desk.new) (D.ready desk.new) }
{
    match Sim::open(alloc, project, settings_for(task)) {
        Ok(mut sim) => {
            let status = do_by_run(alloc, &mut sim, task, desk);
            sim.close();
            status
        }
        Err(_) => Status::OutOfMemory,
    }
}
