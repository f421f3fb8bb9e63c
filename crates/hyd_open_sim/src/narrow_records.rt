//! Whether a record is narrow.
#![tactic(auto)]

ghost use Rattle.std.specs.Prelude.{◌≡◌, ◌≢◌, length, true, false};
ghost use Rattle.hyd_spec_open_reports.specs.PromisesOfOpenReports.{IsNarrowOpenly};
ghost use Rattle.hyd_cert.specs.RecordView.{row_of};
ghost use Rattle.hyd_open_certificates.specs.OpenRowView.{open_record_of};
ghost use Rattle.hyd_open_sim_start.specs.StandingsOfOpenRuns.{standing_for};
ghost use Rattle.hyd_open_sim.specs.EndedPeriods.{next_standing};
ghost use Rattle.hyd_open_sim.specs.NarrowRecords.{AreSteady};

use hyd_net::Project;
use hyd_open_certificates::OpenRow;
use hyd_open_period_end::OpenPeriodEnd;
use hyd_open_sim_start::{Standing, are_close, are_steady};
use hyd_spec_certificates::{Problem, Side};

/// Whether the levels behind a period are narrow for a width in head ticks, which is asked where its start and its end
/// are known to the second.
pub fn has_steady_levels(
    project: &Project,
    standing: &Standing,
    close: &OpenPeriodEnd,
    width: i64,
) -> bool
    requires levels { standing.now.time ≢ project.now.times.duration
        → length close.now.next.levels.list ≡ length standing.now.stocks.levels.list }
    ensures narrow { result ≡ true → AreSteady width (standing_for standing.now)
        (next_standing project.now standing.now close.now) }
    ensures wide { result ≡ false → AreSteady width (standing_for standing.now)
        (next_standing project.now standing.now close.now) → ⊥ }
{
    if standing.late > 0 {
        return true;
    }
    let before = standing.stocks.levels.as_slice();
    if standing.time == project.times.duration {
        return are_steady(before, before, width);
    }
    if close.late > 0 {
        return true;
    }
    are_steady(before, close.next.levels.as_slice(), width)
}

/// Whether the record of a period that is over is narrow for a width in head ticks.
pub(crate) fn is_narrow(
    project: &Project,
    standing: &Standing,
    found: &OpenRow,
    close: &OpenPeriodEnd,
    width: i64,
) -> bool
    requires heads { length (row_of found.now.row).main.lower ≡ length (row_of found.now.row).main.upper }
    requires levels { standing.now.time ≢ project.now.times.duration
        → length close.now.next.levels.list ≡ length standing.now.stocks.levels.list }
    ensures narrow { result ≡ true → IsNarrowOpenly width (standing_for standing.now) (open_record_of found.now)
        (next_standing project.now standing.now close.now) }
    ensures wide { result ≡ false → IsNarrowOpenly width (standing_for standing.now) (open_record_of found.now)
        (next_standing project.now standing.now close.now) → ⊥ }
{
    let upper = found.row.vector(Problem::Main, Side::Upper);
    let lower = found.row.vector(Problem::Main, Side::Lower);
    are_close(upper, lower, standing.stocks.levels.as_slice(), width)
        && has_steady_levels(project, standing, close, width)
}
