//! The line of a report time.

ghost use Rattle.std.specs.Prelude.{◌≡◌, IsTrue};
ghost use Rattle.hyd_net.specs.Sound.{IsSound};
ghost use Rattle.hyd_spec_certificates.specs.PrintedIntervals.{is_report_time};
ghost use Rattle.hyd_io.specs.Output.{OnCert};
ghost use Rattle.hyd_spec.specs.ProgramTypes.{Project};
ghost use Rattle.hyd_spec_reports.specs.ReportLine.{TimeLine, line_text};
ghost use Rattle.hyd_io.specs.TextPutIn.{Puts};

use crate::line_pieces::put_pieces;
use crate::numbers_times_and_settings::clock;
use hyd_io::{Desk, OutFault, Pen};
use hyd_net::Project;

/// Puts the line of a report time, in seconds. Its faults and its needs are those of `Pen::put`. It takes no memory.
pub fn put_time<D: Desk>(time: u32, pen: &mut Pen, desk: &mut D) -> Result<(), OutFault>
    requires { OnCert pen.old.to (IsTrue (D.ready desk.old)) }
    ensures { (project : Project) → Puts D.files D.rest D.written D.printed D.target D.ready D.counts D.openings
        (line_text project (TimeLine time)) result pen.old pen.new desk.old desk.new }
{
    let time = clock(u64::from(time));
    put_pieces(&[b"TIME ".as_slice(), time.bytes(), b"\n"], pen, desk)
}

/// Whether a period that begins at a time, in seconds, is reported: the report start plus a multiple of the report
/// step.
pub fn is_report_time(project: &Project, time: u32) -> bool
    requires { IsSound project.now }
    ensures { result ≡ is_report_time project.now time }
{
    let times = &project.times;
    if time < times.report_start {
        return false;
    }
    (time - times.report_start) % times.report == 0
}
