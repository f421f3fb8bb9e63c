//! The record and the report of one period of a run for a spread. The record comes first.
#![tactic(auto)]

ghost use Rattle.std.specs.Prelude.{◌≡◌, ◌<◌, ◌^◌, [], IsTrue};
ghost use Rattle.hyd_io.specs.Output.{OnCert};
ghost use Rattle.hyd_io.specs.TextPutIn.{Puts};
ghost use Rattle.hyd_open_certificates.specs.OpenRowView.{open_record_of};
ghost use Rattle.hyd_spec_open_ends.specs.OpenCertificateText.{open_record_text};
ghost use Rattle.hyd_open_report.specs.OpenPeriodLines.{open_texts};
ghost use Rattle.hyd_run.specs.Pens.{told, moment, AreOpen, PutsInOrder};
ghost use Rattle.hyd_spread_run.specs.PeriodsOfSpreadRuns.{IsOfPeriod, lines_left};

use hyd_io::{Desk, OutFault, Pen};
use hyd_open_certificates::{OpenRow, put_open_record};
use hyd_open_report::Late;
use hyd_open_run_so_far::OpenSigns;
use hyd_spec_certificates::Side;
use hyd_spread_report::put_spread_report;
use hyd_spread_sim::SpreadSim;

/// Puts the report of the last period of a run. Its faults and its needs are those of `Pen::put`. It takes no memory.
pub fn put_period_lines<D: Desk>(
    sim: &SpreadSim,
    pen: &mut Pen,
    desk: &mut D,
) -> Result<(), OutFault>
    requires period { IsOfPeriod sim.now }
    requires ready { OnCert pen.old.to (IsTrue (D.ready desk.old)) }
    ensures { Puts D.files D.rest D.written D.printed D.target D.ready D.counts D.openings
        (open_texts sim.now.project (lines_left sim.now)) result pen.old pen.new desk.old desk.new }
{
    let project = sim.project();
    let nets = sim.nets();
    // Certificates are ordered where the lower net is steady.
    let lower = nets.on(Side::Lower);
    let _junctions = lower.junctions();
    let found = sim.found();
    let late = Late {
        start: found.late,
        end: sim.late_at_end(),
    };
    put_spread_report(
        project,
        nets,
        &found.row,
        sim.facts(),
        late,
        sim.opened(),
        pen,
        desk,
    )
}

// Puts the report of the last period, and empties the pen where that is due.
fn put_lines<D: Desk>(
    sim: &SpreadSim,
    signs: &mut OpenSigns,
    pen: &mut Pen,
    desk: &mut D,
) -> Result<(), OutFault>
    requires period { IsOfPeriod sim.now }
    requires ready { OnCert pen.old.to (IsTrue (D.ready desk.old)) }
    ensures { Puts D.files D.rest D.written D.printed D.target D.ready D.counts D.openings
        (open_texts sim.now.project (lines_left sim.now)) result pen.old pen.new desk.old desk.new }
{
    put_period_lines(sim, pen, desk)?;
    signs.empty_when_due(pen, desk)
}

/// Puts the record of the last period of a run, and then its report, and empties the report's pen where that is due.
pub(crate) fn put_period<D: Desk>(
    sim: &SpreadSim,
    signs: &mut OpenSigns,
    certificate: &mut Pen,
    report: &mut Pen,
    desk: &mut D,
) -> Result<(), OutFault>
    requires period { IsOfPeriod sim.now }
    requires unbroken { AreOpen (moment certificate.old report.old
        (told D.files D.rest D.written D.printed D.target D.ready D.counts D.openings desk.old)) }
    ensures { PutsInOrder (open_record_text (open_record_of sim.now.found))
        (open_texts sim.now.project (lines_left sim.now)) result
        (moment certificate.old report.old
        (told D.files D.rest D.written D.printed D.target D.ready D.counts D.openings desk.old))
        (moment certificate.new report.new
        (told D.files D.rest D.written D.printed D.target D.ready D.counts D.openings desk.new)) }
{
    put_open_record(sim.found(), certificate, desk)?;
    put_lines(sim, signs, report, desk)
}

// A number is below 2^32.
fn is_small(number: u32)
    ensures { number < 2 ^ 32 }
{
    let _ = number;
}

/// The numbers of a record are below 2^32.
pub(crate) fn has_small_numbers(found: &OpenRow)
    ensures number { found.now.row.number < 2 ^ 32 }
    ensures time { found.now.row.time < 2 ^ 32 }
    ensures length { found.now.row.length < 2 ^ 32 }
    ensures late { found.now.late < 2 ^ 32 }
    ensures shortest { found.now.shortest < 2 ^ 32 }
{
    is_small(found.row.number);
    is_small(found.row.time);
    is_small(found.row.length);
    is_small(found.late);
    is_small(found.shortest);
}
