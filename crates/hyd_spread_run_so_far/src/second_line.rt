//! The line that counts what a spread leaves open, which the report of a run for one has behind its first line.
#![tactic(auto)]

ghost use Rattle.std.specs.Prelude.{◌≡◌, ◌≤◌, [], ◌∷◌, ◌++◌, codes, decimal, take, None, IsTrue};
ghost use Rattle.hyd_io.specs.Output.{OnCert};
ghost use Rattle.hyd_io.specs.TextPutIn.{Puts};
ghost use Rattle.hyd_net.specs.Sound.{IsSound};
ghost use Rattle.hyd_spec_certificates.specs.CertificateText.{line};
ghost use Rattle.hyd_spec_spread_reports.specs.TextsOfSpreadReports.{spread_line, says_nothing, second_line};
ghost use Rattle.hyd_spread_rows.specs.SpreadsRead.{spread_of};

use crate::left_open::{demands_left, emitters_left, heads_left, levels_left};
use hyd_io::{Desk, OutFault, Pen};
use hyd_line_reader::{LINE, append, append_number};
use hyd_net::Project;
use hyd_spread_rows::SpreadRows;

// Makes the line up to how many demands and emitters there are, and returns its length.
fn make_start(buffer: &mut [u8; LINE], demands: u32, emitters: u32) -> usize
    ensures within { result ≤ 29 }
    ensures text { take result buffer.new ≡ codes "SPREAD" ++ (32 ∷ (decimal demands
        ++ (32 ∷ (decimal emitters ++ (32 ∷ []))))) }
{
    let used = append(buffer, 0, b"SPREAD ");
    let used = append_number(buffer, used, demands);
    let used = append(buffer, used, b" ");
    let used = append_number(buffer, used, emitters);
    append(buffer, used, b" ")
}

// Makes the line of so many demands, emitters, heads of reservoirs and levels of tanks, and returns its length.
fn make_line(buffer: &mut [u8; LINE], demands: u32, emitters: u32, heads: u32, levels: u32) -> usize
    ensures within { result ≤ 64 }
    ensures text { take result buffer.new ≡ line (codes "SPREAD" ∷ (decimal demands ∷ (decimal emitters
        ∷ (decimal heads ∷ (decimal levels ∷ []))))) }
{
    let used = make_start(buffer, demands, emitters);
    let used = append_number(buffer, used, heads);
    let used = append(buffer, used, b" ");
    let used = append_number(buffer, used, levels);
    append(buffer, used, b"\n")
}

// Makes the line of a spread, and returns its length.
fn make_spread_line(buffer: &mut [u8; LINE], project: &Project, rows: &SpreadRows) -> usize
    requires { IsSound project.now }
    ensures within { result ≤ 64 }
    ensures text { take result buffer.new ≡ spread_line project.now (spread_of rows.now) }
{
    make_line(
        buffer,
        demands_left(project, rows),
        emitters_left(project, rows),
        heads_left(project, rows),
        levels_left(project, rows),
    )
}

// Puts the line.
fn put_spread_line<D: Desk>(
    project: &Project,
    rows: &SpreadRows,
    pen: &mut Pen,
    desk: &mut D,
) -> Result<(), OutFault>
    requires sound { IsSound project.now }
    requires ready { OnCert pen.old.to (IsTrue (D.ready desk.old)) }
    ensures { Puts D.files D.rest D.written D.printed D.target D.ready D.counts D.openings
        (spread_line project.now (spread_of rows.now)) result pen.old pen.new desk.old desk.new }
{
    let mut buffer = [0; LINE];
    let used = make_spread_line(&mut buffer, project, rows);
    pen.put(desk, &buffer[..used])
}

// Whether a spread has no rows.
fn says_nothing(rows: &SpreadRows) -> bool
    ensures { result ≡ says_nothing (spread_of rows.now) }
{
    rows.demands.is_empty()
        && rows.emitters.is_empty()
        && rows.heads.is_empty()
        && rows.levels.is_empty()
}

/// Puts the second line of the report of a run for a spread, which counts the demands of junctions, coefficients of
/// emitters, heads of reservoirs and initial levels of tanks that are left open; nothing where there is no spread. Its
/// faults and its needs are those of `Pen::put`, of a pen without a fault.
pub(crate) fn put_second_line<D: Desk>(
    project: &Project,
    rows: &SpreadRows,
    pen: &mut Pen,
    desk: &mut D,
) -> Result<(), OutFault>
    requires sound { IsSound project.now }
    requires ready { OnCert pen.old.to (IsTrue (D.ready desk.old)) }
    requires unbroken { pen.old.fault ≡ None }
    ensures { Puts D.files D.rest D.written D.printed D.target D.ready D.counts D.openings
        (second_line project.now (spread_of rows.now)) result pen.old pen.new desk.old desk.new }
{
    if says_nothing(rows) {
        return Ok(());
    }
    put_spread_line(project, rows, pen, desk)
}
