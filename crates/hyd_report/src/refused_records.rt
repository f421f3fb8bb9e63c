//! The last line where a record of a certificate was refused.

ghost use Rattle.std.specs.Prelude.{◌≡◌, ◌++◌, codes, IsTrue};
ghost use Rattle.hyd_io.specs.Output.{OnCert};
ghost use Rattle.hyd_net.specs.Sound.{IsSound};
ghost use Rattle.hyd_spec_certificates.specs.CertificateText.{words};
ghost use Rattle.hyd_spec_certificates.specs.RefusedRecords.{refused_period};
ghost use Rattle.hyd_spec_reports.specs.ReportLine.{refusal_words, refused_line};
ghost use Rattle.hyd_io.specs.TextPutIn.{Puts};

use crate::line_pieces::put_pieces;
use crate::numbers_times_and_settings::number;
use crate::stops::put_failing;
use hyd_io::{Desk, OutFault, Pen};
use hyd_net::Project;
use hyd_spec_certificates::CertRefused;

/// Puts the words of a refusal.
fn put_refusal<D: Desk>(
    project: &Project,
    cause: &CertRefused,
    pen: &mut Pen,
    desk: &mut D,
) -> Result<(), OutFault>
    requires sound { IsSound project.now }
    requires ready { OnCert pen.old.to (IsTrue (D.ready desk.old)) }
    ensures { Puts D.files D.rest D.written D.printed D.target D.ready D.counts D.openings
        (words (refusal_words project.now cause.now) ++ codes "\n")
        result pen.old pen.new desk.old desk.new }
{
    match cause {
        CertRefused::Place { .. } => put_pieces(&[b"PLACE\n".as_slice()], pen, desk),
        CertRefused::Demand { .. } => put_pieces(&[b"DEMAND\n".as_slice()], pen, desk),
        CertRefused::Fails {
            problem,
            side,
            junction,
            ..
        } => put_failing(project, b"FAILS ", *problem, *side, *junction, pen, desk),
        CertRefused::Open { .. } => put_pieces(&[b"OPEN\n".as_slice()], pen, desk),
        CertRefused::Length { .. } => put_pieces(&[b"LENGTH\n".as_slice()], pen, desk),
        CertRefused::After { .. } => put_pieces(&[b"AFTER\n".as_slice()], pen, desk),
    }
}

/// The period that a refusal names.
fn refused_period(cause: &CertRefused) -> u32
    ensures { result ≡ refused_period cause.now }
{
    match cause {
        CertRefused::Place { period }
        | CertRefused::Demand { period }
        | CertRefused::Fails { period, .. }
        | CertRefused::Open { period }
        | CertRefused::Length { period }
        | CertRefused::After { period } => *period,
    }
}

/// Puts the last line where a record was refused: the period that was due, and why. Its faults and its needs are
/// those of `Pen::put`.
pub fn put_refused<D: Desk>(
    project: &Project,
    cause: &CertRefused,
    pen: &mut Pen,
    desk: &mut D,
) -> Result<(), OutFault>
    requires sound { IsSound project.now }
    requires ready { OnCert pen.old.to (IsTrue (D.ready desk.old)) }
    ensures { Puts D.files D.rest D.written D.printed D.target D.ready D.counts D.openings
        (refused_line project.now cause.now)
        result pen.old pen.new desk.old desk.new }
{
    let period = number(u64::from(refused_period(cause)));
    put_pieces(
        &[b"BADCERT period ".as_slice(), period.bytes(), b" "],
        pen,
        desk,
    )?;
    put_refusal(project, cause, pen, desk)
}
