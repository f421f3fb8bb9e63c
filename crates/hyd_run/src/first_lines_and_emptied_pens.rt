//! The first lines put in at one pen, and at both, and the emptying of one pen or both. Of both the certificate's comes
//! first.
#![tactic(auto)]

ghost use Rattle.std.specs.Prelude.{◌≡◌, [], IsTrue, OnOk};
ghost use Rattle.hyd_io.specs.Output.{OnCert};
ghost use Rattle.hyd_cert.specs.Lines.{header_text};
ghost use Rattle.hyd_cert.specs.RecordView.{header_of};
ghost use Rattle.hyd_io.specs.TextPutIn.{Puts};
ghost use Rattle.hyd_run.specs.Pens.{told, moment, AreOpen, PutsIn, PutsInOrder};
ghost use Rattle.hyd_run.specs.Runs.{first_line};

use hyd_cert::{Record, put_header};
use hyd_io::{Desk, OutFault, Pen};

/// Puts the first line of a report.
pub fn put_first<D: Desk>(pen: &mut Pen, desk: &mut D) -> Result<(), OutFault>
    requires { OnCert pen.old.to (IsTrue (D.ready desk.old)) }
    ensures { Puts D.files D.rest D.written D.printed D.target D.ready D.counts D.openings
        first_line result pen.old pen.new desk.old desk.new }
{
    pen.put(desk, b"HYD 1\n")
}

/// Puts out all that a pen holds.
pub fn empty<D: Desk>(pen: &mut Pen, desk: &mut D) -> Result<(), OutFault>
    requires { OnCert pen.old.to (IsTrue (D.ready desk.old)) }
    ensures puts { Puts D.files D.rest D.written D.printed D.target D.ready D.counts D.openings
        [] result pen.old pen.new desk.old desk.new }
    ensures empty { OnOk result (pen.new.held ≡ []) }
{
    pen.flush(desk)
}

/// Puts the header of a certificate, and then the first line of a report.
pub(crate) fn put_front<D: Desk>(
    row: &Record,
    certificate: &mut Pen,
    report: &mut Pen,
    desk: &mut D,
) -> Result<(), OutFault>
    requires { AreOpen (moment certificate.old report.old
        (told D.files D.rest D.written D.printed D.target D.ready D.counts D.openings desk.old)) }
    ensures { PutsInOrder (header_text (header_of row.now)) first_line result
        (moment certificate.old report.old
        (told D.files D.rest D.written D.printed D.target D.ready D.counts D.openings desk.old))
        (moment certificate.new report.new
        (told D.files D.rest D.written D.printed D.target D.ready D.counts D.openings desk.new)) }
{
    put_header(row, certificate, desk)?;
    put_first(report, desk)
}

/// Puts out all that the two pens hold.
pub fn empty_both<D: Desk>(
    certificate: &mut Pen,
    report: &mut Pen,
    desk: &mut D,
) -> Result<(), OutFault>
    requires { AreOpen (moment certificate.old report.old
        (told D.files D.rest D.written D.printed D.target D.ready D.counts D.openings desk.old)) }
    ensures puts { PutsIn [] [] result
        (moment certificate.old report.old
        (told D.files D.rest D.written D.printed D.target D.ready D.counts D.openings desk.old))
        (moment certificate.new report.new
        (told D.files D.rest D.written D.printed D.target D.ready D.counts D.openings desk.new)) }
    ensures certificate { OnOk result (certificate.new.held ≡ []) }
    ensures report { OnOk result (report.new.held ≡ []) }
{
    empty(certificate, desk)?;
    empty(report, desk)
}
