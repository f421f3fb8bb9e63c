//! The first read of CERT, which tells by which check it is to be judged.

ghost use Rattle.std.specs.Prelude.{◌≡◌, false, ℕ, List, Some, IsTrue, IfErr, IfOk, OnErr, OnOk};
ghost use Rattle.hyd_io.specs.DeskBytes.{IsTold};
ghost use Rattle.hyd_io.specs.DeskCounts.{with_opened, with_read_fault};
ghost use Rattle.hyd_cert.specs.ReaderView.{fresh, to_come};
ghost use Rattle.hyd_cert_check.specs.ReaderAndPen.{IsAtStart};
ghost use Rattle.hyd_open_certificates.specs.OpenFaults.{HasOpenHeader, LacksOpenHeader};

use hyd_cert_check::CheckFault;
use hyd_io::Desk;
use hyd_open_certificates::OpenCertReader;

/// Opens CERT, and reads as much as tells whether its text begins with a header line of version 4. The reader holds what
/// was read, and has passed no line.
///
/// - `Read`: CERT couldn't be opened, or the read failed.
pub(crate) fn begin_reading<D: Desk>(
    reader: &mut OpenCertReader,
    cert: &str,
    desk: &mut D,
) -> Result<bool, CheckFault>
    requires fresh { reader.old ≡ fresh }
    requires opens { IsTrue (D.may_open cert.now) }
    ensures text { (certificate : List ℕ) → IsTold (D.files desk.old) cert.now certificate
        → OnOk result (to_come reader.new (D.rest desk.new) ≡ Some certificate) }
    ensures yes { (certificate : List ℕ) → IsTold (D.files desk.old) cert.now certificate
        → IfOk result (λ is_open. IsTrue is_open → HasOpenHeader (Some certificate)) }
    ensures no { (certificate : List ℕ) → IsTold (D.files desk.old) cert.now certificate
        → IfOk result (λ is_open. is_open ≡ false → LacksOpenHeader (Some certificate)) }
    ensures start { OnOk result (IsAtStart reader.new) }
    ensures fault { IfErr result (λ fault. fault ≡ CheckFault.Read) }
    ensures rose { OnErr result (D.counts desk.new ≡ with_read_fault (D.counts desk.old)) }
    ensures steady { OnOk result (D.counts desk.new ≡ D.counts desk.old) }
    ensures files_stay { D.files desk.new ≡ D.files desk.old }
    ensures written_stays { D.written desk.new ≡ D.written desk.old }
    ensures printed_stays { D.printed desk.new ≡ D.printed desk.old }
    ensures opened { D.openings desk.new ≡ with_opened (D.openings desk.old) }
{
    if desk.open(cert).is_err() {
        return Err(CheckFault::Read);
    }
    match reader.has_open_header(desk) {
        Ok(is_open) => Ok(is_open),
        Err(_) => Err(CheckFault::Read),
    }
}
