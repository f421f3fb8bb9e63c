//! Reading the next record of a certificate of version 4, or what ends its records.
#![tactic(auto)]

ghost use Rattle.std.specs.Prelude.{◌≡◌, OnOk};
ghost use Rattle.hyd_io.specs.Output.{PenState};
ghost use Rattle.hyd_spec.specs.ProgramTypes.{Project};
ghost use Rattle.hyd_spec_open_ends.specs.OpenStandings.{OpenStanding};
ghost use Rattle.hyd_spec_spread.specs.Spreads.{Spread};
ghost use Rattle.hyd_cert.specs.ReaderView.{IsGoing};
ghost use Rattle.hyd_open_certificates.specs.OpenRowView.{open_header_of, open_record_of};
ghost use Rattle.hyd_spec_open_checks.specs.OpenChecks.{open_header_for};
ghost use Rattle.hyd_cert_check.specs.PassedOn.{told};
ghost use Rattle.hyd_cert_check.specs.ReaderAndPen.{CheckMoment, moment, IsOpen};
ghost use Rattle.hyd_spread_check_so_far.specs.SpreadCheckSoFar.{IsEndLine, IsSo, ReadGives};

use crate::conclusion::SpreadConclusion;
use hyd_cert::{CertFault, CertNext};
use hyd_cert_check::CheckFault;
use hyd_io::Desk;
use hyd_open_certificates::{OpenCertReader, OpenRow};

// What an END line, the line of this number, says of so many records before it, of a run that is finished or isn't.
fn judge_end(
    records: u32,
    is_finished: bool,
    line: u64,
    periods: u32,
    finished: bool,
) -> SpreadConclusion
    ensures { (project : Project) (spread : Spread) (left : OpenStanding) (before now : CheckMoment)
        → left.known.number ≡ records → left.known.finished ≡ is_finished
        → IsEndLine project periods finished before now → line ≡ now.reader.line
        → IsSo result project spread left before now }
{
    if periods != records {
        return SpreadConclusion::OtherEnd(line);
    }
    if finished != is_finished {
        return SpreadConclusion::OtherEnd(line);
    }
    SpreadConclusion::Accepted(finished)
}

/// Reads the next record of a check that has accepted so many and stands at the end of the run or doesn't, into one
/// with the counts of the network. Answers what is found where there is none.
///
/// - `Read`: a read failed, and the read faults rose by one.
pub fn read_record<D: Desk>(
    records: u32,
    is_finished: bool,
    reader: &mut OpenCertReader,
    into: &mut OpenRow,
    desk: &mut D,
) -> Result<Option<SpreadConclusion>, CheckFault>
    requires { IsGoing reader.old.stand }
    ensures gives { (project : Project) (spread : Spread) (left : OpenStanding) (pen : PenState)
        → open_header_of into.old ≡ open_header_for project → left.known.number ≡ records
        → left.known.finished ≡ is_finished → IsOpen pen
        → ReadGives result project spread left (open_record_of into.new)
        (moment reader.old pen
        (told D.files D.rest D.written D.printed D.target D.ready D.counts D.openings desk.old))
        (moment reader.new pen
        (told D.files D.rest D.written D.printed D.target D.ready D.counts D.openings desk.new)) }
    ensures header { open_header_of into.new ≡ open_header_of into.old }
{
    match reader.next(desk, into) {
        Ok(CertNext::Record) => Ok(None),
        Ok(CertNext::End { periods, finished }) => Ok(Some(judge_end(
            records,
            is_finished,
            reader.line(),
            periods,
            finished,
        ))),
        Err(CertFault::Read) => Err(CheckFault::Read),
        Err(CertFault::Grammar { line }) => Ok(Some(SpreadConclusion::Grammar(line))),
        Err(CertFault::Count { line }) => Ok(Some(SpreadConclusion::Counts(line))),
    }
}
