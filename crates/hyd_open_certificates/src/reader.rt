//! Reading a certificate text of version 4.

ghost use Rattle.std.specs.Prelude.{◌≡◌, ◌+◌, ◌<◌, ◌^◌, false, IsTrue, ◌++◌, length, IfOk, IfErr, OnOk};
ghost use Rattle.hyd_io.specs.DeskBytes.{where_told, prepend_known};
ghost use Rattle.hyd_io.specs.DeskCounts.{with_read_fault};
ghost use Rattle.hyd_io.specs.LeftAsItWas.{KeepsOutput};
ghost use Rattle.hyd_spec_certificates.specs.CertificateText.{end_line};
ghost use Rattle.hyd_spec_open_ends.specs.OpenCertificateText.{IsOpenRow, open_record_text};
ghost use Rattle.hyd_cert.specs.Lines.{header_text};
ghost use Rattle.hyd_cert.specs.Faults.{lines_on, OnGrammar};
ghost use Rattle.hyd_cert.specs.ReaderView.{fresh, to_come, IsGoing, IsDone, lead, lead_lines, answer_of, stand_of};
ghost use Rattle.hyd_cert.specs.ReaderView.{OnRecord, OnEnd};
ghost use Rattle.hyd_cert.specs.declared.answers_of_reader.Stand.TheVariants as stand;
ghost use Rattle.hyd_open_certificates.specs.OpenRowView.{open_header_of, open_record_of};
ghost use Rattle.hyd_open_certificates.specs.OpenFaults.{HasOpenHeader, LacksOpenHeader, LacksOpenRecord};
ghost use Rattle.hyd_open_certificates.specs.OpenFaults.{IsOpenTextFault};

use crate::lines::Next;
use crate::lines_of_text::Lines;
use crate::open_row::{OpenRow, has_small_counts};
use hyd_cert::{CertFault, CertNext, EndLine, Stand};
use hyd_io::Desk;
use hyd_line_reader::Source;
use std::marker::Model;

/// A reader of a certificate text of version 4. Contracts see what they see of a reader of other certificates: where it
/// stands, how many lines it passed and what it read ahead. It reads no flows.
#[derive(Drop)]
pub struct OpenCertReader {
    lines: Lines,
    stand: Stand,
}

impl Model for OpenCertReader {
    ghost use Rattle.std.specs.Prelude.{false};
    ghost use Rattle.hyd_cert.specs.ReaderView.{ReaderView};

    ghost Value = { ReaderView };

    ghost view = { λ r. record { stand = r.stand; line = r.lines.line; ahead = r.lines.source; flows = false } };
}

impl OpenCertReader {
    /// A reader that has read nothing and has no fault.
    pub fn new() -> OpenCertReader
        ensures { result ≡ fresh }
    {
        OpenCertReader {
            lines: Lines {
                source: Source::new(),
                line: 0,
            },
            stand: Stand::First,
        }
    }

    /// How many lines it passed. It stays at 2^64 - 1 once it is there.
    pub fn line(&self) -> u64
        ensures { result ≡ self.now.line }
    {
        self.lines.line
    }

    /// Whether the text begins with a header line of version 4, of whatever counts: else `next` answers Grammar at
    /// line 1, and another reader may read it. What is still to come stays as it was, and the reader reads it on;
    /// `into_read_ahead` hands what it holds of it to another one.
    ///
    /// - `Read`: the read failed, and the read faults rose. Each call answers it from then on.
    pub fn has_open_header<D: Desk>(&mut self, desk: &mut D) -> Result<bool, CertFault>
        requires { self.old.stand ≡ stand.First }
        ensures same { OnOk result (to_come self.new (D.rest desk.new) ≡ to_come self.old (D.rest desk.old)) }
        ensures yes { IfOk result (λ is_open. IsTrue is_open
            → HasOpenHeader (to_come self.old (D.rest desk.old))) }
        ensures no { IfOk result (λ is_open. is_open ≡ false
            → LacksOpenHeader (to_come self.old (D.rest desk.old))) }
        ensures stand { OnOk result (self.new.stand ≡ self.old.stand) }
        ensures line { self.new.line ≡ self.old.line }
        ensures fault { IfErr result (λ fault. (fault ≡ CertFault.Read) × (self.new.stand ≡ stand.Stuck fault)
            × (D.counts desk.new ≡ with_read_fault (D.counts desk.old))) }
        ensures steady { OnOk result (D.counts desk.new ≡ D.counts desk.old) }
        ensures stays { KeepsOutput D.files D.written D.printed D.target D.ready D.counts D.openings
            desk.old desk.new }
    {
        match self.lines.has_open_header(desk) {
            Ok(is_open) => Ok(is_open),
            Err(_) => {
                self.stand = Stand::Stuck(CertFault::Read);
                Err(CertFault::Read)
            }
        }
    }

    /// The bytes that it read ahead.
    pub fn into_read_ahead(self) -> Source
        ensures { result ≡ self.ahead }
    {
        let OpenCertReader { lines, stand: _ } = self;
        let Lines { source, line: _ } = lines;
        source
    }

    /// The next record, or the end of the text. The text is that of the file which is being read, and its header line
    /// has to have the counts of `into`.
    ///
    /// - `Read`: a read failed, and the read faults rose.
    /// - `Grammar`: at the first line with which, the end of the text counted in, the text begins no certificate of
    ///   version 4. No whole record stands before it.
    /// - `Count`: at a first line that is the header line of version 4 with other counts.
    ///
    /// After a fault each call answers it again, and after an end that end. What `into` holds is then open, but for its
    /// counts.
    pub fn next<D: Desk>(&mut self, desk: &mut D, into: &mut OpenRow) -> Result<CertNext, CertFault>
        ensures record { IsGoing self.old.stand → IfOk result (λ next. OnRecord next
            (to_come self.old (D.rest desk.old) ≡ prepend_known (lead self.old.stand (open_header_of into.new)
            ++ open_record_text (open_record_of into.new)) (to_come self.new (D.rest desk.new)))) }
        ensures row { IsGoing self.old.stand → IfOk result (λ next. OnRecord next
            (IsOpenRow into.new.row.junctions into.new.row.tanks (open_record_of into.new))) }
        ensures line { IsGoing self.old.stand → IfOk result (λ next. OnRecord next
            (self.new.line ≡ lines_on self.old.line (lead_lines self.old.stand + length into.new.row.vectors.list))) }
        ensures end { IsGoing self.old.stand → IfOk result (λ next. OnEnd next (λ periods finished.
            to_come self.old (D.rest desk.old) ≡ where_told (D.rest desk.old)
            (lead self.old.stand (open_header_of into.new) ++ end_line periods finished))) }
        ensures end_line { IsGoing self.old.stand → IfOk result (λ next. OnEnd next (λ periods finished.
            self.new.line ≡ lines_on self.old.line (lead_lines self.old.stand))) }
        ensures end_fits { IsGoing self.old.stand
            → IfOk result (λ next. OnEnd next (λ periods finished. periods < 2 ^ 32)) }
        ensures fault { IsGoing self.old.stand → IfErr result (IsOpenTextFault (open_header_of into.old)
            self.old.stand self.old.line
            (to_come self.old (D.rest desk.old)) (D.counts desk.old) (D.counts desk.new)) }
        ensures no_record { IsGoing self.old.stand → IfErr result (λ fault. OnGrammar fault
            (LacksOpenRecord self.old.stand (open_header_of into.old) (to_come self.old (D.rest desk.old)))) }
        ensures stand { IsGoing self.old.stand → self.new.stand ≡ stand_of result }
        ensures again { IsDone self.old.stand
            → (result ≡ answer_of self.old.stand) × (self.new ≡ self.old) × (desk.new ≡ desk.old) }
        ensures header { open_header_of into.new ≡ open_header_of into.old }
        ensures steady { OnOk result (D.counts desk.new ≡ D.counts desk.old) }
        ensures stays { KeepsOutput D.files D.written D.printed D.target D.ready D.counts D.openings
            desk.old desk.new }
    {
        let read = match self.stand {
            Stand::Stuck(fault) => return Err(fault),
            Stand::Over(end) => {
                return Ok(CertNext::End {
                    periods: end.periods,
                    finished: end.finished,
                });
            }
            Stand::First => read_first(&mut self.lines, desk, into),
            Stand::Between => read_record(&mut self.lines, desk, into),
        };
        self.stand = stand_after(&read);
        read
    }
}

/// Where the reader stands after it answered so.
fn stand_after(read: &Result<CertNext, CertFault>) -> Stand
    ensures { result ≡ stand_of read.now }
{
    match *read {
        Ok(CertNext::Record) => Stand::Between,
        Ok(CertNext::End { periods, finished }) => Stand::Over(EndLine { periods, finished }),
        Err(fault) => Stand::Stuck(fault),
    }
}

/// Reads the header line, and then a record or the end.
fn read_first<D: Desk>(
    lines: &mut Lines,
    desk: &mut D,
    into: &mut OpenRow,
) -> Result<CertNext, CertFault>
    ensures record { IfOk result (λ next. OnRecord next (prepend_known lines.old.source (D.rest desk.old)
        ≡ prepend_known (header_text (open_header_of into.new) ++ open_record_text (open_record_of into.new))
        (prepend_known lines.new.source (D.rest desk.new)))) }
    ensures row { IfOk result (λ next. OnRecord next
        (IsOpenRow into.new.row.junctions into.new.row.tanks (open_record_of into.new))) }
    ensures line { IfOk result (λ next. OnRecord next
        (lines.new.line ≡ lines_on lines.old.line (2 + length into.new.row.vectors.list))) }
    ensures end { IfOk result (λ next. OnEnd next (λ periods finished. prepend_known lines.old.source (D.rest desk.old)
        ≡ where_told (D.rest desk.old) (header_text (open_header_of into.new) ++ end_line periods finished))) }
    ensures end_line { IfOk result (λ next. OnEnd next (λ periods finished. lines.new.line
        ≡ lines_on lines.old.line 2)) }
    ensures end_fits { IfOk result (λ next. OnEnd next (λ periods finished. periods < 2 ^ 32)) }
    ensures fault { IfErr result (IsOpenTextFault (open_header_of into.old) stand.First lines.old.line
        (prepend_known lines.old.source (D.rest desk.old)) (D.counts desk.old) (D.counts desk.new)) }
    ensures no_record { IfErr result (λ fault. OnGrammar fault (LacksOpenRecord stand.First (open_header_of into.old)
        (prepend_known lines.old.source (D.rest desk.old)))) }
    ensures header { open_header_of into.new ≡ open_header_of into.old }
    ensures steady { OnOk result (D.counts desk.new ≡ D.counts desk.old) }
    ensures stays { KeepsOutput D.files D.written D.printed D.target D.ready D.counts D.openings
        desk.old desk.new }
{
    has_small_counts(into);
    match lines.header(desk, into) {
        Ok(()) => read_record(lines, desk, into),
        Err(fault) => Err(fault),
    }
}

/// Reads a record, or the end.
fn read_record<D: Desk>(
    lines: &mut Lines,
    desk: &mut D,
    into: &mut OpenRow,
) -> Result<CertNext, CertFault>
    ensures record { IfOk result (λ next. OnRecord next (prepend_known lines.old.source (D.rest desk.old)
        ≡ prepend_known (open_record_text (open_record_of into.new))
        (prepend_known lines.new.source (D.rest desk.new)))) }
    ensures row { IfOk result (λ next. OnRecord next
        (IsOpenRow into.new.row.junctions into.new.row.tanks (open_record_of into.new))) }
    ensures line { IfOk result (λ next. OnRecord next
        (lines.new.line ≡ lines_on lines.old.line (1 + length into.new.row.vectors.list))) }
    ensures end { IfOk result (λ next. OnEnd next (λ periods finished. prepend_known lines.old.source (D.rest desk.old)
        ≡ where_told (D.rest desk.old) (end_line periods finished))) }
    ensures end_line { IfOk result (λ next. OnEnd next (λ periods finished. lines.new.line
        ≡ lines_on lines.old.line 1)) }
    ensures end_fits { IfOk result (λ next. OnEnd next (λ periods finished. periods < 2 ^ 32)) }
    ensures fault { IfErr result (IsOpenTextFault (open_header_of into.old) stand.Between lines.old.line
        (prepend_known lines.old.source (D.rest desk.old)) (D.counts desk.old) (D.counts desk.new)) }
    ensures no_record { IfErr result (λ fault. OnGrammar fault (LacksOpenRecord stand.Between (open_header_of into.old)
        (prepend_known lines.old.source (D.rest desk.old)))) }
    ensures header { open_header_of into.new ≡ open_header_of into.old }
    ensures steady { OnOk result (D.counts desk.new ≡ D.counts desk.old) }
    ensures stays { KeepsOutput D.files D.written D.printed D.target D.ready D.counts D.openings
        desk.old desk.new }
{
    match lines.period_or_end(desk) {
        Err(fault) => Err(fault),
        Ok(Next::Period(period)) => {
            into.row.number = period.number;
            into.row.time = period.time;
            into.late = period.late;
            into.shortest = period.shortest;
            into.row.length = period.longest;
            match lines.heads(
                desk,
                into.row.junctions as usize,
                into.row.vectors.as_mut_slice(),
            ) {
                Ok(()) => Ok(CertNext::Record),
                Err(fault) => Err(fault),
            }
        }
        Ok(Next::End(end)) => match lines.is_over(desk) {
            Ok(true) => Ok(CertNext::End {
                periods: end.periods,
                finished: end.finished,
            }),
            Ok(false) => Err(CertFault::Grammar {
                line: lines.line.saturating_add(1),
            }),
            Err(fault) => Err(fault),
        },
    }
}
