//! Reading a certificate text.

ghost use Rattle.std.specs.Prelude.{◌≡◌, ◌≢◌, ◌+◌, ◌<◌, ◌^◌, false, IsTrue, [], ◌∷◌, ◌++◌, length, take, drop};
ghost use Rattle.std.specs.Prelude.{slice_set, Some, All, IfOk, IfErr, OnOk};
ghost use Rattle.std.specs.Fmt.{signed_decimal};
ghost use Rattle.hyd_io.specs.DeskBytes.{where_told, prepend_known};
ghost use Rattle.hyd_io.specs.DeskCounts.{with_read_fault};
ghost use Rattle.hyd_io.specs.LeftAsItWas.{KeepsOutput};
ghost use Rattle.hyd_spec_certificates.specs.Certificate.{IsInBox};
ghost use Rattle.hyd_spec_certificates.specs.CertificateText.{IsRow, record_text, end_line};
ghost use Rattle.hyd_line_reader.specs.TextsWithoutLine.{HasNo};
ghost use Rattle.hyd_cert.specs.Lines.{Header, IsHeadLine, header_text};
ghost use Rattle.hyd_cert.specs.PeriodOrEndLine.{next_text, NextFits, IsPeriodOrEnd};
ghost use Rattle.hyd_cert.specs.PlacesOfLines.{First, Between, front_of, heads_in, head_text};
ghost use Rattle.hyd_cert.specs.Faults.{lines_on, IsFront, IsLineFault, IsHeadsFault, IsHeaderFault, IsTextFault};
ghost use Rattle.hyd_cert.specs.Faults.{LacksRecord, OnGrammar};
ghost use Rattle.hyd_cert.specs.ReaderView.{fresh, to_come, IsGoing, IsDone, place_of, lead, lead_lines, answer_of};
ghost use Rattle.hyd_cert.specs.ReaderView.{stand_of, OnRecord, OnEnd};
ghost use Rattle.hyd_cert.specs.ReaderWithFlows.{lead_as_read, part_behind, IsPartBehind, part_lines, IsFaultAsRead};
ghost use Rattle.hyd_cert.specs.ReaderWithFlows.{LacksRecordAsRead, HasNoFlows, OnRefusal, IsStuckAt};
ghost use Rattle.hyd_cert.specs.PlacesWithFlows.{Between as BeforeRecord};
ghost use Rattle.hyd_cert.specs.RecordView.{header_of, row_of};
ghost use Rattle.hyd_cert.specs.FlowPartView.{part_of};
ghost use Rattle.hyd_cert.specs.declared.answers_of_reader.Stand.TheVariants as stand;

use crate::answers_of_reader::{CertFault, CertNext, EndLine, Stand};
use crate::flow_part::FlowPart;
use crate::lines::{Next, head_line, is_header_line, period_or_end};
use crate::reader_with_flows::{read_entry, read_first_entry};
use crate::record::{Record, has_small_counts};
use crate::writer::{front_of, is_header_of};
use hyd_io::Desk;
use hyd_line_reader::Source;
use std::marker::Model;

/// The lines of a text, and how many were passed.
#[derive(Drop)]
pub(crate) struct Lines {
    pub(crate) source: Source,
    pub(crate) line: u64,
}

/// Writes the head at its place.
pub(crate) fn store(into: &mut [i64], i: usize, head: i64)
    requires { i < length into.old }
    ensures { into.new ≡ slice_set into.old i head }
{
    into[i] = head;
}

impl Lines {
    /// The length of the next line.
    pub(crate) fn next_line<D: Desk>(&mut self, desk: &mut D) -> Result<usize, CertFault>
        ensures same { OnOk result (prepend_known self.new.source (D.rest desk.new)
            ≡ prepend_known self.old.source (D.rest desk.old)) }
        ensures some { IfOk result (λ n. self.new.source
            ≡ take n self.new.source ++ (10 ∷ drop (n + 1) self.new.source)) }
        ensures within { IfOk result (λ n. n < length self.new.source) }
        ensures short { IfOk result (λ n. n < 64) }
        ensures first { IfOk result (λ n. HasNo 10 (take n self.new.source)) }
        ensures fault { IfErr result (λ f. IsLineFault (λ line. HasNo 10 line × (length line < 64)) self.old.line
            (prepend_known self.old.source (D.rest desk.old)) (D.counts desk.old) (D.counts desk.new) f) }
        ensures line { self.new.line ≡ self.old.line }
        ensures steady { OnOk result (D.counts desk.new ≡ D.counts desk.old) }
        ensures stays { KeepsOutput D.files D.written D.printed D.target D.ready D.counts D.openings
            desk.old desk.new }
    {
        match self.source.line(desk) {
            Err(_) => Err(CertFault::Read),
            Ok(None) => Err(CertFault::Grammar {
                line: self.line.saturating_add(1),
            }),
            Ok(Some(n)) => Ok(n),
        }
    }

    /// Passes over a line of that length.
    pub(crate) fn pass(&mut self, n: usize)
        requires { n < length self.old.source }
        ensures source { self.new.source ≡ drop (n + 1) self.old.source }
        ensures line { self.new.line ≡ lines_on self.old.line 1 }
    {
        self.source.skip_line(n);
        self.line = self.line.saturating_add(1);
    }

    /// The head of the next line, which begins with `front`.
    pub(crate) fn head<D: Desk>(&mut self, desk: &mut D, front: &[u8]) -> Result<i64, CertFault>
        requires { IsFront front.now }
        ensures text { IfOk result (λ h. prepend_known self.old.source (D.rest desk.old)
            ≡ prepend_known (front.now ++ (signed_decimal h ++ (10 ∷ [])))
            (prepend_known self.new.source (D.rest desk.new))) }
        ensures in_box { IfOk result IsInBox }
        ensures line { OnOk result (self.new.line ≡ lines_on self.old.line 1) }
        ensures fault { IfErr result (λ f. IsLineFault (IsHeadLine front.now) self.old.line
            (prepend_known self.old.source (D.rest desk.old)) (D.counts desk.old) (D.counts desk.new) f) }
        ensures steady { OnOk result (D.counts desk.new ≡ D.counts desk.old) }
        ensures stays { KeepsOutput D.files D.written D.printed D.target D.ready D.counts D.openings
            desk.old desk.new }
    {
        let n = self.next_line(desk)?;
        let Some(head) = head_line(&self.source.held()[..n], front) else {
            return Err(CertFault::Grammar {
                line: self.line.saturating_add(1),
            });
        };
        self.pass(n);
        Ok(head)
    }

    /// The heads of a record for so many junctions, the vectors one after another.
    pub(crate) fn heads<D: Desk>(
        &mut self,
        desk: &mut D,
        junctions: usize,
        into: &mut [i64],
    ) -> Result<(), CertFault>
        requires some { 0 < length into.old → 0 < junctions }
        ensures text { OnOk result (prepend_known self.old.source (D.rest desk.old)
            ≡ prepend_known (head_text junctions 0 into.new) (prepend_known self.new.source (D.rest desk.new))) }
        ensures in_box { OnOk result (All IsInBox into.new) }
        ensures line { OnOk result (self.new.line ≡ lines_on self.old.line (length into.new)) }
        ensures fault { IfErr result (λ f. (header : Header) → header.junctions ≡ junctions
            → length into.old ≡ heads_in junctions header.tanks → IsHeadsFault header self.old.line
            (prepend_known self.old.source (D.rest desk.old)) (D.counts desk.old) (D.counts desk.new) f) }
        ensures steady { OnOk result (D.counts desk.new ≡ D.counts desk.old) }
        ensures stays { KeepsOutput D.files D.written D.printed D.target D.ready D.counts D.openings
            desk.old desk.new }
    {
        for i in 0..into.len() {
            let head = self.head(desk, front_of(i / junctions))?;
            store(into, i, head);
        }
        Ok(())
    }

    /// Passes over the header line, which is next and has to be the record's.
    fn header<D: Desk>(&mut self, desk: &mut D, row: &Record) -> Result<(), CertFault>
        ensures text { OnOk result (prepend_known self.old.source (D.rest desk.old)
            ≡ prepend_known (header_text (header_of row.now)) (prepend_known self.new.source (D.rest desk.new))) }
        ensures line { OnOk result (self.new.line ≡ lines_on self.old.line 1) }
        ensures fault { IfErr result (IsHeaderFault (header_of row.now) self.old.line
            (prepend_known self.old.source (D.rest desk.old)) (D.counts desk.old) (D.counts desk.new)) }
        ensures steady { OnOk result (D.counts desk.new ≡ D.counts desk.old) }
        ensures stays { KeepsOutput D.files D.written D.printed D.target D.ready D.counts D.openings
            desk.old desk.new }
    {
        let n = self.next_line(desk)?;
        let line = &self.source.held()[..n];
        if !is_header_line(line) {
            return Err(CertFault::Grammar {
                line: self.line.saturating_add(1),
            });
        }
        if !is_header_of(line, row) {
            return Err(CertFault::Count {
                line: self.line.saturating_add(1),
            });
        }
        self.pass(n);
        Ok(())
    }

    /// The PERIOD line or the END line, one of which is next.
    fn period_or_end<D: Desk>(&mut self, desk: &mut D) -> Result<Next, CertFault>
        ensures text { IfOk result (λ next. prepend_known self.old.source (D.rest desk.old)
            ≡ prepend_known (next_text next) (prepend_known self.new.source (D.rest desk.new))) }
        ensures fits { IfOk result NextFits }
        ensures line { OnOk result (self.new.line ≡ lines_on self.old.line 1) }
        ensures fault { IfErr result (λ f. IsLineFault IsPeriodOrEnd self.old.line
            (prepend_known self.old.source (D.rest desk.old)) (D.counts desk.old) (D.counts desk.new) f) }
        ensures steady { OnOk result (D.counts desk.new ≡ D.counts desk.old) }
        ensures stays { KeepsOutput D.files D.written D.printed D.target D.ready D.counts D.openings
            desk.old desk.new }
    {
        let n = self.next_line(desk)?;
        let Some(next) = period_or_end(&self.source.held()[..n]) else {
            return Err(CertFault::Grammar {
                line: self.line.saturating_add(1),
            });
        };
        self.pass(n);
        Ok(next)
    }

    /// Whether the text is at its end.
    fn is_over<D: Desk>(&mut self, desk: &mut D) -> Result<bool, CertFault>
        ensures over { IfOk result (λ over. IsTrue over → prepend_known self.old.source (D.rest desk.old)
            ≡ where_told (D.rest desk.old) []) }
        ensures more { IfOk result (λ over. over ≡ false → prepend_known self.old.source (D.rest desk.old) ≢ Some []) }
        ensures fault { IfErr result (λ f. (f ≡ CertFault.Read)
            × (D.counts desk.new ≡ with_read_fault (D.counts desk.old))) }
        ensures line { self.new.line ≡ self.old.line }
        ensures steady { OnOk result (D.counts desk.new ≡ D.counts desk.old) }
        ensures stays { KeepsOutput D.files D.written D.printed D.target D.ready D.counts D.openings
            desk.old desk.new }
    {
        match self.source.is_over(desk) {
            Ok(over) => Ok(over),
            Err(_) => Err(CertFault::Read),
        }
    }
}

/// A reader of a certificate text. Contracts see where it stands, how many lines it passed, what it read ahead, and
/// whether it read the header line of a text with flows.
#[derive(Drop)]
pub struct CertReader {
    lines: Lines,
    stand: Stand,
    flows: bool,
}

impl Model for CertReader {
    ghost use Rattle.hyd_cert.specs.ReaderView.{ReaderView};

    ghost Value = { ReaderView };

    ghost view = { λ r. record { stand = r.stand; line = r.lines.line; ahead = r.lines.source; flows = r.flows } };
}

impl CertReader {
    /// A reader that has read nothing and has no fault.
    pub fn new() -> CertReader
        ensures { result ≡ fresh }
    {
        CertReader {
            lines: Lines {
                source: Source::new(),
                line: 0,
            },
            stand: Stand::First,
            flows: false,
        }
    }

    /// A reader of a text whose first bytes stand in the source already: it has passed no line and has no fault.
    pub fn behind(source: Source) -> CertReader
        ensures { result ≡ record fresh { ahead = source } }
    {
        CertReader {
            lines: Lines { source, line: 0 },
            stand: Stand::First,
            flows: false,
        }
    }

    /// How many lines it passed. It stays at 2^64 - 1 once it is there.
    pub fn line(&self) -> u64
        ensures { result ≡ self.now.line }
    {
        self.lines.line
    }

    /// The next record, or the end of the text, of a text without flows. The text is that of the file which is being
    /// read, and its header line has to be that of `into`: its version and its counts.
    ///
    /// - `Read`: a read failed, and the read faults rose.
    /// - `Grammar`: at the first line that can't stand where it does, the end of the text counted in. No whole record
    ///   stands before it.
    /// - `Count`: at a first line that is the header line of another version or of other counts.
    ///
    /// After a fault each call answers it again, and after an end that end. What `into` holds is then open, but for its
    /// version and counts.
    pub fn next<D: Desk>(&mut self, desk: &mut D, into: &mut Record) -> Result<CertNext, CertFault>
        ensures record { IsGoing self.old.stand → IfOk result (λ next. OnRecord next
            (to_come self.old (D.rest desk.old) ≡ prepend_known (lead self.old.stand (header_of into.new)
            ++ record_text (row_of into.new)) (to_come self.new (D.rest desk.new)))) }
        ensures row { IsGoing self.old.stand → IfOk result (λ next. OnRecord next
            (IsRow into.new.junctions into.new.tanks (row_of into.new))) }
        ensures line { IsGoing self.old.stand → IfOk result (λ next. OnRecord next
            (self.new.line ≡ lines_on self.old.line (lead_lines self.old.stand + length into.new.vectors.list))) }
        ensures end { IsGoing self.old.stand → IfOk result (λ next. OnEnd next (λ periods finished.
            to_come self.old (D.rest desk.old) ≡ where_told (D.rest desk.old)
            (lead self.old.stand (header_of into.new) ++ end_line periods finished))) }
        ensures end_fits { IsGoing self.old.stand
            → IfOk result (λ next. OnEnd next (λ periods finished. periods < 2 ^ 32)) }
        ensures fault { IsGoing self.old.stand → IfErr result (IsTextFault (header_of into.old)
            (place_of self.old.stand) self.old.line
            (to_come self.old (D.rest desk.old)) (D.counts desk.old) (D.counts desk.new)) }
        ensures no_record { IsGoing self.old.stand → IfErr result (λ fault. OnGrammar fault
            (LacksRecord self.old.stand (header_of into.old) (to_come self.old (D.rest desk.old)))) }
        ensures stand { IsGoing self.old.stand → self.new.stand ≡ stand_of result }
        ensures again { IsDone self.old.stand
            → (result ≡ answer_of self.old.stand) × (self.new ≡ self.old) × (desk.new ≡ desk.old) }
        ensures header { header_of into.new ≡ header_of into.old }
        ensures flows { self.new.flows ≡ self.old.flows }
        ensures steady { OnOk result (D.counts desk.new ≡ D.counts desk.old) }
        ensures stays { KeepsOutput D.files D.written D.printed D.target D.ready D.counts D.openings
            desk.old desk.new }
    {
        let read = match self.stand {
            Stand::Stuck(fault) => return Err(fault),
            Stand::Over(end) => {
                return Ok(CertNext::End {
                    periods: end.periods,
                    finished: end.finished,
                });
            }
            Stand::First => read_first(&mut self.lines, desk, into),
            Stand::Between => read_record(&mut self.lines, desk, into),
        };
        self.stand = stand_after(&read);
        read
    }

    /// The next record with the part behind it, or the end of the text, of a text of any version. The text is that of
    /// the file which is being read, and its header line has to have the counts of `into`, and its version where it
    /// isn't 3. A text of version 3 has a part behind each record; else `part` names no link. It was opened for the
    /// record's junctions. The faults are those of `next`.
    ///
    /// After a fault each call answers it again, and after an end that end. What `into` and `part` hold is then open,
    /// but for the counts, and the version of `into`.
    pub fn next_with<D: Desk>(
        &mut self,
        desk: &mut D,
        into: &mut Record,
        part: &mut FlowPart,
    ) -> Result<CertNext, CertFault>
        requires { part.old.junctions ≡ into.old.junctions }
        ensures record { IsGoing self.old.stand → IfOk result (λ next. OnRecord next
            (to_come self.old (D.rest desk.old)
            ≡ prepend_known (lead_as_read self.new.flows self.old.stand (header_of into.new)
            ++ (record_text (row_of into.new) ++ part_behind self.new.flows (part_of part.new)))
            (to_come self.new (D.rest desk.new)))) }
        ensures row { IsGoing self.old.stand → IfOk result (λ next. OnRecord next
            (IsRow into.new.junctions into.new.tanks (row_of into.new))) }
        ensures part { IsGoing self.old.stand → IfOk result (λ next. OnRecord next
            (IsPartBehind self.new.flows into.new.junctions (part_of part.new))) }
        ensures line { IsGoing self.old.stand → IfOk result (λ next. OnRecord next
            (self.new.line ≡ lines_on self.old.line (lead_lines self.old.stand + length into.new.vectors.list
            + part_lines self.new.flows into.new.junctions (part_of part.new)))) }
        ensures end { IsGoing self.old.stand → IfOk result (λ next. OnEnd next (λ periods finished.
            to_come self.old (D.rest desk.old) ≡ where_told (D.rest desk.old)
            (lead_as_read self.new.flows self.old.stand (header_of into.new) ++ end_line periods finished))) }
        ensures end_line { IsGoing self.old.stand → IfOk result (λ next. OnEnd next (λ periods finished.
            self.new.line ≡ lines_on self.old.line (lead_lines self.old.stand))) }
        ensures end_fits { IsGoing self.old.stand
            → IfOk result (λ next. OnEnd next (λ periods finished. periods < 2 ^ 32)) }
        ensures fault { IsGoing self.old.stand → IfErr result (IsFaultAsRead self.new.flows (header_of into.old)
            self.old.stand self.old.line
            (to_come self.old (D.rest desk.old)) (D.counts desk.old) (D.counts desk.new)) }
        ensures no_record { IsGoing self.old.stand → IfErr result (λ fault. OnGrammar fault
            (LacksRecordAsRead self.new.flows self.old.stand (header_of into.old)
            (to_come self.old (D.rest desk.old)))) }
        ensures no_flows { self.old.stand ≡ stand.First → self.new.flows ≡ false → IfErr result (λ fault.
            OnRefusal fault (HasNoFlows (header_of into.old) (to_come self.old (D.rest desk.old)))) }
        ensures same_flows { self.old.stand ≢ stand.First → self.new.flows ≡ self.old.flows }
        ensures stand { IsGoing self.old.stand → self.new.stand ≡ stand_of result }
        ensures again { IsDone self.old.stand
            → (result ≡ answer_of self.old.stand) × (self.new ≡ self.old) × (desk.new ≡ desk.old) }
        ensures header { header_of into.new ≡ header_of into.old }
        ensures junctions { part.new.junctions ≡ part.old.junctions }
        ensures steady { OnOk result (D.counts desk.new ≡ D.counts desk.old) }
        ensures stays { KeepsOutput D.files D.written D.printed D.target D.ready D.counts D.openings
            desk.old desk.new }
    {
        let read = match self.stand {
            Stand::Stuck(fault) => return Err(fault),
            Stand::Over(end) => {
                return Ok(CertNext::End {
                    periods: end.periods,
                    finished: end.finished,
                });
            }
            Stand::First => read_first_entry(&mut self.lines, desk, into, part, &mut self.flows),
            Stand::Between => read_entry(&mut self.lines, desk, into, part, self.flows),
        };
        self.stand = stand_after(&read);
        read
    }
}

/// Where the reader stands after it answered so.
fn stand_after(read: &Result<CertNext, CertFault>) -> Stand
    ensures { result ≡ stand_of read.now }
{
    match *read {
        Ok(CertNext::Record) => Stand::Between,
        Ok(CertNext::End { periods, finished }) => Stand::Over(EndLine { periods, finished }),
        Err(fault) => Stand::Stuck(fault),
    }
}

/// Reads the header line, and then a record or the end.
fn read_first<D: Desk>(
    lines: &mut Lines,
    desk: &mut D,
    into: &mut Record,
) -> Result<CertNext, CertFault>
    ensures record { IfOk result (λ next. OnRecord next (prepend_known lines.old.source (D.rest desk.old)
        ≡ prepend_known (header_text (header_of into.new) ++ record_text (row_of into.new))
        (prepend_known lines.new.source (D.rest desk.new)))) }
    ensures row { IfOk result (λ next. OnRecord next (IsRow into.new.junctions into.new.tanks (row_of into.new))) }
    ensures line { IfOk result (λ next. OnRecord next
        (lines.new.line ≡ lines_on lines.old.line (2 + length into.new.vectors.list))) }
    ensures end { IfOk result (λ next. OnEnd next (λ periods finished. prepend_known lines.old.source (D.rest desk.old)
        ≡ where_told (D.rest desk.old) (header_text (header_of into.new) ++ end_line periods finished))) }
    ensures end_fits { IfOk result (λ next. OnEnd next (λ periods finished. periods < 2 ^ 32)) }
    ensures fault { IfErr result (IsTextFault (header_of into.old) First lines.old.line
        (prepend_known lines.old.source (D.rest desk.old)) (D.counts desk.old) (D.counts desk.new)) }
    ensures no_record { IfErr result (λ fault. OnGrammar fault
        (LacksRecord stand.First (header_of into.old) (prepend_known lines.old.source (D.rest desk.old)))) }
    ensures header { header_of into.new ≡ header_of into.old }
    ensures steady { OnOk result (D.counts desk.new ≡ D.counts desk.old) }
    ensures stays { KeepsOutput D.files D.written D.printed D.target D.ready D.counts D.openings
        desk.old desk.new }
{
    has_small_counts(into);
    match lines.header(desk, into) {
        Ok(()) => read_record(lines, desk, into),
        Err(fault) => Err(fault),
    }
}

/// Reads a record, or the end.
pub(crate) fn read_record<D: Desk>(
    lines: &mut Lines,
    desk: &mut D,
    into: &mut Record,
) -> Result<CertNext, CertFault>
    ensures record { IfOk result (λ next. OnRecord next (prepend_known lines.old.source (D.rest desk.old)
        ≡ prepend_known (record_text (row_of into.new)) (prepend_known lines.new.source (D.rest desk.new)))) }
    ensures row { IfOk result (λ next. OnRecord next (IsRow into.new.junctions into.new.tanks (row_of into.new))) }
    ensures line { IfOk result (λ next. OnRecord next
        (lines.new.line ≡ lines_on lines.old.line (1 + length into.new.vectors.list))) }
    ensures end { IfOk result (λ next. OnEnd next (λ periods finished. prepend_known lines.old.source (D.rest desk.old)
        ≡ where_told (D.rest desk.old) (end_line periods finished))) }
    ensures end_line { IfOk result (λ next. OnEnd next (λ periods finished. lines.new.line
        ≡ lines_on lines.old.line 1)) }
    ensures end_fits { IfOk result (λ next. OnEnd next (λ periods finished. periods < 2 ^ 32)) }
    ensures fault { IfErr result (IsTextFault (header_of into.old) Between lines.old.line
        (prepend_known lines.old.source (D.rest desk.old)) (D.counts desk.old) (D.counts desk.new)) }
    ensures stuck { IfErr result (IsStuckAt (header_of into.old) BeforeRecord lines.old.line
        (prepend_known lines.old.source (D.rest desk.old)) (D.counts desk.old) (D.counts desk.new)) }
    ensures no_record { IfErr result (λ fault. OnGrammar fault
        (LacksRecord stand.Between (header_of into.old) (prepend_known lines.old.source (D.rest desk.old)))) }
    ensures header { header_of into.new ≡ header_of into.old }
    ensures steady { OnOk result (D.counts desk.new ≡ D.counts desk.old) }
    ensures stays { KeepsOutput D.files D.written D.printed D.target D.ready D.counts D.openings
        desk.old desk.new }
{
    match lines.period_or_end(desk) {
        Err(fault) => Err(fault),
        Ok(Next::Period(period)) => {
            into.number = period.number;
            into.time = period.time;
            into.length = period.length;
            match lines.heads(desk, into.junctions as usize, into.vectors.as_mut_slice()) {
                Ok(()) => Ok(CertNext::Record),
                Err(fault) => Err(fault),
            }
        }
        Ok(Next::End(end)) => match lines.is_over(desk) {
            Ok(true) => Ok(CertNext::End {
                periods: end.periods,
                finished: end.finished,
            }),
            Ok(false) => Err(CertFault::Grammar {
                line: lines.line.saturating_add(1),
            }),
            Err(fault) => Err(fault),
        },
    }
}
