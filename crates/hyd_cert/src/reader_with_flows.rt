//! Reading a certificate text with flows.

ghost use Rattle.std.specs.Prelude.{◌≡◌, ◌≢◌, ℕ, ◌+◌, ◌*◌, ◌<◌, ◌≤◌, ◌^◌, false, true, IsTrue, [], ◌∷◌, ◌++◌, length};
ghost use Rattle.std.specs.Prelude.{Bool, map, take, All, IfOk, IfErr, OnOk};
ghost use Rattle.hyd_io.specs.DeskBytes.{where_told, prepend_known};
ghost use Rattle.hyd_io.specs.LeftAsItWas.{KeepsOutput};
ghost use Rattle.hyd_spec.specs.Lists.{joined};
ghost use Rattle.hyd_spec_certificates.specs.Certificate.{IsInBox};
ghost use Rattle.hyd_spec_certificates.specs.CertificateText.{IsRow, record_text, end_line};
ghost use Rattle.hyd_spec_flows.specs.FlowTexts.{IsNamed, IsPart, named_text, part_text, flows_line, name_line};
ghost use Rattle.hyd_spec_flows.specs.FlowTexts.{most_names};
ghost use Rattle.hyd_cert.specs.Lines.{Header, header_text};
ghost use Rattle.hyd_cert.specs.Faults.{lines_on, IsFront, IsLineFault, OnGrammar};
ghost use Rattle.hyd_cert.specs.PlacesWithFlows.{Flows, Name, IsFlowsLine, IsNameLine, held_lines, held_text};
ghost use Rattle.hyd_cert.specs.PlacesWithFlows.{behind_link, held_after};
ghost use Rattle.hyd_cert.specs.ReaderWithFlows.{as_read, lead_as_read, part_behind, IsPartBehind, part_lines};
ghost use Rattle.hyd_cert.specs.ReaderWithFlows.{IsStuckAt, IsVectorFault, IsHeaderFaultAsRead, IsFaultAsRead};
ghost use Rattle.hyd_cert.specs.ReaderWithFlows.{HasNoFlows};
ghost use Rattle.hyd_cert.specs.ReaderWithFlows.{OnRefusal, LacksRecordAsRead};
ghost use Rattle.hyd_cert.specs.ReaderView.{OnRecord, OnEnd, lead_lines};
ghost use Rattle.hyd_cert.specs.RecordView.{header_of, row_of};
ghost use Rattle.hyd_cert.specs.FlowPartView.{named_of, links_in, part_of};
ghost use Rattle.hyd_cert.specs.declared.named_vectors.NamedVectors.{NamedVectors};
ghost use Rattle.hyd_cert.specs.declared.answers_of_reader.Stand.TheVariants as stand;

use crate::answers_of_reader::{CertFault, CertNext};
use crate::flow_part::FlowPart;
use crate::lines::is_header_line;
use crate::lines_with_flows::{flows_line, is_flows_header_line, name_line};
use crate::named_vectors::NamedVectors;
use crate::reader::{Lines, read_record, store};
use crate::record::{Record, has_small_counts};
use crate::writer::is_header_of;
use crate::writer_with_flows::is_flows_header_of;
use hyd_io::Desk;

impl Lines {
    /// Passes over the header line, which is next and has to have the record's counts, and its version where it isn't
    /// 3. Tells whether it is 3.
    fn any_header<D: Desk>(
        &mut self,
        desk: &mut D,
        row: &Record,
        flows: &mut bool,
    ) -> Result<(), CertFault>
        ensures text { OnOk result (prepend_known self.old.source (D.rest desk.old)
            ≡ prepend_known (header_text (as_read flows.new (header_of row.now)))
            (prepend_known self.new.source (D.rest desk.new))) }
        ensures line { OnOk result (self.new.line ≡ lines_on self.old.line 1) }
        ensures fault { IfErr result (IsHeaderFaultAsRead flows.new (header_of row.now) self.old.line
            (prepend_known self.old.source (D.rest desk.old)) (D.counts desk.old) (D.counts desk.new)) }
        ensures steady { OnOk result (D.counts desk.new ≡ D.counts desk.old) }
        ensures stays { KeepsOutput D.files D.written D.printed D.target D.ready D.counts D.openings
            desk.old desk.new }
    {
        *flows = false;
        let n = self.next_line(desk)?;
        let line = &self.source.held()[..n];
        if is_flows_header_line(line) {
            *flows = true;
            if !is_flows_header_of(line, row) {
                return Err(CertFault::Count {
                    line: self.line.saturating_add(1),
                });
            }
            self.pass(n);
            return Ok(());
        }
        if !is_header_line(line) {
            return Err(CertFault::Grammar {
                line: self.line.saturating_add(1),
            });
        }
        if !is_header_of(line, row) {
            return Err(CertFault::Count {
                line: self.line.saturating_add(1),
            });
        }
        self.pass(n);
        Ok(())
    }

    /// How many links the FLOWS line says, which is next.
    fn flows<D: Desk>(&mut self, desk: &mut D) -> Result<usize, CertFault>
        ensures text { IfOk result (λ count. prepend_known self.old.source (D.rest desk.old)
            ≡ prepend_known (flows_line count) (prepend_known self.new.source (D.rest desk.new))) }
        ensures fits { IfOk result (λ count. (0 < count) × (count < 17)) }
        ensures line { OnOk result (self.new.line ≡ lines_on self.old.line 1) }
        ensures fault { IfErr result (λ f. IsLineFault (λ line. (count : ℕ) × IsFlowsLine count line) self.old.line
            (prepend_known self.old.source (D.rest desk.old)) (D.counts desk.old) (D.counts desk.new) f) }
        ensures steady { OnOk result (D.counts desk.new ≡ D.counts desk.old) }
        ensures stays { KeepsOutput D.files D.written D.printed D.target D.ready D.counts D.openings
            desk.old desk.new }
    {
        let n = self.next_line(desk)?;
        let Some(count) = flows_line(&self.source.held()[..n]) else {
            return Err(CertFault::Grammar {
                line: self.line.saturating_add(1),
            });
        };
        self.pass(n);
        Ok(count)
    }

    /// The number of the link that the LINK line says, which is next.
    fn name<D: Desk>(&mut self, desk: &mut D) -> Result<u32, CertFault>
        ensures text { IfOk result (λ number. prepend_known self.old.source (D.rest desk.old)
            ≡ prepend_known (name_line number) (prepend_known self.new.source (D.rest desk.new))) }
        ensures fits { IfOk result (λ number. number < 2 ^ 32) }
        ensures line { OnOk result (self.new.line ≡ lines_on self.old.line 1) }
        ensures fault { IfErr result (λ f. IsLineFault (λ line. (number : ℕ) × IsNameLine number line) self.old.line
            (prepend_known self.old.source (D.rest desk.old)) (D.counts desk.old) (D.counts desk.new) f) }
        ensures steady { OnOk result (D.counts desk.new ≡ D.counts desk.old) }
        ensures stays { KeepsOutput D.files D.written D.printed D.target D.ready D.counts D.openings
            desk.old desk.new }
    {
        let n = self.next_line(desk)?;
        let Some(number) = name_line(&self.source.held()[..n]) else {
            return Err(CertFault::Grammar {
                line: self.line.saturating_add(1),
            });
        };
        self.pass(n);
        Ok(number)
    }

    /// The heads of a vector, each behind `front`.
    fn vector<D: Desk>(
        &mut self,
        desk: &mut D,
        front: &[u8],
        into: &mut [i64],
    ) -> Result<(), CertFault>
        requires { IsFront front.now }
        ensures text { OnOk result (prepend_known self.old.source (D.rest desk.old)
            ≡ prepend_known (held_lines front.now into.new) (prepend_known self.new.source (D.rest desk.new))) }
        ensures in_box { OnOk result (All IsInBox into.new) }
        ensures line { OnOk result (self.new.line ≡ lines_on self.old.line (length into.new)) }
        ensures fault { IfErr result (IsVectorFault front.now (length into.old) self.old.line
            (prepend_known self.old.source (D.rest desk.old)) (D.counts desk.old) (D.counts desk.new)) }
        ensures steady { OnOk result (D.counts desk.new ≡ D.counts desk.old) }
        ensures stays { KeepsOutput D.files D.written D.printed D.target D.ready D.counts D.openings
            desk.old desk.new }
    {
        for i in 0..into.len() {
            let head = self.head(desk, front)?;
            store(into, i, head);
        }
        Ok(())
    }
}

/// Reads the two vectors of a link.
fn read_vectors<D: Desk>(
    lines: &mut Lines,
    desk: &mut D,
    junctions: usize,
    heads: &mut [i64],
) -> Result<(), CertFault>
    requires { length heads.old ≡ junctions + junctions }
    ensures text { OnOk result (prepend_known lines.old.source (D.rest desk.old)
        ≡ prepend_known (held_text junctions heads.new) (prepend_known lines.new.source (D.rest desk.new))) }
    ensures in_box { OnOk result (All IsInBox heads.new) }
    ensures line { OnOk result (lines.new.line ≡ lines_on lines.old.line (length heads.new)) }
    ensures stuck { IfErr result (λ f. (header : Header) (left : ℕ) → header.junctions ≡ junctions
        → IsStuckAt header (held_after header.junctions left 0) lines.old.line
        (prepend_known lines.old.source (D.rest desk.old)) (D.counts desk.old) (D.counts desk.new) f) }
    ensures some { IfErr result (λ f. OnGrammar f (0 < junctions)) }
    ensures steady { OnOk result (D.counts desk.new ≡ D.counts desk.old) }
    ensures stays { KeepsOutput D.files D.written D.printed D.target D.ready D.counts D.openings
        desk.old desk.new }
{
    let (upper, lower) = heads.split_at_mut(junctions);
    match lines.vector(desk, b"FU ", upper) {
        Ok(()) => lines.vector(desk, b"FL ", lower),
        Err(fault) => Err(fault),
    }
}

/// Reads a named link: its number and its vectors.
fn read_link<D: Desk>(
    lines: &mut Lines,
    desk: &mut D,
    into: &mut NamedVectors,
) -> Result<(), CertFault>
    ensures text { OnOk result (prepend_known lines.old.source (D.rest desk.old)
        ≡ prepend_known (named_text (named_of into.new)) (prepend_known lines.new.source (D.rest desk.new))) }
    ensures named { OnOk result (IsNamed into.new.junctions (named_of into.new)) }
    ensures line { OnOk result (lines.new.line ≡ lines_on lines.old.line (1 + 2 * into.new.junctions)) }
    ensures stuck { IfErr result (λ f. (header : Header) (left : ℕ) → header.junctions ≡ into.old.junctions
        → IsStuckAt header (Name left) lines.old.line
        (prepend_known lines.old.source (D.rest desk.old)) (D.counts desk.old) (D.counts desk.new) f) }
    ensures junctions { into.new.junctions ≡ into.old.junctions }
    ensures steady { OnOk result (D.counts desk.new ≡ D.counts desk.old) }
    ensures stays { KeepsOutput D.files D.written D.printed D.target D.ready D.counts D.openings
        desk.old desk.new }
{
    let number = lines.name(desk)?;
    into.link = number;
    read_vectors(
        lines,
        desk,
        into.junctions as usize,
        into.heads.as_mut_slice(),
    )
}

/// Reads so many links into the first places.
fn read_links<D: Desk>(
    lines: &mut Lines,
    desk: &mut D,
    count: usize,
    into: &mut [NamedVectors],
) -> Result<(), CertFault>
    requires { count ≤ length into.old }
    ensures text { OnOk result (prepend_known lines.old.source (D.rest desk.old)
        ≡ prepend_known (joined (map named_text (links_in (take count into.new))))
        (prepend_known lines.new.source (D.rest desk.new))) }
    ensures named { (n : ℕ) → All (λ (one : NamedVectors). one.junctions ≡ n) into.old
        → OnOk result (All (IsNamed n) (links_in (take count into.new))) }
    ensures line { (n : ℕ) → All (λ (one : NamedVectors). one.junctions ≡ n) into.old
        → OnOk result (lines.new.line ≡ lines_on lines.old.line (count * (1 + 2 * n))) }
    ensures stuck { (header : Header) → All (λ (one : NamedVectors). one.junctions ≡ header.junctions) into.old
        → IfErr result (λ f. IsStuckAt header (behind_link count) lines.old.line
        (prepend_known lines.old.source (D.rest desk.old)) (D.counts desk.old) (D.counts desk.new) f) }
    ensures junctions { (n : ℕ) → All (λ (one : NamedVectors). one.junctions ≡ n) into.old
        → All (λ (one : NamedVectors). one.junctions ≡ n) into.new }
    ensures steady { OnOk result (D.counts desk.new ≡ D.counts desk.old) }
    ensures stays { KeepsOutput D.files D.written D.printed D.target D.ready D.counts D.openings
        desk.old desk.new }
{
    for i in 0..count {
        read_link(lines, desk, &mut into[i])?;
    }
    Ok(())
}

/// Reads the part behind a record.
fn read_part<D: Desk>(lines: &mut Lines, desk: &mut D, into: &mut FlowPart) -> Result<(), CertFault>
    ensures text { OnOk result (prepend_known lines.old.source (D.rest desk.old)
        ≡ prepend_known (part_text (part_of into.new)) (prepend_known lines.new.source (D.rest desk.new))) }
    ensures part { OnOk result (IsPart into.new.junctions (part_of into.new)) }
    ensures line { OnOk result (lines.new.line
        ≡ lines_on lines.old.line (part_lines true into.new.junctions (part_of into.new))) }
    ensures stuck { IfErr result (λ f. (header : Header) → header.junctions ≡ into.old.junctions
        → IsStuckAt header Flows lines.old.line
        (prepend_known lines.old.source (D.rest desk.old)) (D.counts desk.old) (D.counts desk.new) f) }
    ensures junctions { into.new.junctions ≡ into.old.junctions }
    ensures steady { OnOk result (D.counts desk.new ≡ D.counts desk.old) }
    ensures stays { KeepsOutput D.files D.written D.printed D.target D.ready D.counts D.openings
        desk.old desk.new }
{
    match lines.flows(desk) {
        Ok(count) => {
            into.count = count;
            read_links(lines, desk, count, into.named.as_mut_slice())
        }
        Err(fault) => Err(fault),
    }
}

/// Reads a record and the part behind it, where the text has flows, or the end.
pub(crate) fn read_entry<D: Desk>(
    lines: &mut Lines,
    desk: &mut D,
    into: &mut Record,
    part: &mut FlowPart,
    flows: bool,
) -> Result<CertNext, CertFault>
    requires { part.old.junctions ≡ into.old.junctions }
    ensures record { IfOk result (λ next. OnRecord next (prepend_known lines.old.source (D.rest desk.old)
        ≡ prepend_known (record_text (row_of into.new) ++ part_behind flows (part_of part.new))
        (prepend_known lines.new.source (D.rest desk.new)))) }
    ensures row { IfOk result (λ next. OnRecord next (IsRow into.new.junctions into.new.tanks (row_of into.new))) }
    ensures part { IfOk result (λ next. OnRecord next (IsPartBehind flows into.new.junctions (part_of part.new))) }
    ensures line { IfOk result (λ next. OnRecord next (lines.new.line ≡ lines_on lines.old.line
        (1 + length into.new.vectors.list + part_lines flows into.new.junctions (part_of part.new)))) }
    ensures end { IfOk result (λ next. OnEnd next (λ periods finished. prepend_known lines.old.source (D.rest desk.old)
        ≡ where_told (D.rest desk.old) (end_line periods finished))) }
    ensures end_line { IfOk result (λ next. OnEnd next (λ periods finished. lines.new.line
        ≡ lines_on lines.old.line 1)) }
    ensures end_fits { IfOk result (λ next. OnEnd next (λ periods finished. periods < 2 ^ 32)) }
    ensures fault { IfErr result (IsFaultAsRead flows (header_of into.old) stand.Between lines.old.line
        (prepend_known lines.old.source (D.rest desk.old)) (D.counts desk.old) (D.counts desk.new)) }
    ensures no_record { IfErr result (λ fault. OnGrammar fault (LacksRecordAsRead flows stand.Between
        (header_of into.old) (prepend_known lines.old.source (D.rest desk.old)))) }
    ensures header { header_of into.new ≡ header_of into.old }
    ensures junctions { part.new.junctions ≡ part.old.junctions }
    ensures steady { OnOk result (D.counts desk.new ≡ D.counts desk.old) }
    ensures stays { KeepsOutput D.files D.written D.printed D.target D.ready D.counts D.openings
        desk.old desk.new }
{
    part.clear();
    match read_record(lines, desk, into) {
        Ok(CertNext::Record) => {
            if flows {
                if let Err(fault) = read_part(lines, desk, part) {
                    return Err(fault);
                }
            }
            Ok(CertNext::Record)
        }
        other => other,
    }
}

/// Reads the header line, and then a record with its part, or the end. Tells whether the text has flows.
pub(crate) fn read_first_entry<D: Desk>(
    lines: &mut Lines,
    desk: &mut D,
    into: &mut Record,
    part: &mut FlowPart,
    flows: &mut bool,
) -> Result<CertNext, CertFault>
    requires { part.old.junctions ≡ into.old.junctions }
    ensures record { IfOk result (λ next. OnRecord next (prepend_known lines.old.source (D.rest desk.old)
        ≡ prepend_known (header_text (as_read flows.new (header_of into.new))
        ++ (record_text (row_of into.new) ++ part_behind flows.new (part_of part.new)))
        (prepend_known lines.new.source (D.rest desk.new)))) }
    ensures row { IfOk result (λ next. OnRecord next (IsRow into.new.junctions into.new.tanks (row_of into.new))) }
    ensures part { IfOk result (λ next. OnRecord next (IsPartBehind flows.new into.new.junctions (part_of part.new))) }
    ensures line { IfOk result (λ next. OnRecord next (lines.new.line ≡ lines_on lines.old.line
        (2 + length into.new.vectors.list + part_lines flows.new into.new.junctions (part_of part.new)))) }
    ensures end { IfOk result (λ next. OnEnd next (λ periods finished. prepend_known lines.old.source (D.rest desk.old)
        ≡ where_told (D.rest desk.old)
        (header_text (as_read flows.new (header_of into.new)) ++ end_line periods finished))) }
    ensures end_line { IfOk result (λ next. OnEnd next (λ periods finished. lines.new.line
        ≡ lines_on lines.old.line 2)) }
    ensures end_fits { IfOk result (λ next. OnEnd next (λ periods finished. periods < 2 ^ 32)) }
    ensures fault { IfErr result (IsFaultAsRead flows.new (header_of into.old) stand.First lines.old.line
        (prepend_known lines.old.source (D.rest desk.old)) (D.counts desk.old) (D.counts desk.new)) }
    ensures no_record { IfErr result (λ fault. OnGrammar fault (LacksRecordAsRead flows.new stand.First
        (header_of into.old) (prepend_known lines.old.source (D.rest desk.old)))) }
    ensures no_flows { IfErr result (λ fault. flows.new ≡ false → OnRefusal fault (HasNoFlows (header_of into.old)
        (prepend_known lines.old.source (D.rest desk.old)))) }
    ensures header { header_of into.new ≡ header_of into.old }
    ensures junctions { part.new.junctions ≡ part.old.junctions }
    ensures steady { OnOk result (D.counts desk.new ≡ D.counts desk.old) }
    ensures stays { KeepsOutput D.files D.written D.printed D.target D.ready D.counts D.openings
        desk.old desk.new }
{
    has_small_counts(into);
    match lines.any_header(desk, into, flows) {
        Ok(()) => read_entry(lines, desk, into, part, *flows),
        Err(fault) => Err(fault),
    }
}
