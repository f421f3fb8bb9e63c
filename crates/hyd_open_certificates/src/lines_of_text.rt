//! The lines of a certificate text of version 4 as they are read, one after another.

ghost use Rattle.std.specs.Prelude.{◌≡◌, ◌≢◌, ◌+◌, ◌<◌, false, IsTrue, [], ◌∷◌, ◌++◌, length, take, drop};
ghost use Rattle.std.specs.Prelude.{slice_set, Some, All, IfOk, IfErr, OnOk, OnErr};
ghost use Rattle.std.specs.Fmt.{signed_decimal};
ghost use Rattle.hyd_io.specs.DeskBytes.{where_told, prepend_known};
ghost use Rattle.hyd_io.specs.DeskCounts.{with_read_fault};
ghost use Rattle.hyd_io.specs.LeftAsItWas.{KeepsOutput};
ghost use Rattle.hyd_spec_certificates.specs.Certificate.{IsInBox};
ghost use Rattle.hyd_line_reader.specs.TextsWithoutLine.{HasNo};
ghost use Rattle.hyd_witness_texts.specs.FirstFaults.{IsFaultAtFront};
ghost use Rattle.hyd_cert.specs.Lines.{IsHeadLine, header_text};
ghost use Rattle.hyd_cert.specs.PlacesOfLines.{head_text};
ghost use Rattle.hyd_cert.specs.Faults.{lines_on, IsFront, IsLineFault};
ghost use Rattle.hyd_open_certificates.specs.OpenPeriodOrEndLine.{next_text, NextFits, IsOpenPeriodOrEnd};
ghost use Rattle.hyd_open_certificates.specs.OpenRowView.{open_header_of};
ghost use Rattle.hyd_open_certificates.specs.OpenTexts.{AreHeads};
ghost use Rattle.hyd_open_certificates.specs.OpenFaults.{HasOpenHeader, LacksOpenHeader, IsOpenHeaderFault};
ghost use Rattle.hyd_open_certificates.specs.OpenFaults.{IsWrongLine};

use crate::lines::{Next, head_line, is_open_header_line, period_or_end};
use crate::open_row::OpenRow;
use crate::writer::{front_of, is_header_of};
use hyd_cert::CertFault;
use hyd_io::{Desk, Failed};
use hyd_line_reader::Source;

/// The lines of a text, and how many were passed.
#[derive(Drop)]
pub(crate) struct Lines {
    pub(crate) source: Source,
    pub(crate) line: u64,
}

/// Writes the head at its place.
fn store(into: &mut [i64], i: usize, head: i64)
    requires { i < length into.old }
    ensures { into.new ≡ slice_set into.old i head }
{
    into[i] = head;
}

impl Lines {
    /// The length of the next line.
    fn next_line<D: Desk>(&mut self, desk: &mut D) -> Result<usize, CertFault>
        ensures same { OnOk result (prepend_known self.new.source (D.rest desk.new)
            ≡ prepend_known self.old.source (D.rest desk.old)) }
        ensures some { IfOk result (λ n. self.new.source
            ≡ take n self.new.source ++ (10 ∷ drop (n + 1) self.new.source)) }
        ensures within { IfOk result (λ n. n < length self.new.source) }
        ensures short { IfOk result (λ n. n < 64) }
        ensures first { IfOk result (λ n. HasNo 10 (take n self.new.source)) }
        ensures fault { IfErr result (λ f. IsLineFault (λ line. HasNo 10 line × (length line < 64)) self.old.line
            (prepend_known self.old.source (D.rest desk.old)) (D.counts desk.old) (D.counts desk.new) f) }
        ensures line { self.new.line ≡ self.old.line }
        ensures steady { OnOk result (D.counts desk.new ≡ D.counts desk.old) }
        ensures stays { KeepsOutput D.files D.written D.printed D.target D.ready D.counts D.openings
            desk.old desk.new }
    {
        match self.source.line(desk) {
            Err(_) => Err(CertFault::Read),
            Ok(None) => Err(CertFault::Grammar {
                line: self.line.saturating_add(1),
            }),
            Ok(Some(n)) => Ok(n),
        }
    }

    /// Passes over a line of that length.
    fn pass(&mut self, n: usize)
        requires { n < length self.old.source }
        ensures source { self.new.source ≡ drop (n + 1) self.old.source }
        ensures line { self.new.line ≡ lines_on self.old.line 1 }
    {
        self.source.skip_line(n);
        self.line = self.line.saturating_add(1);
    }

    /// Whether a header line of version 4 is next.
    pub(crate) fn has_open_header<D: Desk>(&mut self, desk: &mut D) -> Result<bool, Failed>
        ensures same { OnOk result (prepend_known self.new.source (D.rest desk.new)
            ≡ prepend_known self.old.source (D.rest desk.old)) }
        ensures yes { IfOk result (λ is_open. IsTrue is_open
            → HasOpenHeader (prepend_known self.old.source (D.rest desk.old))) }
        ensures no { IfOk result (λ is_open. is_open ≡ false
            → LacksOpenHeader (prepend_known self.old.source (D.rest desk.old))) }
        ensures fault { OnErr result (D.counts desk.new ≡ with_read_fault (D.counts desk.old)) }
        ensures line { self.new.line ≡ self.old.line }
        ensures steady { OnOk result (D.counts desk.new ≡ D.counts desk.old) }
        ensures stays { KeepsOutput D.files D.written D.printed D.target D.ready D.counts D.openings
            desk.old desk.new }
    {
        match self.source.line(desk) {
            Err(fault) => Err(fault),
            Ok(None) => Ok(false),
            Ok(Some(n)) => Ok(is_open_header_line(&self.source.held()[..n])),
        }
    }

    /// Passes over the header line, which is next and has to have the record's counts.
    pub(crate) fn header<D: Desk>(&mut self, desk: &mut D, found: &OpenRow) -> Result<(), CertFault>
        ensures text { OnOk result (prepend_known self.old.source (D.rest desk.old)
            ≡ prepend_known (header_text (open_header_of found.now))
            (prepend_known self.new.source (D.rest desk.new))) }
        ensures line { OnOk result (self.new.line ≡ lines_on self.old.line 1) }
        ensures fault { IfErr result (IsOpenHeaderFault (open_header_of found.now) self.old.line
            (prepend_known self.old.source (D.rest desk.old)) (D.counts desk.old) (D.counts desk.new)) }
        ensures steady { OnOk result (D.counts desk.new ≡ D.counts desk.old) }
        ensures stays { KeepsOutput D.files D.written D.printed D.target D.ready D.counts D.openings
            desk.old desk.new }
    {
        let n = self.next_line(desk)?;
        let line = &self.source.held()[..n];
        if !is_open_header_line(line) {
            return Err(CertFault::Grammar {
                line: self.line.saturating_add(1),
            });
        }
        if !is_header_of(line, found) {
            return Err(CertFault::Count {
                line: self.line.saturating_add(1),
            });
        }
        self.pass(n);
        Ok(())
    }

    /// The PERIOD line or the END line, one of which is next.
    pub(crate) fn period_or_end<D: Desk>(&mut self, desk: &mut D) -> Result<Next, CertFault>
        ensures text { IfOk result (λ next. prepend_known self.old.source (D.rest desk.old)
            ≡ prepend_known (next_text next) (prepend_known self.new.source (D.rest desk.new))) }
        ensures fits { IfOk result NextFits }
        ensures line { OnOk result (self.new.line ≡ lines_on self.old.line 1) }
        ensures fault { IfErr result (λ f. IsLineFault IsOpenPeriodOrEnd self.old.line
            (prepend_known self.old.source (D.rest desk.old)) (D.counts desk.old) (D.counts desk.new) f) }
        ensures steady { OnOk result (D.counts desk.new ≡ D.counts desk.old) }
        ensures stays { KeepsOutput D.files D.written D.printed D.target D.ready D.counts D.openings
            desk.old desk.new }
    {
        let n = self.next_line(desk)?;
        let Some(next) = period_or_end(&self.source.held()[..n]) else {
            return Err(CertFault::Grammar {
                line: self.line.saturating_add(1),
            });
        };
        self.pass(n);
        Ok(next)
    }

    /// The head of the next line, which begins with `front`.
    fn head<D: Desk>(&mut self, desk: &mut D, front: &[u8]) -> Result<i64, CertFault>
        requires { IsFront front.now }
        ensures text { IfOk result (λ h. prepend_known self.old.source (D.rest desk.old)
            ≡ prepend_known (front.now ++ (signed_decimal h ++ (10 ∷ [])))
            (prepend_known self.new.source (D.rest desk.new))) }
        ensures in_box { IfOk result IsInBox }
        ensures line { OnOk result (self.new.line ≡ lines_on self.old.line 1) }
        ensures fault { IfErr result (λ f. IsLineFault (IsHeadLine front.now) self.old.line
            (prepend_known self.old.source (D.rest desk.old)) (D.counts desk.old) (D.counts desk.new) f) }
        ensures steady { OnOk result (D.counts desk.new ≡ D.counts desk.old) }
        ensures stays { KeepsOutput D.files D.written D.printed D.target D.ready D.counts D.openings
            desk.old desk.new }
    {
        let n = self.next_line(desk)?;
        let Some(head) = head_line(&self.source.held()[..n], front) else {
            return Err(CertFault::Grammar {
                line: self.line.saturating_add(1),
            });
        };
        self.pass(n);
        Ok(head)
    }

    /// The heads of a record for so many junctions, the vectors one after another.
    pub(crate) fn heads<D: Desk>(
        &mut self,
        desk: &mut D,
        junctions: usize,
        into: &mut [i64],
    ) -> Result<(), CertFault>
        requires some { 0 < length into.old → 0 < junctions }
        ensures text { OnOk result (prepend_known self.old.source (D.rest desk.old)
            ≡ prepend_known (head_text junctions 0 into.new) (prepend_known self.new.source (D.rest desk.new))) }
        ensures in_box { OnOk result (All IsInBox into.new) }
        ensures line { OnOk result (self.new.line ≡ lines_on self.old.line (length into.new)) }
        ensures fault { IfErr result (λ f. IsWrongLine (IsFaultAtFront (AreHeads junctions 0 (length into.old)))
            self.old.line (prepend_known self.old.source (D.rest desk.old)) (D.counts desk.old) (D.counts desk.new) f) }
        ensures steady { OnOk result (D.counts desk.new ≡ D.counts desk.old) }
        ensures stays { KeepsOutput D.files D.written D.printed D.target D.ready D.counts D.openings
            desk.old desk.new }
    {
        for i in 0..into.len() {
            let head = self.head(desk, front_of(i / junctions))?;
            store(into, i, head);
        }
        Ok(())
    }

    /// Whether the text is at its end.
    pub(crate) fn is_over<D: Desk>(&mut self, desk: &mut D) -> Result<bool, CertFault>
        ensures over { IfOk result (λ over. IsTrue over → prepend_known self.old.source (D.rest desk.old)
            ≡ where_told (D.rest desk.old) []) }
        ensures more { IfOk result (λ over. over ≡ false
            → prepend_known self.old.source (D.rest desk.old) ≢ Some []) }
        ensures fault { IfErr result (λ f. (f ≡ CertFault.Read)
            × (D.counts desk.new ≡ with_read_fault (D.counts desk.old))) }
        ensures line { self.new.line ≡ self.old.line }
        ensures steady { OnOk result (D.counts desk.new ≡ D.counts desk.old) }
        ensures stays { KeepsOutput D.files D.written D.printed D.target D.ready D.counts D.openings
            desk.old desk.new }
    {
        match self.source.is_over(desk) {
            Ok(over) => Ok(over),
            Err(_) => Err(CertFault::Read),
        }
    }
}
