//! The lines of a witness as they are read, one after another.

ghost use Rattle.std.specs.Prelude.{◌≡◌, ◌≢◌, ℕ, ◌+◌, ◌<◌, [], ◌∷◌, ◌++◌, length, take, drop, All, Some, slice_set};
ghost use Rattle.std.specs.Prelude.{false, IsTrue, IfOk, IfErr, OnOk};
ghost use Rattle.std.specs.Fmt.{signed_decimal};
ghost use Rattle.hyd_io.specs.DeskBytes.{where_told, prepend_known};
ghost use Rattle.hyd_io.specs.DeskCounts.{with_read_fault};
ghost use Rattle.hyd_io.specs.LeftAsItWas.{KeepsOutput};
ghost use Rattle.hyd_spec_certificates.specs.CertificateText.{line};
ghost use Rattle.hyd_spec_witnesses.specs.WitnessText.{IsScale, IsValue, value_lines, stock_line, stock_lines};
ghost use Rattle.hyd_spec_witnesses.specs.WitnessText.{witness_header};
ghost use Rattle.hyd_line_reader.specs.TextsWithoutLine.{HasNo};
ghost use Rattle.hyd_cert.specs.Faults.{lines_on};
ghost use Rattle.hyd_witness_texts.specs.MomentView.{counts_in};
ghost use Rattle.hyd_witness_texts.specs.Lines.{IsHeaderLine, IsValueLine, IsStockLine};
ghost use Rattle.hyd_witness_texts.specs.PeriodOrEndLine.{next_text, NextFits, IsPeriodOrEnd};
ghost use Rattle.hyd_witness_texts.specs.FirstFaults.{IsLineFault, IsTextFault, IsFaultAtFront};
ghost use Rattle.hyd_witness_texts.specs.PartsOfWitness.{AreValueLines, AreStockLines};

use crate::answers_of_reader::WitnessFault;
use crate::counts::{NetworkCounts, has_small_counts};
use crate::header_line::header_scale;
use crate::lines::{stock_line, value_line};
use crate::period_or_end_line::{Next, period_or_end};
use hyd_io::Desk;
use hyd_line_reader::Source;

/// The lines of a text, and how many were passed.
#[derive(Drop)]
pub(crate) struct Lines {
    pub(crate) source: Source,
    pub(crate) line: u64,
}

/// Writes the value at its place.
fn store(into: &mut [i128], i: usize, value: i128)
    requires { i < length into.old }
    ensures { into.new ≡ slice_set into.old i value }
{
    into[i] = value;
}

impl Lines {
    /// The length of the next line.
    fn next_line<D: Desk>(&mut self, desk: &mut D) -> Result<usize, WitnessFault>
        ensures same { OnOk result (prepend_known self.new.source (D.rest desk.new)
            ≡ prepend_known self.old.source (D.rest desk.old)) }
        ensures some { IfOk result (λ n. self.new.source
            ≡ take n self.new.source ++ (10 ∷ drop (n + 1) self.new.source)) }
        ensures within { IfOk result (λ n. n < length self.new.source) }
        ensures short { IfOk result (λ n. n < 64) }
        ensures first { IfOk result (λ n. HasNo 10 (take n self.new.source)) }
        ensures fault { IfErr result (λ f. IsLineFault (λ l. HasNo 10 l × (length l < 64)) self.old.line
            (prepend_known self.old.source (D.rest desk.old)) (D.counts desk.old) (D.counts desk.new) f) }
        ensures line { self.new.line ≡ self.old.line }
        ensures steady { OnOk result (D.counts desk.new ≡ D.counts desk.old) }
        ensures stays { KeepsOutput D.files D.written D.printed D.target D.ready D.counts D.openings
            desk.old desk.new }
    {
        match self.source.line(desk) {
            Err(_) => Err(WitnessFault::Read),
            Ok(None) => Err(WitnessFault::Grammar {
                line: self.line.saturating_add(1),
            }),
            Ok(Some(n)) => Ok(n),
        }
    }

    /// Passes over a line of that length.
    fn pass(&mut self, n: usize)
        requires { n < length self.old.source }
        ensures source { self.new.source ≡ drop (n + 1) self.old.source }
        ensures line { self.new.line ≡ lines_on self.old.line 1 }
    {
        self.source.skip_line(n);
        self.line = self.line.saturating_add(1);
    }

    /// The scale of the header line, which is next and has to have these counts.
    pub(crate) fn header<D: Desk>(
        &mut self,
        desk: &mut D,
        counts: &NetworkCounts,
    ) -> Result<u32, WitnessFault>
        ensures text { IfOk result (λ scale. prepend_known self.old.source (D.rest desk.old)
            ≡ prepend_known (witness_header scale (counts_in counts.now))
            (prepend_known self.new.source (D.rest desk.new))) }
        ensures is_scale { IfOk result IsScale }
        ensures line { OnOk result (self.new.line ≡ lines_on self.old.line 1) }
        ensures fault { IfErr result (λ f. IsLineFault (IsHeaderLine (counts_in counts.now)) self.old.line
            (prepend_known self.old.source (D.rest desk.old)) (D.counts desk.old) (D.counts desk.new) f) }
        ensures steady { OnOk result (D.counts desk.new ≡ D.counts desk.old) }
        ensures stays { KeepsOutput D.files D.written D.printed D.target D.ready D.counts D.openings
            desk.old desk.new }
    {
        has_small_counts(counts);
        let n = self.next_line(desk)?;
        let Some(scale) = header_scale(&self.source.held()[..n], counts) else {
            return Err(WitnessFault::Grammar {
                line: self.line.saturating_add(1),
            });
        };
        self.pass(n);
        Ok(scale)
    }

    /// The PERIOD line or the END line behind so many periods, one of which is next.
    pub(crate) fn period_or_end<D: Desk>(
        &mut self,
        desk: &mut D,
        periods: u32,
    ) -> Result<Next, WitnessFault>
        ensures text { IfOk result (λ next. prepend_known self.old.source (D.rest desk.old)
            ≡ prepend_known (next_text periods next) (prepend_known self.new.source (D.rest desk.new))) }
        ensures fits { IfOk result (NextFits periods) }
        ensures line { OnOk result (self.new.line ≡ lines_on self.old.line 1) }
        ensures fault { IfErr result (λ f. IsLineFault (IsPeriodOrEnd periods) self.old.line
            (prepend_known self.old.source (D.rest desk.old)) (D.counts desk.old) (D.counts desk.new) f) }
        ensures steady { OnOk result (D.counts desk.new ≡ D.counts desk.old) }
        ensures stays { KeepsOutput D.files D.written D.printed D.target D.ready D.counts D.openings
            desk.old desk.new }
    {
        let n = self.next_line(desk)?;
        let Some(next) = period_or_end(&self.source.held()[..n], periods) else {
            return Err(WitnessFault::Grammar {
                line: self.line.saturating_add(1),
            });
        };
        self.pass(n);
        Ok(next)
    }

    /// The value of the next line, behind that key.
    fn value<D: Desk>(&mut self, desk: &mut D, key: u8) -> Result<i128, WitnessFault>
        requires { key ≢ 10 }
        ensures text { IfOk result (λ v. prepend_known self.old.source (D.rest desk.old)
            ≡ prepend_known (line ((key ∷ []) ∷ (signed_decimal v ∷ [])))
            (prepend_known self.new.source (D.rest desk.new))) }
        ensures fits { IfOk result IsValue }
        ensures line { OnOk result (self.new.line ≡ lines_on self.old.line 1) }
        ensures fault { IfErr result (λ f. IsLineFault (IsValueLine (key ∷ [])) self.old.line
            (prepend_known self.old.source (D.rest desk.old)) (D.counts desk.old) (D.counts desk.new) f) }
        ensures steady { OnOk result (D.counts desk.new ≡ D.counts desk.old) }
        ensures stays { KeepsOutput D.files D.written D.printed D.target D.ready D.counts D.openings
            desk.old desk.new }
    {
        let n = self.next_line(desk)?;
        let Some(value) = value_line(&self.source.held()[..n], key) else {
            return Err(WitnessFault::Grammar {
                line: self.line.saturating_add(1),
            });
        };
        self.pass(n);
        Ok(value)
    }

    /// The values of the next lines, each behind that key.
    pub(crate) fn values<D: Desk>(
        &mut self,
        desk: &mut D,
        key: u8,
        into: &mut [i128],
    ) -> Result<(), WitnessFault>
        requires { key ≢ 10 }
        ensures text { OnOk result (prepend_known self.old.source (D.rest desk.old)
            ≡ prepend_known (value_lines (key ∷ []) into.new) (prepend_known self.new.source (D.rest desk.new))) }
        ensures fits { OnOk result (All IsValue into.new) }
        ensures line { OnOk result (self.new.line ≡ lines_on self.old.line (length into.new)) }
        ensures fault { IfErr result (λ f. IsTextFault (IsFaultAtFront (AreValueLines (key ∷ []) (length into.old)))
            self.old.line (prepend_known self.old.source (D.rest desk.old)) (D.counts desk.old) (D.counts desk.new) f) }
        ensures steady { OnOk result (D.counts desk.new ≡ D.counts desk.old) }
        ensures stays { KeepsOutput D.files D.written D.printed D.target D.ready D.counts D.openings
            desk.old desk.new }
    {
        for i in 0..into.len() {
            let value = self.value(desk, key)?;
            store(into, i, value);
        }
        Ok(())
    }

    /// The level and the volume of the next line.
    fn stock<D: Desk>(&mut self, desk: &mut D) -> Result<(i128, i128), WitnessFault>
        ensures text { IfOk result (λ s. prepend_known self.old.source (D.rest desk.old)
            ≡ prepend_known (stock_line s.0 s.1) (prepend_known self.new.source (D.rest desk.new))) }
        ensures fits { IfOk result (λ s. IsValue s.0 × IsValue s.1) }
        ensures line { OnOk result (self.new.line ≡ lines_on self.old.line 1) }
        ensures fault { IfErr result (λ f. IsLineFault IsStockLine self.old.line
            (prepend_known self.old.source (D.rest desk.old)) (D.counts desk.old) (D.counts desk.new) f) }
        ensures steady { OnOk result (D.counts desk.new ≡ D.counts desk.old) }
        ensures stays { KeepsOutput D.files D.written D.printed D.target D.ready D.counts D.openings
            desk.old desk.new }
    {
        let n = self.next_line(desk)?;
        let Some(stock) = stock_line(&self.source.held()[..n]) else {
            return Err(WitnessFault::Grammar {
                line: self.line.saturating_add(1),
            });
        };
        self.pass(n);
        Ok(stock)
    }

    /// The levels and the volumes of the next lines.
    pub(crate) fn stocks<D: Desk>(
        &mut self,
        desk: &mut D,
        levels: &mut [i128],
        volumes: &mut [i128],
    ) -> Result<(), WitnessFault>
        requires { length levels.old ≡ length volumes.old }
        ensures text { OnOk result (prepend_known self.old.source (D.rest desk.old)
            ≡ prepend_known (stock_lines levels.new volumes.new) (prepend_known self.new.source (D.rest desk.new))) }
        ensures levels { OnOk result (All IsValue levels.new) }
        ensures volumes { OnOk result (All IsValue volumes.new) }
        ensures line { OnOk result (self.new.line ≡ lines_on self.old.line (length levels.new)) }
        ensures fault { IfErr result (λ f. IsTextFault (IsFaultAtFront (AreStockLines (length levels.old)))
            self.old.line (prepend_known self.old.source (D.rest desk.old)) (D.counts desk.old) (D.counts desk.new) f) }
        ensures steady { OnOk result (D.counts desk.new ≡ D.counts desk.old) }
        ensures stays { KeepsOutput D.files D.written D.printed D.target D.ready D.counts D.openings
            desk.old desk.new }
    {
        for i in 0..levels.len() {
            let (level, volume) = self.stock(desk)?;
            store(levels, i, level);
            store(volumes, i, volume);
        }
        Ok(())
    }

    /// Whether the text is at its end.
    pub(crate) fn is_over<D: Desk>(&mut self, desk: &mut D) -> Result<bool, WitnessFault>
        ensures over { IfOk result (λ over. IsTrue over → prepend_known self.old.source (D.rest desk.old)
            ≡ where_told (D.rest desk.old) []) }
        ensures more { IfOk result (λ over. over ≡ false → prepend_known self.old.source (D.rest desk.old) ≢ Some []) }
        ensures fault { IfErr result (λ f. (f ≡ WitnessFault.Read)
            × (D.counts desk.new ≡ with_read_fault (D.counts desk.old))) }
        ensures line { self.new.line ≡ self.old.line }
        ensures steady { OnOk result (D.counts desk.new ≡ D.counts desk.old) }
        ensures stays { KeepsOutput D.files D.written D.printed D.target D.ready D.counts D.openings
            desk.old desk.new }
    {
        match self.source.is_over(desk) {
            Ok(over) => Ok(over),
            Err(_) => Err(WitnessFault::Read),
        }
    }
}
