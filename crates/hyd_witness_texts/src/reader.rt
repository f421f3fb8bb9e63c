//! Reading a witness.

ghost use Rattle.std.specs.Prelude.{◌≡◌, ◌+◌, ◌++◌, length, IfOk, IfErr, OnOk};
ghost use Rattle.hyd_io.specs.DeskBytes.{where_told, prepend_known};
ghost use Rattle.hyd_io.specs.LeftAsItWas.{KeepsOutput};
ghost use Rattle.hyd_spec_witnesses.specs.WitnessText.{Counts, IsMoment, moment_text, witness_end};
ghost use Rattle.hyd_cert.specs.Faults.{lines_on};
ghost use Rattle.hyd_witness_texts.specs.MomentView.{counts_in, moment_of, HasCounts};
ghost use Rattle.hyd_witness_texts.specs.FirstFaults.{IsTextFault, IsFaultOf, OnGrammar};
ghost use Rattle.hyd_witness_texts.specs.PartsOfWitness.{IsRest, LacksMoment, list_lines};
ghost use Rattle.hyd_witness_texts.specs.ReaderView.{fresh, to_come, IsGoing, IsDone, periods_at, IsScaleAt, lead};
ghost use Rattle.hyd_witness_texts.specs.ReaderView.{lead_lines, CanCome, LacksNext, answer_of, stand_of, reached_by};
ghost use Rattle.hyd_witness_texts.specs.ReaderView.{OnMoment, OnEnd};
ghost use Rattle.hyd_witness_texts.specs.declared.answers_of_reader.Stand.TheVariants as stand;

use crate::answers_of_reader::{Reached, Stand, WitnessFault, WitnessNext};
use crate::counts::{NetworkCounts, has_small_counts, is_small};
use crate::lines_of_text::Lines;
use crate::lists_of_moment::read_lists;
use crate::moment::Moment;
use crate::period_or_end_line::Next;
use hyd_io::Desk;
use hyd_line_reader::Source;
use std::marker::Model;

/// A reader of a witness of a network. Contracts see the network's counts, where it stands, how many lines it passed
/// and what it read ahead.
#[derive(Drop)]
pub struct WitnessReader {
    counts: NetworkCounts,
    lines: Lines,
    stand: Stand,
}

impl Model for WitnessReader {
    ghost use Rattle.hyd_witness_texts.specs.MomentView.{counts_in};
    ghost use Rattle.hyd_witness_texts.specs.ReaderView.{ReaderView};

    ghost Value = { ReaderView };

    ghost view = { λ r. record {
      counts = counts_in r.counts;
      stand = r.stand;
      line = r.lines.line;
      ahead = r.lines.source;
    } };
}

impl WitnessReader {
    /// A reader for a network with so many of each, that has read nothing and has no fault.
    pub fn open(counts: NetworkCounts) -> WitnessReader
        ensures { result ≡ fresh (counts_in counts) }
    {
        WitnessReader {
            counts,
            lines: Lines {
                source: Source::new(),
                line: 0,
            },
            stand: Stand::First,
        }
    }

    /// How many lines it passed. It stays at 2^64 - 1 once it is there.
    pub fn line(&self) -> u64
        ensures { result ≡ self.now.line }
    {
        self.lines.line
    }

    /// The next period, or the end of the text. The text is that of the file which is being read; `into` has a value
    /// for each junction, link and tank of the network, and keeps as many.
    ///
    /// - `Read`: a read failed, and the read faults rose.
    /// - `Grammar`: at the first line with which, the end of the text counted in, the text begins no witness of the
    ///   network. No whole period stands before it.
    ///
    /// After a fault each call answers it again, and after an end that end. What `into` holds is then open.
    pub fn next<D: Desk>(
        &mut self,
        desk: &mut D,
        into: &mut Moment,
    ) -> Result<WitnessNext, WitnessFault>
        requires { HasCounts self.old.counts (moment_of into.old) }
        ensures moment { IsGoing self.old.stand → IfOk result (λ next. OnMoment next (λ reached.
            to_come self.old (D.rest desk.old) ≡ prepend_known (lead self.old.stand reached.scale self.old.counts
            ++ moment_text (moment_of into.new)) (to_come self.new (D.rest desk.new)))) }
        ensures is_moment { IsGoing self.old.stand → IfOk result (λ next. OnMoment next (λ reached.
            IsMoment self.old.counts (moment_of into.new))) }
        ensures one_more { IsGoing self.old.stand → IfOk result (λ next. OnMoment next (λ reached.
            reached.periods ≡ periods_at self.old.stand + 1)) }
        ensures line { IsGoing self.old.stand → IfOk result (λ next. OnMoment next (λ reached.
            self.new.line ≡ lines_on self.old.line (lead_lines self.old.stand + list_lines self.old.counts))) }
        ensures end { IsGoing self.old.stand → IfOk result (λ next. OnEnd next (λ reached.
            to_come self.old (D.rest desk.old) ≡ where_told (D.rest desk.old)
            (lead self.old.stand reached.scale self.old.counts ++ witness_end reached.periods))) }
        ensures all { IsGoing self.old.stand → IfOk result (λ next. OnEnd next (λ reached.
            reached.periods ≡ periods_at self.old.stand)) }
        ensures scale { IsGoing self.old.stand
            → IfOk result (λ next. IsScaleAt self.old.stand (reached_by next).scale) }
        ensures fault { IsGoing self.old.stand → IfErr result (λ f. IsTextFault
            (IsFaultOf (CanCome self.old.counts self.old.stand)) self.old.line
            (to_come self.old (D.rest desk.old)) (D.counts desk.old) (D.counts desk.new) f) }
        ensures no_moment { IsGoing self.old.stand → IfErr result (λ fault. OnGrammar fault
            (LacksNext self.old.counts self.old.stand (to_come self.old (D.rest desk.old)))) }
        ensures stand { IsGoing self.old.stand → self.new.stand ≡ stand_of result }
        ensures again { IsDone self.old.stand
            → (result ≡ answer_of self.old.stand) × (self.new ≡ self.old) × (desk.new ≡ desk.old) }
        ensures counts { self.new.counts ≡ self.old.counts }
        ensures lists { HasCounts self.old.counts (moment_of into.new) }
        ensures steady { OnOk result (D.counts desk.new ≡ D.counts desk.old) }
        ensures stays { KeepsOutput D.files D.written D.printed D.target D.ready D.counts D.openings
            desk.old desk.new }
    {
        let read = match self.stand {
            Stand::Stuck(fault) => return Err(fault),
            Stand::Over(reached) => return Ok(WitnessNext::End(reached)),
            Stand::First => read_first(&mut self.lines, desk, &self.counts, into),
            Stand::Between(reached) => read_behind_periods(&mut self.lines, desk, reached, into),
        };
        self.stand = stand_after(&read);
        read
    }
}

/// Where the reader stands after it answered so.
fn stand_after(read: &Result<WitnessNext, WitnessFault>) -> Stand
    ensures { result ≡ stand_of read.now }
{
    match *read {
        Ok(WitnessNext::Moment(reached)) => Stand::Between(reached),
        Ok(WitnessNext::End(reached)) => Stand::Over(reached),
        Err(fault) => Stand::Stuck(fault),
    }
}

/// Reads the header line, and then a period or the end.
fn read_first<D: Desk>(
    lines: &mut Lines,
    desk: &mut D,
    counts: &NetworkCounts,
    into: &mut Moment,
) -> Result<WitnessNext, WitnessFault>
    requires { HasCounts (counts_in counts.now) (moment_of into.old) }
    ensures moment { IfOk result (λ next. OnMoment next (λ reached. prepend_known lines.old.source (D.rest desk.old)
        ≡ prepend_known (lead stand.First reached.scale (counts_in counts.now) ++ moment_text (moment_of into.new))
        (prepend_known lines.new.source (D.rest desk.new)))) }
    ensures is_moment { IfOk result (λ next. OnMoment next (λ reached.
        IsMoment (counts_in counts.now) (moment_of into.new))) }
    ensures one_more { IfOk result (λ next. OnMoment next (λ reached. reached.periods ≡ 0 + 1)) }
    ensures line { IfOk result (λ next. OnMoment next (λ reached.
        lines.new.line ≡ lines_on lines.old.line (2 + list_lines (counts_in counts.now)))) }
    ensures end { IfOk result (λ next. OnEnd next (λ reached. prepend_known lines.old.source (D.rest desk.old)
        ≡ where_told (D.rest desk.old) (lead stand.First reached.scale (counts_in counts.now)
        ++ witness_end reached.periods))) }
    ensures all { IfOk result (λ next. OnEnd next (λ reached. reached.periods ≡ 0)) }
    ensures scale { IfOk result (λ next. IsScaleAt stand.First (reached_by next).scale) }
    ensures fault { IfErr result (λ f. IsTextFault (IsFaultOf (CanCome (counts_in counts.now) stand.First))
        lines.old.line (prepend_known lines.old.source (D.rest desk.old)) (D.counts desk.old) (D.counts desk.new) f) }
    ensures no_moment { IfErr result (λ fault. OnGrammar fault (LacksNext (counts_in counts.now) stand.First
        (prepend_known lines.old.source (D.rest desk.old)))) }
    ensures lists { HasCounts (counts_in counts.now) (moment_of into.new) }
    ensures steady { OnOk result (D.counts desk.new ≡ D.counts desk.old) }
    ensures stays { KeepsOutput D.files D.written D.printed D.target D.ready D.counts D.openings
        desk.old desk.new }
{
    has_small_counts(counts);
    match lines.header(desk, counts) {
        Ok(scale) => read_behind_periods(lines, desk, Reached { scale, periods: 0 }, into),
        Err(fault) => Err(fault),
    }
}

/// Reads a period behind so many, or the end.
fn read_behind_periods<D: Desk>(
    lines: &mut Lines,
    desk: &mut D,
    before: Reached,
    into: &mut Moment,
) -> Result<WitnessNext, WitnessFault>
    requires { length into.old.levels.list ≡ length into.old.volumes.list }
    ensures moment { IfOk result (λ next. OnMoment next (λ reached. prepend_known lines.old.source (D.rest desk.old)
        ≡ prepend_known (moment_text (moment_of into.new)) (prepend_known lines.new.source (D.rest desk.new)))) }
    ensures is_moment { (counts : Counts) → HasCounts counts (moment_of into.old)
        → IfOk result (λ next. OnMoment next (λ reached. IsMoment counts (moment_of into.new))) }
    ensures one_more { IfOk result (λ next. OnMoment next (λ reached. reached.periods ≡ before.periods + 1)) }
    ensures line { (counts : Counts) → HasCounts counts (moment_of into.old)
        → IfOk result (λ next. OnMoment next (λ reached.
        lines.new.line ≡ lines_on lines.old.line (1 + list_lines counts))) }
    ensures end { IfOk result (λ next. OnEnd next (λ reached. prepend_known lines.old.source (D.rest desk.old)
        ≡ where_told (D.rest desk.old) (witness_end reached.periods))) }
    ensures all { IfOk result (λ next. OnEnd next (λ reached. reached.periods ≡ before.periods)) }
    ensures scale { IfOk result (λ next. (reached_by next).scale ≡ before.scale) }
    ensures fault { (counts : Counts) → HasCounts counts (moment_of into.old)
        → IfErr result (λ f. IsTextFault (IsFaultOf (IsRest counts before.periods)) lines.old.line
        (prepend_known lines.old.source (D.rest desk.old)) (D.counts desk.old) (D.counts desk.new) f) }
    ensures no_moment { (counts : Counts) → HasCounts counts (moment_of into.old)
        → IfErr result (λ fault. OnGrammar fault (LacksMoment counts before.periods
        (prepend_known lines.old.source (D.rest desk.old)))) }
    ensures lists { (counts : Counts) → HasCounts counts (moment_of into.old)
        → HasCounts counts (moment_of into.new) }
    ensures steady { OnOk result (D.counts desk.new ≡ D.counts desk.old) }
    ensures stays { KeepsOutput D.files D.written D.printed D.target D.ready D.counts D.openings
        desk.old desk.new }
{
    is_small(before.periods);
    match lines.period_or_end(desk, before.periods) {
        Err(fault) => Err(fault),
        Ok(Next::Period(period)) => {
            into.number = period.number;
            into.time = period.time;
            into.length = period.length;
            match read_lists(lines, desk, into) {
                Ok(()) => Ok(WitnessNext::Moment(Reached {
                    scale: before.scale,
                    periods: before.periods + 1,
                })),
                Err(fault) => Err(fault),
            }
        }
        Ok(Next::End) => match lines.is_over(desk) {
            Ok(true) => Ok(WitnessNext::End(before)),
            Ok(false) => Err(WitnessFault::Grammar {
                line: lines.line.saturating_add(1),
            }),
            Err(fault) => Err(fault),
        },
    }
}
