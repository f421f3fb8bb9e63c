//! Reading the lists of a moment.

ghost use Rattle.std.specs.Prelude.{◌≡◌, ◌≢◌, ◌∷◌, [], All, length, IfErr, OnOk};
ghost use Rattle.hyd_io.specs.DeskBytes.{prepend_known};
ghost use Rattle.hyd_io.specs.LeftAsItWas.{KeepsOutput};
ghost use Rattle.hyd_spec_witnesses.specs.WitnessText.{Counts, IsValue, value_lines, stock_lines};
ghost use Rattle.hyd_cert.specs.Faults.{lines_on};
ghost use Rattle.hyd_witness_texts.specs.MomentView.{moment_of, HasCounts};
ghost use Rattle.hyd_witness_texts.specs.FirstFaults.{IsTextFault, IsFaultAtFront};
ghost use Rattle.hyd_witness_texts.specs.PartsOfWitness.{AreLists, AreValueLines, AreStockLines, HasValues, lists_text};
ghost use Rattle.hyd_witness_texts.specs.PartsOfWitness.{list_lines};

use crate::answers_of_reader::WitnessFault;
use crate::lines_of_text::Lines;
use crate::moment::Moment;
use hyd_io::Desk;
use hyd_net::List;

/// Reads the lines of a moment behind its PERIOD line.
pub(crate) fn read_lists<D: Desk>(
    lines: &mut Lines,
    desk: &mut D,
    into: &mut Moment,
) -> Result<(), WitnessFault>
    requires { length into.old.levels.list ≡ length into.old.volumes.list }
    ensures text { OnOk result (prepend_known lines.old.source (D.rest desk.old)
        ≡ prepend_known (lists_text (moment_of into.new)) (prepend_known lines.new.source (D.rest desk.new))) }
    ensures values { (counts : Counts) → HasCounts counts (moment_of into.old)
        → OnOk result (HasValues counts (moment_of into.new)) }
    ensures line { (counts : Counts) → HasCounts counts (moment_of into.old)
        → OnOk result (lines.new.line ≡ lines_on lines.old.line (list_lines counts)) }
    ensures fault { (counts : Counts) → HasCounts counts (moment_of into.old)
        → IfErr result (λ f. IsTextFault (IsFaultAtFront (AreLists counts)) lines.old.line
        (prepend_known lines.old.source (D.rest desk.old)) (D.counts desk.old) (D.counts desk.new) f) }
    ensures counts { (counts : Counts) → HasCounts counts (moment_of into.old)
        → HasCounts counts (moment_of into.new) }
    ensures number { into.new.number ≡ into.old.number }
    ensures time { into.new.time ≡ into.old.time }
    ensures length { into.new.length ≡ into.old.length }
    ensures steady { OnOk result (D.counts desk.new ≡ D.counts desk.old) }
    ensures stays { KeepsOutput D.files D.written D.printed D.target D.ready D.counts D.openings
        desk.old desk.new }
{
    read_values(lines, desk, b'H', &mut into.heads)?;
    read_values(lines, desk, b'Q', &mut into.flows)?;
    read_values(lines, desk, b'D', &mut into.demands)?;
    read_values(lines, desk, b'E', &mut into.emitters)?;
    read_stocks(lines, desk, &mut into.levels, &mut into.volumes)
}

/// Reads the lines of the values of a list, each behind that key.
fn read_values<D: Desk>(
    lines: &mut Lines,
    desk: &mut D,
    key: u8,
    into: &mut List<i128>,
) -> Result<(), WitnessFault>
    requires { key ≢ 10 }
    ensures text { OnOk result (prepend_known lines.old.source (D.rest desk.old)
        ≡ prepend_known (value_lines (key ∷ []) into.new.list) (prepend_known lines.new.source (D.rest desk.new))) }
    ensures fits { OnOk result (All IsValue into.new.list) }
    ensures line { OnOk result (lines.new.line ≡ lines_on lines.old.line (length into.old.list)) }
    ensures fault { IfErr result (λ f. IsTextFault (IsFaultAtFront (AreValueLines (key ∷ []) (length into.old.list)))
        lines.old.line (prepend_known lines.old.source (D.rest desk.old)) (D.counts desk.old) (D.counts desk.new) f) }
    ensures count { length into.new.list ≡ length into.old.list }
    ensures steady { OnOk result (D.counts desk.new ≡ D.counts desk.old) }
    ensures stays { KeepsOutput D.files D.written D.printed D.target D.ready D.counts D.openings
        desk.old desk.new }
{
    lines.values(desk, key, into.as_mut_slice())
}

/// Reads the lines of the levels and the volumes of two lists.
fn read_stocks<D: Desk>(
    lines: &mut Lines,
    desk: &mut D,
    levels: &mut List<i128>,
    volumes: &mut List<i128>,
) -> Result<(), WitnessFault>
    requires { length levels.old.list ≡ length volumes.old.list }
    ensures text { OnOk result (prepend_known lines.old.source (D.rest desk.old)
        ≡ prepend_known (stock_lines levels.new.list volumes.new.list)
        (prepend_known lines.new.source (D.rest desk.new))) }
    ensures levels { OnOk result (All IsValue levels.new.list) }
    ensures volumes { OnOk result (All IsValue volumes.new.list) }
    ensures line { OnOk result (lines.new.line ≡ lines_on lines.old.line (length levels.old.list)) }
    ensures fault { IfErr result (λ f. IsTextFault (IsFaultAtFront (AreStockLines (length levels.old.list)))
        lines.old.line (prepend_known lines.old.source (D.rest desk.old)) (D.counts desk.old) (D.counts desk.new) f) }
    ensures as_many_levels { length levels.new.list ≡ length levels.old.list }
    ensures as_many_volumes { length volumes.new.list ≡ length volumes.old.list }
    ensures steady { OnOk result (D.counts desk.new ≡ D.counts desk.old) }
    ensures stays { KeepsOutput D.files D.written D.printed D.target D.ready D.counts D.openings
        desk.old desk.new }
{
    lines.stocks(desk, levels.as_mut_slice(), volumes.as_mut_slice())
}
