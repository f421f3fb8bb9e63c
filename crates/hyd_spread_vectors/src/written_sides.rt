//! The vectors of a record for a spread, each from the network of its side.
#![tactic(auto)]

ghost use Rattle.std.specs.Prelude.{◌+◌};
ghost use Rattle.hyd_spec_certificates.specs.declared.Side.TheVariants.{Upper};
ghost use Rattle.hyd_spec_certificates.specs.TurnsOfProblems.{turn};
ghost use Rattle.hyd_cert.specs.RecordView.{row_of, IsProblemOf};
ghost use Rattle.hyd_period_vectors.specs.SoughtVectors.{EachBefore, OfEach, Stays};
ghost use Rattle.hyd_spread_vectors.specs.VectorsOfBothNetworks.{HaveSameCounts, IsHeldIn, held_in};

use hyd_cert::Record;
use hyd_spec_certificates::{Problem, Side};

// Writes both vectors of a problem, where all before them are written.
fn write_both(above: &Record, below: &Record, problem: Problem, row: &mut Record)
    requires above { HaveSameCounts above.now row.old }
    requires below { HaveSameCounts below.now row.old }
    requires problem { IsProblemOf row.old.tanks problem }
    requires before { EachBefore (IsHeldIn (held_in above.now below.now)) row.old.tanks (turn problem Upper)
        (row_of row.old) }
    ensures both { EachBefore (IsHeldIn (held_in above.now below.now)) row.old.tanks (turn problem Upper + 2)
        (row_of row.new) }
    ensures stays { Stays row.old row.new }
{
    row.set_vector(problem, Side::Upper, above.vector(problem, Side::Upper));
    row.set_vector(problem, Side::Lower, below.vector(problem, Side::Lower));
}

/// Writes the vectors of a record: the UPPER ones are those of one record, the LOWER ones those of another.
pub(crate) fn write_sides(above: &Record, below: &Record, row: &mut Record)
    requires above { HaveSameCounts above.now row.old }
    requires below { HaveSameCounts below.now row.old }
    ensures each { OfEach (IsHeldIn (held_in above.now below.now)) row.old.tanks (row_of row.new) }
    ensures stays { Stays row.old row.new }
{
    write_both(above, below, Problem::Main, row);
    for tank in 0..row.tanks {
        write_both(above, below, Problem::Pinned(tank), row);
    }
}
