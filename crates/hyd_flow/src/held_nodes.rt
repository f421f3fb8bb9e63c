//! The first node of a link, held at a head.

ghost use Rattle.std.specs.Prelude.{◌≡◌, ◌<◌, length};
ghost use Rattle.hyd_cert.specs.RecordView.{row_of};
ghost use Rattle.hyd_spec_certificates.specs.BoxesWithHeldJunction.{held_in};
ghost use Rattle.hyd_spec_certificates.specs.PeriodNetwork.{opposite};
ghost use Rattle.hyd_spec_certificates.specs.RecordAndStanding.{vector_of};
ghost use Rattle.hyd_spec_certificates.specs.declared.Problem.TheVariants.{Main};

use hyd_cert::Record;
use hyd_spec_certificates::{HeldJunction, Problem, Side};
use hyd_vector_check::head_of;

/// The other side.
pub(crate) fn opposite(side: Side) -> Side
    ensures { result ≡ opposite side }
{
    match side {
        Side::Upper => Side::Lower,
        Side::Lower => Side::Upper,
    }
}

/// A junction held for a side at its head in the record's vector of the other side.
pub(crate) fn held_for(row: &Record, from: u32, side: Side) -> HeldJunction
    requires inside { from < length (vector_of (row_of row.now) Main (opposite side)) }
    ensures { result ≡ held_in (vector_of (row_of row.now) Main (opposite side)) from }
{
    let heads = row.vector(Problem::Main, opposite(side));
    HeldJunction {
        junction: from,
        head: head_of(heads, from),
    }
}
