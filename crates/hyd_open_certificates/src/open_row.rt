//! A record of a certificate of version 4.

ghost use Rattle.std.specs.Prelude.{◌≡◌, ◌^◌, ◌<◌, pos, All, IfOk};
ghost use Rattle.hyd_open_certificates.specs.OpenLines.{open_header};
ghost use Rattle.hyd_open_certificates.specs.OpenRowView.{open_header_of};

use hyd_cert::Record;
use std::alloc::{AllocError as OutOfMemory, Global};

/// A record of one period that may begin and end between two seconds, with the counts of the certificate that it
/// stands in.
#[derive(Drop)]
pub struct OpenRow {
    /// The number of the period, the first second in which it begins, the longest that it lasts, the counts and the
    /// vectors. Its version is that of other certificates, and says nothing here.
    pub row: Record,
    /// In how many later seconds the period may begin.
    pub late: u32,
    /// The shortest that it lasts, in seconds.
    pub shortest: u32,
}

impl OpenRow {
    /// A record for a text of so many junctions and tanks, in which all is 0.
    pub fn open(alloc: Global, junctions: u32, tanks: u32) -> Result<OpenRow, OutOfMemory>
        ensures header { IfOk result (λ found. open_header_of found ≡ open_header junctions tanks) }
        ensures number { IfOk result (λ found. (found.row.number ≡ 0) × (found.row.time ≡ 0)
            × (found.row.length ≡ 0)) }
        ensures open { IfOk result (λ found. (found.late ≡ 0) × (found.shortest ≡ 0)) }
        ensures heads { IfOk result (λ found. All (λ h. h ≡ pos 0) found.row.vectors.list) }
    {
        Ok(OpenRow {
            row: Record::open(alloc, 1, junctions, tanks)?,
            late: 0,
            shortest: 0,
        })
    }
}

// A number is below 2^32.
fn is_small(number: u32)
    ensures { number < 2 ^ 32 }
{
    let _ = number;
}

/// The counts of a record are below 2^32.
pub(crate) fn has_small_counts(found: &OpenRow)
    ensures junctions { found.now.row.junctions < 2 ^ 32 }
    ensures tanks { found.now.row.tanks < 2 ^ 32 }
{
    is_small(found.row.junctions);
    is_small(found.row.tanks);
}
