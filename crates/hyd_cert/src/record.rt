//! A record of a certificate.

ghost use Rattle.std.specs.Prelude.{◌≡◌, ◌≢◌, ◌+◌, ◌*◌, ◌^◌, ◌<◌, ◌≤◌, pos, All, length, IfOk, OnOk};
ghost use Rattle.hyd_cert.specs.VectorsOfRecord.{AreVectors, place_in};

use hyd_net::List;
use hyd_spec_certificates::{Problem, Side};
use std::alloc::{AllocError as OutOfMemory, Global};

/// A record of one period, with the version and the counts of the certificate that it stands in.
#[derive(Drop)]
pub struct Record {
    /// The version of the certificate's text, 1 or 2.
    pub version: u32,
    /// The number of the period, counted from 0.
    pub number: u32,
    /// When the period begins, in seconds.
    pub time: u32,
    /// How long it lasts, in seconds.
    pub length: u32,
    /// The number of junctions.
    pub junctions: u32,
    /// The number of tanks.
    pub tanks: u32,
    /// The vectors one after another, a head in ticks for each junction: with all tanks alike, the UPPER one and the
    /// LOWER one, then these two with each tank pinned in turn.
    pub vectors: List<i64>,
    ghost least: { 1 ≤ version },
    ghost most: { version ≤ 2 },
    ghost whole: { AreVectors junctions tanks vectors.list },
}

impl Record {
    ghost use Rattle.hyd_spec_certificates.specs.RecordAndStanding.{vector_of};
    ghost use Rattle.hyd_cert.specs.RecordView.{header_of, row_of, IsProblemOf};

    /// A record for a text of this version, 1 or 2, and for so many junctions and tanks, in which all is 0.
    pub fn open(
        alloc: Global,
        version: u32,
        junctions: u32,
        tanks: u32,
    ) -> Result<Record, OutOfMemory>
        requires { (1 ≤ version) × (version ≤ 2) }
        ensures header { IfOk result (λ row. header_of row
            ≡ record { version = version; junctions = junctions; tanks = tanks }) }
        ensures number { IfOk result (λ row. (row.number ≡ 0) × (row.time ≡ 0) × (row.length ≡ 0)) }
        ensures heads { IfOk result (λ row. All (λ h. h ≡ pos 0) row.vectors.list) }
    {
        let mut vectors = List::new(alloc);
        for _ in 0..2 + 2 * u64::from(tanks) {
            add_zeros(&mut vectors, junctions)?;
        }
        Ok(Record {
            version,
            number: 0,
            time: 0,
            length: 0,
            junctions,
            tanks,
            vectors,
        })
    }

    /// Where the vector of a problem and side begins in `vectors`, of a tank that the record has. It has a head for
    /// each junction.
    pub fn start_of(&self, problem: Problem, side: Side) -> usize
        requires { IsProblemOf self.now.tanks problem }
        ensures start { result ≡ place_in problem side * self.now.junctions }
        ensures within { result + self.now.junctions ≤ length self.now.vectors.list }
    {
        let _heads = self.vectors.as_slice();
        place_of(problem, side) * self.junctions as usize
    }

    /// The vector of a problem and side, of a tank that the record has.
    pub fn vector(&self, problem: Problem, side: Side) -> &[i64]
        requires { IsProblemOf self.now.tanks problem }
        ensures { result.now ≡ vector_of (row_of self.now) problem side }
    {
        let junctions = self.junctions as usize;
        let from = self.start_of(problem, side);
        let all = self.vectors.as_slice();
        &all[from..from + junctions]
    }

    /// Writes the vector of a problem and side, of a tank that the record has, in place.
    pub fn set_vector(&mut self, problem: Problem, side: Side, heads: &[i64])
        requires problem { IsProblemOf self.old.tanks problem }
        requires size { length heads.now ≡ self.old.junctions }
        ensures vector { vector_of (row_of self.new) problem side ≡ heads.now }
        ensures others { (other : Problem) (face : Side) → IsProblemOf self.old.tanks other
            → place_in other face ≢ place_in problem side
            → vector_of (row_of self.new) other face ≡ vector_of (row_of self.old) other face }
        ensures header { header_of self.new ≡ header_of self.old }
        ensures number { self.new.number ≡ self.old.number }
        ensures time { self.new.time ≡ self.old.time }
        ensures length { self.new.length ≡ self.old.length }
    {
        let junctions = self.junctions as usize;
        let from = self.start_of(problem, side);
        let all = self.vectors.as_mut_slice();
        all[from..from + junctions].copy_from_slice(heads);
    }
}

/// Appends so many heads of 0.
pub(crate) fn add_zeros(vectors: &mut List<i64>, count: u32) -> Result<(), OutOfMemory>
    ensures length { OnOk result (length vectors.new.list ≡ length vectors.old.list + count) }
    ensures zeros { All (λ h. h ≡ pos 0) vectors.old.list → All (λ h. h ≡ pos 0) vectors.new.list }
{
    vectors.reserve(count as usize)?;
    for _ in 0..count {
        vectors.push(0)?;
    }
    Ok(())
}

/// The number of the vector of a problem and side among those of a record.
fn place_of(problem: Problem, side: Side) -> usize
    ensures { result ≡ place_in problem side }
{
    let number = match problem {
        Problem::Main => 0,
        Problem::Pinned(tank) => tank as usize + 1,
    };
    match side {
        Side::Upper => 2 * number,
        Side::Lower => 2 * number + 1,
    }
}

// A number is below 2^32.
fn is_small(number: u32)
    ensures { number < 2 ^ 32 }
{
    let _ = number;
}

/// The counts of a record are below 2^32.
pub(crate) fn has_small_counts(row: &Record)
    ensures junctions { row.now.junctions < 2 ^ 32 }
    ensures tanks { row.now.tanks < 2 ^ 32 }
{
    is_small(row.junctions);
    is_small(row.tanks);
}

/// The numbers of a record are below 2^32.
pub fn has_small_numbers(row: &Record)
    ensures number { row.now.number < 2 ^ 32 }
    ensures time { row.now.time < 2 ^ 32 }
    ensures length { row.now.length < 2 ^ 32 }
{
    is_small(row.number);
    is_small(row.time);
    is_small(row.length);
}
