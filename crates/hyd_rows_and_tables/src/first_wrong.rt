//! The first wrong row among rows.
#![tactic(auto)]

ghost use Rattle.std.specs.Prelude.{◌≡◌};
ghost use Rattle.hyd_rows_and_tables.specs.FirstWrongRow as faults;

use hyd_net::Cause;

/// A wrong row.
#[derive(Clone, Copy, Drop)]
pub struct Found {
    /// Its place among the rows, counted from 0.
    pub place: usize,
    /// Its line in the text, counted from 1.
    pub line: u32,
    /// What is wrong with it.
    pub cause: Cause,
}

/// The wrong row that was found first, or else what is wrong at the next place.
pub fn kept(found: Option<Found>, place: usize, line: u32, cause: Option<Cause>) -> Option<Found>
    ensures { result ≡ faults.kept found place line cause }
{
    match found {
        Some(found) => Some(found),
        None => match cause {
            Some(cause) => Some(Found { place, line, cause }),
            None => None,
        },
    }
}

/// The one of two wrong rows that stands first.
pub fn least(one: Option<Found>, other: Option<Found>) -> Option<Found>
    ensures { result ≡ faults.least one other }
{
    match one {
        None => other,
        Some(one) => match other {
            None => Some(one),
            Some(other) => {
                if other.place < one.place {
                    Some(other)
                } else {
                    Some(one)
                }
            }
        },
    }
}
