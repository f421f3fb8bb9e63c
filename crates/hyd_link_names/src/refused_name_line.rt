//! The line of a name that is refused.

ghost use Rattle.std.specs.Prelude.{◌≡◌, ◌++◌, codes, decimal, IsTrue};
ghost use Rattle.hyd_io.specs.Output.{OnCert};
ghost use Rattle.hyd_io.specs.TextPutIn.{Puts};
ghost use Rattle.hyd_spec_named_links.specs.RefusedNames.{refused_name_line};
ghost use Rattle.hyd_link_names.specs.WordsBeforePlace.{words_before_place};

use hyd_io::{Desk, OutFault, Pen, put_number};
use hyd_spec_named_links::NameFails;

// The words up to the place.
fn words_before_place(cause: NameFails) -> &'static [u8]
    ensures { result.now ≡ words_before_place cause }
{
    match cause {
        NameFails::NoLink => b"REFUSED line 0 cause 5 detail ",
        NameFails::NotBetweenJunctions => b"REFUSED line 0 cause 3 detail ",
    }
}

// Puts the place and the end of the line.
fn put_place<D: Desk>(place: u32, pen: &mut Pen, desk: &mut D) -> Result<(), OutFault>
    requires { OnCert pen.old.to (IsTrue (D.ready desk.old)) }
    ensures { Puts D.files D.rest D.written D.printed D.target D.ready D.counts D.openings
        (decimal place ++ codes "\n") result pen.old pen.new desk.old desk.new }
{
    put_number(u128::from(place), pen, desk)?;
    pen.put(desk, b"\n")
}

/// Puts the line of a name that is refused, by its place among the names, counted from 1, and its cause. Its faults
/// and its needs are those of `Pen::put`.
pub fn put_refused_name<D: Desk>(
    place: u32,
    cause: NameFails,
    pen: &mut Pen,
    desk: &mut D,
) -> Result<(), OutFault>
    requires { OnCert pen.old.to (IsTrue (D.ready desk.old)) }
    ensures { Puts D.files D.rest D.written D.printed D.target D.ready D.counts D.openings
        (refused_name_line place cause) result pen.old pen.new desk.old desk.new }
{
    pen.put(desk, words_before_place(cause))?;
    put_place(place, pen, desk)
}
