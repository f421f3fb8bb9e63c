//! The summary.

ghost use Rattle.std.specs.Prelude.{◌++◌, IsTrue, codes, decimal};
ghost use Rattle.hyd_io.specs.Output.{OnCert};
ghost use Rattle.hyd_spec_summary.specs.Summary.{summary_line};
ghost use Rattle.hyd_io.specs.TextPutIn.{Puts};

use hyd_io::{Desk, OutFault, Pen, put_number};

// Puts a text and the number behind it.
fn put_counted<D: Desk>(
    text: &[u8],
    number: u128,
    pen: &mut Pen,
    desk: &mut D,
) -> Result<(), OutFault>
    requires { OnCert pen.old.to (IsTrue (D.ready desk.old)) }
    ensures { Puts D.files D.rest D.written D.printed D.target D.ready D.counts D.openings
        (text.now ++ decimal number) result pen.old pen.new desk.old desk.new }
{
    pen.put(desk, text)?;
    put_number(number, pen, desk)
}

// Puts two texts, each with the number behind it.
fn put_two_counted<D: Desk>(
    first: &[u8],
    one: u128,
    second: &[u8],
    other: u128,
    pen: &mut Pen,
    desk: &mut D,
) -> Result<(), OutFault>
    requires { OnCert pen.old.to (IsTrue (D.ready desk.old)) }
    ensures { Puts D.files D.rest D.written D.printed D.target D.ready D.counts D.openings
        ((first.now ++ decimal one) ++ (second.now ++ decimal other)) result pen.old pen.new desk.old desk.new }
{
    put_counted(first, one, pen, desk)?;
    put_counted(second, other, pen, desk)
}

// Puts how many periods and events there were, and the line feed.
fn put_run_counts<D: Desk>(
    periods: u32,
    events: u128,
    pen: &mut Pen,
    desk: &mut D,
) -> Result<(), OutFault>
    requires { OnCert pen.old.to (IsTrue (D.ready desk.old)) }
    ensures { Puts D.files D.rest D.written D.printed D.target D.ready D.counts D.openings
        (((codes " periods " ++ decimal periods) ++ (codes " events " ++ decimal events)) ++ codes "\n")
        result pen.old pen.new desk.old desk.new }
{
    put_two_counted(
        b" periods ",
        u128::from(periods),
        b" events ",
        events,
        pen,
        desk,
    )?;
    pen.put(desk, b"\n")
}

/// What the first line of a summary counts.
#[derive(Clone, Copy)]
pub(crate) struct Counts {
    pub(crate) junctions: usize,
    pub(crate) links: usize,
    pub(crate) periods: u32,
    pub(crate) events: u128,
}

/// Puts the line of the counts.
pub(crate) fn put_counts<D: Desk>(
    counts: Counts,
    pen: &mut Pen,
    desk: &mut D,
) -> Result<(), OutFault>
    requires { OnCert pen.old.to (IsTrue (D.ready desk.old)) }
    ensures { Puts D.files D.rest D.written D.printed D.target D.ready D.counts D.openings
        (summary_line counts.junctions counts.links counts.periods counts.events)
        result pen.old pen.new desk.old desk.new }
{
    put_two_counted(
        b"SUMMARY junctions ",
        counts.junctions as u128,
        b" links ",
        counts.links as u128,
        pen,
        desk,
    )?;
    put_run_counts(counts.periods, counts.events, pen, desk)
}
