//! What no clause says of desks and pens: that calls succeed with ample memory, which fault a call that fails or takes
//! nothing comes to, and how few calls a pen makes.

ghost use Rattle.std.specs.Prelude.{IsTrue};
ghost use Rattle.hyd_io.specs.DeskInMemoryView.{memory};
ghost use Rattle.hyd_io.specs.Output.{OnCert};

use crate::words::{number_at, small_at, word_at};
use hyd_io::{Channel, Desk, InFault, MemDesk, OutFault, Pen, read_all};
use std::alloc::{AllocError, Global};
use std::fmt::Write;

/// Copies a file of four bytes to another and to standard output, by six calls, and says where that ended.
fn copied(alloc: Global, desk: &mut MemDesk) -> &'static str {
    if desk.open("in").is_err() {
        return "open fails";
    }
    let bytes = match read_all(alloc, desk, 4) {
        Ok(bytes) => bytes,
        Err(InFault::Fault) => return "read fails",
        Err(_) => return "read ends otherwise",
    };
    if desk.create("out").is_err() {
        return "create fails";
    }
    match put_pieces(desk, Channel::Cert, &bytes) {
        Ok(()) => printed(desk, &bytes),
        Err(OutFault::Fault) => "write fails",
        Err(OutFault::Stalled) => "write takes nothing",
    }
}

/// Prints the bytes, and says how that ended.
fn printed(desk: &mut MemDesk, bytes: &[u8]) -> &'static str {
    match put_pieces(desk, Channel::Report, bytes) {
        Ok(()) => "done",
        Err(OutFault::Fault) => "print fails",
        Err(OutFault::Stalled) => "print takes nothing",
    }
}

/// Puts the bytes out by a pen, a thousand at a time.
fn put_pieces(desk: &mut MemDesk, to: Channel, bytes: &[u8]) -> Result<(), OutFault>
    requires { OnCert to (IsTrue (memory desk.old).ready) }
{
    let mut pen = Pen::new(to);
    for piece in bytes.chunks(1000) {
        pen.put(desk, piece)?;
    }
    pen.flush(desk)
}

/// Where the copy ends on a desk whose call of a number fails or takes nothing: `fail N` or `starve N`.
pub(crate) fn put_copy(alloc: Global, asked: &str, out: &mut String) -> Result<(), AllocError> {
    let mut desk = MemDesk::new(alloc);
    desk.add("in", b"1234")?;
    let call = small_at(asked, 1);
    if word_at(asked, 0) == "fail" {
        desk.fail(call)?;
    } else {
        desk.starve(call)?;
    }
    out.push_str(copied(alloc, &mut desk))
}

/// How often the desk is called where so many bytes are put into a file, and how often where they are printed.
pub(crate) fn put_calls_of_pen(
    alloc: Global,
    asked: &str,
    out: &mut String,
) -> Result<(), AllocError> {
    let length = usize::try_from(number_at(asked, 0)).unwrap_or(0);
    let bytes = vec![in alloc; 7u8; length]?;
    let mut desk = MemDesk::new(alloc);
    if !are_put_out(&mut desk, &bytes) {
        return out.push_str("not put out");
    }
    write!(out, "{} {}", desk.writes(), desk.prints())
}

/// Puts the bytes into a file and prints them, and says whether they are found there.
fn are_put_out(desk: &mut MemDesk, bytes: &[u8]) -> bool {
    if desk.create("out").is_err() {
        return false;
    }
    if put_pieces(desk, Channel::Cert, bytes).is_err() {
        return false;
    }
    if put_pieces(desk, Channel::Report, bytes).is_err() {
        return false;
    }
    desk.file("out") == Some(bytes) && desk.printed() == bytes
}

/// What a pen answers whose first print fails or takes nothing, at each of four calls, and how often it prints.
pub(crate) fn put_answers_of_pen(
    alloc: Global,
    asked: &str,
    out: &mut String,
) -> Result<(), AllocError> {
    let mut desk = MemDesk::new(alloc);
    if asked == "fail" {
        desk.fail(1)?;
    } else {
        desk.starve(1)?;
    }
    let mut pen = Pen::new(Channel::Report);
    out.push_str(answer_word(pen.put(&mut desk, b"front")))?;
    out.push_str(answer_word(pen.flush(&mut desk)))?;
    out.push_str(answer_word(pen.put(&mut desk, b"more")))?;
    out.push_str(answer_word(pen.flush(&mut desk)))?;
    write!(
        out,
        "{} print of {} bytes",
        desk.prints(),
        desk.printed().len()
    )
}

/// The word of what a pen answers.
fn answer_word(answer: Result<(), OutFault>) -> &'static str {
    match answer {
        Ok(()) => "well, ",
        Err(OutFault::Fault) => "fault, ",
        Err(OutFault::Stalled) => "stalled, ",
    }
}
