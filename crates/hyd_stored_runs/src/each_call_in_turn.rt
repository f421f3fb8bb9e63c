//! Each call on a desk fails in turn, and each write and print takes nothing in turn: the status says so, nothing more is
//! called, and what was written and printed are beginnings of what the command writes and prints without a fault.

use crate::answers::{put_files, status_on};
use crate::files_and_words::{first_word, tell, text_of, words_in};
use hyd_cli::Status;
use hyd_io::{Desk, MemDesk};
use std::alloc::AllocError;
use std::io;

/// Tries each command of the list. A line has its name, the calls that it makes in order (o opens, r reads, c creates,
/// w writes, p prints; pens and the reader of certificates hold 8,192 bytes), and its words.
pub(crate) fn try_all(rt: &HostRuntime) -> io::Result<()> {
    let list = text_of(rt, "calls.txt")?;
    for line in list.lines() {
        let (name, rest) = first_word(line);
        let (calls, command) = first_word(rest);
        let words = words_in(rt.alloc(), command)?;
        tell(rt, name, ends_at_each(rt, &words, calls.as_bytes())?)?;
    }
    Ok(())
}

/// Whether a command ends as it is to at each of its calls, and calls nothing behind them.
fn ends_at_each(rt: &HostRuntime, words: &[String], calls: &[u8]) -> io::Result<bool> {
    let mut whole = MemDesk::new(rt.alloc());
    put_files(rt, words, &mut whole)?;
    status_on(rt.alloc(), words, &mut whole);
    let mut number = 0u32;
    for call in calls {
        number = number.saturating_add(1);
        if !ends_both(rt, words, &whole, number, *call)? {
            return Ok(false);
        }
    }
    ends_so(
        rt,
        words,
        &whole,
        number.saturating_add(1),
        false,
        Status::Done,
    )
}

/// Whether a command ends as it is to where the call of this number fails, and where it takes nothing.
fn ends_both(
    rt: &HostRuntime,
    words: &[String],
    whole: &MemDesk,
    number: u32,
    call: u8,
) -> io::Result<bool> {
    if !ends_so(
        rt,
        words,
        whole,
        number,
        false,
        expected_status(call, false),
    )? {
        return Ok(false);
    }
    if call != b'w' && call != b'p' {
        return Ok(true);
    }
    ends_so(rt, words, whole, number, true, expected_status(call, true))
}

/// The status of a command whose call fails or takes nothing.
fn expected_status(call: u8, starves: bool) -> Status {
    match call {
        b'o' | b'r' => Status::ReadFault,
        _ if starves => Status::Stalled,
        _ => Status::WriteFault,
    }
}

/// Whether a command ends with a status where the call of this number fails or takes nothing, and calls nothing behind
/// it: the call behind it is to fail too, and is this function's own.
fn ends_so(
    rt: &HostRuntime,
    words: &[String],
    whole: &MemDesk,
    number: u32,
    starves: bool,
    wanted: Status,
) -> io::Result<bool> {
    let mut desk = MemDesk::new(rt.alloc());
    put_files(rt, words, &mut desk)?;
    set_calls(&mut desk, number, starves)?;
    let status = status_on(rt.alloc(), words, &mut desk);
    Ok(desk.print(b"x").is_err() && status == wanted && holds_fronts(words, &desk, whole))
}

/// The call of this number is to fail or to take nothing, and the one behind it is to fail.
fn set_calls(desk: &mut MemDesk, number: u32, starves: bool) -> Result<(), AllocError> {
    if starves {
        desk.starve(number)?;
    } else {
        desk.fail(number)?;
    }
    desk.fail(number.saturating_add(1))
}

/// Whether a desk holds beginnings of what another one holds.
fn holds_fronts(words: &[String], desk: &MemDesk, whole: &MemDesk) -> bool {
    for word in words {
        if !is_front(desk.file(word.as_str()), whole.file(word.as_str())) {
            return false;
        }
    }
    whole.printed().starts_with(desk.printed())
}

/// Whether some bytes are a beginning of others, where both are there.
fn is_front(front: Option<&[u8]>, whole: Option<&[u8]>) -> bool {
    match (front, whole) {
        (None, _) => true,
        (Some(_), None) => false,
        (Some(front), Some(whole)) => whole.starts_with(front),
    }
}
