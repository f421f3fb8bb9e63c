//! Cases: commands on desks in memory, each with its answer in a file beside it.

use crate::answers::{lies_there, put_files, status_on, write_answer};
use crate::checks_behind::holds_behind;
use crate::files_and_words::{first_word, tell, text_of, words_in};
use hyd_io::MemDesk;
use std::alloc::{AllocError, Global};
use std::io;

/// Tries each case of the lists. A line is the name of a case and the words of a command, in the second list with
/// `fail N` or `starve N` before them: the call of that number fails, or takes nothing.
pub(crate) fn try_all(rt: &HostRuntime) -> io::Result<()> {
    let cases = text_of(rt, "cases.txt")?;
    for line in cases.lines() {
        let (name, command) = first_word(line);
        try_case(rt, name, "", command)?;
    }
    let faults = text_of(rt, "faults.txt")?;
    for line in faults.lines() {
        let (name, rest) = first_word(line);
        let (fault, command) = rest.split_once(": ").unwrap_or((rest, ""));
        try_case(rt, name, fault, command)?;
    }
    Ok(())
}

/// Tries a case under a fault, if one is named.
fn try_case(rt: &HostRuntime, name: &str, fault: &str, command: &str) -> io::Result<()> {
    let words = words_in(rt.alloc(), command)?;
    let mut answer = Vec::new(rt.alloc());
    let holds = do_command(rt, &words, fault, &mut answer)?;
    tell_case(rt, name, &answer, holds)
}

/// Does a command on a desk of its own, writes what it did, and says whether the checks behind it hold.
fn do_command(
    rt: &HostRuntime,
    words: &[String],
    fault: &str,
    answer: &mut Vec<u8>,
) -> io::Result<bool> {
    let mut desk = MemDesk::new(rt.alloc());
    put_files(rt, words, &mut desk)?;
    set_fault(&mut desk, fault)?;
    let status = status_on(rt.alloc(), words, &mut desk);
    write_answer(rt, words, status, &desk, answer)?;
    Ok(fault != "" || holds_behind(rt.alloc(), words, status, &mut desk)?)
}

/// Sets the fault of a desk.
fn set_fault(desk: &mut MemDesk, fault: &str) -> Result<(), AllocError> {
    let (kind, number) = first_word(fault);
    match number.parse::<u32>() {
        Ok(number) if kind == "fail" => desk.fail(number),
        Ok(number) => desk.starve(number),
        Err(_) => Ok(()),
    }
}

/// Says whether an answer is the one beside a case, and prints it if it isn't.
fn tell_case(rt: &HostRuntime, name: &str, answer: &[u8], holds: bool) -> io::Result<()> {
    let file = format!(in rt.alloc(); "{name}.out")?;
    let is_expected = lies_there(rt, file.as_str(), answer);
    tell(rt, name, is_expected && holds)?;
    if is_expected {
        Ok(())
    } else {
        rt.write_all(answer)
    }
}
