//! Stored runs. The program runs each command line of `commands.txt` on the files of `data/`, and prints what the command
//! prints, its status and, behind a run or a search, the bytes of CERT or OUT. Then it tries the cases of `cases.txt` and
//! `faults.txt` on desks in memory, each of which has what is expected in a file beside its own, and what needs no such
//! file.
#![tactic(auto)]

mod answers;
mod cases;
mod checks_behind;
mod commands;
mod cut_certificates;
mod each_call_in_turn;
mod files_and_words;
mod long_texts;
mod words_of_system;

use std::io;

/// Runs the command lines, and tries the rest.
fn main(rt: HostRuntime) -> io::Result<()> {
    commands::run_all(&rt)?;
    cases::try_all(&rt)?;
    each_call_in_turn::try_all(&rt)?;
    cut_certificates::try_all(&rt)?;
    long_texts::try_all(&rt)?;
    words_of_system::try_all(&rt)
}
