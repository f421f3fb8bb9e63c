//! The words that a system gives: the program's name before them, or none where they fail as a whole.

use crate::files_and_words::{tell, words_in};
use hyd_cli::{Status, start};
use hyd_io::MemDesk;
use std::alloc::{AllocError, Global};
use std::{fs, io};

/// Tries words behind a name, and words that fail.
pub(crate) fn try_all(rt: &HostRuntime) -> io::Result<()> {
    let alloc = rt.alloc();
    let text = fs::read(rt, "valves/a-valve.inp")?;
    let expected = fs::read(rt, "valves/a-valve.out")?;
    let runs = runs_behind_name(alloc, &text, &expected)?;
    tell(rt, "words behind the program's name", runs)?;
    tell(rt, "words that fail as a whole", fail_as_usage(alloc))
}

/// Whether the words behind a name are the command: the run of a text prints what is expected.
fn runs_behind_name(alloc: Global, text: &[u8], expected: &[u8]) -> Result<bool, AllocError> {
    let given = words_in(alloc, "hyd run n.inp n.cert --tight")?;
    let mut desk = MemDesk::new(alloc);
    desk.add("n.inp", text)?;
    let status = start(alloc, Ok(given.into_iter()), &mut desk);
    Ok(status == Status::Done && !desk.printed().is_empty() && expected.starts_with(desk.printed()))
}

/// What is printed where words are no command.
const USAGE: &str =
    "USAGE hyd run NET CERT [--sweeps N] [--width W] [--tight] [--flows IDS] [--slack N] [--spread FILE] or check NET CERT [--spread FILE] or gen SEED JUNCTIONS NET CERT or fire NET J P [--sweeps N] [--spread FILE] or closures NET P [--sweeps N] [--spread FILE] or witness NET CERT OUT or meet NET FILE\n";

/// Whether words that failed as a whole are those of no command.
fn fail_as_usage(alloc: Global) -> bool {
    let mut desk = MemDesk::new(alloc);
    let failed = Err(io::Error::from(io::ErrorKind::InvalidData));
    let status = start(alloc, failed, &mut desk);
    status == Status::Usage && desk.printed() == USAGE.as_bytes()
}
