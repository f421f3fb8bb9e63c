//! Texts that are too long to lie in files: one at a limit, and those one beyond it.

use crate::files_and_words::{tell, words_in};
use hyd_cli::{Status, tool};
use hyd_io::MemDesk;
use std::alloc::{AllocError, Global};
use std::fmt::Write;
use std::io;

/// Tries a network of the most junctions and of one more, and a text of 64 MiB and a byte.
pub(crate) fn try_all(rt: &HostRuntime) -> io::Result<()> {
    let alloc = rt.alloc();
    let most = refuses_junctions(alloc, 10_000, b"REFUSED line 0 cause 8 detail 0\n")?;
    tell(rt, "10,000 junctions without a source", most)?;
    let more = refuses_junctions(alloc, 10_001, b"REFUSED line 10005 cause 7 detail 4\n")?;
    tell(rt, "10,001 junctions", more)?;
    tell(rt, "a text of 64 MiB and a byte", refuses_spaces(alloc)?)
}

/// Whether a text of so many junctions, which has no source, is refused so.
fn refuses_junctions(alloc: Global, count: u32, line: &[u8]) -> Result<bool, AllocError> {
    let mut text = String::from_str(alloc, "[OPTIONS]\nUNITS CMD\nHEADLOSS C-M\n[JUNCTIONS]\n")?;
    for number in 0..count {
        write!(text, "J{number} 0 0\n")?;
    }
    is_refused(alloc, text.as_bytes(), line)
}

/// Whether spaces are refused as too long a text.
fn refuses_spaces(alloc: Global) -> Result<bool, AllocError> {
    let text = vec![in alloc; b' '; 64 * 1024 * 1024 + 1]?;
    is_refused(alloc, &text, b"REFUSED line 0 cause 7 detail 1\n")
}

/// Whether the run of a text prints this line alone, opens NET alone and creates nothing.
fn is_refused(alloc: Global, text: &[u8], line: &[u8]) -> Result<bool, AllocError> {
    let words = words_in(alloc, "run n.inp n.cert --tight")?;
    let mut desk = MemDesk::new(alloc);
    desk.add("n.inp", text)?;
    let status = tool(alloc, &words, &mut desk);
    let openings = desk.openings();
    Ok(
        status == Status::InputRefused
            && desk.printed() == line
            && openings.opened == 1
            && openings.created == 0,
    )
}
