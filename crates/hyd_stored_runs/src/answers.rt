//! What a command does on a desk in memory, as a text: what it prints, how it ends, and the files that it makes.

use hyd_cli::{Status, tool};
use hyd_io::MemDesk;
use std::alloc::Global;
use std::io::Write;
use std::{fs, io};

/// Puts those files on a desk that words of a command name, as far as they lie on the disk.
pub(crate) fn put_files(rt: &HostRuntime, words: &[String], desk: &mut MemDesk) -> io::Result<()> {
    for word in words {
        if let Ok(bytes) = fs::read(rt, word.as_str()) {
            desk.add(word.as_str(), &bytes)?;
        }
    }
    Ok(())
}

/// Writes what a command did on a desk: what it printed, its status and its calls, and the files that it made.
pub(crate) fn write_answer(
    rt: &HostRuntime,
    words: &[String],
    status: Status,
    desk: &MemDesk,
    out: &mut Vec<u8>,
) -> io::Result<()> {
    out.extend_from_slice(desk.printed())?;
    write_calls(status, desk, out)?;
    for word in words {
        if let Some(bytes) = desk.file(word.as_str()) {
            write_new(rt, word.as_str(), bytes, out)?;
        }
    }
    Ok(())
}

/// Writes the status, and how often the desk was called.
fn write_calls(status: Status, desk: &MemDesk, out: &mut Vec<u8>) -> io::Result<()> {
    let openings = desk.openings();
    write!(
        out,
        "status {}, opened {}, ",
        status.number(),
        openings.opened
    )?;
    write!(
        out,
        "created {}, writes {}, ",
        openings.created,
        desk.writes()
    )?;
    write!(out, "prints {}\n", desk.prints())
}

/// Writes the bytes of a file that isn't on the disk, or not as it is there. Vectors that aren't tight are not determined:
/// a certificate of such goes to a file named `.wide`, which isn't shown.
fn write_new(rt: &HostRuntime, name: &str, bytes: &[u8], out: &mut Vec<u8>) -> io::Result<()> {
    if name.ends_with(".wide") || lies_there(rt, name, bytes) {
        return Ok(());
    }
    write!(out, "{name}:\n")?;
    out.extend_from_slice(bytes)?;
    Ok(())
}

/// Whether a file with these bytes lies on the disk.
pub(crate) fn lies_there(rt: &HostRuntime, name: &str, bytes: &[u8]) -> bool {
    match fs::read(rt, name) {
        Ok(found) => found.as_slice() == bytes,
        Err(_) => false,
    }
}

/// The status of a command on a desk in memory.
pub(crate) fn status_on(alloc: Global, words: &[String], desk: &mut MemDesk) -> Status {
    tool(alloc, words, desk)
}
