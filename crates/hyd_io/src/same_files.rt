//! Which open files are one and the same, by whatever names they were opened: told by their device and their number
//! there.

use std::fs::{self, Files, Metadata, OpenFile};
use std::io::{self, ErrorKind};
use std::os::unix::fs::MetadataExt;

/// The name by which the system has the file that standard output goes into.
const STANDARD_OUTPUT: &str = "/proc/self/fd/1";

// Whether two files are one.
fn is_same(found: &Metadata, other: &Metadata) -> bool {
    other.dev() == found.dev() && other.ino() == found.ino()
}

/// Whether this is the file that is open.
pub(crate) fn is_open<F: OpenFile>(open: &Option<F>, found: &Metadata) -> io::Result<bool> {
    match open {
        Some(file) => Ok(is_same(found, &file.metadata()?)),
        None => Ok(false),
    }
}

/// Whether this is a file on a disk into which standard output goes. A terminal, a pipe or another device holds nothing
/// that could be lost; and where the system doesn't tell where standard output goes, it goes nowhere.
pub(crate) fn is_standard_output<R: Files>(rt: &R, found: &Metadata) -> bool {
    found.is_file()
        && match fs::metadata(rt, STANDARD_OUTPUT) {
            Ok(output) => is_same(found, &output),
            Err(_) => false,
        }
}

/// Why a file into which standard output goes is neither read nor written.
pub(crate) fn goes_there() -> io::Error {
    io::Error::new(ErrorKind::ResourceBusy, "standard output goes there")
}
