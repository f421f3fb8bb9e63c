//! Whether somebody watches standard error.

use std::fs::{self, Files};
use std::os::unix::fs::MetadataExt;

/// The name by which the system has the file that standard error goes into.
const STANDARD_ERROR: &str = "/proc/self/fd/2";

/// The folder of the terminals that windows and connections open.
const TERMINALS: &str = "/dev/pts";

/// Whether standard error is a terminal: one of the folder of terminals, which is a device of its own. Where the system
/// doesn't tell, it is none.
pub(crate) fn is_watched<R: Files>(rt: &R) -> bool {
    match (
        fs::metadata(rt, STANDARD_ERROR),
        fs::metadata(rt, TERMINALS),
    ) {
        (Ok(file), Ok(folder)) => !file.is_file() && file.dev() == folder.dev(),
        _ => false,
    }
}
