//! Files that are opened to be read.

use crate::same_files::{goes_there, is_standard_output};
use std::fs::{self, Files, OpenFile};
use std::io;

/// Opens the file of this name to be read, if standard output doesn't go into it.
pub(crate) fn open_file<R: Files>(rt: &R, name: &str) -> io::Result<R::File> {
    let file = fs::open(rt, name)?;
    if is_standard_output(rt, &file.metadata()?) {
        return Err(goes_there());
    }
    Ok(file)
}
