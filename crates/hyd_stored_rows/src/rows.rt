//! Files of rows.

use crate::kinds::{KINDS, Kind, write_answer};
use std::{fs, io};

/// Tries the rows of each kind.
pub(crate) fn try_all(rt: &HostRuntime) -> io::Result<()> {
    for (name, kind) in KINDS {
        try_kind(rt, name, kind)?;
    }
    Ok(())
}

/// Tries the rows of a kind, and says how many are as expected.
fn try_kind(rt: &HostRuntime, name: &str, kind: Kind) -> io::Result<()> {
    let file = format!(in rt.alloc(); "rows/{name}.rows")?;
    let text = fs::read_to_string(rt, file.as_str())?;
    let mut right = 0u32;
    for row in text.lines() {
        if is_right(rt, kind, row)? {
            right = right.saturating_add(1);
        }
    }
    println!(rt; "{name}: {right} rows as expected")
}

/// Whether a row is as expected. What is worked out is printed where it isn't.
fn is_right(rt: &HostRuntime, kind: Kind, row: &str) -> io::Result<bool> {
    let (asked, expected) = row.split_once(" : ").unwrap_or((row, ""));
    let mut answer = String::new(rt.alloc());
    write_answer(rt.alloc(), kind, asked, &mut answer)?;
    if answer.as_str() == expected {
        return Ok(true);
    }
    println!(rt; "NOT AS EXPECTED: {asked} : {answer}")?;
    Ok(false)
}
