//! A town: texts that say the same as its text, and texts that don't; the numbers of its IDs.

use crate::words::bytes_of;
use hyd_inp::read_project;
use hyd_net::{Names, Project, same};
use std::alloc::{AllocError, Global};
use std::{fs, io};

/// Tries the rows, and says how many are as expected.
pub(crate) fn try_all(rt: &HostRuntime) -> io::Result<()> {
    let town = fs::read_to_string(rt, "networks/a-town.inp")?;
    match read_project(rt.alloc(), town.as_bytes()) {
        Ok(project) => try_rows(rt, town.as_str(), &project),
        Err(_) => rt.println("the town is refused"),
    }
}

/// The same where the town's network is there.
fn try_rows(rt: &HostRuntime, town: &str, project: &Project) -> io::Result<()> {
    let pieces = fs::read_to_string(rt, "networks/pieces-of-the-town.rows")?;
    let right = count_right(rt, town, pieces.as_str(), project)?;
    println!(rt; "pieces of the town: {right} rows as expected")?;
    let ids = fs::read_to_string(rt, "networks/ids-of-the-town.rows")?;
    let right = count_ids(rt, ids.as_str(), project)?;
    println!(rt; "ids of the town: {right} rows as expected")
}

/// How many rows of pieces are as expected: a row has a piece of the town, what stands in its place, and whether the network
/// is the same then. Those that aren't are printed.
fn count_right(rt: &HostRuntime, town: &str, rows: &str, project: &Project) -> io::Result<u32> {
    let mut right = 0u32;
    for row in rows.lines() {
        let (asked, expected) = row.rsplit_once(" : ").unwrap_or((row, ""));
        let text = rewritten(rt.alloc(), town, asked)?;
        if judged(rt.alloc(), &text, project) == expected {
            right = right.saturating_add(1);
        } else {
            println!(rt; "NOT AS EXPECTED: {row}")?;
        }
    }
    Ok(right)
}

/// The text of the town with a piece of it written as the row says, or an empty one where it hasn't the piece.
fn rewritten(alloc: Global, town: &str, asked: &str) -> Result<Vec<u8>, AllocError> {
    let (old, new) = asked.split_once(" => ").unwrap_or((asked, ""));
    let Some((front, back)) = town.split_once(old) else {
        return Ok(Vec::new(alloc));
    };
    let new = bytes_of(alloc, new)?;
    let mut text = Vec::from_slice(alloc, front.as_bytes())?;
    text.extend_from_slice(&new)?;
    text.extend_from_slice(back.as_bytes())?;
    Ok(text)
}

/// Whether a text describes the same network.
fn judged(alloc: Global, text: &[u8], project: &Project) -> &'static str {
    match read_project(alloc, text) {
        Ok(other) if same(&other, project) => "the same",
        Ok(_) => "another",
        Err(_) => "refused",
    }
}

/// How many rows of IDs are as expected: a row has an ID of a node or of a link, and its number. Those that aren't are printed.
fn count_ids(rt: &HostRuntime, rows: &str, project: &Project) -> io::Result<u32> {
    let mut right = 0u32;
    for row in rows.lines() {
        let (asked, expected) = row.rsplit_once(" : ").unwrap_or((row, ""));
        let number = match asked.split_once(' ') {
            Some(("node", id)) => number_of(&project.node_ids, id),
            Some((_, id)) => number_of(&project.link_ids, id),
            None => None,
        };
        if number == expected.parse::<u32>().ok() {
            right = right.saturating_add(1);
        } else {
            println!(rt; "NOT AS EXPECTED: {row}")?;
        }
    }
    Ok(right)
}

/// The number of an ID, if it is among the names.
fn number_of(names: &Names, id: &str) -> Option<u32> {
    names.number(id.as_bytes())
}
