//! Words that aren't a command, and what is said of them.

use hyd_help::WrongWords;
use std::alloc::{AllocError, Global};
use std::{fs, io};

/// The words of a line.
fn words_in(alloc: Global, line: &str) -> Result<Vec<String>, AllocError> {
    let mut words = Vec::new(alloc);
    for word in line.split_ascii_whitespace() {
        words.push(String::from_str(alloc, word)?)?;
    }
    Ok(words)
}

/// Says of a line why its words aren't a command.
fn say_line(rt: &HostRuntime, line: &str) -> io::Result<()> {
    let words = words_in(rt.alloc(), line)?;
    println!(rt; "{}", WrongWords { words: &words })
}

/// Says of each line of `words.txt` why its words aren't a command.
pub(crate) fn say_all(rt: &HostRuntime) -> io::Result<()> {
    let list = fs::read_to_string(rt, "words.txt")?;
    for line in list.lines() {
        println!(rt; "hyd {line}")?;
        say_line(rt, line)?;
    }
    Ok(())
}
