//! Lists of lines on the disk, the words of a line, and how a trial is told.

use std::alloc::{AllocError, Global};
use std::{fs, io};

/// The text of a file.
pub(crate) fn text_of(rt: &HostRuntime, name: &str) -> io::Result<String> {
    fs::read_to_string(rt, name)
}

/// The words of a line, parted by spaces.
pub(crate) fn words_in(alloc: Global, line: &str) -> Result<Vec<String>, AllocError> {
    let mut words = Vec::new(alloc);
    for word in line.split_ascii_whitespace() {
        words.push(String::from_str(alloc, word)?)?;
    }
    Ok(words)
}

/// The word at a place, or an empty one.
pub(crate) fn word_at(words: &[String], place: usize) -> &str {
    match words.get(place) {
        Some(word) => word.as_str(),
        None => "",
    }
}

/// A word of a line, and what stands behind it.
pub(crate) fn first_word(line: &str) -> (&str, &str) {
    line.split_once(' ').unwrap_or((line, ""))
}

/// Says whether a trial went as expected.
pub(crate) fn tell(rt: &HostRuntime, name: &str, passes: bool) -> io::Result<()> {
    if passes {
        println!(rt; "{name}: as expected")
    } else {
        println!(rt; "{name}: NOT AS EXPECTED")
    }
}
