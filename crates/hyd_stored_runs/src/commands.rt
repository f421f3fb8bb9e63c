//! Command lines on real files and standard output.

use crate::files_and_words::{text_of, word_at, words_in};
use hyd_cli::tool;
use hyd_io::FileDesk;
use std::{fs, io};

/// Runs each command line of the list.
pub(crate) fn run_all(rt: &HostRuntime) -> io::Result<()> {
    let list = text_of(rt, "commands.txt")?;
    for line in list.lines() {
        run_line(rt, line)?;
    }
    Ok(())
}

/// Runs a command line: prints it, what it prints, its status and, behind a run or a search, the bytes of CERT or OUT if
/// there are some.
fn run_line(rt: &HostRuntime, line: &str) -> io::Result<()> {
    println!(rt; "$ hyd {line}")?;
    let words = words_in(rt.alloc(), line)?;
    let status = tool(rt.alloc(), &words, &mut FileDesk::new(rt.alloc(), rt));
    println!(rt; "status {}", status.number())?;
    match word_at(&words, 0) {
        "run" => print_first(rt, &words, ".cert"),
        "witness" => print_first(rt, &words, ".wit"),
        _ => Ok(()),
    }
}

/// Prints the bytes of the first file whose name ends so.
fn print_first(rt: &HostRuntime, words: &[String], ending: &str) -> io::Result<()> {
    for word in words {
        if word.as_str().ends_with(ending) {
            return print_file(rt, word.as_str());
        }
    }
    Ok(())
}

/// Prints the bytes of a file, if there is one.
fn print_file(rt: &HostRuntime, name: &str) -> io::Result<()> {
    match fs::read(rt, name) {
        Ok(bytes) => rt.write_all(&bytes),
        Err(_) => Ok(()),
    }
}
