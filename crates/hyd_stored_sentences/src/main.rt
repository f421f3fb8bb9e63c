//! Stored sentences. `texts.txt` has texts that are refused, each with the line and the cause that the reader answers;
//! the program prints what is said of each, of each way in which the name of a link is refused, in which a run stops,
//! in which a certificate is refused and in which a witness isn't met, has a bad line or isn't found, of each junction of
//! `cut_off.inp` and each line of `words.txt`, of pressures below 0, the pages of help and the lines of progress. What is
//! expected stands in `stdout`. A cause, a detail, a stop or a refusal without a case is told, and so is a text of which
//! the reader answers another line or cause.
#![tactic(auto)]

mod causes;
mod certificates;
mod cut_off;
mod names;
mod pages;
mod stops;
mod texts;
mod witnesses;
mod words;

use hyd_inp::read_project;
use std::{fs, io};

/// Prints all sentences.
fn main(rt: HostRuntime) -> io::Result<()> {
    let list = fs::read_to_string(&rt, "texts.txt")?;
    texts::say_all(&rt, list.as_str())?;
    texts::say_two_bytes(&rt)?;
    causes::tell_lacking(&rt, list.as_str())?;
    names::say_all(&rt)?;
    let text = fs::read(&rt, "network.inp")?;
    match read_project(rt.alloc(), &text) {
        Ok(project) => {
            stops::say_all(&rt, &project)?;
            certificates::say_all(&rt, &project)?;
            witnesses::say_all(&rt, &project)?;
        }
        Err(_) => println!(rt; "the network isn't read")?,
    }
    let text = fs::read(&rt, "no_units.inp")?;
    match read_project(rt.alloc(), &text) {
        Ok(project) => stops::say_of_no_units(&rt, &project)?,
        Err(_) => println!(rt; "the network isn't read")?,
    }
    cut_off::say_all(&rt)?;
    words::say_all(&rt)?;
    pages::say_all(&rt)
}
