//! Networks that are read: each text of `networks/` has what is read from it in words in a file beside it.

use crate::shown_networks::put_network;
use hyd_gen::generate;
use hyd_inp::read_project;
use std::alloc::{AllocError, Global};
use std::{fs, io};

/// Tries each network of the list, the numbers of the IDs of a town, and a text that is made.
pub(crate) fn try_all(rt: &HostRuntime) -> io::Result<()> {
    let list = fs::read_to_string(rt, "networks.txt")?;
    for name in list.lines() {
        try_network(rt, name)?;
    }
    try_made(rt)
}

/// Tries a network.
fn try_network(rt: &HostRuntime, name: &str) -> io::Result<()> {
    let text = fs::read(rt, format!(in rt.alloc(); "networks/{name}.inp")?.as_str())?;
    let mut answer = String::new(rt.alloc());
    put_read(rt.alloc(), &text, &mut answer)?;
    let expected = fs::read(
        rt,
        format!(in rt.alloc(); "networks/{name}.network")?.as_str(),
    )?;
    tell(rt, name, answer.as_bytes(), &expected)
}

/// Writes the network of a text.
fn put_read(alloc: Global, text: &[u8], out: &mut String) -> Result<(), AllocError> {
    match read_project(alloc, text) {
        Ok(project) => put_network(out, &project),
        Err(_) => out.push_str("refused"),
    }
}

/// Tries the text that is made for seed 7 and 51 junctions: a whole row, and one junction under its first one.
fn try_made(rt: &HostRuntime) -> io::Result<()> {
    let expected = fs::read(rt, "networks/made-of-seed-7-and-51-junctions.text")?;
    match generate(rt.alloc(), 7, 51) {
        Ok(text) => tell(rt, "made of seed 7 and 51 junctions", &text, &expected),
        Err(_) => rt.println("out of memory"),
    }
}

/// Says whether an answer is as expected, and prints it if it isn't.
fn tell(rt: &HostRuntime, name: &str, answer: &[u8], expected: &[u8]) -> io::Result<()> {
    if answer == expected {
        return println!(rt; "{name}: as expected");
    }
    println!(rt; "{name}: NOT AS EXPECTED")?;
    rt.write_all(answer)
}
