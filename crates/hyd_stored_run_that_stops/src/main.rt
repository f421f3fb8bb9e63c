//! The program `hyd` run on a network that stops after whole periods, since a junction is cut off: behind what it prints
//! stand the bytes of its certificate, as the file holds them when it has ended.
#![tactic(auto)]

use hyd_cli::{Status, run_program};
use std::fs;

/// Runs the command of the words after the program's name, prints the certificate, and ends with the status's number.
fn main(rt: HostRuntime) -> Status {
    let status = run_program(&rt);
    print_certificate(&rt);
    status
}

/// Prints the certificate, if there is one.
fn print_certificate(rt: &HostRuntime) {
    if let Ok(bytes) = fs::read(rt, "n.cert") {
        let _printed = rt.write_all(&bytes);
    }
}
