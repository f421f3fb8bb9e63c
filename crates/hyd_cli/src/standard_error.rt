//! What is said on standard error. It is made with standard error alone at hand, so that it can touch no file.

use hyd_command_answers::Status;
use hyd_io::{Call, Failure};
use std::io::ErrorKind;

/// Says in one line why a command on real files ended by want of memory or by a call that failed or took nothing: the
/// name of the file, and what happened. `network` is the name of the network's file, where it was to be opened, and
/// `failure` the call that failed. Of other ends it says nothing, since standard output tells them. Where standard error
/// takes no line, the status alone tells it.
pub(crate) fn say_why<E: Eprint>(
    status: Status,
    network: Option<&str>,
    failure: Option<Failure<'_>>,
    standard_error: &E,
) {
    match status {
        Status::OutOfMemory => say_out_of_memory(network, standard_error),
        Status::ReadFault | Status::WriteFault | Status::Stalled => {
            say_failure(failure, standard_error);
        }
        _ => {}
    }
}

// Says that memory ran out, with the network's file where it was to be opened before.
fn say_out_of_memory<E: Eprint>(network: Option<&str>, standard_error: &E) {
    let _ = match network {
        Some(name) => standard_error.eprintln(format_args!("hyd: {name}: out of memory")),
        None => standard_error.eprintln("hyd: out of memory"),
    };
}

// What helps where a call failed.
fn advice_on(failure: &Failure<'_>) -> &'static str {
    match failure.call {
        Call::Create if failure.error.kind() == ErrorKind::AlreadyExists =>
            ": give another name, and see that NET stands before CERT",
        _ => "",
    }
}

// Says which call failed.
fn say_failure<E: Eprint>(failure: Option<Failure<'_>>, standard_error: &E) {
    if let Some(failure) = failure {
        let advice = advice_on(&failure);
        let _ = standard_error.eprintln(format_args!("hyd: {failure}{advice}"));
    }
}
