//! The desk on real files. It prints a file that lies in a folder, and ends with status 0 where all is as it should be.
#![tactic(auto)]

mod desk_by_itself;
mod wrong;

use crate::desk_by_itself::try_desk;
use std::process::ExitCode;

/// Tries the desk on the files of the host.
fn main(rt: HostRuntime) -> ExitCode {
    match try_desk(rt.alloc(), &rt) {
        Ok(()) => ExitCode::SUCCESS,
        Err(wrong) => wrong.status(),
    }
}
