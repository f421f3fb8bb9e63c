//! The pages of help, what is said of a name that is no junction's, and the lines of progress.

use hyd_help::Help;
use hyd_sentences::{NoJunction, PipesDone, Progress};
use std::io;

/// Says the pages and the lines.
pub(crate) fn say_all(rt: &HostRuntime) -> io::Result<()> {
    for topic in [
        "run",
        "check",
        "gen",
        "fire",
        "closures",
        "witness",
        "meet",
        "anything else",
    ] {
        println!(rt; "{}", Help { topic: Some(topic) })?;
    }
    println!(rt; "{}", Help { topic: None })?;
    println!(rt;
        "{}",
        NoJunction {
            file: "town.inp",
            name: "Lake"
        }
    )?;
    println!(rt;
        "{}",
        Progress {
            time: 43_200,
            duration: 604_800,
            periods: 31
        }
    )?;
    println!(rt;
        "{}",
        Progress {
            time: 59,
            duration: u32::MAX,
            periods: 0
        }
    )?;
    println!(rt;
        "{}",
        PipesDone {
            done: 17,
            pipes: 460
        }
    )
}
