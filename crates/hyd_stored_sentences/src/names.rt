//! The ways in which the name of a link is refused, and what is said of each.

use hyd_sentences::RefusedName;
use hyd_spec_named_links::NameFails;
use std::io;

/// Says why names are refused.
pub(crate) fn say_all(rt: &HostRuntime) -> io::Result<()> {
    for cause in [NameFails::NoLink, NameFails::NotBetweenJunctions] {
        println!(rt; "{}", RefusedName { name: "P-7", cause })?;
    }
    println!(rt;
        "{}",
        RefusedName {
            name: "p\u{e9}",
            cause: NameFails::NoLink
        }
    )
}
