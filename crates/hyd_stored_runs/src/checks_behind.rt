//! What holds behind each run, each network that is made and each search: a check accepts the certificate and prints the
//! same report, or refuses the same text; a run of what was made writes the same certificate; what was written of a witness
//! is met.

use crate::files_and_words::word_at;
use hyd_cli::{Status, tool};
use hyd_io::MemDesk;
use std::alloc::{AllocError, Global};

/// Whether that holds behind a command.
pub(crate) fn holds_behind(
    alloc: Global,
    words: &[String],
    status: Status,
    desk: &mut MemDesk,
) -> Result<bool, AllocError> {
    if word_at(words, 0) == "run" && !(names_flows(words) && is_refused(status)) {
        return is_checked(alloc, word_at(words, 1), word_at(words, 2), status, desk);
    }
    if word_at(words, 0) == "gen" && words.len() > 2 {
        let net = word_at(words, words.len() - 2);
        let cert = word_at(words, words.len() - 1);
        return is_made(alloc, net, cert, desk);
    }
    if word_at(words, 0) == "witness" && has_ended(status) {
        return is_met(alloc, word_at(words, 1), word_at(words, 3), desk);
    }
    Ok(true)
}

/// Whether a search came to its end.
fn has_ended(status: Status) -> bool {
    match status {
        Status::Done | Status::Undecided | Status::CertificateRefused => true,
        _ => false,
    }
}

/// Whether the words or what they name were refused.
fn is_refused(status: Status) -> bool {
    status == Status::Usage || status == Status::InputRefused
}

/// Whether the words ask for flows of named links: such a run may be refused for a name, of which a check knows nothing.
fn names_flows(words: &[String]) -> bool {
    words.iter().any(|word| word.starts_with("--flows"))
}

/// The words of a command on two files.
fn words_on(
    alloc: Global,
    command: &str,
    net: &str,
    cert: &str,
) -> Result<Vec<String>, AllocError> {
    let mut words = Vec::new(alloc);
    for word in [command, "--", net, cert] {
        words.push(String::from_str(alloc, word)?)?;
    }
    Ok(words)
}

/// Whether a check behind a run ends as it is to: where the run finished, with the same report; where it stopped, well;
/// where the text was refused, so again.
fn is_checked(
    alloc: Global,
    net: &str,
    cert: &str,
    status: Status,
    desk: &mut MemDesk,
) -> Result<bool, AllocError> {
    let words = words_on(alloc, "check", net, cert)?;
    let report = Vec::from_slice(alloc, desk.printed())?;
    let ended = tool(alloc, &words, desk);
    Ok(match status {
        Status::Done | Status::InputRefused => ended == status && repeats(desk, &report),
        _ => ended == Status::Done,
    })
}

/// Whether a desk printed a report twice.
fn repeats(desk: &MemDesk, report: &[u8]) -> bool {
    match desk.printed().strip_prefix(report) {
        Some(behind) => behind == report,
        None => false,
    }
}

/// Whether each period of a witness is met.
fn is_met(alloc: Global, net: &str, out: &str, desk: &mut MemDesk) -> Result<bool, AllocError> {
    let words = words_on(alloc, "meet", net, out)?;
    Ok(tool(alloc, &words, desk) == Status::Done)
}

/// Whether a network that was made is accepted, and runs to the same certificate.
fn is_made(alloc: Global, net: &str, cert: &str, desk: &mut MemDesk) -> Result<bool, AllocError> {
    let check = words_on(alloc, "check", net, cert)?;
    if tool(alloc, &check, desk) != Status::Done {
        return Ok(false);
    }
    let run = words_on(alloc, "run", net, "again.cert")?;
    let status = tool(alloc, &run, desk);
    Ok(status == Status::Done && desk.file("again.cert") == desk.file(cert))
}
