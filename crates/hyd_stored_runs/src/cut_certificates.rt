//! A certificate that is cut off behind each of its bytes is refused for its grammar, in the line that is cut.

use crate::files_and_words::{tell, words_in};
use hyd_cli::{Status, tool};
use hyd_io::MemDesk;
use std::alloc::{AllocError, Global};
use std::{fs, io};

/// Tries each length of the certificate of a network without a demand.
pub(crate) fn try_all(rt: &HostRuntime) -> io::Result<()> {
    let text = fs::read(rt, "valves/no-demand.inp")?;
    let certificate = fs::read(rt, "checks/the-tight-one.cert")?;
    let words = words_in(rt.alloc(), "check n.inp n.cert")?;
    let are_refused = are_refused(rt.alloc(), &words, &text, &certificate)?;
    tell(rt, "certificates that are cut off", are_refused)
}

/// Whether a certificate is refused wherever it is cut off.
fn are_refused(
    alloc: Global,
    words: &[String],
    text: &[u8],
    certificate: &[u8],
) -> Result<bool, AllocError> {
    for length in 0..certificate.len() {
        if !is_refused(alloc, words, text, &certificate[..length])? {
            return Ok(false);
        }
    }
    Ok(true)
}

/// Whether a certificate that is cut off behind these bytes is refused in its last line.
fn is_refused(
    alloc: Global,
    words: &[String],
    text: &[u8],
    front: &[u8],
) -> Result<bool, AllocError> {
    let mut desk = MemDesk::new(alloc);
    desk.add("n.inp", text)?;
    desk.add("n.cert", front)?;
    let status = tool(alloc, words, &mut desk);
    Ok(status == Status::CertificateRefused && desk.printed().ends_with(refusal(front)))
}

/// The last line of the check, by the number of whole lines.
fn refusal(front: &[u8]) -> &'static [u8] {
    match front.iter().filter(|byte| **byte == b'\n').count() {
        0 => b"BADCERT line 1 GRAMMAR\n",
        1 => b"BADCERT line 2 GRAMMAR\n",
        2 => b"BADCERT line 3 GRAMMAR\n",
        3 => b"BADCERT line 4 GRAMMAR\n",
        _ => b"BADCERT line 5 GRAMMAR\n",
    }
}
