//! The lines of a certificate text with flows, each without its line feed.

ghost use Rattle.std.specs.Prelude.{◌≡◌, ◌≢◌, ℕ, ◌<◌, false, IsTrue, List, length, IfSome, IfNone};
ghost use Rattle.hyd_cert.specs.Lines.{Header};
ghost use Rattle.hyd_cert.specs.PlacesWithFlows.{IsFlowsHeaderLine, IsFlowsLine, IsNameLine};

use crate::flow_part::MOST_NAMES;
use hyd_line_reader::{after, is_number, small_number, split_word};

/// Whether the line is a header line of version 3, of counts of any size.
pub(crate) fn is_flows_header_line(line: &[u8]) -> bool
    requires { length line.now < 64 }
    ensures yes { IsTrue result → (header : Header) × IsFlowsHeaderLine header line.now }
    ensures no { result ≡ false → (header : Header) (l : List ℕ) → IsFlowsHeaderLine header l → line.now ≢ l }
{
    let Some(counts) = after(line, b"HYDCERT 3 ") else {
        return false;
    };
    let Some((junctions, tanks)) = split_word(counts) else {
        return false;
    };
    if !is_number(junctions) {
        return false;
    }
    is_number(tanks)
}

/// How many links a FLOWS line says, if the line is one.
pub(crate) fn flows_line(line: &[u8]) -> Option<usize>
    ensures some { IfSome result (λ count. IsFlowsLine count line.now) }
    ensures none { IfNone result ((count : ℕ) (l : List ℕ) → IsFlowsLine count l → line.now ≢ l) }
{
    let word = after(line, b"FLOWS ")?;
    let count = small_number(word)? as usize;
    if count == 0 {
        return None;
    }
    if count > MOST_NAMES {
        return None;
    }
    Some(count)
}

/// The number of a link that a LINK line says, if the line is one.
pub(crate) fn name_line(line: &[u8]) -> Option<u32>
    ensures some { IfSome result (λ number. IsNameLine number line.now) }
    ensures none { IfNone result ((number : ℕ) (l : List ℕ) → IsNameLine number l → line.now ≢ l) }
{
    let word = after(line, b"LINK ")?;
    small_number(word)
}
