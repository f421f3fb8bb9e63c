//! The header line, without its line feed.

ghost use Rattle.std.specs.Prelude.{◌≡◌, ◌≢◌, ℕ, List, ◌∷◌, ◌++◌, [], IfSome, IfNone, IsTrue, false, decimal};
ghost use Rattle.hyd_spec_certificates.specs.CertificateText.{words};
ghost use Rattle.hyd_spec_witnesses.specs.WitnessText.{IsScale};
ghost use Rattle.hyd_witness_texts.specs.Lines.{IsHeaderLine, header_words};
ghost use Rattle.hyd_witness_texts.specs.MomentView.{counts_in};

use crate::counts::{NetworkCounts, has_small_counts};
use crate::numbers_read::scale;
use crate::writer::{ROOM, append_counts};
use hyd_line_reader::{after, split_word};

/// The scale that the line says, if it is a header line with these counts.
pub(crate) fn header_scale(line: &[u8], counts: &NetworkCounts) -> Option<u32>
    ensures some { IfSome result (λ s. line.now ≡ header_words s (counts_in counts.now)) }
    ensures is_scale { IfSome result IsScale }
    ensures none { IfNone result ((l : List ℕ) → IsHeaderLine (counts_in counts.now) l → line.now ≢ l) }
{
    has_small_counts(counts);
    let Some(rest) = after(line, b"HYDWIT 1 ") else {
        return None;
    };
    let Some((word, others)) = split_word(rest) else {
        return None;
    };
    let Some(number) = scale(word) else {
        return None;
    };
    if are_counts(others, counts) {
        return Some(number);
    }
    None
}

/// Whether the words are the three counts.
fn are_counts(others: &[u8], counts: &NetworkCounts) -> bool
    ensures yes { IsTrue result → others.now ≡ words (decimal counts.now.junctions
        ∷ (decimal counts.now.links ∷ (decimal counts.now.tanks ∷ []))) }
    ensures no { result ≡ false → others.now ≢ words (decimal counts.now.junctions
        ∷ (decimal counts.now.links ∷ (decimal counts.now.tanks ∷ []))) }
{
    let mut buffer = [0; ROOM];
    let used = append_counts(&mut buffer, 0, counts);
    others == &buffer[..used]
}
