//! The lines of a moment, each without its line feed.

ghost use Rattle.std.specs.Prelude.{◌≡◌, ◌≢◌, ℕ, List, ◌∷◌, ◌++◌, [], IfSome, IfNone, codes};
ghost use Rattle.std.specs.Fmt.{signed_decimal};
ghost use Rattle.hyd_spec_certificates.specs.CertificateText.{words};
ghost use Rattle.hyd_spec_witnesses.specs.WitnessText.{IsValue};
ghost use Rattle.hyd_witness_texts.specs.Lines.{IsValueLine, IsStockLine};

use crate::numbers_read::value;
use hyd_line_reader::{after, split_word};

/// The value of a line with that key.
pub(crate) fn value_line(line: &[u8], key: u8) -> Option<i128>
    ensures some { IfSome result (λ v. line.now ≡ words ((key ∷ []) ∷ (signed_decimal v ∷ []))) }
    ensures fits { IfSome result IsValue }
    ensures none { IfNone result ((l : List ℕ) → IsValueLine (key ∷ []) l → line.now ≢ l) }
{
    let word = after(line, &[key, b' '])?;
    value(word)
}

/// The level and the volume of a line with both.
pub(crate) fn stock_line(line: &[u8]) -> Option<(i128, i128)>
    ensures some { IfSome result (λ s. line.now
        ≡ words (codes "L" ∷ (signed_decimal s.0 ∷ (signed_decimal s.1 ∷ [])))) }
    ensures fits { IfSome result (λ s. IsValue s.0 × IsValue s.1) }
    ensures none { IfNone result ((l : List ℕ) → IsStockLine l → line.now ≢ l) }
{
    let Some(rest) = after(line, b"L ") else {
        return None;
    };
    let Some((first, second)) = split_word(rest) else {
        return None;
    };
    let Some(level) = value(first) else {
        return None;
    };
    let Some(volume) = value(second) else {
        return None;
    };
    Some((level, volume))
}
