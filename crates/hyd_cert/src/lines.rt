//! The lines of a certificate text, each without its line feed.

ghost use Rattle.std.specs.Prelude.{◌≡◌, ◌≢◌, ℕ, ◌<◌, ◌^◌, ◌⊎◌, false, IsTrue, List, [], ◌∷◌, ◌++◌};
ghost use Rattle.std.specs.Prelude.{length, IfSome, IfNone, decimal, codes};
ghost use Rattle.std.specs.Fmt.{signed_decimal};
ghost use Rattle.hyd_spec_certificates.specs.Certificate.{IsInBox};
ghost use Rattle.hyd_cert.specs.PeriodOrEndLine.{next_text, NextFits, IsPeriodOrEnd};
ghost use Rattle.hyd_cert.specs.Lines.{Header, IsHeadLine, IsPeriodLine, IsEndLine, IsHeaderLine, end_word};

use crate::answers_of_reader::EndLine;
use hyd_line_reader::{after, head, is_number, small_number, split_word};

/// What a PERIOD line says.
#[derive(Clone, Copy, Drop)]
pub(crate) struct Period {
    /// The number of the period.
    pub(crate) number: u32,
    /// When it begins, in seconds.
    pub(crate) time: u32,
    /// How long it lasts, in seconds.
    pub(crate) length: u32,
}

/// A PERIOD line or an END line.
#[derive(Clone, Copy, Drop)]
pub(crate) enum Next {
    Period(Period),
    End(EndLine),
}

/// What the line says, if it is a PERIOD line or an END line.
pub(crate) fn period_or_end(line: &[u8]) -> Option<Next>
    ensures some { IfSome result (λ next. line.now ++ (10 ∷ []) ≡ next_text next) }
    ensures fits { IfSome result NextFits }
    ensures none { IfNone result ((l : List ℕ) → IsPeriodOrEnd l → line.now ≢ l) }
{
    match period_line(line) {
        Some(period) => Some(Next::Period(period)),
        None => match end_line(line) {
            Some(end) => Some(Next::End(end)),
            None => None,
        },
    }
}

/// The head of a line that begins with `front`.
pub(crate) fn head_line(line: &[u8], front: &[u8]) -> Option<i64>
    ensures some { IfSome result (λ h. line.now ≡ front.now ++ signed_decimal h) }
    ensures in_box { IfSome result IsInBox }
    ensures none { IfNone result ((l : List ℕ) → IsHeadLine front.now l → line.now ≢ l) }
{
    let word = after(line, front)?;
    head(word)
}

/// Three numbers below 2^32, parted by spaces.
fn three_numbers(text: &[u8]) -> Option<(u32, u32, u32)>
    ensures some { IfSome result (λ n. text.now ≡ decimal n.0 ++ (32 ∷ (decimal n.1 ++ (32 ∷ decimal n.2)))) }
    ensures fits { IfSome result (λ n. (n.0 < 2 ^ 32) × (n.1 < 2 ^ 32) × (n.2 < 2 ^ 32)) }
    ensures none { IfNone result ((a b c : ℕ) → a < 2 ^ 32 → b < 2 ^ 32 → c < 2 ^ 32
        → text.now ≢ decimal a ++ (32 ∷ (decimal b ++ (32 ∷ decimal c)))) }
{
    let Some((first, rest)) = split_word(text) else {
        return None;
    };
    let Some((second, third)) = split_word(rest) else {
        return None;
    };
    let Some(a) = small_number(first) else {
        return None;
    };
    let Some(b) = small_number(second) else {
        return None;
    };
    let Some(c) = small_number(third) else {
        return None;
    };
    Some((a, b, c))
}

/// What the PERIOD line says, if the line is one.
pub(crate) fn period_line(line: &[u8]) -> Option<Period>
    ensures some { IfSome result (λ p. line.now
        ≡ codes "PERIOD" ++ (32 ∷ (decimal p.number ++ (32 ∷ (decimal p.time ++ (32 ∷ decimal p.length)))))) }
    ensures fits { IfSome result (λ p. (p.number < 2 ^ 32) × (p.time < 2 ^ 32) × (p.length < 2 ^ 32)) }
    ensures none { IfNone result ((l : List ℕ) → IsPeriodLine l → line.now ≢ l) }
{
    let Some(rest) = after(line, b"PERIOD ") else {
        return None;
    };
    let Some((number, time, length)) = three_numbers(rest) else {
        return None;
    };
    Some(Period {
        number,
        time,
        length,
    })
}

/// What the END line says, if the line is one.
pub(crate) fn end_line(line: &[u8]) -> Option<EndLine>
    ensures some { IfSome result (λ e. line.now
        ≡ codes "END" ++ (32 ∷ (decimal e.periods ++ (32 ∷ end_word e.finished)))) }
    ensures fits { IfSome result (λ e. e.periods < 2 ^ 32) }
    ensures none { IfNone result ((l : List ℕ) → IsEndLine l → line.now ≢ l) }
{
    let Some(rest) = after(line, b"END ") else {
        return None;
    };
    let Some((number, word)) = split_word(rest) else {
        return None;
    };
    let Some(periods) = small_number(number) else {
        return None;
    };
    let Some(finished) = says_finished(word) else {
        return None;
    };
    Some(EndLine { periods, finished })
}

/// Whether the last word of an END line says that the run reached its end.
fn says_finished(word: &[u8]) -> Option<bool>
    ensures some { IfSome result (λ finished. word.now ≡ end_word finished) }
    ensures finished { IfNone result (word.now ≢ codes "FINISHED") }
    ensures stopped { IfNone result (word.now ≢ codes "STOPPED") }
{
    if word == b"FINISHED".as_slice() {
        return Some(true);
    }
    if word == b"STOPPED".as_slice() {
        return Some(false);
    }
    None
}

/// Whether the line is a header line, of a known version and of counts of any size.
pub(crate) fn is_header_line(line: &[u8]) -> bool
    requires { length line.now < 64 }
    ensures yes { IsTrue result → (header : Header) × IsHeaderLine header line.now }
    ensures no { result ≡ false → (header : Header) (l : List ℕ) → IsHeaderLine header l → line.now ≢ l }
{
    let Some(rest) = after(line, b"HYDCERT ") else {
        return false;
    };
    let Some((version, counts)) = split_word(rest) else {
        return false;
    };
    if !is_version(version) {
        return false;
    }
    let Some((junctions, tanks)) = split_word(counts) else {
        return false;
    };
    if !is_number(junctions) {
        return false;
    }
    is_number(tanks)
}

/// Whether the word is a version that is known.
fn is_version(word: &[u8]) -> bool
    ensures yes { IsTrue result → (word.now ≡ codes "1") ⊎ (word.now ≡ codes "2") }
    ensures not_first { result ≡ false → word.now ≢ codes "1" }
    ensures not_second { result ≡ false → word.now ≢ codes "2" }
{
    if word == b"1".as_slice() {
        return true;
    }
    word == b"2".as_slice()
}
