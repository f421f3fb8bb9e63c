//! The lines of a certificate text of version 4, each without its line feed.

ghost use Rattle.std.specs.Prelude.{◌≡◌, ◌≢◌, ℕ, ◌<◌, ◌^◌, false, IsTrue, List, [], ◌∷◌, ◌++◌};
ghost use Rattle.std.specs.Prelude.{length, IfSome, IfNone, decimal, codes};
ghost use Rattle.std.specs.Fmt.{signed_decimal};
ghost use Rattle.hyd_spec_certificates.specs.Certificate.{IsInBox};
ghost use Rattle.hyd_cert.specs.Lines.{Header, IsHeadLine, IsEndLine, end_word};
ghost use Rattle.hyd_open_certificates.specs.OpenLines.{IsOpenHeaderLine, IsOpenPeriodLine};
ghost use Rattle.hyd_open_certificates.specs.OpenPeriodOrEndLine.{words_of, FitsLine, next_text, NextFits};
ghost use Rattle.hyd_open_certificates.specs.OpenPeriodOrEndLine.{IsOpenPeriodOrEnd};

use hyd_cert::EndLine;
use hyd_line_reader::{after, head, is_number, small_number, split_word};

/// What a PERIOD line says.
#[derive(Clone, Copy, Drop)]
pub(crate) struct OpenPeriod {
    /// The number of the period.
    pub(crate) number: u32,
    /// The first second in which it begins.
    pub(crate) time: u32,
    /// In how many later seconds it may begin.
    pub(crate) late: u32,
    /// The shortest that it lasts, in seconds.
    pub(crate) shortest: u32,
    /// The longest that it lasts, in seconds.
    pub(crate) longest: u32,
}

/// A PERIOD line or an END line.
#[derive(Clone, Copy, Drop)]
pub(crate) enum Next {
    Period(OpenPeriod),
    End(EndLine),
}

/// What the line says, if it is a PERIOD line or an END line.
pub(crate) fn period_or_end(line: &[u8]) -> Option<Next>
    ensures some { IfSome result (λ next. line.now ++ (10 ∷ []) ≡ next_text next) }
    ensures fits { IfSome result NextFits }
    ensures none { IfNone result ((l : List ℕ) → IsOpenPeriodOrEnd l → line.now ≢ l) }
{
    match period_line(line) {
        Some(period) => Some(Next::Period(period)),
        None => match end_line(line) {
            Some(end) => Some(Next::End(end)),
            None => None,
        },
    }
}

/// The head of a line that begins with `front`.
pub(crate) fn head_line(line: &[u8], front: &[u8]) -> Option<i64>
    ensures some { IfSome result (λ h. line.now ≡ front.now ++ signed_decimal h) }
    ensures in_box { IfSome result IsInBox }
    ensures none { IfNone result ((l : List ℕ) → IsHeadLine front.now l → line.now ≢ l) }
{
    let word = after(line, front)?;
    head(word)
}

/// The number below 2^32 with which the text begins, and what follows the space behind it.
fn first_number(text: &[u8]) -> Option<(u32, &[u8])>
    ensures some { IfSome result (λ found. text.now ≡ decimal found.0 ++ (32 ∷ found.1.now)) }
    ensures fits { IfSome result (λ found. found.0 < 2 ^ 32) }
    ensures none { IfNone result ((n : ℕ) (rest : List ℕ) → n < 2 ^ 32 → text.now ≢ decimal n ++ (32 ∷ rest)) }
{
    let Some((word, rest)) = split_word(text) else {
        return None;
    };
    let Some(number) = small_number(word) else {
        return None;
    };
    Some((number, rest))
}

/// What the PERIOD line says, if the line is one.
fn period_line(line: &[u8]) -> Option<OpenPeriod>
    ensures some { IfSome result (λ p. line.now ≡ words_of p) }
    ensures fits { IfSome result FitsLine }
    ensures none { IfNone result ((l : List ℕ) → IsOpenPeriodLine l → line.now ≢ l) }
{
    let Some(numbers) = after(line, b"PERIOD ") else {
        return None;
    };
    let Some((number, times)) = first_number(numbers) else {
        return None;
    };
    let Some((time, open)) = first_number(times) else {
        return None;
    };
    let Some((late, lengths)) = first_number(open) else {
        return None;
    };
    let Some((shortest, last)) = first_number(lengths) else {
        return None;
    };
    let Some(longest) = small_number(last) else {
        return None;
    };
    Some(OpenPeriod {
        number,
        time,
        late,
        shortest,
        longest,
    })
}

/// What the END line says, if the line is one.
fn end_line(line: &[u8]) -> Option<EndLine>
    ensures some { IfSome result (λ e. line.now
        ≡ codes "END" ++ (32 ∷ (decimal e.periods ++ (32 ∷ end_word e.finished)))) }
    ensures fits { IfSome result (λ e. e.periods < 2 ^ 32) }
    ensures none { IfNone result ((l : List ℕ) → IsEndLine l → line.now ≢ l) }
{
    let Some(rest) = after(line, b"END ") else {
        return None;
    };
    let Some((number, word)) = split_word(rest) else {
        return None;
    };
    let Some(periods) = small_number(number) else {
        return None;
    };
    let Some(finished) = says_finished(word) else {
        return None;
    };
    Some(EndLine { periods, finished })
}

/// Whether the last word of an END line says that the run reached its end.
fn says_finished(word: &[u8]) -> Option<bool>
    ensures some { IfSome result (λ finished. word.now ≡ end_word finished) }
    ensures finished { IfNone result (word.now ≢ codes "FINISHED") }
    ensures stopped { IfNone result (word.now ≢ codes "STOPPED") }
{
    if word == b"FINISHED".as_slice() {
        return Some(true);
    }
    if word == b"STOPPED".as_slice() {
        return Some(false);
    }
    None
}

/// Whether the line is a header line of version 4, of counts of any size.
pub(crate) fn is_open_header_line(line: &[u8]) -> bool
    requires { length line.now < 64 }
    ensures yes { IsTrue result → (header : Header) × IsOpenHeaderLine header line.now }
    ensures no { result ≡ false → (header : Header) (l : List ℕ) → IsOpenHeaderLine header l → line.now ≢ l }
{
    let Some(counts) = after(line, b"HYDCERT 4 ") else {
        return false;
    };
    let Some((junctions, tanks)) = split_word(counts) else {
        return false;
    };
    if !is_number(junctions) {
        return false;
    }
    is_number(tanks)
}
