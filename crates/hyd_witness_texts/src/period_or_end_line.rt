//! A PERIOD line or the END line, without its line feed.

ghost use Rattle.std.specs.Prelude.{◌≡◌, ◌≢◌, ℕ, ◌<◌, ◌^◌, List, ◌∷◌, ◌++◌, [], IfSome, IfNone, IsTrue, false, decimal};
ghost use Rattle.std.specs.Prelude.{codes};
ghost use Rattle.hyd_cert.specs.Lines.{IsPeriodLine};
ghost use Rattle.hyd_witness_texts.specs.PeriodOrEndLine.{next_text, NextFits, IsPeriodOrEnd, end_words};

use crate::numbers_read::{small_number, three_numbers};
use hyd_line_reader::after;

/// What a PERIOD line says.
#[derive(Clone, Copy, Drop)]
pub(crate) struct Period {
    /// The number of the period.
    pub(crate) number: u32,
    /// When it begins, in seconds.
    pub(crate) time: u32,
    /// How long it lasts, in seconds.
    pub(crate) length: u32,
}

/// A PERIOD line, or the END line.
#[derive(Clone, Copy, Drop)]
pub(crate) enum Next {
    Period(Period),
    End,
}

/// What the line says behind so many periods, if it is a PERIOD line, or the END line with their number. No PERIOD line
/// can stand there where their number is the last one below 2^32.
pub(crate) fn period_or_end(line: &[u8], periods: u32) -> Option<Next>
    ensures some { IfSome result (λ next. line.now ++ (10 ∷ []) ≡ next_text periods next) }
    ensures fits { IfSome result (NextFits periods) }
    ensures none { IfNone result ((l : List ℕ) → IsPeriodOrEnd periods l → line.now ≢ l) }
{
    if is_end(line, periods) {
        return Some(Next::End);
    }
    let Some(period) = period_line(line) else {
        return None;
    };
    if periods == u32::MAX {
        return None;
    }
    Some(Next::Period(period))
}

/// What the PERIOD line says, if the line is one.
fn period_line(line: &[u8]) -> Option<Period>
    ensures some { IfSome result (λ p. line.now
        ≡ codes "PERIOD" ++ (32 ∷ (decimal p.number ++ (32 ∷ (decimal p.time ++ (32 ∷ decimal p.length)))))) }
    ensures fits { IfSome result (λ p. (p.number < 2 ^ 32) × (p.time < 2 ^ 32) × (p.length < 2 ^ 32)) }
    ensures none { IfNone result ((l : List ℕ) → IsPeriodLine l → line.now ≢ l) }
{
    let Some(rest) = after(line, b"PERIOD ") else {
        return None;
    };
    let Some((number, time, length)) = three_numbers(rest) else {
        return None;
    };
    Some(Period {
        number,
        time,
        length,
    })
}

/// Whether the line is the END line of so many periods.
fn is_end(line: &[u8], periods: u32) -> bool
    ensures yes { IsTrue result → line.now ≡ end_words periods }
    ensures no { result ≡ false → line.now ≢ end_words periods }
{
    let Some(word) = after(line, b"END ") else {
        return false;
    };
    let Some(number) = small_number(word) else {
        return false;
    };
    number == periods
}
