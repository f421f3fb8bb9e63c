//! The word of a junction while a pipe is shut.
#![tactic(auto)]

ghost use Rattle.std.specs.Prelude.{◌≡◌, ◌<◌, ◌≤ℤ◌, ◌↔◌, ℕ, List, length, Some, slice_get, IsTrue, ◌&&◌, int_le};
ghost use Rattle.hyd_spec.specs.Assignment.{head_at};
ghost use Rattle.hyd_spec_certificates.specs.declared.LevelSpan.{LevelSpan};
ghost use Rattle.hyd_spec_spread_runs.specs.OutermostPairs.{Pair};
ghost use Rattle.hyd_spec_spread_targets.specs.WordsOverPairs.{IsWordOver};
ghost use Rattle.hyd_fire.specs.SidesOfClosures.{has_vector, word_without, word_by, IsLeft};

use crate::answers::{Found, Sides};
use crate::study::Study;
use hyd_spec_certificates::LevelSpan;
use hyd_spec_pressure_targets::ClosureWord;
use hyd_vector_check::head_of;

/// Whether a vector stands on a side.
pub(crate) fn has_vector(found: Found) -> bool
    ensures { result ≡ has_vector found }
{
    match found {
        Found::Tight | Found::Passing => true,
        Found::NoCertificate | Found::RoundsSpent => false,
    }
}

/// Whether a LOWER vector, if one stands there, has the upper head of a target at a junction, or more.
pub(crate) fn is_safe(found: Found, lower: &[i64], junction: u32, target: LevelSpan) -> bool
    requires { junction < length lower.now }
    ensures value { result ≡ has_vector found && int_le target.hi (head_at lower.now junction) }
    ensures shows { IsTrue result ↔ (IsTrue (has_vector found) × (target.hi ≤ℤ head_at lower.now junction)) }
{
    has_vector(found) && target.hi <= head_of(lower, junction)
}

/// Whether an UPPER vector, if one stands there, has the lower head of a target at a junction, or less.
pub(crate) fn is_low(found: Found, upper: &[i64], junction: u32, target: LevelSpan) -> bool
    requires { junction < length upper.now }
    ensures value { result ≡ has_vector found && int_le (head_at upper.now junction) target.lo }
    ensures shows { IsTrue result ↔ (IsTrue (has_vector found) × (head_at upper.now junction ≤ℤ target.lo)) }
{
    has_vector(found) && head_of(upper, junction) <= target.lo
}

// The word where the vectors show neither that the pressure is above the target nor that it is below.
fn word_without(sides: Sides) -> ClosureWord
    ensures { result ≡ word_without sides }
{
    match (sides.upper, sides.lower) {
        (Found::Tight, Found::Tight) => ClosureWord::Unsure,
        (Found::NoCertificate, Found::Tight) => ClosureWord::NoCertificate,
        (Found::Tight, Found::NoCertificate) => ClosureWord::NoCertificate,
        (Found::NoCertificate, Found::NoCertificate) => ClosureWord::NoCertificate,
        _ => ClosureWord::RoundsSpent,
    }
}

/// The word of a junction, by the vectors and the sides as a closure left them and the target that it had for the
/// junction. The answer is SAFE before it is LOW. No memory is taken.
pub fn word_of(study: &Study, sides: Sides, junction: u32, target: LevelSpan) -> ClosureWord
    requires { junction < length study.now.upper }
    ensures value { result ≡ word_by study.now sides junction target }
    ensures word { (pair : Pair) (rounds : ℕ) (targets : List LevelSpan) → IsLeft pair rounds targets study.now sides
        → slice_get targets junction ≡ Some target → IsWordOver pair rounds junction target.lo target.hi result }
{
    if is_safe(sides.lower, &study.lower, junction, target) {
        return ClosureWord::Safe;
    }
    if is_low(sides.upper, &study.upper, junction, target) {
        return ClosureWord::Low;
    }
    word_without(sides)
}
