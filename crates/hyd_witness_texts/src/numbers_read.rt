//! The values that words spell.

ghost use Rattle.std.specs.Prelude.{◌≡◌, ◌≢◌, ℕ, ◌<◌, ◌≤◌, ◌^◌, ℤ, List, ◌∷◌, ◌++◌, length, IfSome, IfNone, decimal};
ghost use Rattle.std.specs.Prelude.{slice_index, false, IsTrue};
ghost use Rattle.std.specs.Fmt.{signed_decimal};
ghost use Rattle.std.specs.Str.Parse.{AllDigits, digits_value};
ghost use Rattle.hyd_spec_witnesses.specs.WitnessText.{IsScale, IsValue};

use hyd_line_reader::split_word;

/// The greatest magnitude of a value.
const VALUE_LIMIT: u128 = 1_000_000_000_000_000_000_000_000;

/// How many digits that has.
const MOST_DIGITS: usize = 25;

/// The number below 10^25 that the word spells: digits without a leading zero.
pub(crate) fn number(word: &[u8]) -> Option<u128>
    ensures some { IfSome result (λ n. word.now ≡ decimal n) }
    ensures fits { IfSome result (λ n. n < 10 ^ 25) }
    ensures none { IfNone result ((n : ℕ) → n < 10 ^ 25 → word.now ≢ decimal n) }
{
    if word.is_empty() {
        return None;
    }
    if word.len() > MOST_DIGITS {
        return None;
    }
    if word[0] == b'0' {
        return zero(word);
    }
    digits(word)
}

/// 0, if that is the whole word.
fn zero(word: &[u8]) -> Option<u128>
    requires { (0 < length word.now) × (slice_index word.now 0 ≡ 48) }
    ensures some { IfSome result (λ n. (n ≡ 0) × (length word.now ≡ 1)) }
    ensures none { IfNone result (length word.now ≢ 1) }
{
    if word.len() == 1 {
        return Some(0);
    }
    None
}

/// The value of the word's digits, if it has no other bytes.
fn digits(word: &[u8]) -> Option<u128>
    requires { length word.now ≤ 25 }
    ensures some { IfSome result (λ n. AllDigits 10 word.now × (n ≡ digits_value 10 word.now)) }
    ensures none { IfNone result (¬ AllDigits 10 word.now) }
{
    let mut value: u128 = 0;
    for byte in word {
        if *byte < b'0' {
            return None;
        }
        if *byte > b'9' {
            return None;
        }
        value = value * 10 + u128::from(*byte - b'0');
    }
    Some(value)
}

/// The number below 2^32 that the word spells.
pub(crate) fn small_number(word: &[u8]) -> Option<u32>
    ensures some { IfSome result (λ n. word.now ≡ decimal n) }
    ensures fits { IfSome result (λ n. n < 2 ^ 32) }
    ensures none { IfNone result ((n : ℕ) → n < 2 ^ 32 → word.now ≢ decimal n) }
{
    let value = number(word)?;
    match u32::try_from(value) {
        Ok(small) => Some(small),
        Err(_) => None,
    }
}

/// Three numbers below 2^32, parted by spaces.
pub(crate) fn three_numbers(text: &[u8]) -> Option<(u32, u32, u32)>
    ensures some { IfSome result (λ n. text.now ≡ decimal n.0 ++ (32 ∷ (decimal n.1 ++ (32 ∷ decimal n.2)))) }
    ensures fits { IfSome result (λ n. (n.0 < 2 ^ 32) × (n.1 < 2 ^ 32) × (n.2 < 2 ^ 32)) }
    ensures none { IfNone result ((a b c : ℕ) → a < 2 ^ 32 → b < 2 ^ 32 → c < 2 ^ 32
        → text.now ≢ decimal a ++ (32 ∷ (decimal b ++ (32 ∷ decimal c)))) }
{
    let Some((first, rest)) = split_word(text) else {
        return None;
    };
    let Some((second, third)) = split_word(rest) else {
        return None;
    };
    let Some(a) = small_number(first) else {
        return None;
    };
    let Some(b) = small_number(second) else {
        return None;
    };
    let Some(c) = small_number(third) else {
        return None;
    };
    Some((a, b, c))
}

/// The scale that the word spells.
pub(crate) fn scale(word: &[u8]) -> Option<u32>
    ensures some { IfSome result (λ s. word.now ≡ decimal s) }
    ensures is_scale { IfSome result IsScale }
    ensures none { IfNone result ((s : ℕ) → IsScale s → word.now ≢ decimal s) }
{
    let number = small_number(word)?;
    if is_scale(number) {
        return Some(number);
    }
    None
}

/// Whether the number is a power of two up to 1,024.
fn is_scale(number: u32) -> bool
    ensures yes { IsTrue result → IsScale number }
    ensures no { result ≡ false → ¬ IsScale number }
{
    let mut scale: u32 = 1;
    for _ in 0..11u32 {
        if number == scale {
            return true;
        }
        scale *= 2;
    }
    false
}

/// The value that the word spells.
pub(crate) fn value(word: &[u8]) -> Option<i128>
    ensures some { IfSome result (λ v. word.now ≡ signed_decimal v) }
    ensures fits { IfSome result IsValue }
    ensures none { IfNone result ((v : ℤ) → IsValue v → word.now ≢ signed_decimal v) }
{
    if word.is_empty() {
        return None;
    }
    if word[0] != b'-' {
        let magnitude = number(word)?;
        if magnitude > VALUE_LIMIT {
            return None;
        }
        return Some(magnitude as i128);
    }
    let Some(magnitude) = number(&word[1..]) else {
        return None;
    };
    if magnitude == 0 {
        return None;
    }
    if magnitude > VALUE_LIMIT {
        return None;
    }
    Some(-(magnitude as i128))
}
