//! Words of a line, and the values that they spell.

ghost use Rattle.std.specs.Prelude.{◌≡◌, ◌≢◌, ℕ, ◌+◌, ◌<◌, ◌≤◌, ◌^◌, ℤ, false, IsTrue, List, ◌∷◌, ◌++◌, length};
ghost use Rattle.std.specs.Prelude.{IfSome, IfNone, decimal, slice_index};
ghost use Rattle.std.specs.Fmt.{signed_decimal};
ghost use Rattle.hyd_line_reader.specs.TextsWithoutLine.{HasNo};
ghost use Rattle.std.specs.Str.Parse.{AllDigits, digits_value};
ghost use Rattle.hyd_spec_certificates.specs.Certificate.{IsInBox};

use hyd_spec_certificates::BOX_LIMIT;

/// The greatest magnitude of a head.
const BOX: u64 = BOX_LIMIT as u64;

/// What follows that front of the line, if the line begins with it.
pub fn after<'a>(line: &'a [u8], front: &[u8]) -> Option<&'a [u8]>
    ensures some { IfSome result (λ rest. line.now ≡ front.now ++ rest.now) }
    ensures none { IfNone result ((rest : List ℕ) → line.now ≢ front.now ++ rest) }
{
    line.strip_prefix(front)
}

/// The front of the text before its first space, and what follows that space.
pub fn split_word(text: &[u8]) -> Option<(&[u8], &[u8])>
    ensures some { IfSome result (λ parts. text.now ≡ parts.0.now ++ (32 ∷ parts.1.now)) }
    ensures word { IfSome result (λ parts. HasNo 32 parts.0.now) }
    ensures none { IfNone result (HasNo 32 text.now) }
{
    for i in 0..text.len() {
        if text[i] == b' ' {
            return Some((&text[..i], &text[i + 1..]));
        }
    }
    None
}

/// The number below 10^19 that the word spells: digits without a leading zero.
pub fn number(word: &[u8]) -> Option<u64>
    ensures some { IfSome result (λ n. word.now ≡ decimal n) }
    ensures fits { IfSome result (λ n. n < 10 ^ 19) }
    ensures none { IfNone result ((n : ℕ) → n < 10 ^ 19 → word.now ≢ decimal n) }
{
    if word.is_empty() {
        return None;
    }
    if word.len() > 19 {
        return None;
    }
    if word[0] == b'0' {
        return zero(word);
    }
    digits(word)
}

/// 0, if that is the whole word.
fn zero(word: &[u8]) -> Option<u64>
    requires { (0 < length word.now) × (slice_index word.now 0 ≡ 48) }
    ensures some { IfSome result (λ n. (n ≡ 0) × (length word.now ≡ 1)) }
    ensures none { IfNone result (length word.now ≢ 1) }
{
    if word.len() == 1 {
        return Some(0);
    }
    None
}

/// The value of the word's digits, if it has no other bytes.
fn digits(word: &[u8]) -> Option<u64>
    requires { length word.now ≤ 19 }
    ensures some { IfSome result (λ n. AllDigits 10 word.now × (n ≡ digits_value 10 word.now)) }
    ensures none { IfNone result (¬ AllDigits 10 word.now) }
{
    let mut value: u64 = 0;
    for byte in word {
        if *byte < b'0' {
            return None;
        }
        if *byte > b'9' {
            return None;
        }
        value = value * 10 + u64::from(*byte - b'0');
    }
    Some(value)
}

/// Whether the word spells a number of any size that a line has room for: digits without a leading zero.
pub fn is_number(word: &[u8]) -> bool
    requires { length word.now ≤ 64 }
    ensures yes { IsTrue result → (n : ℕ) × ((n < 10 ^ 64) × (word.now ≡ decimal n)) }
    ensures no { result ≡ false → (n : ℕ) → n < 10 ^ 64 → word.now ≢ decimal n }
{
    if word.is_empty() {
        return false;
    }
    if word[0] == b'0' {
        return word.len() == 1;
    }
    has_digits_alone(word)
}

/// Whether each byte of the word is a digit.
fn has_digits_alone(word: &[u8]) -> bool
    ensures yes { IsTrue result → AllDigits 10 word.now }
    ensures no { result ≡ false → ¬ AllDigits 10 word.now }
{
    for byte in word {
        if *byte < b'0' {
            return false;
        }
        if *byte > b'9' {
            return false;
        }
    }
    true
}

/// The number below 2^32 that the word spells.
pub fn small_number(word: &[u8]) -> Option<u32>
    ensures some { IfSome result (λ n. word.now ≡ decimal n) }
    ensures fits { IfSome result (λ n. n < 2 ^ 32) }
    ensures none { IfNone result ((n : ℕ) → n < 2 ^ 32 → word.now ≢ decimal n) }
{
    let value = number(word)?;
    match u32::try_from(value) {
        Ok(small) => Some(small),
        Err(_) => None,
    }
}

/// The head that the word spells.
pub fn head(word: &[u8]) -> Option<i64>
    ensures some { IfSome result (λ h. word.now ≡ signed_decimal h) }
    ensures in_box { IfSome result IsInBox }
    ensures none { IfNone result ((h : ℤ) → IsInBox h → word.now ≢ signed_decimal h) }
{
    if word.is_empty() {
        return None;
    }
    if word[0] != b'-' {
        let value = number(word)?;
        if value > BOX {
            return None;
        }
        return Some(value as i64);
    }
    let Some(value) = number(&word[1..]) else {
        return None;
    };
    if value == 0 {
        return None;
    }
    if value > BOX {
        return None;
    }
    Some(-(value as i64))
}
