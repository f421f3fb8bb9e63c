//! Reading of numbers.
#![tactic(auto)]

ghost use Rattle.std.specs.Prelude.{◌≡◌, ◌+◌, ◌-◌, ◌*◌, ◌/◌, ◌^◌, ◌<◌, ◌≤◌, ◌↔◌, ◌++◌, true, false, ◌&&◌, nat_le};
ghost use Rattle.std.specs.Prelude.{if◌then◌else◌, [], min, length, fold, take, drop, IfOk, IfSome, unwrap_or, position, pos};
ghost use Rattle.std.specs.Prelude.{◌+ℤ◌, ◌-ℤ◌, unsigned_abs};
ghost use Rattle.std.specs.List.{before_first, after_first, list_all, list_any};
ghost use borrow.Author.Differences.{up, down};
ghost use Rattle.hyd_num.specs.Numeral as numeral;
ghost use Rattle.hyd_num.specs.Numeral.{is_digit, is_point, is_exponent_mark, is_numeral, magnitude_of, nano_of};
ghost use Rattle.hyd_num.specs.Numeral.{number, shifted, signed};

use crate::decimals::{Decimal, NumFault};

// 10^12, and one more, in billionths.
const LIMIT: u128 = 1_000_000_000_000_000_000_000;

const BEYOND: u128 = LIMIT + 1;

/// Reads a number: an optional sign, decimal digits with at most one point and at least one digit,
/// then optionally `e` or `E`, an optional sign and one to three digits. Its value is the text with
/// the exponent applied, cut toward zero after nine decimals.
///
/// The text may be of any length.
///
/// # Errors
///
/// `NotANumber` exactly where the text is none, `TooLarge` exactly where the magnitude of the
/// value is above 10^12.
pub fn read_decimal(text: &[u8]) -> Result<Decimal, NumFault>
    ensures not_a_number { (result ≡ Err NumFault.NotANumber) ↔ (is_numeral text.now ≡ false) }
    ensures too_large { (result ≡ Err NumFault.TooLarge) ↔ ((is_numeral text.now ≡ true)
        × (10 ^ 21 < magnitude_of text.now)) }
    ensures numeral { IfOk result (λ d. is_numeral text.now ≡ true) }
    ensures value { IfOk result (λ d. d.nano ≡ nano_of text.now) }
{
    let body = behind_sign(text);
    let mark = mark(body);
    let mantissa = before_mark(body, mark);
    let exponent = behind_mark(body, mark);
    let point = point(mantissa);
    let whole = before_point(mantissa, point);
    let decimals = behind_point(mantissa, point);
    if !is_numeral(whole, decimals, exponent, has_mark(body)) {
        return Err(NumFault::NotANumber);
    }
    let magnitude = magnitude(whole, decimals, exponent_of(exponent));
    if magnitude > LIMIT {
        return Err(NumFault::TooLarge);
    }
    Ok(decimal(is_negative(text), magnitude))
}

fn is_numeral(whole: &[u8], decimals: &[u8], exponent: &[u8], marked: bool) -> bool
    requires { marked ≡ false → exponent.now ≡ [] }
    ensures { result ≡ (((list_all is_digit whole.now && list_all is_digit decimals.now)
        && nat_le 1 (length whole.now + length decimals.now)) && (if marked then numeral.is_exponent exponent.now
        else true)) }
{
    is_mantissa(whole, decimals) && is_exponent(exponent, marked)
}

// Digits before and after the point, at least one in all.
fn is_mantissa(whole: &[u8], decimals: &[u8]) -> bool
    ensures { result ≡ ((list_all is_digit whole.now && list_all is_digit decimals.now)
        && nat_le 1 (length whole.now + length decimals.now)) }
{
    all_digits(whole) && all_digits(decimals) && whole.len() + decimals.len() >= 1
}

// One to three digits behind an optional sign, or nothing where there is no mark.
fn is_exponent(text: &[u8], marked: bool) -> bool
    requires { marked ≡ false → text.now ≡ [] }
    ensures { result ≡ (if marked then numeral.is_exponent text.now else true) }
{
    let digits = behind_sign(text);
    !marked || (all_digits(digits) && digits.len() >= 1 && digits.len() <= 3)
}

// A text behind its sign.
fn behind_sign(text: &[u8]) -> &[u8]
    ensures { result.now ≡ numeral.behind_sign text.now }
{
    match text {
        [b'+' | b'-', rest @ ..] => rest,
        _ => text,
    }
}

fn is_negative(text: &[u8]) -> bool
    ensures { result ≡ numeral.is_negative text.now }
{
    match text {
        [b'-', ..] => true,
        _ => false,
    }
}

// Where the exponent's mark stands.
fn mark(text: &[u8]) -> Option<usize>
    ensures { result ≡ position is_exponent_mark text.now }
{
    text.iter().position(|c| *c == b'e' || *c == b'E')
}

fn point(text: &[u8]) -> Option<usize>
    ensures { result ≡ position is_point text.now }
{
    text.iter().position(|c| *c == b'.')
}

fn has_mark(text: &[u8]) -> bool
    ensures { result ≡ list_any is_exponent_mark text.now }
{
    text.iter().any(|c| *c == b'e' || *c == b'E')
}

fn before_mark(text: &[u8], mark: Option<usize>) -> &[u8]
    requires { mark ≡ position is_exponent_mark text.now }
    ensures { result.now ≡ before_first is_exponent_mark text.now }
{
    before(text, mark)
}

fn behind_mark(text: &[u8], mark: Option<usize>) -> &[u8]
    requires { mark ≡ position is_exponent_mark text.now }
    ensures { result.now ≡ after_first is_exponent_mark text.now }
{
    behind(text, mark)
}

fn before_point(text: &[u8], point: Option<usize>) -> &[u8]
    requires { point ≡ position is_point text.now }
    ensures { result.now ≡ before_first is_point text.now }
{
    before(text, point)
}

fn behind_point(text: &[u8], point: Option<usize>) -> &[u8]
    requires { point ≡ position is_point text.now }
    ensures { result.now ≡ after_first is_point text.now }
{
    behind(text, point)
}

/// What stands before a place, or all.
pub fn before(text: &[u8], place: Option<usize>) -> &[u8]
    ensures { result.now ≡ take (unwrap_or place (length text.now)) text.now }
{
    match place {
        Some(place) if place < text.len() => &text[..place],
        _ => text,
    }
}

// What stands behind a place, or nothing.
fn behind(text: &[u8], place: Option<usize>) -> &[u8]
    ensures { result.now ≡ drop (unwrap_or place (length text.now) + 1) text.now }
{
    match place {
        Some(place) if place < text.len() => &text[place + 1..],
        _ => &[],
    }
}

/// Whether a text is made of decimal digits alone.
pub fn all_digits(text: &[u8]) -> bool
    ensures { result ≡ list_all is_digit text.now }
{
    text.iter().all(|c| b'0' <= *c && *c <= b'9')
}

// The number that digits write after those of a first number, and no more than `BEYOND`.
fn capped(first: u128, digits: &[u8]) -> u128
    requires { first ≤ BEYOND }
    ensures { result ≡ min (fold (λ n c. 10 * n + (c - 48)) first digits.now) BEYOND }
{
    let mut number = first;
    for c in digits {
        number = (10 * number + u128::from(c.saturating_sub(b'0'))).min(BEYOND);
    }
    number
}

// A number times a power of ten, and no more than `BEYOND`.
fn times_ten(first: u128, places: u32) -> u128
    requires { first ≤ BEYOND }
    ensures { result ≡ min (first * 10 ^ places) BEYOND }
{
    if let Some(power) = small_power_of_ten(places) {
        return (first * power).min(BEYOND);
    }
    let mut number = first;
    for _ in 0..places {
        number = (10 * number).min(BEYOND);
    }
    number
}

// The powers of ten by which numbers without an exponent are multiplied.
fn small_power_of_ten(places: u32) -> Option<u128>
    ensures power { IfSome result (λ power. power ≡ 10 ^ places) }
    ensures small { IfSome result (λ power. power ≤ 10 ^ 9) }
{
    match places {
        9 => Some(1_000_000_000),
        8 => Some(100_000_000),
        7 => Some(10_000_000),
        6 => Some(1_000_000),
        5 => Some(100_000),
        4 => Some(10_000),
        3 => Some(1_000),
        2 => Some(100),
        1 => Some(10),
        0 => Some(1),
        _ => None,
    }
}

// The number of the first digits of two rows, `lost` of them left out, and no more than `BEYOND`.
fn front(whole: &[u8], decimals: &[u8], lost: u128) -> u128
    ensures { result ≡ min (number (take (length whole.now + length decimals.now - lost) (whole.now ++ decimals.now)))
        BEYOND }
{
    let total = whole.len() as u128 + decimals.len() as u128;
    let kept = total.saturating_sub(lost) as usize;
    if kept <= whole.len() {
        return capped(0, &whole[..kept]);
    }
    capped(capped(0, whole), &decimals[..kept - whole.len()])
}

// The magnitude in billionths, cut, and no more than `BEYOND`.
fn magnitude(whole: &[u8], decimals: &[u8], exponent: i32) -> u128
    requires whole_digits { list_all is_digit whole.now ≡ true }
    requires decimal_digits { list_all is_digit decimals.now ≡ true }
    requires short { unsigned_abs exponent ≤ 999 }
    ensures { result ≡ min (shifted (number (whole.now ++ decimals.now))
        ((exponent +ℤ pos 9) -ℤ pos (length decimals.now))) BEYOND }
{
    let (more, lost) = places(exponent, decimals.len());
    if lost == 0 {
        return times_ten(capped(capped(0, whole), decimals), more);
    }
    front(whole, decimals, lost)
}

// By which power of ten the number of all digits is multiplied or divided to make billionths.
fn places(exponent: i32, decimals: usize) -> (u32, u128)
    requires { unsigned_abs exponent ≤ 999 }
    ensures more { result.0 ≡ up ((exponent +ℤ pos 9) -ℤ pos decimals) }
    ensures lost { result.1 ≡ down ((exponent +ℤ pos 9) -ℤ pos decimals) }
    ensures one_way { 0 < result.1 → result.0 ≡ 0 }
{
    let places = i128::from(exponent) + 9 - decimals as i128;
    if places >= 0 {
        return (places as u32, 0);
    }
    (0, places.unsigned_abs())
}

// The number of an exponent of at most three digits, 0 where there are none.
fn exponent_of(text: &[u8]) -> i32
    requires digits { list_all is_digit (numeral.behind_sign text.now) ≡ true }
    requires short { length (numeral.behind_sign text.now) ≤ 3 }
    ensures value { result ≡ signed (numeral.is_negative text.now) (number (numeral.behind_sign text.now)) }
    ensures small { unsigned_abs result ≤ 999 }
{
    let magnitude = capped(0, behind_sign(text)) as i32;
    if is_negative(text) {
        return -magnitude;
    }
    magnitude
}

fn decimal(negative: bool, magnitude: u128) -> Decimal
    requires { magnitude ≤ 10 ^ 21 }
    ensures { result.nano ≡ signed negative magnitude }
{
    let nano = magnitude as i128;
    if negative {
        return Decimal { nano: -nano };
    }
    Decimal { nano }
}
