//! Whole square roots.
#![tactic(auto)]

ghost use Rattle.std.specs.Prelude.{◌+◌, ◌*◌, ◌<◌, ◌≤◌, ◌≡◌, IfSome, true};

use std::num;

/// The greatest whole number whose square is at most `x`.
pub fn isqrt(x: u128) -> u64
    ensures square_at_most { result * result ≤ x }
    ensures next_above { x < (result + 1) * (result + 1) }
{
    let first = guess(x);
    if let Some(root) = root_near(x, first) {
        return root;
    }
    if let Some(root) = root_near(x, improved(x, first)) {
        return root;
    }
    x.isqrt() as u64
}

// The root in floating point. Below 2^104 it is at most one off, above it some thousands. Nothing
// rests on that: each guess is tried before it is answered.
#[inline]
fn guess(x: u128) -> u64 {
    let high = (x >> 64) as u64;
    let low = (x % 0x1_0000_0000_0000_0000) as u64;
    num::saturating_f64_to_u64(
        (num::nearest_u64_to_f64(high) * 18_446_744_073_709_551_616.0
            + num::nearest_u64_to_f64(low)).sqrt(),
    )
}

// One step of Newton's method.
fn improved(x: u128, guess: u64) -> u64 {
    if guess == 0 {
        return 0;
    }
    let quotient = x / u128::from(guess);
    let mean = u128::from(guess).wrapping_add(quotient) / 2;
    if mean > u128::from(u64::MAX) {
        u64::MAX
    } else {
        mean as u64
    }
}

// The root, where it is the guess or one of its neighbours.
#[inline]
fn root_near(x: u128, guess: u64) -> Option<u64>
    ensures { IfSome result (λ r. (r * r ≤ x) × (x < (r + 1) * (r + 1))) }
{
    if is_root(x, guess) {
        return Some(guess);
    }
    if guess > 0 && is_root(x, guess - 1) {
        return Some(guess - 1);
    }
    if guess < u64::MAX && is_root(x, guess + 1) {
        return Some(guess + 1);
    }
    None
}

#[inline]
fn is_root(x: u128, root: u64) -> bool
    ensures square_at_most { result ≡ true → root * root ≤ x }
    ensures next_above { result ≡ true → x < (root + 1) * (root + 1) }
{
    let square = u128::from(root) * u128::from(root);
    square <= x && x - square <= 2 * u128::from(root)
}
