//! The decimal text of a number of ten-thousandths, in a buffer of the caller's.
ghost use Rattle.std.specs.Fmt.{decimal, sign_text};
ghost use Rattle.std.specs.Prelude.{◌≡◌, ◌/◌, ◌%◌, ◌+◌, ◌<◌, ◌≤◌, ◌∷◌, [], length};
ghost use Rattle.hyd_num.specs.PrintedDecimals.{decimal_text, fixed_point, last_digits};
ghost use Rattle.hyd_units.specs.TextInBuffer.{Writes};

/// The size of a buffer that takes each decimal: a sign, 39 digits and a point are 41 bytes.
pub const BUFFER_SIZE: usize = 48;

// Each `write_` function writes from `at` on, and returns where its text ends.

fn write_byte(byte: u8, out: &mut [u8], at: usize) -> usize
    requires { at < length out.old }
    ensures { Writes out.old out.new at result (byte ∷ []) }
{
    out[at] = byte;
    at + 1
}

const TWO_TO_64: u128 = 1 << 64;

// A number without its last digit. Within 64 bits that takes a fifth of the time.
#[inline]
fn without_last_digit(n: u128) -> u128
    ensures { result ≡ n / 10 }
{
    if n < TWO_TO_64 {
        return u128::from(n as u64 / 10);
    }
    n / 10
}

#[inline]
fn last_digit(n: u128) -> u8
    ensures { result ≡ n % 10 }
{
    if n < TWO_TO_64 {
        return (n as u64 % 10) as u8;
    }
    (n % 10) as u8
}

fn write_whole(n: u128, out: &mut [u8], at: usize) -> usize
    requires { at + length (decimal n) ≤ length out.old }
    ensures { Writes out.old out.new at result (decimal n) }
{
    if n < 10 {
        return write_byte(b'0' + n as u8, out, at);
    }
    let ones = write_whole(without_last_digit(n), out, at);
    write_byte(b'0' + last_digit(n), out, ones)
}

fn write_last_digits(places: usize, n: u128, out: &mut [u8], at: usize) -> usize
    requires { at + places ≤ length out.old }
    ensures { Writes out.old out.new at result (last_digits places n) }
{
    if places == 0 {
        return at;
    }
    let ones = write_last_digits(places - 1, without_last_digit(n), out, at);
    write_byte(b'0' + last_digit(n), out, ones)
}

fn write_sign(negative: bool, out: &mut [u8], at: usize) -> usize
    requires { at < length out.old }
    ensures { Writes out.old out.new at result (sign_text negative) }
{
    if negative {
        return write_byte(b'-', out, at);
    }
    at
}

fn write_four_places(n: u128, out: &mut [u8], at: usize) -> usize
    requires { at + length (fixed_point 4 n) ≤ length out.old }
    ensures { Writes out.old out.new at result (fixed_point 4 n) }
{
    let point = write_whole(n / 10_000, out, at);
    let places = write_byte(b'.', out, point);
    write_last_digits(4, n, out, places)
}

/// Writes a number of ten-thousandths at the front, and returns the length of the text.
pub fn write_decimal(count: i128, out: &mut [u8; BUFFER_SIZE]) -> usize
    ensures { Writes out.old out.new 0 result (decimal_text count) }
{
    let start = write_sign(count < 0, out, 0);
    write_four_places(count.unsigned_abs(), out, start)
}
