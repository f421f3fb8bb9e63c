//! Numbers, times and settings as words.

ghost use Rattle.std.specs.Prelude.{◌≡◌, ◌+◌, ◌≤◌, ◌/◌, ◌%◌, ◌++◌, ◌<◌, [], ◌∷◌, length, decimal};
ghost use Rattle.hyd_num.specs.PrintedDecimals.{last_digits, setting_text};
ghost use Rattle.hyd_spec_reports.specs.ReportLine.{clock_text};

use crate::short_text::Text;
use hyd_units::BUFFER_SIZE;
use itoa::Buffer;

/// Appends a number of at most 20 digits.
fn push_number(text: &mut Text, number: u64)
    requires { length text.old ≤ 28 }
    ensures text { text.new ≡ text.old ++ decimal number }
    ensures room { length text.new ≤ length text.old + 20 }
{
    let mut digits = Buffer::new();
    text.push(digits.format(number).as_bytes());
}

/// Appends one digit.
fn push_digit(text: &mut Text, digit: u64)
    requires digit { digit < 10 }
    requires room { length text.old < BUFFER_SIZE }
    ensures text { text.new ≡ text.old ++ (48 + digit) ∷ [] }
    ensures room { length text.new ≡ length text.old + 1 }
{
    text.push(&[b'0' + digit as u8]);
}

/// Appends the last digits of a number, as many as there are places.
fn push_last_digits(text: &mut Text, places: usize, number: u64)
    requires { length text.old + places ≤ BUFFER_SIZE }
    ensures text { text.new ≡ text.old ++ last_digits places number }
    ensures room { length text.new ≡ length text.old + places }
{
    if places == 0 {
        return;
    }
    push_last_digits(text, places - 1, number / 10);
    push_digit(text, number % 10);
}

/// A number.
pub(crate) fn number(number: u64) -> Text
    ensures text { result ≡ decimal number }
    ensures short { length result ≤ 20 }
{
    let mut text = Text::new();
    push_number(&mut text, number);
    text
}

/// A time in seconds as h:mm:ss.
pub(crate) fn clock(time: u64) -> Text
    ensures text { result ≡ clock_text time }
    ensures short { length result ≤ 26 }
{
    let mut text = Text::new();
    push_number(&mut text, time / 3600);
    text.push(b":");
    push_last_digits(&mut text, 2, time / 60 % 60);
    text.push(b":");
    push_last_digits(&mut text, 2, time % 60);
    text
}

/// Appends a number of billionths.
pub(crate) fn push_setting(text: &mut Text, billionths: u64)
    requires { length text.old ≤ 18 }
    ensures { text.new ≡ text.old ++ setting_text billionths }
{
    push_number(text, billionths / 1_000_000_000);
    text.push(b".");
    push_last_digits(text, 9, billionths);
}
