//! Lines that are put together in a buffer.

ghost use Rattle.std.specs.Prelude.{◌≡◌, ◌+◌, ◌≤◌, ◌++◌, length, take, decimal};

use crate::line_reader::LINE;
use itoa::Buffer;

/// Appends the word to the bytes of the buffer that are used, and returns how many are then.
pub fn append(buffer: &mut [u8; LINE], used: usize, word: &[u8]) -> usize
    requires { used + length word.now ≤ 64 }
    ensures used { result ≡ used + length word.now }
    ensures text { take result buffer.new ≡ take used buffer.old ++ word.now }
{
    let end = used + word.len();
    buffer[used..end].copy_from_slice(word);
    end
}

/// Appends a number below 2^32.
pub fn append_number(buffer: &mut [u8; LINE], used: usize, number: u32) -> usize
    requires { used ≤ 54 }
    ensures used { result ≤ used + 10 }
    ensures text { take result buffer.new ≡ take used buffer.old ++ decimal number }
{
    let mut digits = Buffer::new();
    append(buffer, used, digits.format(number).as_bytes())
}
