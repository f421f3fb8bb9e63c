//! A word or two of a line, in a buffer of their own.

ghost use Rattle.std.specs.Prelude.{◌≡◌, ◌≤◌, ◌+◌, ◌++◌, [], length, take};

use hyd_units::BUFFER_SIZE;
use std::marker::Model;

/// A short text of as many bytes as its buffer takes at most. Contracts see its bytes.
#[derive(Drop)]
pub(crate) struct Text {
    buffer: [u8; BUFFER_SIZE],
    used: usize,
}

impl Model for Text {
    ghost use Rattle.std.specs.Prelude.{ℕ, ◌≤◌, List, take};

    ghost Value = { List ℕ };

    ghost view = { λ t. take t.used t.buffer };

    // `BUFFER_SIZE`, which an invariant can't name.
    ghost invariant = { λ t. t.used ≤ 48 };
}

impl Text {
    /// No bytes.
    pub(crate) fn new() -> Text
        ensures { result ≡ [] }
    {
        Text {
            buffer: [0; BUFFER_SIZE],
            used: 0,
        }
    }

    /// Appends the bytes, for which there is room.
    pub(crate) fn push(&mut self, word: &[u8])
        requires { length self.old + length word.now ≤ BUFFER_SIZE }
        ensures { self.new ≡ self.old ++ word.now }
    {
        let end = self.used + word.len();
        self.buffer[self.used..end].copy_from_slice(word);
        self.used = end;
    }

    /// The bytes.
    pub(crate) fn bytes(&self) -> &[u8]
        ensures { result.now ≡ self.now }
    {
        &self.buffer[..self.used]
    }
}
