//! Numbers of links, in an array of their own.

ghost use Rattle.std.specs.Prelude.{◌≡◌, ◌<◌, ◌++◌, [], ◌∷◌, length};

use hyd_command_words::MOST_NAMES;
use std::marker::Model;

/// The numbers of links in the order of their names, 16 at most. Contracts see their list.
#[derive(Drop)]
pub struct NumberedLinks {
    numbers: [u32; MOST_NAMES],
    count: usize,
}

impl Model for NumberedLinks {
    ghost use Rattle.std.specs.Prelude.{ℕ, ◌≤◌, List, take};

    ghost Value = { List ℕ };

    ghost view = { λ links. take links.count links.numbers };

    // `MOST_NAMES`, which an invariant can't name.
    ghost invariant = { λ links. links.count ≤ 16 };
}

impl NumberedLinks {
    /// No number.
    pub(crate) fn new() -> NumberedLinks
        ensures { result ≡ [] }
    {
        NumberedLinks {
            numbers: [0; MOST_NAMES],
            count: 0,
        }
    }

    /// Appends a number, for which there is room.
    pub(crate) fn push(&mut self, number: u32)
        requires { length self.old < MOST_NAMES }
        ensures { self.new ≡ self.old ++ number ∷ [] }
    {
        self.numbers[self.count] = number;
        self.count += 1;
    }

    /// The numbers.
    pub fn as_slice(&self) -> &[u32]
        ensures { result.now ≡ self.now }
    {
        &self.numbers[..self.count]
    }
}
