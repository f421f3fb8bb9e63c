//! The words of a row beside what they should be.

ghost use Rattle.std.specs.Prelude.{length};
ghost use Rattle.std.specs.Iterator.{at_most};

use crate::forms::{Form, Slot};
use crate::rows::{Row, Words};
use hyd_lex::split_word;

/// A word of a row, what it should be, and the word before it.
#[derive(Clone, Copy)]
pub(crate) struct Filled<'a> {
    /// What it should be.
    pub slot: Slot,
    /// The word.
    pub word: &'a [u8],
    /// The word before it, empty at the first one.
    pub before: &'a [u8],
}

/// The words of a row in turn, as long as there is something that they should be.
#[derive(Clone, Copy)]
pub(crate) struct FilledSlots<'a> {
    rest: &'a [u8],
    slots: &'static [Slot],
    more: bool,
    before: &'a [u8],
}

/// The words of a row beside a form.
pub(crate) fn filled_slots<'a>(body: &'a [u8], form: &Form) -> FilledSlots<'a> {
    FilledSlots {
        rest: body,
        slots: form.slots,
        more: form.more,
        before: b"",
    }
}

impl<'a> Iterator for FilledSlots<'a> {
    type Item = Filled<'a>;

    ghost remaining = { λ s. at_most (length s.rest.now) };

    fn next(&mut self) -> Option<Filled<'a>> {
        let (word, rest) = split_word(self.rest)?;
        let (slot, slots) = self.slots.split_first()?;
        let before = self.before;
        self.rest = rest;
        self.before = word;
        if !slots.is_empty() || !self.more {
            self.slots = slots;
        }
        Some(Filled {
            slot: *slot,
            word,
            before,
        })
    }
}
