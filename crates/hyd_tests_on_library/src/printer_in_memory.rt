//! What a program prints, kept to be looked at.

use std::alloc::Global;
use std::cell::RefCell;
use std::fmt::{Display, Write};
use std::io;

/// Keeps what is printed.
#[derive(Drop)]
pub(crate) struct Paper {
    text: RefCell<String>,
}

impl Paper {
    /// Empty paper.
    pub(crate) fn new(alloc: Global) -> Paper {
        Paper {
            text: RefCell::new(String::new(alloc)),
        }
    }

    /// Keeps a value behind what was printed before.
    fn keep<D: Display + Drop>(&self, value: D) -> io::Result<()> {
        let mut text = self.text.try_borrow_mut()?;
        write!(text, "{value}")?;
        Ok(())
    }

    /// What was printed.
    pub(crate) fn into_text(self) -> String {
        self.text.into_inner()
    }
}

impl Print for Paper {
    fn print<D: Display + Drop>(&self, value: D) -> io::Result<()> {
        self.keep(value)
    }

    fn println<D: Display + Drop>(&self, value: D) -> io::Result<()> {
        self.keep(value)?;
        self.keep("\n")
    }

    /// Nothing is printed that need not be text.
    fn write_all(&self, _bytes: &[u8]) -> io::Result<()> {
        Err(io::Error::other("no text"))
    }
}
