//! Why a call of the desk on real files failed.

use std::fmt::{self, Display, Formatter};
use std::io;

/// A call of a desk.
#[derive(Clone, Copy)]
pub enum Call {
    /// `open`.
    Open,
    /// `read`.
    Read,
    /// `create`.
    Create,
    /// `write`.
    Write,
    /// `print`.
    Print,
}

/// A call of a desk on real files that failed, or that took nothing. Its text is a line without its end: the file, what
/// couldn't be done, and why.
#[derive(Clone, Copy)]
pub struct Failure<'a> {
    /// The name that the file was given, or `standard output`. None where there was no memory for the name.
    pub file: Option<&'a str>,
    /// What was called.
    pub call: Call,
    /// Why it failed: what the system says, or why the desk refused.
    pub error: io::Error,
}

impl Display for Call {
    fn fmt<W: fmt::Write>(&self, f: &mut Formatter<W>) -> fmt::Result {
        f.write_str(match self {
            Call::Open => "can't be opened",
            Call::Read => "can't be read",
            Call::Create => "can't be created",
            Call::Write => "can't be written",
            Call::Print => "can't be printed to",
        })
    }
}

impl Display for Failure<'_> {
    fn fmt<W: fmt::Write>(&self, f: &mut Formatter<W>) -> fmt::Result {
        if let Some(file) = self.file {
            write!(f, "{file}: ")?;
        }
        write!(f, "{}: {}", self.call, self.error)
    }
}
