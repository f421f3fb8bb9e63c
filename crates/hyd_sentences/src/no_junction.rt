//! A name that should be a junction's.

use crate::sentences::no_junction;
use crate::shown::Name;
use std::fmt::{self, Display, Formatter};

/// A name among the words that should be that of a junction, and isn't.
#[derive(Clone, Copy)]
pub struct NoJunction<'a> {
    /// The name of the network's file.
    pub file: &'a str,
    /// The name.
    pub name: &'a str,
}

impl Display for NoJunction<'_> {
    fn fmt<W: fmt::Write>(&self, f: &mut Formatter<W>) -> fmt::Result {
        no_junction(f, self.file, Name(self.name.as_bytes()))
    }
}
