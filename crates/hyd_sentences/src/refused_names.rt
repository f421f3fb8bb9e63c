//! Why a name of `--flows` is refused.

use crate::sentences::UnfitName;
use hyd_spec_named_links::NameFails;
use std::fmt::{self, Display, Formatter};

/// Why the name of a link is refused.
#[derive(Clone, Copy)]
pub struct RefusedName<'a> {
    /// The name, as it was given.
    pub name: &'a str,
    /// Why it is refused.
    pub cause: NameFails,
}

impl Display for RefusedName<'_> {
    fn fmt<W: fmt::Write>(&self, f: &mut Formatter<W>) -> fmt::Result {
        let name = self.name.as_bytes();
        let unfit = match self.cause {
            NameFails::NoLink => UnfitName::NoLink(name),
            NameFails::NotBetweenJunctions => UnfitName::NotBetweenJunctions(name),
        };
        write!(f, "{unfit}")
    }
}
