//! IDs of a network as they are shown.

ghost use Rattle.std.specs.Prelude.{◌≡◌, length};
ghost use Rattle.hyd_net.specs.ControlsAndRules.{node_count};

use hyd_net::Project;
use std::fmt::{self, Display, Formatter};

/// An ID: a byte that isn't printing ASCII is shown as `?`.
#[derive(Clone, Copy)]
pub(crate) struct Id<'a>(pub &'a [u8]);

/// The ID of a link; empty where there is no such link.
pub(crate) fn link_id(project: &Project, link: u32) -> Id<'_>
    requires { length project.now.link_ids ≡ length project.now.links.list }
{
    if (link as usize) < project.links.len() {
        return Id(project.link_ids.id(link));
    }
    Id(b"")
}

/// The ID of a junction; empty where there is no such junction.
pub(crate) fn junction_id(project: &Project, junction: u32) -> Id<'_>
    requires { length project.now.node_ids ≡ node_count project.now }
{
    if (junction as usize) < project.junctions.len() {
        return Id(project.node_ids.id(junction));
    }
    Id(b"")
}

// A byte as it is shown.
fn shown_byte(byte: u8) -> char {
    if b' ' < byte && byte <= b'~' {
        return char::from(byte);
    }
    '?'
}

impl Display for Id<'_> {
    fn fmt<W: fmt::Write>(&self, f: &mut Formatter<W>) -> fmt::Result {
        for byte in self.0 {
            f.write_char(shown_byte(*byte))?;
        }
        Ok(())
    }
}
