//! A named link with its vectors.

ghost use Rattle.std.specs.Prelude.{◌≡◌, ◌+◌, length, IfOk};

use crate::record::add_zeros;
use hyd_net::List;
use hyd_spec_certificates::Side;
use std::alloc::{AllocError as OutOfMemory, Global};

/// A named link and its two vectors, in which its first node is held.
#[derive(Drop)]
pub struct NamedVectors {
    /// The number of the link, counted from 0.
    pub link: u32,
    /// The number of junctions.
    pub junctions: u32,
    /// The vectors one after another, a head in ticks for each junction: the UPPER one and the LOWER one.
    pub heads: List<i64>,
    ghost whole: { length heads.list ≡ junctions + junctions },
}

impl NamedVectors {
    ghost use Rattle.hyd_spec_certificates.specs.RecordAndStanding.{vector_on};
    ghost use Rattle.hyd_cert.specs.FlowPartView.{named_of};

    /// Room for a link of a network with so many junctions, in which all is 0.
    pub fn open(alloc: Global, junctions: u32) -> Result<NamedVectors, OutOfMemory>
        ensures { IfOk result (λ named. named.junctions ≡ junctions) }
    {
        let mut heads = List::new(alloc);
        add_zeros(&mut heads, junctions)?;
        add_zeros(&mut heads, junctions)?;
        Ok(NamedVectors {
            link: 0,
            junctions,
            heads,
        })
    }

    /// The vector of a side.
    pub fn vector(&self, side: Side) -> &[i64]
        ensures { result.now ≡ vector_on side (named_of self.now).held }
    {
        let junctions = self.junctions as usize;
        let heads = self.heads.as_slice();
        match side {
            Side::Upper => &heads[..junctions],
            Side::Lower => &heads[junctions..],
        }
    }
}

/// Writes the number of a link.
pub(crate) fn set_link(named: &mut NamedVectors, link: u32)
    ensures link { named.new.link ≡ link }
    ensures junctions { named.new.junctions ≡ named.old.junctions }
{
    named.link = link;
}
