//! The part of a record with the vectors of named links.

ghost use Rattle.std.specs.Prelude.{◌≡◌, ◌≤◌, [], All, length, map, take, IfOk};
ghost use Rattle.hyd_spec_flows.specs.FlowTexts.{most_names};
ghost use Rattle.hyd_cert.specs.declared.named_vectors.NamedVectors.{NamedVectors};

use crate::named_vectors::{NamedVectors, set_link};
use hyd_net::List;
use std::alloc::{AllocError as OutOfMemory, Global};

/// The most links that a part names.
pub const MOST_NAMES: usize = 16;

/// The links that a record's part names, at most 16, each with its vectors.
#[derive(Drop)]
pub struct FlowPart {
    /// The number of junctions.
    pub junctions: u32,
    /// How many links are named.
    pub count: usize,
    /// Room for 16 links; the first `count` are those that are named.
    pub named: List<NamedVectors>,
    ghost most: { count ≤ most_names },
    ghost room: { length named.list ≡ most_names },
    ghost each: { All (λ (one : NamedVectors). one.junctions ≡ junctions) named.list },
}

impl FlowPart {
    ghost use Rattle.hyd_spec_flows.specs.FlowParts.{names_of};
    ghost use Rattle.hyd_cert.specs.FlowPartView.{part_of};

    /// A part for a network with so many junctions, with room for 16 links, that names none.
    pub fn open(alloc: Global, junctions: u32) -> Result<FlowPart, OutOfMemory>
        ensures empty { IfOk result (λ part. part_of part ≡ []) }
        ensures junctions { IfOk result (λ part. part.junctions ≡ junctions) }
    {
        let mut named = List::new(alloc);
        for _ in 0..MOST_NAMES {
            named.push(NamedVectors::open(alloc, junctions)?)?;
        }
        Ok(FlowPart {
            junctions,
            count: 0,
            named,
        })
    }

    /// Names no link.
    pub fn clear(&mut self)
        ensures empty { part_of self.new ≡ [] }
        ensures junctions { self.new.junctions ≡ self.old.junctions }
    {
        self.count = 0;
    }

    /// Names these links, at most 16, in order. Their vectors are those that stood at their places.
    pub fn name(&mut self, links: &[u32])
        requires { length links.now ≤ most_names }
        ensures names { names_of (part_of self.new) ≡ links.now }
        ensures junctions { self.new.junctions ≡ self.old.junctions }
    {
        self.count = links.len();
        let named = self.named.as_mut_slice();
        for i in 0..links.len() {
            set_link(&mut named[i], links[i]);
        }
    }

    /// The links that are named, in order.
    pub fn as_slice(&self) -> &[NamedVectors]
        ensures { result.now ≡ take self.now.count self.now.named.list }
    {
        &self.named.as_slice()[..self.count]
    }
}
