//! How many junctions, links and tanks a network has.

ghost use Rattle.std.specs.Prelude.{◌^◌, ◌<◌};

/// How many junctions, links and tanks a network has.
#[derive(Clone, Copy, Drop)]
pub struct NetworkCounts {
    /// The number of junctions.
    pub junctions: u32,
    /// The number of links.
    pub links: u32,
    /// The number of tanks.
    pub tanks: u32,
}

/// A number is below 2^32.
pub(crate) fn is_small(number: u32)
    ensures { number < 2 ^ 32 }
{
    let _ = number;
}

/// The counts of a network are below 2^32.
pub(crate) fn has_small_counts(counts: &NetworkCounts)
    ensures junctions { counts.now.junctions < 2 ^ 32 }
    ensures links { counts.now.links < 2 ^ 32 }
    ensures tanks { counts.now.tanks < 2 ^ 32 }
{
    is_small(counts.junctions);
    is_small(counts.links);
    is_small(counts.tanks);
}
