//! Definitions alone: the flows of links that a run names, the vectors that bound them, the certificate texts that hold
//! these, the lines that print them, and what runs and checks promise of them. No function here has a body.
#![tactic(auto)]

use hyd_spec_certificates::Side;

/// Why a part of a certificate with the vectors of named links is refused (this program's own). Links and junctions
/// count from 0.
#[derive(Clone, Copy, Drop)]
pub enum FlowFails {
    /// The first link of the part that doesn't join two junctions, or was named before in it.
    Name {
        link: u32,
    },
    /// The vector of the link and side isn't what it has to be: it fails first at the junction.
    Vector {
        link: u32,
        side: Side,
        junction: u32,
    },
}
