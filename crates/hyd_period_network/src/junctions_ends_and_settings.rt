//! Junctions, link ends and settings as a period's network has them.
#![tactic(auto)]

use hyd_law::Quad;
use hyd_net::LinkState;

/// A junction: its elevation in head ticks, and the law of its emitter.
#[derive(Clone, Copy, Drop)]
pub struct NetJunction {
    pub elevation: i64,
    pub emitter: Option<Quad>,
}

/// The two nodes of a link.
#[derive(Clone, Copy, Drop)]
pub struct Ends {
    pub from: u32,
    pub to: u32,
}

/// A link end at a junction: the link, its other node, and whether it leaves the junction.
#[derive(Clone, Copy, Default, Drop)]
pub struct Tie {
    pub link: u32,
    pub other: u32,
    pub out: bool,
}

/// The state of a link, and the ways that full and empty tanks at its ends forbid.
#[derive(Clone, Copy, Drop)]
pub struct Setting {
    pub state: LinkState,
    pub no_forward: bool,
    pub no_reverse: bool,
}
