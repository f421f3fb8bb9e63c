//! The network as a whole.
#![tactic(auto)]

use crate::controls::Control;
use crate::curves::{HeadPoint, VolumePoint};
use crate::links::Link;
use crate::list::List;
use crate::names::Names;
use crate::nodes::{Junction, Reservoir, Tank};
use crate::options::{Options, Times};
use crate::patterns::Pattern;
use crate::rules::Rule;

/// The network of an input file. Nodes are numbered junctions first, then reservoirs, then tanks,
/// each in the file's order. Links are numbered pipes, pumps, valves.
#[derive(Drop)]
pub struct Project {
    pub options: Options,
    pub times: Times,
    pub node_ids: Names,
    pub link_ids: Names,
    pub junctions: List<Junction>,
    pub reservoirs: List<Reservoir>,
    pub tanks: List<Tank>,
    pub links: List<Link>,
    pub patterns: List<Pattern>,
    /// The volume curves that tanks name.
    pub shapes: List<List<VolumePoint>>,
    /// The curves by straight lines that pumps and general purpose valves name.
    pub bends: List<List<HeadPoint>>,
    pub controls: List<Control>,
    pub rules: List<Rule>,
}
