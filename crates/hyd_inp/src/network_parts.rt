//! The parts of a network, and the network of its parts.
#![tactic(auto)]

ghost use Rattle.hyd_inp.specs.Parts.{AreAll};

use crate::numbered_names::Ids;
use hyd_net::{
    Control, HeadPoint, Junction, Link, List, Options, Pattern, Project, Reservoir, Rule, Tank,
    Times, VolumePoint,
};

/// Junctions, reservoirs and tanks, and the volume curves of tanks.
#[derive(Drop)]
pub(crate) struct Nodes {
    pub(crate) junctions: List<Junction>,
    pub(crate) reservoirs: List<Reservoir>,
    pub(crate) tanks: List<Tank>,
    pub(crate) shapes: List<List<VolumePoint>>,
}

/// Links, and the curves by straight lines of pumps and general purpose valves.
#[derive(Drop)]
pub(crate) struct Links {
    pub(crate) links: List<Link>,
    pub(crate) bends: List<List<HeadPoint>>,
}

/// Patterns, controls and rules.
#[derive(Drop)]
pub(crate) struct PatternsControlsAndRules {
    pub(crate) patterns: List<Pattern>,
    pub(crate) controls: List<Control>,
    pub(crate) rules: List<Rule>,
}

/// All parts of a network but its options, its times and its names.
#[derive(Drop)]
pub(crate) struct Parts {
    pub(crate) nodes: Nodes,
    pub(crate) links: Links,
    pub(crate) patterns_controls_and_rules: PatternsControlsAndRules,
}

/// The network of its parts.
pub(crate) fn assemble(ids: Ids, parts: Parts, options: Options, times: Times) -> Project
    ensures { AreAll ids parts options times result }
{
    let Ids {
        nodes: node_ids,
        links: link_ids,
    } = ids;
    let Parts {
        nodes,
        links,
        patterns_controls_and_rules,
    } = parts;
    Project {
        options,
        times,
        node_ids,
        link_ids,
        junctions: nodes.junctions,
        reservoirs: nodes.reservoirs,
        tanks: nodes.tanks,
        links: links.links,
        patterns: patterns_controls_and_rules.patterns,
        shapes: nodes.shapes,
        bends: links.bends,
        controls: patterns_controls_and_rules.controls,
        rules: patterns_controls_and_rules.rules,
    }
}
