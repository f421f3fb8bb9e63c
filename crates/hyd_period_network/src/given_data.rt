//! Emitters, demands and heads of reservoirs that are given one by one.
#![tactic(auto)]

ghost use Rattle.std.specs.Prelude.{◌≡◌, length, All};
ghost use Rattle.std.specs.List.{AllZip};
ghost use Rattle.std.specs.Option.{option_map};
ghost use Rattle.hyd_net.specs.NetworkRanges.{HasOptions};
ghost use Rattle.hyd_demands_and_reservoir_heads.specs.DemandsAndHeadsByNumber.{IsInRange};
ghost use Rattle.hyd_period_network.specs.Demands.{IsOutLawOf, AreHeld};
ghost use Rattle.hyd_period_network.specs.GivenData.{law_with, with_emitter, with_emitters};

use crate::demands::set_demand;
use crate::junctions_ends_and_settings::NetJunction;
use hyd_law::{OutLaw, Quad};
use hyd_net::Project;
use hyd_num::Capacity;

fn law_with(emitter: Option<Capacity>) -> Option<Quad>
    ensures { result ≡ option_map law_with emitter }
{
    match emitter {
        Some(cap) => Some(Quad { cap }),
        None => None,
    }
}

fn give_emitter(junction: &mut NetJunction, emitter: Option<Capacity>)
    ensures { junction.new ≡ with_emitter junction.old emitter }
{
    junction.emitter = law_with(emitter);
}

/// Gives each junction its emitter, or none.
pub(crate) fn give_emitters(junctions: &mut [NetJunction], emitters: &[Option<Capacity>])
    requires each { length emitters.now ≡ length junctions.old }
    ensures { junctions.new ≡ with_emitters junctions.old emitters.now }
{
    for i in 0..emitters.len() {
        give_emitter(&mut junctions[i], emitters[i]);
    }
}

/// Makes the law of each junction's demand that of its given one. A capacity is made anew only where the demand is
/// another.
pub(crate) fn give_demands(project: &Project, given: &[i64], demands: &mut [OutLaw])
    requires options { HasOptions project.now.options project.now.patterns.list }
    requires each { length given.now ≡ length demands.old }
    requires in_range { All IsInRange given.now }
    requires held { AreHeld project.now demands.old }
    ensures count { length demands.new ≡ length demands.old }
    ensures held { AreHeld project.now demands.new }
    ensures set { AllZip (IsOutLawOf project.now) given.now demands.new }
{
    for i in 0..given.len() {
        set_demand(project, given[i], &mut demands[i]);
    }
}

/// Makes the head of each reservoir its given one.
pub(crate) fn give_heads(given: &[i64], heads: &mut [i64])
    requires each { length given.now ≡ length heads.old }
    ensures { heads.new ≡ given.now }
{
    heads.copy_from_slice(given);
}
