//! What small networks say: each is read, its net put into its period, and asked.
#![tactic(auto)]

ghost use Rattle.hyd_net.specs.Sound.{IsSound};
ghost use Rattle.hyd_period_network.specs.NetAsPeriodNetwork.{grid_of};
ghost use Rattle.hyd_theorems_on_definitions.specs.SoundLawsAndGrids.{TanksInOrder};

use crate::boxes::are_bounds;
use crate::networks::{Network, generated, networks, two_junctions, without_source};
use crate::networks_from_texts::read;
use crate::tight::{are_found, are_proposed, are_spent, are_starts};
use hyd_gen::generate;
use hyd_inp::read_project;
use hyd_net::{OutOfMemory, Project};
use hyd_period_network::Net;
use hyd_test_helpers::put_at;
use std::alloc::Global;
use std::test::Fail;

/// What is asked.
#[derive(Clone, Copy, Drop)]
enum Asked {
    /// Whether sweeps find the tight vectors, and these are sharp.
    Found,
    /// Whether flows and words between them are as the network says.
    Bounded,
    /// Whether rounds are spent.
    Spent,
    /// Whether the gradient method proposes certificates.
    Proposed,
    /// Whether it proposes that searches for the tight vectors start there.
    Started,
}

// Whether it is so of a net in its period.
fn is_so_in(alloc: Global, net: &Net, network: &Network, asked: Asked) -> Result<bool, OutOfMemory>
    requires { TanksInOrder (grid_of net.now) }
{
    match asked {
        Asked::Found => are_found(alloc, net, network.rows),
        Asked::Bounded => Ok(are_bounds(net, network)),
        Asked::Spent => are_spent(alloc, net),
        Asked::Proposed => are_proposed(alloc, net),
        Asked::Started => are_starts(alloc, net, network.rows),
    }
}

// Whether it is so of a network that was read.
fn is_so_of(
    alloc: Global,
    project: &Project,
    network: &Network,
    asked: Asked,
) -> Result<bool, OutOfMemory>
    requires { IsSound project.now }
{
    let mut net = Net::open(alloc, project)?;
    if !put_at(alloc, &mut net, project, network.time, network.levels)? {
        return Ok(false);
    }
    is_so_in(alloc, &net, network, asked)
}

// Whether what is asked is so of a network.
fn is_so(alloc: Global, network: &Network, asked: Asked) -> Result<bool, Fail> {
    let project = read(alloc, network.text)?;
    Ok(is_so_of(alloc, &project, network, asked)?)
}

// Whether the gradient method proposes certificates for the generated network of so many junctions.
fn is_proposed_generated(alloc: Global, seed: u32, junctions: u32) -> Result<bool, Fail> {
    let text = generate(alloc, seed, junctions)?;
    let project = read_project(alloc, &text)?;
    Ok(is_so_of(alloc, &project, &generated(), Asked::Proposed)?)
}

// The number of the first network of which it isn't so.
fn first_other(alloc: Global, networks: &[Network], asked: Asked) -> Result<Option<usize>, Fail> {
    for (number, network) in networks.iter().enumerate() {
        if !is_so(alloc, network, asked)? {
            return Ok(Some(number));
        }
    }
    Ok(None)
}

#[test]
fn tight_vectors_are_found(rt: HostRuntime) -> Result<(), Fail> {
    assert_eq!(rt; first_other(rt.alloc(), networks(), Asked::Found)?, None);
    Ok(())
}

#[test]
fn flows_and_words_between_them(rt: HostRuntime) -> Result<(), Fail> {
    assert_eq!(rt; first_other(rt.alloc(), networks(), Asked::Bounded)?, None);
    Ok(())
}

#[test]
fn without_a_source_rounds_are_spent(rt: HostRuntime) -> Result<(), Fail> {
    assert!(rt; is_so(rt.alloc(), &without_source(), Asked::Spent)?);
    Ok(())
}

#[test]
fn proposals_are_certificates(rt: HostRuntime) -> Result<(), Fail> {
    assert!(rt; is_so(rt.alloc(), &two_junctions(), Asked::Proposed)?);
    assert_eq!(rt; first_other(rt.alloc(), networks(), Asked::Proposed)?, None);
    Ok(())
}

#[test]
fn starts_are_the_tight_vectors(rt: HostRuntime) -> Result<(), Fail> {
    assert_eq!(rt; first_other(rt.alloc(), networks(), Asked::Started)?, None);
    Ok(())
}

#[test]
fn proposals_for_generated_networks_are_certificates(rt: HostRuntime) -> Result<(), Fail> {
    assert!(rt; is_proposed_generated(rt.alloc(), 7, 100)?);
    assert!(rt; is_proposed_generated(rt.alloc(), 7, 2_000)?);
    Ok(())
}
