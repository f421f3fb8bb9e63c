//! The look-up of names.

ghost use Rattle.std.specs.Prelude.{◌≡◌, ◌≢◌, ◌↔◌, ◌<◌, ◌≤◌, ◌+◌, ◌++◌, [], ◌∷◌, length, take, All, IsTrue};
ghost use Rattle.std.specs.Prelude.{IfOk, IfErr, OnOk};
ghost use Rattle.hyd_net.specs.Sound.{IsSound};
ghost use Rattle.hyd_command_words.specs.CommandView.{names_seen};
ghost use Rattle.hyd_spec_named_links.specs.NamedLinks.{IsLinkNamed, JoinsTwoJunctions, AreLinksOf, MayBeNamed};
ghost use Rattle.hyd_spec_named_links.specs.RefusedNames.{NameIsRefused, IsRefusedAt};

use crate::numbered_links::NumberedLinks;
use hyd_command_words::{LinkNames, MOST_NAMES};
use hyd_net::Project;
use hyd_spec_named_links::NameFails;

/// The first of the given names that is refused.
#[derive(Clone, Copy, Drop)]
pub struct RefusedName {
    /// Its place among the names, counted from 1.
    pub place: u32,
    /// Why it is refused.
    pub cause: NameFails,
}

// Whether a link joins two junctions.
fn joins_two_junctions(project: &Project, link: u32) -> bool
    requires sound { IsSound project.now }
    requires inside { link < length project.now.links.list }
    ensures { IsTrue result ↔ JoinsTwoJunctions project.now link }
{
    let junctions = project.junctions.len();
    let found = &project.links.as_slice()[link as usize];
    (found.from as usize) < junctions && (found.to as usize) < junctions
}

// The number of the link of this name, if it joins two junctions.
fn find_link(project: &Project, name: &str) -> Result<u32, NameFails>
    requires sound { IsSound project.now }
    ensures named { IfOk result (IsLinkNamed project.now name.now) }
    ensures joins { IfOk result (JoinsTwoJunctions project.now) }
    ensures refused { IfErr result (NameIsRefused project.now name.now) }
{
    match project.link_ids.number(name.as_bytes()) {
        Some(link) => {
            if joins_two_junctions(project, link) {
                Ok(link)
            } else {
                Err(NameFails::NotBetweenJunctions)
            }
        }
        None => Err(NameFails::NoLink),
    }
}

/// The numbers of the links that have the given names, in order, if each has one that joins two junctions.
///
/// The error: the first name that no link has, or whose link ends at a reservoir or a tank, in the order of the names.
/// It takes no memory.
pub fn find_links(project: &Project, names: &LinkNames<'_>) -> Result<NumberedLinks, RefusedName>
    requires sound { IsSound project.now }
    ensures are { IfOk result (AreLinksOf project.now (names_seen names.now)) }
    ensures join { IfOk result (All (JoinsTwoJunctions project.now)) }
    ensures may { names_seen names.now ≢ [] → IfOk result (MayBeNamed project.now) }
    ensures refused { IfErr result (λ refused. IsRefusedAt project.now (names_seen names.now) refused.place
        refused.cause) }
{
    let mut links = NumberedLinks::new();
    for place in 0..MOST_NAMES as u32 {
        let Some(name) = names.name(place) else {
            return Ok(links);
        };
        match find_link(project, name) {
            Ok(link) => links.push(link),
            Err(cause) => {
                return Err(RefusedName {
                    place: place + 1,
                    cause,
                });
            }
        }
    }
    Ok(links)
}
