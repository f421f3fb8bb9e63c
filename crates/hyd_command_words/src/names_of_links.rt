//! The names of links that `--flows` gives.

ghost use Rattle.std.specs.Prelude.{◌≡◌, ◌↔◌, ◌≤◌, [], take, option_map, slice_get, nat_le, ◌&&◌, not, length, IsTrue};
ghost use Rattle.std.specs.List.{list_any};
ghost use Rattle.std.specs.Str.{bytes_eq};
ghost use Rattle.hyd_command_words.specs.NamesOfLinks as links;
ghost use Rattle.hyd_command_words.specs.CommandGrammar as orders;
ghost use Rattle.hyd_command_words.specs.CommandView.{names_seen, texts_seen};

use crate::command::LinkNames;

/// How many links may be named at most.
pub const MOST_NAMES: usize = 16;

// How many bytes an ID has at most.
const LONGEST_ID: usize = 31;

/// The names that are given for `--flows`, by its values.
pub(crate) fn flows_of<'a>(values: &[&'a str]) -> Option<LinkNames<'a>>
    ensures { option_map names_seen result ≡ orders.flows_of (texts_seen values.now) }
{
    match values {
        [] => Some(LinkNames { ids: None }),
        [ids] => names_in(ids),
        _ => None,
    }
}

// The names between the commas of a text, if they may be given.
fn names_in<'a>(ids: &'a str) -> Option<LinkNames<'a>>
    ensures { option_map names_seen result ≡ links.names_of_ids ids.now }
{
    if !are_names(ids, MOST_NAMES) {
        return None;
    }
    Some(LinkNames { ids: Some(ids) })
}

// Whether between the commas of a text there are so many names at most, each as long as an ID may be, and none twice.
fn are_names(ids: &str, most: usize) -> bool
    ensures { result ≡ links.are_names most (links.names_between_commas ids.now) }
{
    if most == 0 {
        return false;
    }
    match ids.split_once(',') {
        Some((name, later)) => may_precede(name, later, most - 1) && are_names(later, most - 1),
        None => has_length_of_id(ids),
    }
}

// Whether a name is as long as an ID may be, and isn't one of the first so many between the commas of a text.
fn may_precede(name: &str, ids: &str, many: usize) -> bool
    ensures { result ≡ (links.has_length_of_id name.now
        && not (list_any (bytes_eq name.now) (take many (links.names_between_commas ids.now)))) }
{
    has_length_of_id(name) && !stands_among(name, ids, many)
}

fn has_length_of_id(name: &str) -> bool
    ensures { result ≡ links.has_length_of_id name.now }
{
    name.len() >= 1 && name.len() <= LONGEST_ID
}

// Whether a name is one of the first so many between the commas of a text.
fn stands_among(name: &str, ids: &str, many: usize) -> bool
    ensures { result ≡ list_any (bytes_eq name.now) (take many (links.names_between_commas ids.now)) }
{
    if many == 0 {
        return false;
    }
    match ids.split_once(',') {
        Some((first, later)) => name == first || stands_among(name, later, many - 1),
        None => name == ids,
    }
}

// The name at a place between the commas of a text, counted from 0.
fn name_at(ids: &str, place: u32) -> Option<&str>
    ensures { option_map (λ name. name.now) result ≡ slice_get (links.names_between_commas ids.now) place }
{
    match ids.split_once(',') {
        Some((name, later)) => {
            if place == 0 {
                return Some(name);
            }
            name_at(later, place - 1)
        }
        None => {
            if place == 0 {
                return Some(ids);
            }
            None
        }
    }
}

impl<'a> LinkNames<'a> {
    /// The name at a place, counted from 0, if there are so many.
    pub fn name(&self, place: u32) -> Option<&'a str>
        ensures { option_map (λ name. name.now) result ≡ slice_get (names_seen self.now) place }
    {
        match self.ids {
            Some(ids) => name_at(ids, place),
            None => None,
        }
    }

    /// Whether no name is given: the option doesn't stand.
    pub fn is_empty(&self) -> bool
        ensures { IsTrue result ↔ (names_seen self.now ≡ []) }
    {
        self.ids.is_none()
    }
}
