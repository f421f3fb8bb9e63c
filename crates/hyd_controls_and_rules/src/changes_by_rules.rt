//! What the rules change.
#![tactic(auto)]

ghost use Rattle.std.specs.Prelude.{◌≡◌, ◌+◌, ◌≤◌, ◌++◌, length};
ghost use Rattle.hyd_net.specs.Sound.{IsSound};
ghost use Rattle.hyd_spec.specs.Lists.{map_from, present};
ghost use Rattle.std.specs.Option.{option_map, option_and_then};
ghost use Rattle.std.specs.Vec.{vec_len, vec_capacity};
ghost use Rattle.hyd_spec.specs.Rules.{change_by, acted, rule_changes};
ghost use Rattle.hyd_controls_and_rules.specs.ActionsByPriority.{offer_for, change_at, state_at};

use crate::actions_by_priority::{Offer, rank_offers};
use crate::changes::Changes;
use crate::state_comparison::is_same_state;
use hyd_net::{LinkState, List, Project};
use hyd_spec::{Change, Source};

// What the best offer to a link changes, if it changes its state.
fn change_of(best: &Option<Offer>, state: &LinkState) -> Option<Change>
    ensures { result ≡ option_and_then (change_by state.now) (option_map offer_for best.now) }
{
    let Some(offer) = best else {
        return None;
    };
    if is_same_state(state, &offer.to) {
        return None;
    }
    Some(Change {
        source: Source::Rule(offer.rule),
        link: offer.link,
        to: offer.to,
    })
}

// Carries out the best offers to links.
fn carry_out(best: &[Option<Offer>], links: &mut [LinkState], rows: &mut List<Change>)
    requires places { length links.old ≤ length best.now }
    requires room { length links.old ≤ rows.old.spare }
    ensures links { links.new ≡ map_from (state_at best.now) 0 links.old }
    ensures rows { rows.new.list ≡ rows.old.list ++ present (map_from (change_at best.now) 0 links.old) }
    ensures most { length rows.new.list ≤ length rows.old.list + length links.old }
    ensures room { length rows.old.list + rows.old.spare ≤ length rows.new.list + rows.new.spare }
{
    for link in 0..links.len() {
        if let Some(change) = change_of(&best[link], &links[link]) {
            rows.push(change).unwrap();
            links[link] = change.to;
        }
    }
}

// Makes a table have a place for each of so many links, in the room that was taken.
fn lengthen(count: usize, best: &mut Vec<Option<Offer>>)
    requires { count ≤ vec_capacity best.old }
    ensures places { count ≤ vec_len best.new }
    ensures room { vec_capacity best.old ≤ vec_capacity best.new }
{
    if best.len() < count {
        best.resize(count, None).unwrap();
    }
}

/// Carries out the actions that the rules offer at an instant, where `values` says of each rule whether it is true: a
/// true rule offers what stands after THEN, a false one what stands after ELSE (EPANET 2.2 User Manual, [RULES]). Each
/// link takes the offer of highest rank: a greater priority goes first, none goes last, of equal ones the earlier rule,
/// and in one rule the earlier action. A row is appended for each link whose state changes, in order of the links. It
/// takes no memory.
pub fn act(project: &Project, values: &[bool], links: &mut [LinkState], changes: &mut Changes)
    requires sound { IsSound project.now }
    requires each_value { length values.now ≡ length project.now.rules.list }
    requires each_link { length links.old ≡ length project.now.links.list }
    requires room { length project.now.links.list ≤ changes.old.spare }
    ensures links { links.new ≡ acted project.now values.now links.old }
    ensures rows { changes.new.list ≡ changes.old.list ++ rule_changes project.now values.now links.old }
    ensures spare { changes.old.spare + length changes.old.list ≡ changes.new.spare + length changes.new.list }
    ensures most { length changes.new.list ≤ length changes.old.list + length links.old }
{
    if project.rules.len() == 0 {
        return;
    }
    lengthen(project.links.len(), &mut changes.best);
    rank_offers(project, values, &mut changes.best);
    carry_out(&changes.best, links, &mut changes.rows);
}
