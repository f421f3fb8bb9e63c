//! Offers of rules to links, and their ranks.
#![tactic(auto)]

ghost use Rattle.std.specs.Prelude.{◌≡◌, ◌<◌, ◌≤◌, [], ◌++◌, ℕ, List, length, if◌then◌else◌};
ghost use Rattle.std.specs.List.{All};
ghost use Rattle.std.specs.Option.{option_map};
ghost use Rattle.hyd_net.specs.Sound.{IsSound};
ghost use Rattle.hyd_spec.specs.Rules as rules;
ghost use Rattle.hyd_controls_and_rules.specs.ActionsByPriority.{offer_for, is_higher, AreBest};

use hyd_net::{Action, LinkState, Project, Rule};

/// An action that a rule offers to a link, with the rule's number and priority.
#[derive(Clone, Copy, Drop)]
pub(crate) struct Offer {
    pub(crate) rule: u32,
    pub(crate) priority: Option<i128>,
    pub(crate) link: u32,
    pub(crate) to: LinkState,
}

// A priority is above another: a greater one, and any above none.
fn is_above(one: Option<i128>, other: Option<i128>) -> bool
    ensures { result ≡ rules.is_above one other }
{
    match (one, other) {
        (Some(one), Some(other)) => one > other,
        (Some(_), None) => true,
        (None, _) => false,
    }
}

// An offer of this priority ranks above those before it, of which this one is the best.
fn is_higher(priority: Option<i128>, best: &Option<Offer>) -> bool
    ensures { result ≡ is_higher priority (option_map offer_for best.now) }
{
    match best {
        Some(offer) => is_above(priority, offer.priority),
        None => true,
    }
}

// The actions that a rule with a value offers.
fn actions_of(rule: &Rule, value: bool) -> &[Action]
    ensures { result.now ≡ (if value then rule.now.yes.list else rule.now.no.list) }
{
    if value {
        rule.yes.as_slice()
    } else {
        rule.no.as_slice()
    }
}

// Takes in what a rule with a value offers.
fn take_offers(rule: &Rule, number: u32, value: bool, best: &mut [Option<Offer>])
    requires links { All (λ action. action.link < length best.old)
        (if value then rule.now.yes.list else rule.now.no.list) }
    ensures best { (count : ℕ) (before : List rules.Offer) → AreBest count before best.old
        → AreBest count (before ++ rules.offers_of number rule.now value) best.new }
{
    let actions = actions_of(rule, value);
    for action in actions {
        let link = action.link as usize;
        if is_higher(rule.priority, &best[link]) {
            best[link] = Some(Offer {
                rule: number,
                priority: rule.priority,
                link: action.link,
                to: action.to,
            });
        }
    }
}

fn forget(count: usize, best: &mut [Option<Offer>])
    requires { count ≤ length best.old }
    ensures { AreBest count [] best.new }
{
    for link in 0..count {
        best[link] = None;
    }
}

/// Puts for each link the best of all offers to it.
pub(crate) fn rank_offers(project: &Project, values: &[bool], best: &mut [Option<Offer>])
    requires sound { IsSound project.now }
    requires each_value { length values.now ≡ length project.now.rules.list }
    requires room { length project.now.links.list ≤ length best.old }
    ensures { AreBest (length project.now.links.list) (rules.offers_from 0 project.now.rules.list values.now) best.new }
{
    forget(project.links.len(), best);
    let rules = project.rules.as_slice();
    for (number, rule) in rules.iter().enumerate() {
        take_offers(rule, number as u32, values[number], best);
    }
}
