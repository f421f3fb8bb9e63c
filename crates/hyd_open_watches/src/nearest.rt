//! The nearest of the watched levels that may have been reached, where all of these are of one tank and direction.
#![tactic(auto)]

ghost use Rattle.std.specs.Prelude.{ℕ, ◌≡◌, ◌⊎◌, ◌^◌, ◌≤◌, ◌++◌, ◌∷◌, [], List, ◌↔◌, IsTrue};
ghost use Rattle.hyd_net.specs.Sound.{IsSound};
ghost use Rattle.hyd_spec.specs.ProgramTypes.{Project as Network};
ghost use Rattle.hyd_spec_certificates.specs.Decided as decided;
ghost use Rattle.hyd_spec_open_ends.specs.Arrivals.{IsNoFarther};
ghost use Rattle.hyd_period_facts.specs.FactsBeforeEnd.{HaveTanks};
ghost use Rattle.hyd_period_facts.specs.declared.facts.Facts.{Facts as Known};
ghost use Rattle.hyd_open_watches.specs.Candidates.{IsWatch, ComesBy, watch_for, StartsShort, AreNearest};

use crate::watches::{Watch, comes_by};
use hyd_net::Project;
use hyd_period_facts::Facts;

/// What may have been reached, of the levels that have been looked at.
#[derive(Clone, Copy, Drop)]
pub(crate) enum Candidates {
    /// None of them.
    None,
    /// This one, and beside it none but levels of the same tank and direction that are met no earlier.
    One(Watch),
    /// Levels of two tanks or directions.
    Competing,
}

// Whether two watched levels are of one tank and direction.
fn is_same_way(one: Watch, other: Watch) -> bool
    ensures { IsTrue result ↔ ((one.tank ≡ other.tank) × (one.rising ≡ other.rising)) }
{
    one.tank == other.tank && one.rising == other.rising
}

// The one of two levels of one tank and direction that is met first.
fn nearer(one: Watch, other: Watch) -> Watch
    requires tank { one.tank ≡ other.tank }
    requires way { one.rising ≡ other.rising }
    ensures one { (result ≡ one) ⊎ (result ≡ other) }
    ensures before_one { IsNoFarther result.rising result.target one.target }
    ensures before_other { IsNoFarther result.rising result.target other.target }
{
    let sooner = if one.rising {
        other.target < one.target
    } else {
        one.target < other.target
    };
    if sooner { other } else { one }
}

// The candidates where one more level may have been reached.
fn with_candidate(all: Candidates, watch: Watch) -> Candidates
    ensures { (project : Network) (facts : Known) (latest : ℕ) (watched : List decided.Watch)
        → ComesBy project facts latest (watch_for watch) → StartsShort project watch → IsWatch project watch
        → AreNearest project facts latest watched all
        → AreNearest project facts latest (watched ++ watch_for watch ∷ []) result }
{
    match all {
        Candidates::None => Candidates::One(watch),
        Candidates::One(best) => {
            if is_same_way(best, watch) {
                Candidates::One(nearer(best, watch))
            } else {
                Candidates::Competing
            }
        }
        Candidates::Competing => Candidates::Competing,
    }
}

/// The candidates where one more level is watched.
pub(crate) fn with_watch(
    project: &Project,
    facts: &Facts,
    watch: Watch,
    latest: u32,
    all: Candidates,
) -> Candidates
    requires sound { IsSound project.now }
    requires tanks { HaveTanks project.now facts.now }
    requires watch { IsWatch project.now watch }
    requires short { StartsShort project.now watch }
    requires latest { latest ≤ 10 ^ 8 }
    ensures { (watched : List decided.Watch) → AreNearest project.now facts.now latest watched all
        → AreNearest project.now facts.now latest (watched ++ watch_for watch ∷ []) result }
{
    if comes_by(project, facts, watch, latest) {
        with_candidate(all, watch)
    } else {
        all
    }
}
