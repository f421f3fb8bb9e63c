//! Clauses of rules at an instant.
#![tactic(auto)]

ghost use Rattle.std.specs.Prelude.{◌≡◌, List};
ghost use Rattle.hyd_num.specs.Rational.{Rational};
ghost use Rattle.hyd_net.specs.ControlsAndRules.{IsClause};
ghost use Rattle.hyd_spec.specs.Rules.{is_word, status_holds, state_word, compares, clause_holds};
ghost use Rattle.hyd_spec.specs.Rules as rules;
ghost use Rattle.hyd_laws_at_scale.specs.Scales.{parts_of};
ghost use Rattle.hyd_rules_at_scale.specs.Instants.{IsInstant, AreLevels, readings_at};

use crate::amounts::amount_of;
use crate::instant::Instant;
use crate::quantities::compares;
use crate::readings::measured;
use crate::times::{clock_at, has_come, has_come_today, seconds_of, time_holds};
use hyd_net::{Clause, LinkState, Relation, Value, What};

fn is_word(state: &LinkState, value: Value) -> bool
    ensures { result ≡ is_word (state_word state.now) value }
{
    match state {
        LinkState::Open | LinkState::Speed(_) => matches!(value, Value::Open),
        LinkState::Closed => matches!(value, Value::Closed),
        LinkState::Throttle { .. } | LinkState::Limit { .. } => matches!(value, Value::Active),
    }
}

fn status_holds(relation: Relation, state: &LinkState, value: Value) -> bool
    ensures { result ≡ status_holds relation (state_word state.now) value }
{
    match relation {
        Relation::Unequal => !is_word(state, value),
        _ => is_word(state, value),
    }
}

// What a clause measures stands in its relation to its amount.
fn measured_holds(instant: &Instant<'_>, clause: &Clause) -> bool
    requires instant { IsInstant instant.now }
    requires clause { IsClause instant.now.project.now clause.now }
    ensures { (levels : List Rational) → AreLevels instant.now.levels.now levels
        → result ≡ rules.compares clause.now.relation
        (rules.measured instant.now.project.now (parts_of instant.now.scale) (readings_at instant.now levels)
        clause.now.what)
        (rules.amount instant.now.project.now clause.now.what clause.now.value) }
{
    let quantity = measured(instant, clause.what);
    let amount = amount_of(instant.project, clause.what, clause.value);
    compares(clause.relation, quantity, amount)
}

/// A clause holds.
pub(crate) fn clause_holds(instant: &Instant<'_>, clause: &Clause) -> bool
    requires instant { IsInstant instant.now }
    requires clause { IsClause instant.now.project.now clause.now }
    ensures { (levels : List Rational) → AreLevels instant.now.levels.now levels
        → result ≡ clause_holds instant.now.project.now (parts_of instant.now.scale) instant.now.time
        (readings_at instant.now levels) clause.now }
{
    let project = instant.project;
    match clause.what {
        What::Status(link) => {
            let state = &instant.links[link as usize];
            status_holds(clause.relation, state, clause.value)
        }
        What::Time => {
            let at = seconds_of(clause.value);
            let came = has_come(project, instant.time, at);
            time_holds(clause.relation, instant.time, at, came)
        }
        What::Clock => {
            let now = clock_at(project, instant.time);
            let at = seconds_of(clause.value);
            let came = has_come_today(project, now, at);
            time_holds(clause.relation, now, at, came)
        }
        _ => measured_holds(instant, clause),
    }
}
