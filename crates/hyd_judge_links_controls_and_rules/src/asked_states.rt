//! What is wrong with the states that commands ask for.
#![tactic(auto)]

ghost use Rattle.std.specs.Prelude.{◌≡◌, ℕ, List, None, Some};
ghost use Rattle.hyd_spec_lines.specs.Lines.{LiesIn, Row, row_of};
ghost use Rattle.hyd_option_and_rule_lines.specs.WhatLinesSay.{IsAsked};
ghost use Rattle.hyd_spec_input.specs.CapacitiesOutOfRange.{IsRefusedSetting};
ghost use Rattle.hyd_spec_input.specs.OptionsAndTimesInForce as force;
ghost use Rattle.hyd_spec_input.specs.FaultsWithOtherRows as others;
ghost use Rattle.hyd_judge_links_controls_and_rules.specs.AskedStatesOfLinks.{IsRightLink, IsAllowed};
ghost use Rattle.hyd_rows_and_tables.specs.WrongInSection.{IsCapacityFault, IsFaultThen};

use crate::faults::state_fault;
use crate::states_and_valve_laws::is_refused;
use hyd_lex::{Line, Lines};
use hyd_net::Cause;
use hyd_num::FlowUnit;
use hyd_option_and_rule_lines::Asked;

/// Limit 13 where the setting that is asked of a throttle control valve makes a capacity out of range.
pub(crate) fn capacity_fault(
    text: &Lines<'_>,
    link: &Line,
    asked: Asked,
    unit: FlowUnit,
) -> Option<Cause>
    requires lies { LiesIn text.now.text link.now }
    requires right { IsRightLink (row_of text.now.text link.now) }
    requires allowed { IsAllowed unit (row_of text.now.text link.now) asked }
    ensures { (rows : List Row) (word : List ℕ) → unit ≡ force.unit rows → IsAsked word asked
        → IsCapacityFault (IsRefusedSetting rows (Some (row_of text.now.text link.now)) word) result }
{
    if is_refused(text, link, asked, unit) {
        return Some(Cause::Limit(13));
    }
    None
}

/// What is wrong with a state that is asked of a link, a capacity out of range last.
pub(crate) fn asked_fault(
    text: &Lines<'_>,
    link: &Line,
    asked: Asked,
    unit: FlowUnit,
) -> Option<Cause>
    requires lies { LiesIn text.now.text link.now }
    requires right { IsRightLink (row_of text.now.text link.now) }
    ensures { (rows : List Row) (word : List ℕ) → unit ≡ force.unit rows → IsAsked word asked
        → IsFaultThen (others.set_link rows (Some (row_of text.now.text link.now)) word None)
        (IsRefusedSetting rows (Some (row_of text.now.text link.now)) word) result }
{
    if let Some(cause) = state_fault(text, link, asked, None, unit) {
        return Some(cause);
    }
    capacity_fault(text, link, asked, unit)
}
