//! What is wrong with a state that a word asks of a link.
#![tactic(auto)]

ghost use Rattle.std.specs.Prelude.{◌≡◌, ℕ, List, Some, IfNone};
ghost use Rattle.hyd_spec_lines.specs.Lines.{LiesIn, Row, row_of};
ghost use Rattle.hyd_option_and_rule_lines.specs.WhatLinesSay.{IsAsked};
ghost use Rattle.hyd_spec_input.specs.OptionsAndTimesInForce as force;
ghost use Rattle.hyd_spec_input.specs.FaultsWithOtherRows as others;
ghost use Rattle.hyd_judge_links_controls_and_rules.specs.AskedStatesOfLinks as states;
ghost use Rattle.hyd_judge_links_controls_and_rules.specs.AskedStatesOfLinks.{IsRightLink, IsAllowed};

use crate::link_types::{LinkType, link_type};
use hyd_lex::{Line, Lines};
use hyd_net::Cause;
use hyd_net::ranges::{GREATEST_COEFFICIENT, GREATEST_SPEED};
use hyd_num::{Decimal, FlowUnit};
use hyd_option_and_rule_lines::Asked;
use hyd_rows_and_tables::flow_fault;

// Range of a speed that isn't from 0 to 10.
fn speed_fault(number: Decimal) -> Option<Cause>
    ensures { result ≡ states.speed_fault number.nano }
{
    if number.nano < 0 || number.nano > GREATEST_SPEED {
        return Some(Cause::Range);
    }
    None
}

// Range of a loss coefficient that isn't from 0 to 10^6.
fn coefficient_fault(number: Decimal) -> Option<Cause>
    ensures { result ≡ states.coefficient_fault number.nano }
{
    if number.nano < 0 || number.nano > GREATEST_COEFFICIENT {
        return Some(Cause::Range);
    }
    None
}

// Range of a flow below 0 or above 10^15 flow ticks.
fn limit_fault(number: Decimal, unit: FlowUnit) -> Option<Cause>
    ensures { result ≡ states.limit_fault unit number.nano }
{
    if number.nano < 0 {
        return Some(Cause::Range);
    }
    flow_fault(number, unit)
}

// Whether a link takes what is asked: a status, or a number where it has settings.
fn takes(link: LinkType, asked: Asked) -> bool
    ensures { result ≡ states.takes link asked }
{
    match asked {
        Asked::Open | Asked::Closed => true,
        Asked::Number(_) => match link {
            LinkType::Pump | LinkType::Tcv | LinkType::Fcv => true,
            _ => false,
        },
    }
}

// Range of what is asked of a link.
fn range_fault(link: LinkType, asked: Asked, unit: FlowUnit) -> Option<Cause>
    ensures { result ≡ states.range_fault unit link asked }
{
    let Asked::Number(number) = asked else {
        return None;
    };
    match link {
        LinkType::Pump => speed_fault(number),
        LinkType::Tcv => coefficient_fault(number),
        _ => limit_fault(number, unit),
    }
}

// What is wrong with a state that is asked of a link of a type.
fn type_fault(link: LinkType, asked: Asked, between: Option<Cause>, unit: FlowUnit) -> Option<Cause>
    ensures { result ≡ states.type_fault unit link asked between }
{
    if !takes(link, asked) {
        return Some(Cause::Syntax);
    }
    if let Some(cause) = between {
        return Some(cause);
    }
    if link == LinkType::CheckPipe {
        return Some(Cause::Unsupported(11));
    }
    range_fault(link, asked, unit)
}

/// What is wrong with a state that a word asks of a link: a number where the link takes none (Syntax); then the fault
/// that is handed in, if any; then a pipe with a check valve (Unsupported 11), a speed outside 0 to 10, a coefficient
/// outside 0 to 10^6, a flow below 0 or above 10^15 flow ticks (Range).
pub fn state_fault(
    text: &Lines<'_>,
    link: &Line,
    asked: Asked,
    between: Option<Cause>,
    unit: FlowUnit,
) -> Option<Cause>
    requires lies { LiesIn text.now.text link.now }
    requires right { IsRightLink (row_of text.now.text link.now) }
    ensures fault { (rows : List Row) (word : List ℕ) → unit ≡ force.unit rows → IsAsked word asked
        → result ≡ others.set_link rows (Some (row_of text.now.text link.now)) word between }
    ensures allowed { IfNone result (IsAllowed unit (row_of text.now.text link.now) asked) }
{
    type_fault(link_type(text, link), asked, between, unit)
}
