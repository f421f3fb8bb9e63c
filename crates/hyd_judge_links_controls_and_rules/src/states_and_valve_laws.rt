//! The states that links are set to, which of them are refused, and the laws of valves that are set to coefficients.
#![tactic(auto)]

ghost use Rattle.std.specs.Prelude.{◌≡◌, ◌↔◌, ℕ, true, None, List, Some};
ghost use Rattle.hyd_num.specs.FileQuantity as quantity;
ghost use Rattle.hyd_spec_lines.specs.Lines.{LiesIn, Row, row_of};
ghost use Rattle.hyd_option_and_rule_lines.specs.FaultOrValue.{words_at};
ghost use Rattle.hyd_option_and_rule_lines.specs.WhatLinesSay.{IsAsked};
ghost use Rattle.hyd_capacities.specs.FileNumberRanges.{IsDiameter};
ghost use Rattle.hyd_spec_input.specs.CapacitiesOutOfRange.{IsRefusedSetting, IsRefusedValve};
ghost use Rattle.hyd_spec_input.specs.Columns.{amount};
ghost use Rattle.hyd_spec_input.specs.OptionsAndTimesInForce as force;
ghost use Rattle.hyd_spec_input.specs.NodeAndLinkRows as row;
ghost use Rattle.hyd_spec_input.specs.Project as project;
ghost use Rattle.hyd_spec_input.specs.Project.{IsState, IsNumberState, IsOpenValve};
ghost use Rattle.hyd_judge_links_controls_and_rules.specs.AskedStatesOfLinks as states;
ghost use Rattle.hyd_judge_links_controls_and_rules.specs.AskedStatesOfLinks.{IsRightLink, IsAllowed, IsSettable};
ghost use Rattle.hyd_judge_links_controls_and_rules.specs.AskedStatesOfLinks.{IsThrottleCoefficient};
ghost use Rattle.hyd_judge_links_controls_and_rules.specs.AskedStatesOfLinks.{IsThrottled};

use crate::link_types::{LinkType, link_type};
use hyd_capacities::valve_capacity;
use hyd_lex::{Line, Lines};
use hyd_net::{LinkState, OpenValve};
use hyd_network_rows::read_valve;
use hyd_num::{Decimal, FlowUnit};
use hyd_option_and_rule_lines::Asked;
use hyd_units::flow_ticks;

const ONE: i64 = 1_000_000_000;

// The diameter of a valve.
fn diameter(text: &Lines<'_>, link: &Line) -> Decimal
    requires lies { LiesIn text.now.text link.now }
    requires right { row.valve (words_at text.now link.now) ≡ None }
    ensures nano { result.nano ≡ amount 3 (words_at text.now link.now) }
    ensures range { IsDiameter result }
{
    let Ok(row) = read_valve(text, link) else {
        unreachable!()
    };
    row.diameter
}

/// Whether the capacity of a valve with a loss coefficient is out of range; a coefficient of 0 makes a linear law, and
/// no capacity.
pub fn is_refused_valve(diameter: Decimal, coefficient: Decimal, us: bool) -> bool
    requires diameter { IsDiameter diameter }
    requires coefficient { IsThrottleCoefficient coefficient }
    ensures { (result ≡ true) ↔ IsRefusedValve diameter.nano coefficient.nano us }
{
    if coefficient.nano == 0 {
        return false;
    }
    match valve_capacity(diameter, coefficient, us) {
        Ok(_) => false,
        Err(_) => true,
    }
}

/// The law of a valve with a loss coefficient: linear at 0.
pub fn valve_law(diameter: Decimal, coefficient: Decimal, us: bool) -> OpenValve
    requires diameter { IsDiameter diameter }
    requires coefficient { IsThrottleCoefficient coefficient }
    requires free { ¬ IsRefusedValve diameter.nano coefficient.nano us }
    ensures { IsOpenValve us diameter.nano coefficient.nano result }
{
    if coefficient.nano == 0 {
        return OpenValve::Linear;
    }
    match valve_capacity(diameter, coefficient, us) {
        Ok(cap) => OpenValve::Quadratic(cap),
        Err(_) => OpenValve::Linear,
    }
}

/// Whether a setting that a word asks of a throttle control valve makes a capacity out of range. No other state has a
/// capacity of its own.
pub fn is_refused(text: &Lines<'_>, link: &Line, asked: Asked, unit: FlowUnit) -> bool
    requires lies { LiesIn text.now.text link.now }
    requires right { IsRightLink (row_of text.now.text link.now) }
    requires allowed { IsAllowed unit (row_of text.now.text link.now) asked }
    ensures { (rows : List Row) (word : List ℕ) → unit ≡ force.unit rows → IsAsked word asked
        → (result ≡ true) ↔ IsRefusedSetting rows (Some (row_of text.now.text link.now)) word }
{
    let Asked::Number(number) = asked else {
        return false;
    };
    match link_type(text, link) {
        LinkType::Tcv => is_refused_valve(diameter(text, link), number, unit.is_us()),
        _ => false,
    }
}

/// A speed as the state of a pump; speed 0 is closed.
pub fn speed_state(number: Decimal) -> LinkState
    requires { states.speed_fault number.nano ≡ None }
    ensures { result ≡ project.speed_state number.nano }
{
    if number.nano == 0 {
        return LinkState::Closed;
    }
    LinkState::Speed(number.nano as i64)
}

/// A greatest flow as the state of a flow control valve.
pub fn limit_state(number: Decimal, unit: FlowUnit) -> LinkState
    requires { states.limit_fault unit number.nano ≡ None }
    ensures { result ≡ LinkState.Limit number.nano (quantity.flow_ticks unit number.nano) }
{
    LinkState::Limit {
        nano: number.nano as i64,
        ticks: flow_ticks(number, unit) as i64,
    }
}

// OPEN; of a pump, speed 1.
fn open_state(link: LinkType) -> LinkState
    ensures { result ≡ states.open_state link }
{
    match link {
        LinkType::Pump => LinkState::Speed(ONE),
        _ => LinkState::Open,
    }
}

/// A loss coefficient as the state of a throttle control valve.
pub fn throttle_state(text: &Lines<'_>, link: &Line, number: Decimal, us: bool) -> LinkState
    requires lies { LiesIn text.now.text link.now }
    requires right { row.valve (words_at text.now link.now) ≡ None }
    requires coefficient { IsThrottleCoefficient number }
    requires free { ¬ IsRefusedValve (amount 3 (words_at text.now link.now)) number.nano us }
    ensures { IsThrottled us (amount 3 (words_at text.now link.now)) number.nano result }
{
    LinkState::Throttle {
        nano: number.nano as i64,
        law: valve_law(diameter(text, link), number, us),
    }
}

// A number as the state of a link.
fn number_state(text: &Lines<'_>, link: &Line, number: Decimal, unit: FlowUnit) -> LinkState
    requires lies { LiesIn text.now.text link.now }
    requires right { IsRightLink (row_of text.now.text link.now) }
    requires settable { IsSettable unit (row_of text.now.text link.now) (Asked.Number number) }
    ensures { (rows : List Row) → unit ≡ force.unit rows
        → IsNumberState rows (row_of text.now.text link.now) number.nano result }
{
    match link_type(text, link) {
        LinkType::Pump => speed_state(number),
        LinkType::Tcv => throttle_state(text, link, number, unit.is_us()),
        _ => limit_state(number, unit),
    }
}

/// The state that a word asks of a link.
pub fn link_state(text: &Lines<'_>, link: &Line, asked: Asked, unit: FlowUnit) -> LinkState
    requires lies { LiesIn text.now.text link.now }
    requires right { IsRightLink (row_of text.now.text link.now) }
    requires settable { IsSettable unit (row_of text.now.text link.now) asked }
    ensures { (rows : List Row) (word : List ℕ) → unit ≡ force.unit rows → IsAsked word asked
        → IsState rows (row_of text.now.text link.now) word result }
{
    match asked {
        Asked::Open => open_state(link_type(text, link)),
        Asked::Closed => LinkState::Closed,
        Asked::Number(number) => number_state(text, link, number, unit),
    }
}
