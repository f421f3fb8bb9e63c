//! Rules (EPANET 2.2 User Manual, [RULES]).
#![tactic(auto)]

use crate::links::LinkState;
use crate::list::List;
use hyd_num::{Decimal, Span};

/// How a clause is joined to those before it. OR binds tighter than AND.
#[derive(Debug, Clone, Copy, Drop)]
pub enum Joined {
    And,
    Or,
}

/// What a clause speaks of.
#[derive(Debug, Clone, Copy, PartialEq, Eq, Drop)]
pub enum What {
    /// The head of a node, by the node's number.
    Head(u32),
    /// The head of a junction above its elevation, or of a tank above its bottom, by the node's
    /// number.
    Pressure(u32),
    /// The level of a tank, by the tank's number among the tanks.
    Level(u32),
    /// The absolute value of a link's flow.
    Flow(u32),
    /// The setting of a pump or a valve, by the link's number.
    Setting(u32),
    /// The commanded state of a link.
    Status(u32),
    /// The time since the start.
    Time,
    /// The time of day.
    Clock,
}

/// How a clause compares.
#[derive(Debug, Clone, Copy, Drop)]
pub enum Relation {
    Less,
    AtMost,
    More,
    AtLeast,
    Equal,
    Unequal,
}

/// What a clause compares with.
#[derive(Debug, Clone, Copy, PartialEq, Eq, Drop)]
pub enum Value {
    /// The floor and the ceiling of an amount in head ticks, flow ticks, billionths or seconds,
    /// and the number of the file from which it is made; for a time its whole seconds. A flow is
    /// cut toward zero first.
    Amount { span: Span, number: Decimal },
    Open,
    Closed,
    Active,
}

/// One comparison.
#[derive(Debug, Clone, Copy, Drop)]
pub struct Clause {
    pub what: What,
    pub relation: Relation,
    pub value: Value,
}

/// A clause of a rule. How the first one is joined means nothing.
#[derive(Debug, Clone, Copy, Drop)]
pub struct RuleClause {
    pub joined: Joined,
    pub clause: Clause,
}

/// A state in which a rule sets a link.
#[derive(Debug, Clone, Copy, Drop)]
pub struct Action {
    pub link: u32,
    pub to: LinkState,
}

/// A rule: what it does where its clauses hold, and what where they don't.
#[derive(Drop)]
pub struct Rule {
    pub id: List<u8>,
    pub clauses: List<RuleClause>,
    pub yes: List<Action>,
    pub no: List<Action>,
    /// The priority in billionths. A rule without one ranks below all that have one.
    pub priority: Option<i128>,
}
