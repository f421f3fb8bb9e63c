//! Definitions alone: what the lines of an input file say, which of them is wrong, and the network that they
//! describe (EPANET 2.2 User Manual, appendix C). The enums are the words that definitions and code share.
#![tactic(auto)]

/// The first word of a line of [OPTIONS].
#[derive(Clone, Copy, Drop)]
pub enum OptionWord {
    Units,
    HeadLoss,
    Pattern,
    Demand,
    Minimum,
    Required,
    Pressure,
    Emitter,
    Specific,
    /// An option that is read over.
    Unused,
}

/// The first word of a line of [TIMES].
#[derive(Clone, Copy, Drop)]
pub enum TimeWord {
    Duration,
    Hydraulic,
    Pattern,
    Report,
    Rule,
    Start,
    Quality,
    Statistic,
}

/// The word before a link's ID in a control or a rule.
#[derive(Clone, Copy, Drop)]
pub enum LinkWord {
    /// A link of any kind.
    Link,
    Pipe,
    Pump,
    Valve,
}

/// The word before a node's ID in a control or a rule.
#[derive(Clone, Copy, Drop)]
pub enum NodeWord {
    /// A node of any kind.
    Node,
    Junction,
    Tank,
    Reservoir,
}

/// The second word of a rule's clause.
#[derive(Clone, Copy, Drop)]
pub enum ObjectWord {
    System,
    Node(NodeWord),
    Link(LinkWord),
}

/// What a rule's clause asks of its object.
#[derive(Clone, Copy, Drop)]
pub enum Attribute {
    Head,
    Pressure,
    Level,
    Flow,
    Setting,
    Status,
    Time,
    Clock,
}

/// The first word of a line of a rule.
#[derive(Clone, Copy, Drop)]
pub enum RuleWord {
    Rule,
    If,
    And,
    Or,
    Then,
    Else,
    Priority,
}

/// What stands before a line of a rule.
#[derive(Clone, Copy, Drop)]
pub enum Stage {
    /// No rule.
    Outside,
    /// The rule's RULE line.
    Named,
    /// A clause.
    Asking,
    /// An action of THEN.
    Acting,
    /// An action of ELSE.
    Otherwise,
    /// The rule's PRIORITY line.
    Closed,
}

/// The keywords of the earlier pairs of a pump's row.
#[derive(Clone, Copy, Drop)]
pub struct EarlierKeys {
    pub head: bool,
    pub speed: bool,
    pub pattern: bool,
}
