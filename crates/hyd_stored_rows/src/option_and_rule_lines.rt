//! What lines of options, times, controls and rules say, in words.

ghost use Rattle.hyd_spec_lines.specs.Lines.{LiesIn};

use crate::lines_of_sections::Reader;
use crate::network_rows::{Shown, put_read};
use crate::words::unit_word;
use hyd_lex::{Line, Lines};
use hyd_net::Relation;
use hyd_option_and_rule_lines::{
    ActionLine, Asked, ClauseLine, ControlLine, Object, OptionSet, RuleLine, TimeSet, Value,
    WhenLine, read_clock, read_control, read_option, read_rule_line, read_time, read_time_line,
};
use hyd_spec_input::{Attribute, LinkWord, NodeWord};
use std::alloc::AllocError;
use std::fmt::Write;

/// Writes what an option says.
pub(crate) fn put_option(lines: &Lines<'_>, line: &Line, out: &mut String) -> Result<(), AllocError>
    requires { LiesIn lines.now.text line.now }
{
    put_read(&read_option(lines, line), out)
}

/// Writes what a line of times says.
pub(crate) fn put_time_set(
    lines: &Lines<'_>,
    line: &Line,
    out: &mut String,
) -> Result<(), AllocError>
    requires { LiesIn lines.now.text line.now }
{
    put_read(&read_time_line(lines, line), out)
}

/// Writes what a control says.
pub(crate) fn put_control_line(
    lines: &Lines<'_>,
    line: &Line,
    out: &mut String,
) -> Result<(), AllocError>
    requires { LiesIn lines.now.text line.now }
{
    put_read(&read_control(lines, line), out)
}

/// Writes what a reader says of a line: of its words from the second on as a time or a time of day, or of the line as one of
/// a rule.
pub(crate) fn put_line_of(
    lines: &Lines<'_>,
    line: &Line,
    reader: Reader,
    out: &mut String,
) -> Result<(), AllocError>
    requires { LiesIn lines.now.text line.now }
{
    match reader {
        Reader::Time => put_read(&read_time(lines, line, 1), out),
        Reader::Clock => put_read(&read_clock(lines, line, 1), out),
        Reader::AfterThen => put_read(&read_rule_line(lines, line, true), out),
        _ => put_read(&read_rule_line(lines, line, false), out),
    }
}

/// Seconds.
impl Shown for u32 {
    fn put(&self, out: &mut String) -> Result<(), AllocError> {
        write!(out, "{self}")
    }
}

impl Shown for OptionSet {
    fn put(&self, out: &mut String) -> Result<(), AllocError> {
        match self {
            OptionSet::Unit(unit) => write!(out, "unit {}", unit_word(*unit)),
            OptionSet::Formula {
                is_hazen_williams: false,
            } => out.push_str("chezy manning"),
            OptionSet::Formula {
                is_hazen_williams: true,
            } => out.push_str("hazen williams"),
            OptionSet::Pattern(word) => write!(out, "pattern {word}"),
            OptionSet::Multiplier(number) => write!(out, "multiplier {}", number.nano),
            OptionSet::Pda(pda) => write!(out, "pda {pda}"),
            OptionSet::MinimumPressure(number) => write!(out, "minimum pressure {}", number.nano),
            OptionSet::RequiredPressure(number) => write!(out, "required pressure {}", number.nano),
            OptionSet::Unused => out.push_str("unused"),
        }
    }
}

impl Shown for TimeSet {
    fn put(&self, out: &mut String) -> Result<(), AllocError> {
        match self {
            TimeSet::Duration(seconds) => write!(out, "duration {seconds}"),
            TimeSet::Hydraulic(seconds) => write!(out, "hydraulic {seconds}"),
            TimeSet::Pattern(seconds) => write!(out, "pattern {seconds}"),
            TimeSet::PatternStart(seconds) => write!(out, "pattern start {seconds}"),
            TimeSet::Report(seconds) => write!(out, "report {seconds}"),
            TimeSet::ReportStart(seconds) => write!(out, "report start {seconds}"),
            TimeSet::StartClock(seconds) => write!(out, "start clock {seconds}"),
            TimeSet::Rule(seconds) => write!(out, "rule {seconds}"),
            TimeSet::Unused => out.push_str("unused"),
        }
    }
}

/// Writes the state that is asked of a link.
pub(crate) fn put_asked(out: &mut String, asked: Asked) -> Result<(), AllocError> {
    match asked {
        Asked::Open => out.push_str("open"),
        Asked::Closed => out.push_str("closed"),
        Asked::Number(number) => write!(out, "number {}", number.nano),
    }
}

/// The word of a kind of link.
fn link_word(word: LinkWord) -> &'static str {
    match word {
        LinkWord::Link => "link",
        LinkWord::Pipe => "pipe",
        LinkWord::Pump => "pump",
        LinkWord::Valve => "valve",
    }
}

/// The word of a kind of node.
fn node_word(word: NodeWord) -> &'static str {
    match word {
        NodeWord::Node => "node",
        NodeWord::Junction => "junction",
        NodeWord::Tank => "tank",
        NodeWord::Reservoir => "reservoir",
    }
}

/// Writes when a control acts.
fn put_when(out: &mut String, when: WhenLine) -> Result<(), AllocError> {
    match when {
        WhenLine::Level {
            object,
            node,
            above,
            level,
        } => {
            write!(out, "level object {} node {node} ", node_word(object))?;
            write!(out, "above {above} level {}", level.nano)
        }
        WhenLine::Time(seconds) => write!(out, "time {seconds}"),
        WhenLine::Clock(seconds) => write!(out, "clock {seconds}"),
    }
}

impl Shown for ControlLine {
    fn put(&self, out: &mut String) -> Result<(), AllocError> {
        write!(
            out,
            "control object {} link {} to ",
            link_word(self.object),
            self.link
        )?;
        put_asked(out, self.to)?;
        out.push_str(" when ")?;
        put_when(out, self.when)
    }
}

/// Writes what a clause speaks of.
fn put_object(out: &mut String, object: Object) -> Result<(), AllocError> {
    match object {
        Object::System => out.push_str("system"),
        Object::Node(word, node) => write!(out, "node {} {node}", node_word(word)),
        Object::Link(word, link) => write!(out, "link {} {link}", link_word(word)),
    }
}

/// The word of an attribute.
fn attribute_word(what: Attribute) -> &'static str {
    match what {
        Attribute::Head => "head",
        Attribute::Pressure => "pressure",
        Attribute::Level => "level",
        Attribute::Flow => "flow",
        Attribute::Setting => "setting",
        Attribute::Status => "status",
        Attribute::Time => "time",
        Attribute::Clock => "clock",
    }
}

/// The word of a relation.
pub(crate) fn relation_word(relation: Relation) -> &'static str {
    match relation {
        Relation::Less => "less",
        Relation::AtMost => "at most",
        Relation::More => "more",
        Relation::AtLeast => "at least",
        Relation::Equal => "equal",
        Relation::Unequal => "unequal",
    }
}

/// Writes the value of a clause.
fn put_value(out: &mut String, value: Value) -> Result<(), AllocError> {
    match value {
        Value::Number(number) => write!(out, "number {}", number.nano),
        Value::Seconds(seconds) => write!(out, "seconds {seconds}"),
        Value::Open => out.push_str("open"),
        Value::Closed => out.push_str("closed"),
        Value::Active => out.push_str("active"),
    }
}

/// Writes a clause behind a word.
fn put_clause(out: &mut String, word: &str, clause: &ClauseLine) -> Result<(), AllocError> {
    write!(out, "{word} object ")?;
    put_object(out, clause.object)?;
    write!(out, " what {} relation ", attribute_word(clause.what))?;
    write!(out, "{} value ", relation_word(clause.relation))?;
    put_value(out, clause.value)
}

/// Writes an action behind a word.
fn put_action(out: &mut String, word: &str, action: &ActionLine) -> Result<(), AllocError> {
    write!(
        out,
        "{word} object {} link {} to ",
        link_word(action.object),
        action.link
    )?;
    put_asked(out, action.to)
}

impl Shown for RuleLine {
    fn put(&self, out: &mut String) -> Result<(), AllocError> {
        match self {
            RuleLine::Rule(word) => write!(out, "rule {word}"),
            RuleLine::If(clause) => put_clause(out, "if", clause),
            RuleLine::And(clause) => put_clause(out, "and", clause),
            RuleLine::Or(clause) => put_clause(out, "or", clause),
            RuleLine::Then(action) => put_action(out, "then", action),
            RuleLine::Else(action) => put_action(out, "else", action),
            RuleLine::Further(action) => put_action(out, "further", action),
            RuleLine::Priority(number) => write!(out, "priority {}", number.nano),
        }
    }
}
