//! A network in words: a line or two for each of its parts.

use crate::option_and_rule_lines::relation_word;
use crate::words::{put_bytes, put_ends, unit_word};
use hyd_net::{
    Action, Control, HeadPoint, Joined, Junction, Link, LinkKind, LinkState, OpenValve, Options,
    PipeLoss, Project, Rule, RuleClause, Tank, Times, Value, VolumePoint, What, When,
};
use hyd_num::Capacity;
use std::alloc::AllocError;
use std::fmt::Write;

/// Writes a network.
pub(crate) fn put_network(out: &mut String, project: &Project) -> Result<(), AllocError> {
    put_options(out, &project.options)?;
    put_times(out, &project.times)?;
    put_nodes(out, project)?;
    put_links(out, project)?;
    put_lists(out, project)?;
    for control in project.controls.as_slice() {
        put_control(out, control)?;
    }
    for rule in project.rules.as_slice() {
        put_rule(out, rule)?;
    }
    Ok(())
}

/// Writes a number, or that there is none.
fn put_some(out: &mut String, word: &str, number: Option<u32>) -> Result<(), AllocError> {
    match number {
        Some(number) => write!(out, " {word} {number}"),
        None => write!(out, " {word} none"),
    }
}

fn put_options(out: &mut String, options: &Options) -> Result<(), AllocError> {
    write!(
        out,
        "options {} pda {}",
        unit_word(options.unit),
        options.pda
    )?;
    write!(
        out,
        " minimum {} required {}",
        options.p0.nano, options.pf.nano
    )?;
    write!(out, " multiplier {}", options.multiplier.nano)?;
    put_some(out, "pattern", options.default_pattern)?;
    out.push('\n')
}

fn put_times(out: &mut String, times: &Times) -> Result<(), AllocError> {
    write!(
        out,
        "duration {} hydraulic {} ",
        times.duration, times.hydraulic
    )?;
    write!(
        out,
        "pattern {} from {} ",
        times.pattern, times.pattern_start
    )?;
    write!(out, "report {} from {} ", times.report, times.report_start)?;
    write!(out, "clock {} rule {}\n", times.start_clock, times.rule)
}

fn put_nodes(out: &mut String, project: &Project) -> Result<(), AllocError> {
    for junction in project.junctions.as_slice() {
        put_junction(out, junction)?;
    }
    for reservoir in project.reservoirs.as_slice() {
        write!(out, "reservoir head {}", reservoir.head)?;
        put_some(out, "pattern", reservoir.pattern)?;
        out.push('\n')?;
    }
    for tank in project.tanks.as_slice() {
        put_tank(out, tank)?;
    }
    Ok(())
}

/// Writes a capacity by its ends.
fn put_capacity(out: &mut String, capacity: &Capacity) -> Result<(), AllocError> {
    put_ends(out, capacity.lo, capacity.hi)
}

fn put_junction(out: &mut String, junction: &Junction) -> Result<(), AllocError> {
    write!(out, "junction elevation {} emitter ", junction.elevation)?;
    match &junction.emitter {
        Some(capacity) => put_capacity(out, capacity)?,
        None => out.push_str("none")?,
    }
    for demand in junction.demands.as_slice() {
        write!(out, "\ndemand base {}", demand.base)?;
        put_some(out, "pattern", demand.pattern)?;
    }
    out.push('\n')
}

fn put_tank(out: &mut String, tank: &Tank) -> Result<(), AllocError> {
    write!(out, "tank bottom {} initial {}", tank.bottom, tank.initial)?;
    write!(out, " minimum {} maximum {} ", tank.minimum, tank.maximum)?;
    match tank.shape {
        Some(curve) => write!(out, "curve {curve}")?,
        None => write!(out, "area {}", tank.area)?,
    }
    write!(out, " overflows {}\n", tank.overflow)
}

fn put_links(out: &mut String, project: &Project) -> Result<(), AllocError> {
    for link in project.links.as_slice() {
        put_link(out, link)?;
    }
    Ok(())
}

fn put_link(out: &mut String, link: &Link) -> Result<(), AllocError> {
    write!(out, "link from {} to {} ", link.from, link.to)?;
    put_state(out, &link.start)?;
    out.push('\n')?;
    put_kind(out, &link.kind)?;
    out.push('\n')
}

fn put_valve(out: &mut String, valve: &OpenValve) -> Result<(), AllocError> {
    match valve {
        OpenValve::Quadratic(capacity) => put_capacity(out, capacity),
        OpenValve::Linear => out.push_str("linear"),
    }
}

fn put_state(out: &mut String, state: &LinkState) -> Result<(), AllocError> {
    match state {
        LinkState::Open => out.push_str("open"),
        LinkState::Closed => out.push_str("closed"),
        LinkState::Speed(nano) => write!(out, "speed {nano}"),
        LinkState::Limit { nano, ticks } => write!(out, "limit {nano} ticks {ticks}"),
        LinkState::Throttle { nano, law } => {
            write!(out, "throttle {nano} ")?;
            put_valve(out, law)
        }
    }
}

fn put_loss(out: &mut String, loss: &PipeLoss) -> Result<(), AllocError> {
    match loss {
        PipeLoss::Manning(capacity) => put_capacity(out, capacity),
        PipeLoss::HazenWilliams(_) => out.push_str("by Hazen-Williams"),
    }
}

fn put_kind(out: &mut String, kind: &LinkKind) -> Result<(), AllocError> {
    match kind {
        LinkKind::Pipe(loss) => {
            out.push_str("pipe ")?;
            put_loss(out, loss)
        }
        LinkKind::CheckPipe(loss) => {
            out.push_str("check pipe ")?;
            put_loss(out, loss)
        }
        LinkKind::Tcv { valve } => {
            out.push_str("throttle valve ")?;
            put_valve(out, valve)
        }
        LinkKind::Fcv { valve } => {
            out.push_str("flow valve ")?;
            put_valve(out, valve)
        }
        _ => put_other_kind(out, kind),
    }
}

/// Writes a pump or a general purpose valve.
fn put_other_kind(out: &mut String, kind: &LinkKind) -> Result<(), AllocError> {
    match kind {
        LinkKind::Pump {
            cap,
            shutoff,
            pattern,
            ..
        } => {
            write!(out, "pump shutoff {}..{} ", shutoff.lo, shutoff.hi)?;
            put_capacity(out, cap)?;
            put_some(out, "pattern", *pattern)
        }
        LinkKind::CurvePump { bend, pattern } => {
            write!(out, "pump curve {bend}")?;
            put_some(out, "pattern", *pattern)
        }
        LinkKind::Gpv { bend } => write!(out, "general purpose valve curve {bend}"),
        _ => Ok(()),
    }
}

/// Patterns, volume curves and curves by straight lines.
fn put_lists(out: &mut String, project: &Project) -> Result<(), AllocError> {
    for pattern in project.patterns.as_slice() {
        out.push_str("pattern\n")?;
        for multiplier in pattern.multipliers.as_slice() {
            write!(out, "{multiplier}\n")?;
        }
    }
    for shape in project.shapes.as_slice() {
        put_shape(out, shape.as_slice())?;
    }
    for bend in project.bends.as_slice() {
        put_bend(out, bend.as_slice())?;
    }
    Ok(())
}

fn put_shape(out: &mut String, shape: &[VolumePoint]) -> Result<(), AllocError> {
    out.push_str("volume curve\n")?;
    for point in shape {
        write!(out, "level {} volume {}\n", point.level, point.volume)?;
    }
    Ok(())
}

fn put_bend(out: &mut String, bend: &[HeadPoint]) -> Result<(), AllocError> {
    out.push_str("curve\n")?;
    for point in bend {
        write!(out, "flow {} head {}\n", point.flow, point.head)?;
    }
    Ok(())
}

fn put_when(out: &mut String, when: &When) -> Result<(), AllocError> {
    match when {
        When::Level { tank, above, ticks } => {
            write!(out, "level of tank {tank} above {above} {ticks}\n")
        }
        When::Time(seconds) => write!(out, "time {seconds}\n"),
        When::Clock(seconds) => write!(out, "clock {seconds}\n"),
    }
}

fn put_control(out: &mut String, control: &Control) -> Result<(), AllocError> {
    write!(out, "control link {} to ", control.link)?;
    put_state(out, &control.to)?;
    out.push_str(" when ")?;
    put_when(out, &control.when)
}

fn put_what(out: &mut String, what: What) -> Result<(), AllocError> {
    match what {
        What::Head(node) => write!(out, "head {node}"),
        What::Pressure(node) => write!(out, "pressure {node}"),
        What::Level(tank) => write!(out, "level {tank}"),
        What::Flow(link) => write!(out, "flow {link}"),
        What::Setting(link) => write!(out, "setting {link}"),
        What::Status(link) => write!(out, "status {link}"),
        What::Time => out.push_str("time"),
        What::Clock => out.push_str("clock"),
    }
}

/// Writes a clause without how it is joined, which means nothing of a first one.
fn put_clause(out: &mut String, clause: &RuleClause) -> Result<(), AllocError> {
    let clause = &clause.clause;
    put_what(out, clause.what)?;
    write!(out, " {} ", relation_word(clause.relation))?;
    match &clause.value {
        Value::Amount { span, .. } => write!(out, "{}..{}\n", span.lo, span.hi),
        Value::Open => out.push_str("open\n"),
        Value::Closed => out.push_str("closed\n"),
        Value::Active => out.push_str("active\n"),
    }
}

fn put_clauses(out: &mut String, clauses: &[RuleClause]) -> Result<(), AllocError> {
    for (place, clause) in clauses.iter().enumerate() {
        out.push_str(match clause.joined {
            _ if place == 0 => "if ",
            Joined::And => "and ",
            Joined::Or => "or ",
        })?;
        put_clause(out, clause)?;
    }
    Ok(())
}

fn put_actions(out: &mut String, word: &str, actions: &[Action]) -> Result<(), AllocError> {
    for action in actions {
        write!(out, "{word} link {} to ", action.link)?;
        put_state(out, &action.to)?;
        out.push('\n')?;
    }
    Ok(())
}

fn put_rule(out: &mut String, rule: &Rule) -> Result<(), AllocError> {
    out.push_str("rule ")?;
    put_bytes(out, rule.id.as_slice())?;
    match rule.priority {
        Some(nano) => write!(out, " priority {nano}\n")?,
        None => out.push_str(" priority none\n")?,
    }
    put_clauses(out, rule.clauses.as_slice())?;
    put_actions(out, "then", rule.yes.as_slice())?;
    put_actions(out, "else", rule.no.as_slice())
}
