//! What rows of nodes, links and what belongs to them say, in words.

ghost use Rattle.hyd_spec_lines.specs.Lines.{LiesIn};

use crate::option_and_rule_lines::{put_asked, put_control_line, put_option, put_time_set};
use crate::words::{put_bytes, put_id, put_refused, put_some_id};
use hyd_lex::{Line, Lines, Section};
use hyd_net::Cause;
use hyd_network_rows::{
    CurveRow, DemandRow, EmitterRow, JunctionRow, LinkEnds, PatternRow, PipeRow, PipeStatus,
    PumpRow, ReservoirRow, StatusRow, TankRow, ValveRow, ValveSetting, read_curve, read_demand,
    read_emitter, read_junction, read_pattern, read_pipe_by, read_pump, read_reservoir,
    read_status, read_tank, read_valve,
};
use std::alloc::AllocError;
use std::fmt::Write;

/// A row that can be written in words.
pub(crate) trait Shown {
    /// Writes it.
    fn put(&self, out: &mut String) -> Result<(), AllocError>;
}

/// Writes a row, or why it is refused.
pub(crate) fn put_read<T: Shown>(
    row: &Result<T, Cause>,
    out: &mut String,
) -> Result<(), AllocError> {
    match row {
        Ok(row) => row.put(out),
        Err(cause) => put_refused(out, *cause),
    }
}

/// Writes what a row of its section says.
pub(crate) fn put_network_row(
    lines: &Lines<'_>,
    line: &Line,
    out: &mut String,
) -> Result<(), AllocError>
    requires { LiesIn lines.now.text line.now }
{
    match line.section {
        Section::Junctions => put_read(&read_junction(lines, line), out),
        Section::Reservoirs => put_read(&read_reservoir(lines, line), out),
        Section::Tanks => put_read(&read_tank(lines, line), out),
        Section::Pipes => put_read(&read_pipe_by(lines, line, false), out),
        Section::Pumps => put_read(&read_pump(lines, line), out),
        Section::Valves => put_read(&read_valve(lines, line), out),
        _ => put_other_row(lines, line, out),
    }
}

/// The same of what belongs to nodes and links, and of options, times and controls.
fn put_other_row(lines: &Lines<'_>, line: &Line, out: &mut String) -> Result<(), AllocError>
    requires { LiesIn lines.now.text line.now }
{
    match line.section {
        Section::Demands => put_read(&read_demand(lines, line), out),
        Section::Emitters => put_read(&read_emitter(lines, line), out),
        Section::Curves => put_read(&read_curve(lines, line), out),
        Section::Patterns => put_read(&read_pattern(lines, line), out),
        Section::Status => put_read(&read_status(lines, line), out),
        Section::Options => put_option(lines, line, out),
        Section::Times => put_time_set(lines, line, out),
        _ => put_control_line(lines, line, out),
    }
}

impl<'a> Shown for JunctionRow<'a> {
    fn put(&self, out: &mut String) -> Result<(), AllocError> {
        out.push_str("junction")?;
        put_id(out, "id", self.id)?;
        write!(
            out,
            " elevation {} base {}",
            self.elevation.nano, self.base.nano
        )?;
        put_some_id(out, "pattern", self.pattern)
    }
}

impl<'a> Shown for ReservoirRow<'a> {
    fn put(&self, out: &mut String) -> Result<(), AllocError> {
        out.push_str("reservoir")?;
        put_id(out, "id", self.id)?;
        write!(out, " head {}", self.head.nano)?;
        put_some_id(out, "pattern", self.pattern)
    }
}

impl<'a> Shown for TankRow<'a> {
    fn put(&self, out: &mut String) -> Result<(), AllocError> {
        out.push_str("tank")?;
        put_id(out, "id", self.id)?;
        write!(
            out,
            " bottom {} initial {}",
            self.bottom.nano, self.initial.nano
        )?;
        write!(
            out,
            " minimum {} maximum {}",
            self.minimum.nano, self.maximum.nano
        )?;
        write!(out, " diameter {}", self.diameter.nano)?;
        put_some_id(out, "curve", self.curve)?;
        write!(out, " overflows {}", self.overflows)
    }
}

/// Writes the ID of a link and those of its ends.
fn put_link_ends(out: &mut String, ends: &LinkEnds<'_>) -> Result<(), AllocError> {
    put_id(out, "id", ends.id)?;
    put_id(out, "from", ends.from)?;
    put_id(out, "to", ends.to)
}

/// The word of the state of a pipe.
fn status_word(status: PipeStatus) -> &'static str {
    match status {
        PipeStatus::Open => "open",
        PipeStatus::Closed => "closed",
        PipeStatus::CheckValve => "check valve",
    }
}

impl<'a> Shown for PipeRow<'a> {
    fn put(&self, out: &mut String) -> Result<(), AllocError> {
        out.push_str("pipe")?;
        put_link_ends(out, &self.ends)?;
        write!(
            out,
            " length {} diameter {}",
            self.length.nano, self.diameter.nano
        )?;
        write!(
            out,
            " roughness {} minor {}",
            self.roughness.nano, self.minor.nano
        )?;
        write!(out, " status {}", status_word(self.status))
    }
}

impl<'a> Shown for PumpRow<'a> {
    fn put(&self, out: &mut String) -> Result<(), AllocError> {
        out.push_str("pump")?;
        put_link_ends(out, &self.ends)?;
        put_id(out, "curve", self.curve)?;
        write!(out, " speed {}", self.speed.nano)?;
        put_some_id(out, "pattern", self.pattern)
    }
}

/// Writes the setting of a valve.
fn put_setting(out: &mut String, setting: ValveSetting<'_>) -> Result<(), AllocError> {
    match setting {
        ValveSetting::Throttle(number) => write!(out, " throttle {}", number.nano),
        ValveSetting::Flow(number) => write!(out, " flow {}", number.nano),
        ValveSetting::Curve(id) => put_id(out, "curve", id),
    }
}

impl<'a> Shown for ValveRow<'a> {
    fn put(&self, out: &mut String) -> Result<(), AllocError> {
        out.push_str("valve")?;
        put_link_ends(out, &self.ends)?;
        write!(out, " diameter {} setting", self.diameter.nano)?;
        put_setting(out, self.setting)?;
        write!(out, " minor {}", self.minor.nano)
    }
}

impl<'a> Shown for DemandRow<'a> {
    fn put(&self, out: &mut String) -> Result<(), AllocError> {
        out.push_str("demand")?;
        put_id(out, "junction", self.junction)?;
        write!(out, " base {}", self.base.nano)?;
        put_some_id(out, "pattern", self.pattern)
    }
}

impl<'a> Shown for EmitterRow<'a> {
    fn put(&self, out: &mut String) -> Result<(), AllocError> {
        out.push_str("emitter")?;
        put_id(out, "junction", self.junction)?;
        write!(out, " coefficient {}", self.coefficient.nano)
    }
}

impl<'a> Shown for CurveRow<'a> {
    fn put(&self, out: &mut String) -> Result<(), AllocError> {
        out.push_str("curve")?;
        put_id(out, "id", self.id)?;
        write!(out, " x {} y {}", self.x.nano, self.y.nano)
    }
}

impl<'a> Shown for PatternRow<'a> {
    fn put(&self, out: &mut String) -> Result<(), AllocError> {
        out.push_str("pattern")?;
        put_id(out, "id", self.id)?;
        out.push_str(" multipliers")?;
        put_bytes(out, self.multipliers)
    }
}

impl<'a> Shown for StatusRow<'a> {
    fn put(&self, out: &mut String) -> Result<(), AllocError> {
        out.push_str("status")?;
        put_id(out, "link", self.link)?;
        out.push_str(" to ")?;
        put_asked(out, self.to)
    }
}
