//! The edges of a bracket as they are printed.

ghost use Rattle.std.specs.Prelude.{◌≡◌, ◌≤◌, ◌^◌, ◌<ℤ◌, ◌≤ℤ◌, ◌↔◌, pos, codes, length, take, unsigned_abs, IsTrue};
ghost use Rattle.hyd_num.specs.PrintedDecimals.{flow_quantity};
ghost use Rattle.hyd_units.specs.PrintedText.{IsDecimalOf};
ghost use Rattle.hyd_spec_pressure_targets.specs.declared.Edge.TheVariants.{Flow as EdgeFlow};
ghost use Rattle.hyd_spec_pressure_targets.specs.LinesOfTargets.{IsBelowText, IsAboveText};
ghost use Rattle.hyd_fire.specs.EdgesInRange.{IsSmallEdge};

use hyd_num::FlowUnit;
use hyd_spec_pressure_targets::Edge;
use hyd_units::{BUFFER_SIZE, Way, print_flow};
use std::marker::Model;

/// A short text of as many bytes as its buffer takes at most. Contracts see its bytes.
#[derive(Drop)]
pub(crate) struct Text {
    buffer: [u8; BUFFER_SIZE],
    used: usize,
}

impl Model for Text {
    ghost use Rattle.std.specs.Prelude.{ℕ, ◌≤◌, List, take};

    ghost Value = { List ℕ };

    ghost view = { λ t. take t.used t.buffer };

    // `BUFFER_SIZE`, which an invariant can't name.
    ghost invariant = { λ t. t.used ≤ 48 };
}

impl Text {
    /// The bytes.
    pub(crate) fn bytes(&self) -> &[u8]
        ensures { result.now ≡ self.now }
    {
        &self.buffer[..self.used]
    }
}

// A word in a buffer of its own.
fn word(letters: &[u8]) -> Text
    requires { length letters.now ≤ BUFFER_SIZE }
    ensures { result ≡ letters.now }
{
    let mut buffer = [0; BUFFER_SIZE];
    let used = letters.len();
    buffer[..used].copy_from_slice(letters);
    Text { buffer, used }
}

// A flow rounded one way.
fn flow(draw: i128, unit: FlowUnit, way: Way) -> Text
    requires { unsigned_abs draw ≤ 10 ^ 27 }
    ensures { IsDecimalOf way (flow_quantity unit draw) result }
{
    let mut buffer = [0; BUFFER_SIZE];
    let used = print_flow(draw, unit, way, &mut buffer);
    Text { buffer, used }
}

// The lower edge, where it is a flow.
fn below_flow(draw: i128, unit: FlowUnit) -> Text
    requires { unsigned_abs draw ≤ 10 ^ 27 }
    ensures { IsBelowText unit (EdgeFlow draw) result }
{
    if draw < 0 {
        return word(b"NONE");
    }
    flow(draw, unit, Way::Down)
}

// The upper edge, where it is a flow.
fn above_flow(draw: i128, unit: FlowUnit) -> Text
    requires { unsigned_abs draw ≤ 10 ^ 27 }
    ensures { IsAboveText unit (EdgeFlow draw) result }
{
    if draw <= 0 {
        return word(b"0.0000");
    }
    flow(draw, unit, Way::Up)
}

/// The lower edge.
pub(crate) fn below_text(edge: Edge, unit: FlowUnit) -> Text
    requires { IsSmallEdge edge }
    ensures { IsBelowText unit edge result }
{
    match edge {
        Edge::Flow(draw) => below_flow(draw, unit),
        Edge::NoCertificate => word(b"NOCERT"),
        Edge::RoundsSpent => word(b"ROUNDS"),
    }
}

/// The upper edge.
pub(crate) fn above_text(edge: Edge, unit: FlowUnit) -> Text
    requires { IsSmallEdge edge }
    ensures { IsAboveText unit edge result }
{
    match edge {
        Edge::Flow(draw) => above_flow(draw, unit),
        Edge::NoCertificate => word(b"NOCERT"),
        Edge::RoundsSpent => word(b"ROUNDS"),
    }
}
