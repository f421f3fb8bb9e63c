//! What pumps and general purpose valves ask of each curve, judged once.
#![tactic(auto)]

ghost use Rattle.std.specs.Prelude.{◌≡◌, ◌≤◌, ◌^◌, ℕ, false, List, Some, None, pos, ◌-ℤ◌, ◌≤ℤ◌, ◌<ℤ◌, IfOk};
ghost use Rattle.std.specs.Bool.{OnTrue, OnFalse};
ghost use Rattle.hyd_spec_lines.specs.WordsOfLines.{text_of};
ghost use Rattle.hyd_spec_lines.specs.Lines.{Row};
ghost use Rattle.hyd_capacities.specs.FileNumberRanges.{IsCurveFlow};
ghost use Rattle.hyd_spec_input.specs.CapacitiesOutOfRange.{IsRefusedCurve};
ghost use Rattle.hyd_spec_input.specs.Curves.{drop_of, is_bent};
ghost use Rattle.hyd_spec_input.specs.OptionsAndTimesInForce as force;
ghost use Rattle.hyd_spec_input.specs.SectionsAndTables.{Point};
ghost use Rattle.hyd_spec_input.specs.FaultsWithOtherRows as others;
ghost use Rattle.hyd_curves.specs.CurveFaults as asked;
ghost use Rattle.hyd_curves.specs.CurveFaults.{IsRefusedPoints};
ghost use Rattle.hyd_curves.specs.Points.{ArePoints, points_in};
ghost use Rattle.hyd_curves.specs.VerdictsOnCurves.{AreVerdicts, IsVerdictOf, verdict_named};

use crate::points::{CurvePoint, Points};
use crate::pumps::pump_fault;
use crate::valves::valve_fault;
use hyd_capacities::pump_capacity;
use hyd_net::{Cause, OutOfMemory};
use hyd_num::{Decimal, FlowUnit};
use hyd_rows_and_tables::Table;
use std::alloc::Global;

/// What is wrong with a curve as a pump's, and as a general purpose valve's.
#[derive(Clone, Copy, Drop)]
pub struct CurveVerdict {
    /// What is wrong with it as a pump's.
    pub pump: Option<Cause>,
    /// Whether it is one that a pump can have, of one point or three, whose capacity is out of range.
    pub is_refused: bool,
    /// What is wrong with it as a general purpose valve's.
    pub valve: Option<Cause>,
}

/// The verdicts on all curves, by the number that a curve's ID has in the table of [CURVES].
#[derive(Drop)]
pub struct CurveVerdicts {
    pub each: Vec<CurveVerdict>,
}

// Whether a pump's flow, drop and thirds of the drop make a capacity out of range.
fn makes_refused(flow: Decimal, drop: Decimal, thirds: u32, unit: FlowUnit) -> bool
    requires flow { IsCurveFlow unit flow }
    requires drop { pos 0 <ℤ drop.nano }
    requires thirds { 1 ≤ thirds }
    ensures refused { (points : List Point) → is_bent points ≡ false
        → drop_of points ≡ record { flow = flow.nano; drop = drop.nano; thirds = thirds }
        → OnTrue result (IsRefusedPoints unit points) }
    ensures accepted { (points : List Point) → is_bent points ≡ false
        → drop_of points ≡ record { flow = flow.nano; drop = drop.nano; thirds = thirds }
        → OnFalse result (IsRefusedPoints unit points → ⊥) }
{
    match pump_capacity(flow, drop, thirds, unit) {
        Ok(_) => false,
        Err(_) => true,
    }
}

// The head that is lost from one point to the next.
fn drop_between(a: CurvePoint, b: CurvePoint) -> Decimal
    requires falls { b.y.nano <ℤ a.y.nano }
    requires small { (a.y.nano -ℤ b.y.nano) ≤ℤ pos (10 ^ 21) }
    ensures { result.nano ≡ a.y.nano -ℤ b.y.nano }
{
    Decimal {
        nano: a.y.nano - b.y.nano,
    }
}

// Whether points that a pump can have make a capacity out of range.
fn is_refused(points: &[CurvePoint], unit: FlowUnit) -> bool
    requires { asked.pump_fault unit (points_in points.now) ≡ None }
    ensures refused { OnTrue result (IsRefusedPoints unit (points_in points.now)) }
    ensures accepted { OnFalse result (IsRefusedPoints unit (points_in points.now) → ⊥) }
{
    match points {
        [a] => makes_refused(a.x, a.y, 3, unit),
        [a, b, _] => makes_refused(b.x, drop_between(*a, *b), 1, unit),
        _ => false,
    }
}

// The verdict on the points of a curve.
fn judge(points: &[CurvePoint], unit: FlowUnit) -> CurveVerdict
    ensures { IsVerdictOf unit (points_in points.now) result }
{
    let valve = valve_fault(points, unit);
    if let Some(cause) = pump_fault(points, unit) {
        return CurveVerdict {
            pump: Some(cause),
            is_refused: false,
            valve,
        };
    }
    CurveVerdict {
        pump: None,
        is_refused: is_refused(points, unit),
        valve,
    }
}

/// Judges each curve once, in time linear in its points, where `unit` is the unit of flows in force.
pub fn curve_verdicts(
    alloc: Global,
    points: &Points,
    unit: FlowUnit,
) -> Result<CurveVerdicts, OutOfMemory>
    ensures { IfOk result (λ verdicts. (rows : List Row) (names : List (List ℕ)) → unit ≡ force.unit rows
        → ArePoints rows names points.now → AreVerdicts rows names verdicts) }
{
    let mut each = Vec::with_capacity(alloc, points.lists.len())?;
    for list in &points.lists {
        each.push(judge(list.as_slice(), unit))?;
    }
    Ok(CurveVerdicts { each })
}

impl CurveVerdicts {
    // The verdict on the curve of a name.
    fn named(&self, curves: &Table, name: &[u8]) -> CurveVerdict
        ensures { result ≡ verdict_named curves.now.names self.now name.now }
    {
        let none = CurveVerdict {
            pump: Some(Cause::Unsupported(4)),
            is_refused: false,
            valve: Some(Cause::Range),
        };
        let Some(number) = curves.names.number(name) else {
            return none;
        };
        match self.each.get(number as usize) {
            Some(verdict) => *verdict,
            None => none,
        }
    }

    /// What is wrong with the curve that a pump names: Unsupported 4 where it isn't of one point with flow and head
    /// above 0, of three on a parabola with flows from 0 that rise and heads that fall, or of four and more; Range
    /// where flows or heads are out of range. A name that no curve has is one of no points.
    pub fn pump_curve_fault(&self, curves: &Table, name: Option<&[u8]>) -> Option<Cause>
        ensures { (rows : List Row) → AreVerdicts rows curves.now.names self.now
            → result ≡ others.curve_of_pump rows (text_of name.entry) }
    {
        let name = name?;
        self.named(curves, name).pump
    }

    /// Whether the curve that a pump names, which is right otherwise, makes a capacity out of range.
    pub fn is_refused_curve(&self, curves: &Table, name: Option<&[u8]>) -> bool
        ensures refused { (rows : List Row) → AreVerdicts rows curves.now.names self.now
            → others.curve_of_pump rows (text_of name.entry) ≡ None
            → OnTrue result (IsRefusedCurve rows (text_of name.entry)) }
        ensures accepted { (rows : List Row) → AreVerdicts rows curves.now.names self.now
            → others.curve_of_pump rows (text_of name.entry) ≡ None
            → OnFalse result (IsRefusedCurve rows (text_of name.entry) → ⊥) }
    {
        let Some(name) = name else {
            return false;
        };
        self.named(curves, name).is_refused
    }

    /// Range where the curve that a general purpose valve names doesn't begin at no flow and no loss, has one point
    /// only, doesn't rise in both, or is out of range. A name that no curve has is one of no points.
    pub fn valve_curve_fault(&self, curves: &Table, name: Option<&[u8]>) -> Option<Cause>
        ensures { (rows : List Row) → AreVerdicts rows curves.now.names self.now
            → result ≡ others.curve_of_valve rows (text_of name.entry) }
    {
        let name = name?;
        self.named(curves, name).valve
    }
}
