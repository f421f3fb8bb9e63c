//! What a demand passes at least and at most.
#![tactic(auto)]

ghost use Rattle.std.specs.Prelude.{◌≡◌, ◌+◌, ◌*◌, ◌^◌, ◌≤◌, ◌-ℤ◌, ◌≤ℤ◌, ◌<ℤ◌, ℤ, IfSome, IfNone, unsigned_abs};
ghost use Rattle.std.specs.Bool.{OnTrue, OnFalse};
ghost use Rattle.std.specs.Int.{int_min};
ghost use Rattle.hyd_spec.specs.DemandsHeadsAndPumpLifts.{pressure_value};
ghost use Rattle.hyd_spec_certificates.specs.EnclosingFunctions.{Fixed, Driven};
ghost use Rattle.hyd_spec_witnesses.specs.EnclosingFunctionsAtScale.{IsDifference, IsCapacityInRange};
ghost use Rattle.hyd_spec_witnesses.specs.DemandsAtScale.{driven_low_at, driven_high_at, IsDemandInRange};
ghost use Rattle.hyd_law.specs.DemandLaws.{IsSoundOut, IsSoundPda};
ghost use Rattle.hyd_period_network.specs.Demands.{demand_of_law};
ghost use Rattle.hyd_laws_at_scale.specs.Scales.{parts_of};
ghost use Rattle.hyd_laws_at_scale.specs.Windows.{IsDemandWindow, IsDemandAnswer};

use crate::quadratic::{quadratic_high, quadratic_low};
use crate::ranges::{fits, in_range};
use crate::scale::Scale;
use crate::windows::{Window, window_of};
use hyd_law::{OutLaw, Pda};

fn is_up_to(p: i64, bound: i128) -> bool
    ensures at_most { OnTrue result (p ≤ℤ bound) }
    ensures above { OnFalse result (bound <ℤ p) }
{
    i128::from(p) <= bound
}

fn is_from(p: i64, bound: i128) -> bool
    ensures at_least { OnTrue result (bound ≤ℤ p) }
    ensures below { OnFalse result (p <ℤ bound) }
{
    i128::from(p) >= bound
}

fn lesser(a: i128, b: i128) -> i128
    ensures value { result ≡ int_min a b }
    ensures small { unsigned_abs result ≤ unsigned_abs a + unsigned_abs b }
{
    a.min(b)
}

// A pressure less another one.
fn above(p: i64, bound: i128) -> i64
    requires { IsDifference (p -ℤ bound) }
    ensures { result ≡ p -ℤ bound }
{
    (i128::from(p) - bound) as i64
}

// At most what a demand that is driven by pressure gets.
fn driven_low(law: &Pda, scale: Scale, p: i64) -> i128
    requires sound { IsSoundPda law.now }
    requires pressure { IsDifference p }
    requires capacity { IsCapacityInRange (parts_of scale) law.now.cap }
    ensures value { result ≡ driven_low_at (parts_of scale) law.now.demand law.now.cap
        (pressure_value law.now.us law.now.minimum) (pressure_value law.now.us law.now.required) p }
    ensures small { unsigned_abs result ≤ 241 * 10 ^ 20 }
{
    let minimum = scale.in_parts(law.p0.hi);
    if is_up_to(p, minimum) {
        return 0;
    }
    let demand = scale.in_parts(i128::from(law.demand));
    if is_from(p, scale.in_parts(law.pf.hi)) {
        return demand;
    }
    lesser(demand, quadratic_low(&law.cap, scale, above(p, minimum)))
}

// At least what it gets.
fn driven_high(law: &Pda, scale: Scale, p: i64) -> i128
    requires sound { IsSoundPda law.now }
    requires pressure { IsDifference p }
    requires capacity { IsCapacityInRange (parts_of scale) law.now.cap }
    ensures value { result ≡ driven_high_at (parts_of scale) law.now.demand law.now.cap
        (pressure_value law.now.us law.now.minimum) (pressure_value law.now.us law.now.required) p }
    ensures small { unsigned_abs result ≤ 241 * 10 ^ 20 }
{
    let minimum = scale.in_parts(law.p0.lo);
    if is_up_to(p, minimum) {
        return 0;
    }
    let demand = scale.in_parts(i128::from(law.demand));
    if is_from(p, scale.in_parts(law.pf.lo)) {
        return demand;
    }
    lesser(demand, quadratic_high(&law.cap, scale, above(p, minimum)))
}

fn driven(law: &Pda, scale: Scale, p: i64) -> Option<Window>
    requires sound { IsSoundPda law.now }
    requires pressure { IsDifference p }
    ensures { IsDemandAnswer (parts_of scale) (Driven law.now.demand law.now.cap
        (pressure_value law.now.us law.now.minimum) (pressure_value law.now.us law.now.required)) p result }
{
    if !fits(&law.cap, scale) {
        return None;
    }
    Some(window_of(driven_low(law, scale, p), driven_high(law, scale, p)))
}

// A demand that doesn't depend on the pressure.
fn fixed(demand: i64, scale: Scale) -> Window
    ensures { (p : ℤ) → IsDifference p → IsDemandWindow (parts_of scale) (Fixed demand) p result }
{
    let flow = scale.in_parts(i128::from(demand));
    window_of(flow, flow)
}

fn window_at(law: &OutLaw, scale: Scale, p: i64) -> Option<Window>
    requires sound { IsSoundOut law.now }
    requires pressure { IsDifference p }
    ensures { IsDemandAnswer (parts_of scale) (demand_of_law law.now) p result }
{
    match law {
        OutLaw::Fixed(law) => Some(fixed(law.demand, scale)),
        OutLaw::Pda(law) => driven(law, scale, p),
    }
}

/// The low and the high flow of a demand at a pressure in parts of a head tick. There are none exactly where it isn't
/// in range.
pub fn demand_window(law: &OutLaw, scale: Scale, pressure: i128) -> Option<Window>
    requires { IsSoundOut law.now }
    ensures some { IfSome result (IsDemandWindow (parts_of scale) (demand_of_law law.now) pressure) }
    ensures none { IfNone result (IsDemandInRange (parts_of scale) (demand_of_law law.now) pressure → ⊥) }
{
    window_at(law, scale, in_range(pressure)?)
}
