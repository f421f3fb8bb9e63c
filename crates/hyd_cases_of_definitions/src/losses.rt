//! What is lost in pipes, valves and pumps and by outflows: at a head difference the independent calculation gives a
//! whole flow below and one above the exact one, and these are they.
#![tactic(auto)]

ghost use Rattle.std.specs.Prelude.{◌≡◌, pos, true, false};
ghost use Rattle.hyd_num.specs.declared.flow_units.FlowUnit.TheVariants.{Gpm, Lps};
ghost use Rattle.hyd_spec.specs.ProgramTypes.{Decimal, Pump, Emitter, PressureDemand};
ghost use Rattle.hyd_spec.specs.Loss.{PipeLossAtMost, PipeLossAtLeast, ValveLossAtMost, ValveLossAtLeast};
ghost use Rattle.hyd_spec.specs.Law.{loss_at_most, loss_at_least};

/// A pipe in feet and inches, without minor losses, at 10000000000000 head ticks.
pub fn pipe_feet()
    ensures below { (length diameter roughness minor : Decimal) → length.nano ≡ pos 1000000000000
        → diameter.nano ≡ pos 12000000000
        → roughness.nano ≡ pos 10000000 → minor.nano ≡ pos 0
        → PipeLossAtMost true length diameter roughness minor 1 64916962507 10000000000000 }
    ensures above { (length diameter roughness minor : Decimal) → length.nano ≡ pos 1000000000000
        → diameter.nano ≡ pos 12000000000
        → roughness.nano ≡ pos 10000000 → minor.nano ≡ pos 0
        → PipeLossAtLeast true length diameter roughness minor 1 64916962508 10000000000000 }
{}

/// A pipe in feet and inches, with minor losses, at 3000000000000 head ticks.
pub fn pipe_feet_minor()
    ensures below { (length diameter roughness minor : Decimal) → length.nano ≡ pos 5280123456789
        → diameter.nano ≡ pos 8123456789
        → roughness.nano ≡ pos 13000000 → minor.nano ≡ pos 2500000000
        → PipeLossAtMost true length diameter roughness minor 1 4189361902 3000000000000 }
    ensures above { (length diameter roughness minor : Decimal) → length.nano ≡ pos 5280123456789
        → diameter.nano ≡ pos 8123456789
        → roughness.nano ≡ pos 13000000 → minor.nano ≡ pos 2500000000
        → PipeLossAtLeast true length diameter roughness minor 1 4189361903 3000000000000 }
{}

/// A pipe in metres and millimetres, without minor losses, at 10000000000000 head ticks.
pub fn pipe_metres()
    ensures below { (length diameter roughness minor : Decimal) → length.nano ≡ pos 1000000000000
        → diameter.nano ≡ pos 300000000000
        → roughness.nano ≡ pos 11000000 → minor.nano ≡ pos 0
        → PipeLossAtMost false length diameter roughness minor 1 31232104945 10000000000000 }
    ensures above { (length diameter roughness minor : Decimal) → length.nano ≡ pos 1000000000000
        → diameter.nano ≡ pos 300000000000
        → roughness.nano ≡ pos 11000000 → minor.nano ≡ pos 0
        → PipeLossAtLeast false length diameter roughness minor 1 31232104946 10000000000000 }
{}

/// A pipe in metres and millimetres, with minor losses, at 777777777777 head ticks.
pub fn pipe_metres_minor()
    ensures below { (length diameter roughness minor : Decimal) → length.nano ≡ pos 987654321987
        → diameter.nano ≡ pos 123456789012
        → roughness.nano ≡ pos 15000000 → minor.nano ≡ pos 10000000000
        → PipeLossAtMost false length diameter roughness minor 1 596492032 777777777777 }
    ensures above { (length diameter roughness minor : Decimal) → length.nano ≡ pos 987654321987
        → diameter.nano ≡ pos 123456789012
        → roughness.nano ≡ pos 15000000 → minor.nano ≡ pos 10000000000
        → PipeLossAtLeast false length diameter roughness minor 1 596492033 777777777777 }
{}

/// A valve of one foot, at 10000000000000 head ticks.
pub fn valve_feet()
    ensures below { (diameter k : Decimal) → diameter.nano ≡ pos 12000000000 → k.nano ≡ pos 100000000000
        → ValveLossAtMost true diameter k 1 27932482887 10000000000000 }
    ensures above { (diameter k : Decimal) → diameter.nano ≡ pos 12000000000 → k.nano ≡ pos 100000000000
        → ValveLossAtLeast true diameter k 1 27932482888 10000000000000 }
{}

/// A valve of 304.8 mm, at 1000000000007 head ticks.
pub fn valve_metres()
    ensures below { (diameter k : Decimal) → diameter.nano ≡ pos 304800000000 → k.nano ≡ pos 2500000000
        → ValveLossAtMost false diameter k 1 55864965775 1000000000007 }
    ensures above { (diameter k : Decimal) → diameter.nano ≡ pos 304800000000 → k.nano ≡ pos 2500000000
        → ValveLossAtLeast false diameter k 1 55864965776 1000000000007 }
{}

/// A pump with a curve of three points, at a driving difference of 10000000000000 head ticks.
pub fn pump_three_points()
    ensures below { (flow drop : Decimal) → flow.nano ≡ pos 600000000000 → drop.nano ≡ pos 63000000001
        → loss_at_most (Pump flow drop 1 Gpm) 1 7463613063 10000000000000 }
    ensures above { (flow drop : Decimal) → flow.nano ≡ pos 600000000000 → drop.nano ≡ pos 63000000001
        → loss_at_least (Pump flow drop 1 Gpm) 1 7463613064 10000000000000 }
{}

/// A pump with a curve of one point, which loses a third of its drop, at a driving difference of 123456789012345 head
/// ticks.
pub fn pump_one_point()
    ensures below { (flow drop : Decimal) → flow.nano ≡ pos 25000000000 → drop.nano ≡ pos 40000000000
        → loss_at_most (Pump flow drop 3 Lps) 1 20784609597 123456789012345 }
    ensures above { (flow drop : Decimal) → flow.nano ≡ pos 25000000000 → drop.nano ≡ pos 40000000000
        → loss_at_least (Pump flow drop 3 Lps) 1 20784609598 123456789012345 }
{}

/// An emitter whose coefficient is given for a pressure of one pound a square inch.
pub fn emitter_pounds()
    ensures below { (coefficient : Decimal) → coefficient.nano
        ≡ pos 12345000000
        → loss_at_most (Emitter coefficient Gpm) 1 2537193436 100000000000000 }
    ensures above { (coefficient : Decimal) → coefficient.nano
        ≡ pos 12345000000
        → loss_at_least (Emitter coefficient Gpm) 1 2537193437 100000000000000 }
{}

/// An emitter whose coefficient is given for a pressure of one metre.
pub fn emitter_metres()
    ensures below { (coefficient : Decimal) → coefficient.nano
        ≡ pos 500000000
        → loss_at_most (Emitter coefficient Lps) 1 2555746466 350000000000000 }
    ensures above { (coefficient : Decimal) → coefficient.nano
        ≡ pos 500000000
        → loss_at_least (Emitter coefficient Lps) 1 2555746467 350000000000000 }
{}

/// A demand that is driven by pressure, the pressures in pounds a square inch.
pub fn demand_pounds()
    ensures below { (minimum required : Decimal) → minimum.nano ≡ pos 5000000000 → required.nano ≡ pos 20000000000
        → loss_at_most (PressureDemand (pos 5451000000) minimum required true) 1 5306612988 100000000000000 }
    ensures above { (minimum required : Decimal) → minimum.nano ≡ pos 5000000000 → required.nano ≡ pos 20000000000
        → loss_at_least (PressureDemand (pos 5451000000) minimum required true) 1 5306612989 100000000000000 }
{}

/// A demand that is driven by pressure, the pressures in metres.
pub fn demand_metres()
    ensures below { (minimum required : Decimal) → minimum.nano ≡ pos 0 → required.nano ≡ pos 15000000000
        → loss_at_most (PressureDemand (pos 864000000) minimum required false) 1 669251522 90000000000000 }
    ensures above { (minimum required : Decimal) → minimum.nano ≡ pos 0 → required.nano ≡ pos 15000000000
        → loss_at_least (PressureDemand (pos 864000000) minimum required false) 1 669251523 90000000000000 }
{}
