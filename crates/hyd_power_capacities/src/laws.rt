//! Laws of Hazen-Williams losses, and that the flows of a pipe's capacity enclose its exact flow. No function here has
//! a body.
#![tactic(auto)]

ghost use Rattle.std.specs.Prelude.{◌≡◌, ℕ, ◌<◌, ◌≤◌, ◌*◌, ℤ, ◌≤ℤ◌, Bool};
ghost use Rattle.hyd_num.specs.declared.decimals.Decimal.{Decimal};
ghost use Rattle.hyd_num.specs.FileQuantity.{billionths};
ghost use Rattle.hyd_spec_power_laws.specs.declared.power_capacities.PowerCapacity.{PowerCapacity};
ghost use Rattle.hyd_spec_power_laws.specs.EnclosingFlows.{power_low, power_high};
ghost use Rattle.hyd_spec_power_laws.specs.HazenWilliamsLosses.{HazenWilliamsAtMost, HazenWilliamsAtLeast};
ghost use Rattle.hyd_spec_power_laws.specs.PowerCapacities.{IsMade};
ghost use Rattle.hyd_spec_power_laws.specs.WholeFlows.{flow_down, flow_up};

/// A lesser flow loses no more, a greater one no less; a flow that loses at most some head is at most one that loses at
/// least that head; and each flow loses at least 0.
pub fn hazen_williams_losses()
    ensures falls { (us : Bool) (length diameter c minor : Decimal) (S p q y : ℕ) → p ≤ q
        → HazenWilliamsAtMost us length diameter c minor S q y → HazenWilliamsAtMost us length diameter c minor S p y }
    ensures rises { (us : Bool) (length diameter c minor : Decimal) (S p q y : ℕ) → p ≤ q
        → HazenWilliamsAtLeast us length diameter c minor S p y
        → HazenWilliamsAtLeast us length diameter c minor S q y }
    ensures consistent { (us : Bool) (length diameter c minor : Decimal) (S p q y : ℕ) → 0 < S → 0 < billionths length
        → 0 < billionths diameter → HazenWilliamsAtMost us length diameter c minor S p y
        → HazenWilliamsAtLeast us length diameter c minor S q y → p ≤ q }
    ensures without_head { (us : Bool) (length diameter c minor : Decimal) (S q : ℕ)
        → HazenWilliamsAtLeast us length diameter c minor S q 0 }
{}

/// At a head of at least `d` ticks the lower flow at `d` loses at most that head in the pipe, at one of at most `d`
/// ticks the upper flow at least it, both at each scale; and the lower flow is at most the upper one.
pub fn flows_of_pipes()
    ensures below { (capacity : PowerCapacity) (S d y : ℕ) → IsMade capacity → 0 < billionths capacity.pipe.length
        → 0 < billionths capacity.pipe.diameter → S * d ≤ y
        → HazenWilliamsAtMost capacity.pipe.us capacity.pipe.length capacity.pipe.diameter capacity.pipe.coefficient
        capacity.pipe.minor S (S * flow_down capacity.low capacity.minor d) y }
    ensures above { (capacity : PowerCapacity) (S d y : ℕ) → IsMade capacity → 0 < billionths capacity.pipe.length
        → 0 < billionths capacity.pipe.diameter → y ≤ S * d
        → HazenWilliamsAtLeast capacity.pipe.us capacity.pipe.length capacity.pipe.diameter capacity.pipe.coefficient
        capacity.pipe.minor S (S * flow_up capacity.high capacity.minor d) y }
    ensures ordered { (capacity : PowerCapacity) (d : ℤ) → IsMade capacity → 0 < billionths capacity.pipe.length
        → 0 < billionths capacity.pipe.diameter → power_low capacity d ≤ℤ power_high capacity d }
{}

/// A pipe's numbers make one capacity.
pub fn one_capacity()
    ensures { (a b : PowerCapacity) → a.pipe ≡ b.pipe → IsMade a → IsMade b → a ≡ b }
{}
