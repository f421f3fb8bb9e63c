//! Pipes with Hazen-Williams losses: their laws at each scale are ones that the comparison of heads can use; their
//! capacities are sharp. Each statement is the contract of a small function.
#![tactic(auto)]

ghost use Rattle.std.specs.Prelude.{◌≡◌, ℕ, ◌<◌, ◌*◌, ℤ};
ghost use Rattle.hyd_spec_power_laws.specs.declared.power_capacities.PowerCapacity.{PowerCapacity};
ghost use Rattle.hyd_spec_power_laws.specs.EnclosingFlows.{power_low, power_high};
ghost use Rattle.hyd_spec_power_laws.specs.PowerCapacities.{IsMade};
ghost use Rattle.hyd_spec.specs.Law.{PowerLaw, flow_at_least, flow_at_most};
ghost use Rattle.hyd_spec_pipe_laws.specs.SharpEnds.{IsSharp};
ghost use Rattle.hyd_spec_pipe_laws.specs.FlowsAtScale.{power_low_at, power_high_at, IsPowerInRange};
ghost use Rattle.hyd_theorems_on_definitions.specs.SoundLawsAndGrids.{IsLaw, HasPositivePipe};

/// A capacity that is made of a pipe's numbers is made of ones whose loss rises with the flow, and is sharp.
pub fn pipe_losses()
    ensures numbers { (capacity : PowerCapacity) → IsMade capacity → HasPositivePipe capacity.pipe }
    ensures sharp { (capacity : PowerCapacity) → IsMade capacity → IsSharp capacity }
{}

/// At each scale S the exact flow of a pipe at a head difference of either sign is a law, at the scales that S divides,
/// which the flows of its capacity enclose; at scale 1 the enclosing functions are those of whole ticks, and each
/// capacity is in range.
pub fn pipe_laws_at_scale()
    ensures law { (S : ℕ) (capacity : PowerCapacity) → 0 < S → IsMade capacity
        → IsLaw (λ k. flow_at_least (PowerLaw capacity) (S * k)) (λ k. flow_at_most (PowerLaw capacity) (S * k))
        (power_low_at S capacity) (power_high_at S capacity) }
    ensures low_same { (capacity : PowerCapacity) (d : ℤ) → power_low_at 1 capacity d ≡ power_low capacity d }
    ensures high_same { (capacity : PowerCapacity) (d : ℤ) → power_high_at 1 capacity d ≡ power_high capacity d }
    ensures in_range { (capacity : PowerCapacity) → IsPowerInRange 1 capacity }
{}
