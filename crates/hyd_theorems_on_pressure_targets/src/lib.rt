//! What edges and words say of every assignment of the first period, at every scale, and that there is one of each.
//! Each statement is the contract of a small function.
#![tactic(auto)]

ghost use Rattle.std.specs.Prelude.{◌≡◌, ◌≢◌, ◌<◌, ◌≤ℤ◌, ◌<ℤ◌, ℕ, ℤ, List, length};
ghost use Rattle.hyd_num.specs.Rational.{Rational};
ghost use Rattle.hyd_net.specs.Sound.{IsSound};
ghost use Rattle.hyd_spec.specs.ProgramTypes.{Project};
ghost use Rattle.hyd_spec.specs.NodeNumbers.{junction_count};
ghost use Rattle.hyd_spec.specs.Scale.{at_scale};
ghost use Rattle.hyd_spec.specs.Assignment.{Assignment, head_at};
ghost use Rattle.hyd_spec_certificates.specs.declared.Problem.TheVariants.{Main};
ghost use Rattle.hyd_spec_certificates.specs.declared.Side.{Side};
ghost use Rattle.hyd_spec_certificates.specs.declared.Side.TheVariants.{Upper, Lower};
ghost use Rattle.hyd_spec_certificates.specs.declared.HeldJunction.{HeldJunction};
ghost use Rattle.hyd_spec_certificates.specs.PeriodNetwork.{Grid};
ghost use Rattle.hyd_spec_certificates.specs.Certificate.{IsTight};
ghost use Rattle.hyd_spec_pressure_targets.specs.declared.Edge.{Edge};
ghost use Rattle.hyd_spec_pressure_targets.specs.declared.Edge.TheVariants.{RoundsSpent as EdgeSpent};
ghost use Rattle.hyd_spec_pressure_targets.specs.declared.ClosureWord.{ClosureWord};
ghost use Rattle.hyd_spec_pressure_targets.specs.declared.ClosureWord.TheVariants.{RoundsSpent as WordSpent};
ghost use Rattle.hyd_spec_pressure_targets.specs.TargetHeads.{target_low, target_high, IsAboveTarget, IsBelowTarget};
ghost use Rattle.hyd_spec_pressure_targets.specs.FirstPeriod.{IsFirstGrid, IsFirstGridWithShut, IsFirstWithShut};
ghost use Rattle.hyd_spec_pressure_targets.specs.BracketOfDraws.{IsEdge, IsEnough, IsTooMuch};
ghost use Rattle.hyd_spec_pressure_targets.specs.ClosureWords.{IsShownSafe, IsShownLow, IsWord, WordHolds};
ghost use Rattle.hyd_theorems_on_definitions.specs.SoundLawsAndGrids.{IsSteady, TanksInOrder};

/// A head beyond the whole ticks around a target tells on which side of the target the pressure is.
pub fn targets()
    ensures above { (S : ℕ) (elevation : ℤ) (target : Rational) (h : ℤ) → 0 < target.den
        → at_scale S (target_high elevation target) <ℤ h → IsAboveTarget S elevation target h }
    ensures below { (S : ℕ) (elevation : ℤ) (target : Rational) (h : ℤ) → 0 < target.den
        → h <ℤ at_scale S (target_low elevation target) → IsBelowTarget S elevation target h }
{}

/// With each draw up to the edge by LOWER vectors the pressure is above the target, and with each from the edge by UPPER
/// vectors on below it, in every assignment of the first period with that draw.
pub fn available_flow()
    ensures enough { (project : Project) → IsSound project → (grid : Grid) → IsFirstGrid project grid
        → (place rounds : ℕ) (elevation : ℤ) (target : Rational) → 0 < target.den → (edge : Edge)
        → IsEdge grid Lower (record { junction = place; head = target_high elevation target }) rounds edge
        → IsEnough project place elevation target edge }
    ensures too_much { (project : Project) → IsSound project → (grid : Grid) → IsFirstGrid project grid
        → (place rounds : ℕ) (elevation : ℤ) (target : Rational) → 0 < target.den → (edge : Edge)
        → IsEdge grid Upper (record { junction = place; head = target_low elevation target }) rounds edge
        → IsTooMuch project place elevation target edge }
{}

/// A word holds in every assignment of the first period with that pipe shut.
pub fn closures()
    ensures { (project : Project) → IsSound project → (pipe : ℕ) (grid : Grid) → IsFirstGridWithShut project pipe grid
        → (rounds j : ℕ) (elevation : ℤ) (target : Rational) → 0 < target.den → (word : ClosureWord)
        → IsWord grid rounds j (target_low elevation target) (target_high elevation target) word
        → (S : ℕ) (assignment : Assignment) → IsFirstWithShut project S pipe assignment → j < junction_count project
        → WordHolds S elevation target (head_at assignment.heads j) word }
{}

/// What some certificate shows, the tight vector shows. And a junction has one word, but where rounds are spent.
pub fn words()
    ensures safe { (grid : Grid) (j : ℕ) (high : ℤ) (u : List ℤ) → IsTight grid Main Lower u
        → j < length grid.junctions → IsShownSafe grid j high → high ≤ℤ head_at u j }
    ensures low { (grid : Grid) (j : ℕ) (low : ℤ) (u : List ℤ) → IsTight grid Main Upper u
        → j < length grid.junctions → IsShownLow grid j low → head_at u j ≤ℤ low }
    ensures one { (grid : Grid) → IsSteady grid → TanksInOrder grid → (j : ℕ) (low high : ℤ)
        → j < length grid.junctions → low ≤ℤ high → (r s : ℕ) (a b : ClosureWord)
        → a ≢ WordSpent → b ≢ WordSpent → IsWord grid r j low high a → IsWord grid s j low high b → a ≡ b }
{}

/// A held junction has one edge on a side, but where rounds are spent.
pub fn edges()
    ensures { (grid : Grid) (side : Side) (held : HeldJunction) (r s : ℕ) (a b : Edge)
        → a ≢ EdgeSpent → b ≢ EdgeSpent → IsEdge grid side held r a → IsEdge grid side held s b → a ≡ b }
{}
