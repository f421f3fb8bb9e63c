//! What edges and words for a spread say of every assignment of the first period of every network within it, at every
//! scale; that there is one word; and what they are without a spread. Each statement is the contract of a small
//! function.
#![tactic(auto)]

ghost use Rattle.std.specs.Prelude.{◌↔◌, ◌≡◌, ◌≢◌, ◌<◌, ◌≤ℤ◌, ℕ, ℤ};
ghost use Rattle.hyd_num.specs.Rational.{Rational};
ghost use Rattle.hyd_net.specs.Sound.{IsSound};
ghost use Rattle.hyd_spec.specs.ProgramTypes.{Project};
ghost use Rattle.hyd_spec.specs.NodeNumbers.{junction_count};
ghost use Rattle.hyd_spec.specs.Assignment.{Assignment};
ghost use Rattle.hyd_spec_certificates.specs.declared.Side.TheVariants.{Upper, Lower};
ghost use Rattle.hyd_spec_certificates.specs.PeriodNetwork.{Grid};
ghost use Rattle.hyd_spec_pressure_targets.specs.declared.Edge.{Edge};
ghost use Rattle.hyd_spec_pressure_targets.specs.declared.Bracket.{Bracket};
ghost use Rattle.hyd_spec_pressure_targets.specs.declared.ClosureWord.{ClosureWord};
ghost use Rattle.hyd_spec_pressure_targets.specs.declared.ClosureWord.TheVariants.{RoundsSpent as WordSpent};
ghost use Rattle.hyd_spec_pressure_targets.specs.TargetHeads.{target_low, target_high};
ghost use Rattle.hyd_spec_pressure_targets.specs.FirstPeriod.{IsFirstDrawing, IsFirstWithShut};
ghost use Rattle.hyd_spec_pressure_targets.specs.FirstPeriod.{IsFirstGrid, IsFirstGridWithShut};
ghost use Rattle.hyd_spec_pressure_targets.specs.BracketOfDraws.{IsEdge, IsBracket, IsEnough, IsTooMuch};
ghost use Rattle.hyd_spec_pressure_targets.specs.ClosureWords.{IsWord};
ghost use Rattle.hyd_spec_spread.specs.Spreads.{Spread, IsSpread, no_spread};
ghost use Rattle.hyd_spec_spread_runs.specs.OutermostPairs.{Pair};
ghost use Rattle.hyd_spec_spread_runs.specs.RunsForSpreads.{StartIsDecided};
ghost use Rattle.hyd_spec_spread_targets.specs.FirstPeriodWithin.{IsFirstPair, IsFirstPairWithShut};
ghost use Rattle.hyd_spec_spread_targets.specs.FirstPeriodWithin.{IsFirstDrawingWithin, IsFirstWithShutWithin};
ghost use Rattle.hyd_spec_spread_targets.specs.BracketsOverPairs.{IsBracketOver, IsEnoughWithin, IsTooMuchWithin};
ghost use Rattle.hyd_spec_spread_targets.specs.WordsOverPairs.{IsWordOver, WordHoldsWithin};
ghost use Rattle.hyd_theorems_on_definitions.specs.SoundLawsAndGrids.{IsSteady};

/// With each draw up to the edge by LOWER vectors of the LOWER grid the pressure is above the target, and with each
/// from the edge by UPPER vectors of the UPPER grid on below it, in every assignment of the first period of every
/// network within the spread with that draw. What the spread allows at the start leaves no doubt about states.
pub fn available_flow()
    ensures enough { (project : Project) → IsSound project → (spread : Spread) → StartIsDecided project spread
        → (pair : Pair) → IsFirstPair project spread pair
        → (place rounds : ℕ) (elevation : ℤ) (target : Rational) → 0 < target.den → (edge : Edge)
        → IsEdge pair.lower Lower (record { junction = place; head = target_high elevation target }) rounds edge
        → IsEnoughWithin project spread place elevation target edge }
    ensures too_much { (project : Project) → IsSound project → (spread : Spread) → StartIsDecided project spread
        → (pair : Pair) → IsFirstPair project spread pair
        → (place rounds : ℕ) (elevation : ℤ) (target : Rational) → 0 < target.den → (edge : Edge)
        → IsEdge pair.upper Upper (record { junction = place; head = target_low elevation target }) rounds edge
        → IsTooMuchWithin project spread place elevation target edge }
{}

/// A word holds in every assignment of the first period of every network within the spread with that pipe shut: SAFE by
/// a LOWER certificate of the LOWER grid, LOW by an UPPER certificate of the UPPER grid, the pipe shut in both.
pub fn closures()
    ensures { (project : Project) → IsSound project → (spread : Spread) → StartIsDecided project spread
        → (pipe : ℕ) (pair : Pair) → IsFirstPairWithShut project spread pipe pair
        → (j : ℕ) → j < junction_count project → (elevation : ℤ) (target : Rational) → 0 < target.den
        → (rounds : ℕ) (word : ClosureWord)
        → IsWordOver pair rounds j (target_low elevation target) (target_high elevation target) word
        → WordHoldsWithin project spread pipe j elevation target word }
{}

/// A junction has one word for the two grids of a pipe that is shut, but where rounds are spent. The UPPER grid has
/// sound laws, as nets have.
pub fn words()
    ensures { (project : Project) → IsSound project → (spread : Spread) → IsSpread project spread
        → (pipe : ℕ) (pair : Pair) → IsFirstPairWithShut project spread pipe pair → IsSteady pair.upper
        → (j : ℕ) → j < junction_count project → (low high : ℤ) → low ≤ℤ high → (r s : ℕ) (a b : ClosureWord)
        → a ≢ WordSpent → b ≢ WordSpent → IsWordOver pair r j low high a → IsWordOver pair s j low high b → a ≡ b }
{}

/// The file's own network is one within each spread of it: each assignment of its first period with a draw, or with a
/// pipe shut, is one within the spread; so what edges say for the spread they say of it.
pub fn own_network()
    ensures drawing { (project : Project) → IsSound project → (spread : Spread) → IsSpread project spread
        → (S place : ℕ) (q : ℤ) (assignment : Assignment) → IsFirstDrawing project S place q assignment
        → IsFirstDrawingWithin project spread S place q assignment }
    ensures with_shut { (project : Project) → IsSound project → (spread : Spread) → IsSpread project spread
        → (S pipe : ℕ) (assignment : Assignment) → IsFirstWithShut project S pipe assignment
        → IsFirstWithShutWithin project spread S pipe assignment }
    ensures enough { (project : Project) → IsSound project → (spread : Spread) → IsSpread project spread
        → (place : ℕ) (elevation : ℤ) (target : Rational) (edge : Edge)
        → IsEnoughWithin project spread place elevation target edge → IsEnough project place elevation target edge }
    ensures too_much { (project : Project) → IsSound project → (spread : Spread) → IsSpread project spread
        → (place : ℕ) (elevation : ℤ) (target : Rational) (edge : Edge)
        → IsTooMuchWithin project spread place elevation target edge → IsTooMuch project place elevation target edge }
{}

/// Without a spread the outermost grids of the first period are grids of the file's network, with a pipe shut too; the
/// assignments within are those of the file's network; with one grid on both sides a bracket and a word for the pair
/// are those of the grid; and what edges say within no spread they say of the file's network.
pub fn without_spread()
    ensures pairs { (project : Project) → IsSound project → (pair : Pair) → IsFirstPair project no_spread pair
        ↔ (IsFirstGrid project pair.upper × IsFirstGrid project pair.lower) }
    ensures shut_pairs { (project : Project) → IsSound project → (pipe : ℕ) (pair : Pair)
        → IsFirstPairWithShut project no_spread pipe pair
        ↔ (IsFirstGridWithShut project pipe pair.upper × IsFirstGridWithShut project pipe pair.lower) }
    ensures drawing { (project : Project) → IsSound project → (S place : ℕ) (q : ℤ) (assignment : Assignment)
        → IsFirstDrawingWithin project no_spread S place q assignment ↔ IsFirstDrawing project S place q assignment }
    ensures with_shut { (project : Project) → IsSound project → (S pipe : ℕ) (assignment : Assignment)
        → IsFirstWithShutWithin project no_spread S pipe assignment ↔ IsFirstWithShut project S pipe assignment }
    ensures brackets { (grid : Grid) (place : ℕ) (low high : ℤ) (rounds : ℕ) (bracket : Bracket)
        → IsBracketOver (record { upper = grid; lower = grid }) place low high rounds bracket
        ↔ IsBracket grid place low high rounds bracket }
    ensures words { (grid : Grid) (rounds j : ℕ) (low high : ℤ) (word : ClosureWord)
        → IsWordOver (record { upper = grid; lower = grid }) rounds j low high word
        ↔ IsWord grid rounds j low high word }
    ensures enough { (project : Project) → IsSound project → (place : ℕ) (elevation : ℤ) (target : Rational)
        (edge : Edge) → IsEnoughWithin project no_spread place elevation target edge
        ↔ IsEnough project place elevation target edge }
    ensures too_much { (project : Project) → IsSound project → (place : ℕ) (elevation : ℤ) (target : Rational)
        (edge : Edge) → IsTooMuchWithin project no_spread place elevation target edge
        ↔ IsTooMuch project place elevation target edge }
{}
