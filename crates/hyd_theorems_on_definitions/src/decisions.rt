//! What the ends of intervals decide.
#![tactic(auto)]

ghost use Rattle.std.specs.Prelude.{◌≡◌, ◌<◌, ◌≤◌, ◌⊎◌, ℕ, ℤ, Bool, true, List, map};
ghost use Rattle.std.specs.List.{AllByRecursion, list_any, list_all};
ghost use Rattle.hyd_num.specs.Rational.{Rational, whole};
ghost use Rattle.hyd_spec.specs.ProgramTypes.{Project, Tank, Clause, Relation};
ghost use Rattle.hyd_spec_certificates.specs.Interval.{Interval};
ghost use Rattle.hyd_spec.specs.Tank.{Walls, Stock, reaches, has_reached};
ghost use Rattle.hyd_spec.specs.PeriodLength.{IsLeast};
ghost use Rattle.hyd_spec_certificates.specs.PeriodNetwork.{Grid};
ghost use Rattle.hyd_spec_certificates.specs.RecordAndStanding.{Record, Standing};
ghost use Rattle.hyd_spec.specs.Rules.{compares};
ghost use Rattle.hyd_spec_certificates.specs.Stocks.{Stocks, may_reach, must_reach};
ghost use Rattle.hyd_spec_certificates.specs.declared.Verdict.{Verdict};
ghost use Rattle.hyd_spec_certificates.specs.ThreeValuedLogic.{at_both_ends, some_holds, all_hold};
ghost use Rattle.hyd_spec_certificates.specs.Decided.{control_truth, SomeReaches, IsClockLength};
ghost use Rattle.hyd_theorems_on_definitions.specs.LyingInIntervals.{LiesIn, StockLies};
ghost use Rattle.hyd_theorems_on_definitions.specs.SoundTanks.{IsVessel};
ghost use Rattle.hyd_theorems_on_definitions.specs.ReachedFirst.{SomeReachesFirst};
ghost use Rattle.hyd_theorems_on_definitions.specs.ReachedFirst.{NoneReachesBefore};
ghost use Rattle.hyd_theorems_on_definitions.specs.VerdictsOfTests.{IsAtMost};
ghost use Rattle.hyd_theorems_on_definitions.specs.VerdictsOfTests.{IsOneWay, Tells};

/// A comparison or a level control that both ends of an interval decide is decided so at each
/// point between them.
pub fn comparisons()
    ensures values { (relation : Relation) (lo x hi amount : Rational) → IsOneWay relation → 0 < lo.den → 0 < x.den
        → 0 < hi.den
        → IsAtMost lo x → IsAtMost x hi
        → Tells (at_both_ends (compares relation lo amount) (compares relation hi amount))
        (compares relation x amount) }
    ensures controls { (S : ℕ) (level : Interval) (above : Bool) (ticks z : ℤ) → 0 < S → LiesIn S level z
        → Tells (control_truth level above ticks) (reaches S above ticks (whole z)) }
{}

/// A tank that has reached its target may have, and one that must have has.
pub fn events()
    ensures may { (S : ℕ) (walls : Walls) (tank : Tank) (stocks : Stocks) (inflow : Interval) (target : ℤ)
        (rising : Bool)
        (seconds : ℕ) (stock : Stock) (q : ℤ) → 0 < S → IsVessel walls tank → StockLies S stocks stock
        → LiesIn S inflow q
        → has_reached S walls tank stock q rising target seconds ≡ true
        → may_reach walls tank stocks inflow target rising seconds ≡ true }
    ensures must { (S : ℕ) (walls : Walls) (tank : Tank) (stocks : Stocks) (inflow : Interval) (target : ℤ)
        (rising : Bool)
        (seconds : ℕ) (stock : Stock) (q : ℤ) → 0 < S → IsVessel walls tank → StockLies S stocks stock
        → LiesIn S inflow q
        → must_reach walls tank stocks inflow target rising seconds ≡ true
        → has_reached S walls tank stock q rising target seconds ≡ true }
{}

/// The earliest (latest) end of a period is the least of the length that the clock allows and of the earliest
/// (latest) first seconds of the watched levels, one by one, with that length as cap: for the test of levels that
/// may, or must, have reached their targets.
pub fn ends()
    ensures { (test : Walls → Tank → Stocks → Interval → ℤ → Bool → ℕ → Bool) (project : Project) (grid : Grid)
        (standing : Standing) (row : Record) (cap : ℕ) → IsClockLength project standing.time cap
        → (second : ℕ) → NoneReachesBefore test project grid standing row cap second
        → (second ≡ cap) ⊎ SomeReachesFirst test project grid standing row cap second
        → IsLeast (λ s. IsClockLength project standing.time s
        ⊎ ((1 ≤ s) × SomeReaches test project grid standing row s)) second }
{}

/// Where the truth of each clause tells whether it holds, the truth of a rule tells whether the
/// rule does.
pub fn rules()
    ensures { (truth : Clause → Verdict) (test : Clause → Bool) (groups : List (List Clause))
        → AllByRecursion (AllByRecursion (λ (c : Clause). Tells (truth c) (test c))) groups
        → Tells (all_hold (map (λ group. some_holds (map truth group)) groups)) (list_all (list_any test) groups) }
{}
