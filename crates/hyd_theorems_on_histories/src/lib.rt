//! Every history of a sound network agrees with every run of valid records: heads, lengths, states of tanks and
//! links, and every line of every report, at every scale. The statements on the way to it stand before it, each the
//! contract of a small function.
#![tactic(auto)]

ghost use Rattle.std.specs.Prelude.{◌≡◌, ◌≢◌, ◌<◌, ◌+◌, ℕ, ℤ, false, List, Bool};
ghost use Rattle.std.specs.List.{list_any, AllZip};
ghost use Rattle.hyd_num.specs.PrintedDecimals.{head_quantity, pressure_quantity, flow_quantity};
ghost use Rattle.hyd_num.specs.declared.flow_units.FlowUnit.{FlowUnit};
ghost use Rattle.hyd_net.specs.Sound.{IsSound};
ghost use Rattle.hyd_net.specs.ControlsAndRules.{Compares};
ghost use Rattle.hyd_spec.specs.ProgramTypes.{Project, Clause, LinkState};
ghost use Rattle.hyd_spec.specs.PumpPatternsAndSimpleControls.{started};
ghost use Rattle.hyd_spec.specs.Rules.{Readings, clause_holds, rule_changes, acted};
ghost use Rattle.hyd_spec.specs.PeriodLength.{Period, readings_after, values_at, EndsByLevel, HasItsLength};
ghost use Rattle.hyd_spec.specs.History.{commanded_after, initial_levels, initial_volumes, initial_links, Begins};
ghost use Rattle.hyd_spec.specs.History.{IsPeriod, AreNextStocks};
ghost use Rattle.hyd_spec_certificates.specs.Interval.{Interval};
ghost use Rattle.hyd_spec_certificates.specs.PeriodNetwork.{Grid};
ghost use Rattle.hyd_spec_certificates.specs.RecordAndStanding.{Record, Standing, initial_standing};
ghost use Rattle.hyd_spec_certificates.specs.ThreeValuedLogic.{at_both_ends, is_unknown};
ghost use Rattle.hyd_spec_certificates.specs.Decided.{readings_below, readings_above, rule_truths, decided_changes};
ghost use Rattle.hyd_spec_certificates.specs.Decided.{SomeMayReach, SomeMustReach};
ghost use Rattle.hyd_spec_certificates.specs.Valid.{LeavesLinks, IsValid, Continues};
ghost use Rattle.hyd_spec_certificates.specs.PrintedIntervals.{Prints, LiesBetween, at_part};
ghost use Rattle.hyd_theorems_on_definitions.specs.LyingInIntervals.{LiesIn};
ghost use Rattle.hyd_theorems_on_definitions.specs.VerdictsOfTests.{Tells};
ghost use Rattle.hyd_theorems_on_histories.specs.Agreement.{AreBetween, IsUnder, AgreesWith, IsOwnState, IsKept};

// ---- printed values

/// The printed ends of an interval enclose each of its values, at every scale.
pub fn printed_values()
    ensures heads { (us : Bool) (S : ℕ) (interval ends : Interval) (z : ℤ) → Prints (head_quantity us) interval ends
        → LiesIn S interval z → LiesBetween ends (at_part S (head_quantity us) z) }
    ensures pressures { (us : Bool) (S : ℕ) (interval ends : Interval) (z : ℤ)
        → Prints (pressure_quantity us) interval ends
        → LiesIn S interval z → LiesBetween ends (at_part S (pressure_quantity us) z) }
    ensures flows { (unit : FlowUnit) (S : ℕ) (interval ends : Interval) (z : ℤ)
        → Prints (flow_quantity unit) interval ends
        → LiesIn S interval z → LiesBetween ends (at_part S (flow_quantity unit) z) }
{}

// ---- a period under a record

/// What the rules look at in a period lies between what the record's ends give, and a clause that both ends decide is
/// decided so between them.
pub fn readings()
    ensures lie { (project : Project) (S : ℕ) (period : Period) (grid : Grid) (standing : Standing) (row : Record)
        → IsUnder project S period grid standing row → (seconds : ℕ)
        → AreBetween project S (readings_below project grid standing row seconds)
        (readings_after project S period seconds) (readings_above project grid standing row seconds) }
    ensures clauses { (project : Project) (S time : ℕ) (below x above : Readings) (clause : Clause) → 0 < S
        → Compares clause.what clause.relation → AreBetween project S below x above
        → Tells (at_both_ends (clause_holds project 1 time below clause) (clause_holds project 1 time above clause))
        (clause_holds project S time x clause) }
{}

/// Where no rule is open, the rules change what the record decides.
pub fn changes()
    ensures { (project : Project) → IsSound project → (S : ℕ) (period : Period) (grid : Grid) (standing : Standing)
        (row : Record)
        → IsUnder project S period grid standing row → (seconds instant : ℕ) → instant ≡ standing.time + seconds
        → list_any is_unknown (rule_truths project grid standing row seconds) ≡ false
        → decided_changes project grid standing row seconds ≡ rule_changes project (values_at project S period instant)
        period.links }
{}

/// Where a level ends a period, some watched level may have reached its target, and where one must have, a level
/// ends it.
pub fn levels()
    ensures may { (project : Project) (S : ℕ) (period : Period) (grid : Grid) (standing : Standing) (row : Record)
        → IsUnder project S period grid standing row → (seconds : ℕ) → EndsByLevel project S period seconds
        → SomeMayReach project grid standing row seconds }
    ensures must { (project : Project) (S : ℕ) (period : Period) (grid : Grid) (standing : Standing) (row : Record)
        → IsUnder project S period grid standing row → (seconds : ℕ) → SomeMustReach project grid standing row seconds
        → EndsByLevel project S period seconds }
{}

/// A period that isn't the last lasts as long as the record decides, and leaves the links commanded as it decides.
pub fn lengths()
    ensures { (project : Project) → IsSound project → (S : ℕ) (period : Period) (grid : Grid) (standing : Standing)
        (row : Record)
        → IsUnder project S period grid standing row → standing.time ≢ project.times.duration
        → HasItsLength project S period
        → (seconds : ℕ) (links : List LinkState) → LeavesLinks project grid standing row seconds links
        → (period.length ≡ seconds) × (commanded_after project S period ≡ links) }
{}

// ---- from period to period

/// Pump patterns, controls and rules leave each link in a state of its own.
pub fn commands()
    ensures starts { (project : Project) → IsSound project
        → (time : ℕ) (acts : ℕ → Bool → ℤ → Bool) (states : List LinkState)
        → AllZip (IsOwnState project) project.links.list states
        → AllZip (IsOwnState project) project.links.list (started project time acts states) }
    ensures acts { (project : Project) → IsSound project → (values : List Bool) (states : List LinkState)
        → AllZip (IsOwnState project) project.links.list states
        → AllZip (IsOwnState project) project.links.list (acted project values states) }
{}

/// The first standing of a run keeps what standings keep, and where a record leads on from one that does, so does the
/// next.
pub fn kept()
    ensures start { (project : Project) → IsSound project → IsKept project (initial_standing project) }
    ensures next { (project : Project) → IsSound project → (grid : Grid) (standing : Standing) (row : Record)
        (next : Standing)
        → IsKept project standing → Continues project grid standing row next → IsKept project next }
{}

/// Histories agree with the first standing where they begin. Where one agrees with a standing and a record is valid
/// there, the period is under the record, and where the record leads on, the history agrees with the next standing at
/// the period's end.
pub fn steps()
    ensures start { (project : Project) (S : ℕ) → 0 < S
        → AgreesWith project S (initial_standing project) 0 (initial_levels project S) (initial_volumes project S)
        (initial_links project) }
    ensures under { (project : Project) → IsSound project → (S : ℕ) → 0 < S
        → (grid : Grid) (standing : Standing) (row : Record)
        (next : Standing) → IsKept project standing → IsValid project standing grid row next
        → (time : ℕ) (levels volumes : List ℤ) (commanded : List LinkState)
        → AgreesWith project S standing time levels volumes commanded
        → (period : Period) → Begins project S time levels volumes commanded period → IsPeriod project S period
        → IsUnder project S period grid standing row }
    ensures agrees { (project : Project) → IsSound project → (S : ℕ) → 0 < S
        → (grid : Grid) (standing : Standing) (row : Record)
        (next : Standing) → IsKept project standing → IsValid project standing grid row next
        → (time : ℕ) (levels volumes : List ℤ) (commanded : List LinkState)
        → AgreesWith project S standing time levels volumes commanded
        → (period : Period) → Begins project S time levels volumes commanded period → IsPeriod project S period
        → Continues project grid standing row next
        → (after_levels after_volumes : List ℤ) → AreNextStocks project S period after_levels after_volumes
        → AgreesWith project S next (period.time + period.length) after_levels after_volumes
        (commanded_after project S period) }
{}
