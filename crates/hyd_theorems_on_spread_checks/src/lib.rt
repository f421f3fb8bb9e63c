//! A check for a spread never refuses the certificate of a run for it with a slack, and what such a run tells is one. A
//! text of version 4 has one answer and one report when it is checked for a spread. The statements on the way stand
//! before these, each the contract of a small function.
#![tactic(auto)]

ghost use Rattle.std.specs.Prelude.{◌≡◌, ℕ, List, ◌∷◌, ◌++◌};
ghost use Rattle.hyd_net.specs.Sound.{IsSound};
ghost use Rattle.hyd_spec.specs.ProgramTypes.{Project};
ghost use Rattle.hyd_spec_reports.specs.PromisesOfRunsAndChecks.{Sharpness, Outcome};
ghost use Rattle.hyd_spec_open_ends.specs.OpenStandings.{OpenStanding, OpenRecord};
ghost use Rattle.hyd_spec_check_ends.specs.declared.CheckEnd.{CheckEnd};
ghost use Rattle.hyd_spec_spread.specs.Spreads.{Spread};
ghost use Rattle.hyd_spec_spread_runs.specs.OutermostPairs.{Pair};
ghost use Rattle.hyd_spec_open_spreads.specs.OpenRunsForSpreads.{IsValidOpenlyOver, OpenFoundOver, IsOpenRunOver};
ghost use Rattle.hyd_spec_spread_reports.specs.ClaimsWithinSpreads.{ReportedOver, AreReportsOver, periods_over};
ghost use Rattle.hyd_spec_spread_promises.specs.PromisesOfSpreadRuns.{RunTellsOver, rows_over};
ghost use Rattle.hyd_spec_spread_promises.specs.PromisesOfSpreadChecks.{CheckTellsOver, CheckRefusalOver};
ghost use Rattle.hyd_spec_spread_promises.specs.PromisesOfSpreadChecks.{CheckEndsOver};
ghost use Rattle.hyd_theorems_on_spread_checks.specs.CertificatesOfSpreadRuns.{IsCertificateOfRunOver};

/// What is found of a record that is valid for a spread at a standing is one. Two runs for a spread with the same
/// records are the same whatever their slacks, and leave the same standing; their periods have the same reports. Where
/// a run goes on behind the records of another one, its next record is valid at the standing that the other leaves.
pub fn runs()
    ensures found { (project : Project) (spread : Spread) (a b : OpenFoundOver) → a.standing ≡ b.standing
        → a.found ≡ b.found → IsValidOpenlyOver project spread a.standing a.pair a.found a.next
        → IsValidOpenlyOver project spread b.standing b.pair b.found b.next → a ≡ b }
    ensures one { (project : Project) (spread : Spread) (slack other_slack : ℕ) (a b : List OpenFoundOver)
        (last other : OpenStanding) → IsOpenRunOver project spread slack a last
        → IsOpenRunOver project spread other_slack b other → rows_over a ≡ rows_over b → (a ≡ b) × (last ≡ other) }
    ensures next { (project : Project) (spread : Spread) (slack other_slack : ℕ) (a b : List OpenFoundOver)
        (found : OpenRecord) (rows : List OpenRecord) (last other : OpenStanding)
        → IsOpenRunOver project spread slack a last → IsOpenRunOver project spread other_slack b other
        → rows_over b ≡ rows_over a ++ (found ∷ rows)
        → (pair : Pair) × (next : OpenStanding) × IsValidOpenlyOver project spread last pair found next }
    ensures reports { (project : Project) (a b : List ReportedOver) → AreReportsOver project a
        → AreReportsOver project b → periods_over a ≡ periods_over b → a ≡ b }
{}

/// What a run for a spread tells is the certificate of a run for it, and so is what a check for the spread accepts.
pub fn certificates_of_runs()
    ensures told { (project : Project) (spread : Spread) (slack rounds : ℕ) (sharpness : Sharpness) (outcome : Outcome)
        (written printed : List ℕ) → RunTellsOver project spread slack rounds sharpness outcome written printed
        → IsCertificateOfRunOver project spread written }
    ensures accepted { (project : Project) (spread : Spread) (text printed : List ℕ)
        → CheckTellsOver project spread text printed → IsCertificateOfRunOver project spread text }
{}

/// A check for a spread never refuses the certificate of a run for it with a slack: not by its lines, not by its
/// counts, not by a record, and not by its END line.
pub fn refusals()
    ensures { (project : Project) (spread : Spread) (text : List ℕ) → IsCertificateOfRunOver project spread text
        → (printed : List ℕ) → CheckRefusalOver project spread text printed → ⊥ }
{}

/// Checks of one text for one spread that come to their end end in one way, and by a sound network they print one
/// report, also where they refuse it.
pub fn one_report()
    ensures end { (project : Project) (spread : Spread) (text printed other : List ℕ) (a b : CheckEnd)
        → CheckEndsOver project spread text printed a → CheckEndsOver project spread text other b → a ≡ b }
    ensures report { (project : Project) → IsSound project → (spread : Spread) (text printed other : List ℕ)
        (a b : CheckEnd) → CheckEndsOver project spread text printed a → CheckEndsOver project spread text other b
        → printed ≡ other }
{}
