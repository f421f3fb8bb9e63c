//! Reports of runs for a spread: every line holds of every history within the spread that keeps what it reaches, of the
//! network with the data that each of its periods has. Each statement is the contract of a small function.
#![tactic(auto)]

ghost use Rattle.std.specs.Prelude.{◌≡◌, ◌↔◌, ℕ, List};
ghost use Rattle.hyd_net.specs.Sound.{IsSound};
ghost use Rattle.hyd_spec.specs.ProgramTypes.{Project};
ghost use Rattle.hyd_spec_certificates.specs.PeriodNetwork.{Grid};
ghost use Rattle.hyd_spec_open_ends.specs.OpenStandings.{OpenStanding, OpenRecord};
ghost use Rattle.hyd_spec_open_reports.specs.OpenReportLine.{OpenLine};
ghost use Rattle.hyd_spec_open_reports.specs.OpenReport.{IsOpenReport};
ghost use Rattle.hyd_spec_spread.specs.Spreads.{Spread, IsSpread};
ghost use Rattle.hyd_spec_spread_runs.specs.OutermostPairs.{Pair};
ghost use Rattle.hyd_spec_open_spreads.specs.OpenRunsForSpreads.{IsOpenRunOver};
ghost use Rattle.hyd_spec_spread_reports.specs.SpreadReport.{IsSpreadReport};
ghost use Rattle.hyd_spec_spread_reports.specs.ClaimsWithinSpreads.{ReportedOver, AreReportsOver, periods_over};
ghost use Rattle.hyd_spec_spread_reports.specs.ClaimsWithinSpreads.{EveryLineHoldsWithin};

/// A record has one report over a pair.
pub fn reports()
    ensures { (project : Project) (pair : Pair) (standing : OpenStanding) (found : OpenRecord) (a b : List OpenLine)
        → IsSpreadReport project pair standing found a → IsSpreadReport project pair standing found b → a ≡ b }
{}

/// Each line of the reports of a run for a spread, whatever its slack, holds of every history within the spread that
/// keeps what it reaches, of the period that it is told of and the network that this period has.
pub fn runs()
    ensures { (project : Project) → IsSound project → (spread : Spread) → IsSpread project spread → (slack : ℕ)
        (reports : List ReportedOver) (last : OpenStanding)
        → IsOpenRunOver project spread slack (periods_over reports) last → AreReportsOver project reports
        → EveryLineHoldsWithin project spread reports }
{}

/// With the grid of the network on both sides a record has the report that it has without a spread, and no other.
pub fn without_spread()
    ensures { (project : Project) (grid : Grid) (standing : OpenStanding) (found : OpenRecord) (lines : List OpenLine)
        → IsSpreadReport project (record { upper = grid; lower = grid }) standing found lines
        ↔ IsOpenReport project grid standing found lines }
{}
