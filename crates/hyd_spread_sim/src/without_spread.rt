//! Runs without a spread.
#![tactic(auto)]

ghost use Rattle.std.specs.Prelude.{◌≡◌, true};
ghost use Rattle.hyd_net.specs.Sound.{IsSound};
ghost use Rattle.hyd_spec.specs.ProgramTypes.{Project};
ghost use Rattle.hyd_spec_certificates.specs.RecordAndStanding.{Standing};
ghost use Rattle.hyd_spec_spread.specs.Spreads.{Spread};
ghost use Rattle.hyd_spec_spread_reports.specs.TextsOfSpreadReports.{says_nothing};
ghost use Rattle.hyd_spec_spread_runs.specs.OutermostPairs.{Pair};
ghost use Rattle.hyd_spec_spread_runs.specs.RunsForSpreads.{ArePairAt};
ghost use Rattle.hyd_spread_rows.specs.SpreadsRead.{spread_of};

use hyd_spread_rows::SpreadRows;

/// Whether a spread says nothing of any node: there is none.
pub(crate) fn says_nothing(rows: &SpreadRows) -> bool
    ensures { result ≡ says_nothing (spread_of rows.now) }
{
    rows.demands.is_empty()
        && rows.emitters.is_empty()
        && rows.heads.is_empty()
        && rows.levels.is_empty()
}

/// Then the outermost grids of a period are one.
pub(crate) fn alike_without_spread()
    ensures { (project : Project) → IsSound project → (spread : Spread) → says_nothing spread ≡ true
        → (standing : Standing) (pair : Pair) → ArePairAt project spread standing pair → pair.lower ≡ pair.upper }
{}
