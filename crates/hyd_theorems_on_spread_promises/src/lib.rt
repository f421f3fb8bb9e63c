//! What runs and checks for no spread promise: all that runs with a slack, and checks of their certificates, promise of
//! the network itself. The statements on the way stand before it. Each statement is the contract of a small function.
#![tactic(auto)]

ghost use Rattle.std.specs.Prelude.{◌≡◌, ℕ, List, map, Option, true};
ghost use Rattle.hyd_net.specs.Sound.{IsSound};
ghost use Rattle.hyd_spec.specs.ProgramTypes.{Project};
ghost use Rattle.hyd_spec_certificates.specs.declared.CertRefused.{CertRefused};
ghost use Rattle.hyd_spec_certificates.specs.declared.Side.{Side};
ghost use Rattle.hyd_spec_certificates.specs.declared.StopCause.{StopCause};
ghost use Rattle.hyd_spec_certificates.specs.RecordAndStanding.{Standing};
ghost use Rattle.hyd_spec_certificates.specs.Valid.{IsGridAt};
ghost use Rattle.hyd_spec_check_ends.specs.declared.CheckEnd.{CheckEnd};
ghost use Rattle.hyd_spec_open_checks.specs.OpenChecks.{OpenCheckRefusal, CheckEndsOpenly, CheckFindsOpenly};
ghost use Rattle.hyd_spec_open_checks.specs.OpenChecks.{CheckBreaksOffOpenly};
ghost use Rattle.hyd_spec_open_checks.specs.OpenRunsBrokenOff.{RunBreaksOffOpenly};
ghost use Rattle.hyd_spec_open_ends.specs.OpenRuns.{OpenFound};
ghost use Rattle.hyd_spec_open_ends.specs.OpenStandings.{OpenStanding, OpenRecord};
ghost use Rattle.hyd_spec_open_ends.specs.PromisesOfOpenRuns.{StopsOpenly, EndsOpenlySo};
ghost use Rattle.hyd_spec_open_refusals.specs.RefusedOpenRecords.{IsRefusedOpenly};
ghost use Rattle.hyd_spec_open_reports.specs.PromisesOfOpenReports.{Reported, IsSharpOpenly, RunTellsOpenly};
ghost use Rattle.hyd_spec_open_reports.specs.PromisesOfOpenReports.{CheckTellsOpenly};
ghost use Rattle.hyd_spec_open_spreads.specs.OpenRunsForSpreads.{OpenFoundOver, IsOpenRunOver};
ghost use Rattle.hyd_spec_reports.specs.PromisesOfRunsAndChecks.{Sharpness, Outcome};
ghost use Rattle.hyd_spec_spread.specs.Spreads.{Spread, no_spread};
ghost use Rattle.hyd_spec_spread_promises.specs.PromisesOfSpreadChecks.{CheckTellsOver, CheckRefusalOver};
ghost use Rattle.hyd_spec_spread_promises.specs.PromisesOfSpreadChecks.{CheckEndsOver, CheckFindsOver};
ghost use Rattle.hyd_spec_spread_promises.specs.PromisesOfSpreadChecks.{CheckBreaksOffOver};
ghost use Rattle.hyd_spec_spread_promises.specs.PromisesOfSpreadRuns.{RunTellsOver, RunBreaksOffOver};
ghost use Rattle.hyd_spec_spread_promises.specs.SharpOverSpreads.{IsSharpWithin};
ghost use Rattle.hyd_spec_spread_refusals.specs.RefusedSpreadRecords.{IsRefusedOver};
ghost use Rattle.hyd_spec_spread_reports.specs.ClaimsWithinSpreads.{ReportedOver, periods_over};
ghost use Rattle.hyd_spec_spread_reports.specs.TextsOfSpreadReports.{says_nothing};
ghost use Rattle.hyd_spec_spread_runs.specs.OutermostPairs.{Pair, grid_on};
ghost use Rattle.hyd_spec_spread_runs.specs.RunsForSpreads.{ArePairAt};
ghost use Rattle.hyd_spec_spread_stops.specs.StopsOfSpreads.{StopsOver, EndsOverSo};
ghost use Rattle.hyd_theorems_on_open_spreads.specs.RunsAsOthers.{on_both_sides};
ghost use Rattle.hyd_theorems_on_spread_promises.specs.ReportsOnBothSides.{reported_on_both_sides};

// ---- the network

/// A spread that says nothing of any node is none.
pub fn nothing_said()
    ensures { (spread : Spread) → says_nothing spread ≡ true → spread ≡ no_spread }
{}

/// Without a spread both outermost grids of a period are the network's, so they are one; and what a run finds, and its
/// reports, are those of the network with its grid on both sides.
pub fn one_network()
    ensures grid { (project : Project) → IsSound project → (standing : Standing) (pair : Pair)
        → ArePairAt project no_spread standing pair → (side : Side)
        → IsGridAt project standing (grid_on side pair) }
    ensures pair { (project : Project) → IsSound project → (standing : Standing) (pair : Pair)
        → ArePairAt project no_spread standing pair → pair.lower ≡ pair.upper }
    ensures founds { (project : Project) → IsSound project → (slack : ℕ) (founds : List OpenFoundOver)
        (last : OpenStanding) → IsOpenRunOver project no_spread slack founds last
        → (opens : List OpenFound) × (founds ≡ map on_both_sides opens) }
    ensures reports { (project : Project) → IsSound project → (slack : ℕ) (reports : List ReportedOver)
        (last : OpenStanding) → IsOpenRunOver project no_spread slack (periods_over reports) last
        → (opens : List Reported) × (reports ≡ map reported_on_both_sides opens) }
{}

// ---- a period

/// Where a cause stops a run without a spread, it stops a run of the network; so the end of the one is the end of the
/// other.
pub fn stops()
    ensures cause { (project : Project) → IsSound project → (standing : OpenStanding) (slack rounds : ℕ)
        (cause : StopCause) → StopsOver project no_spread standing slack rounds cause
        → StopsOpenly project standing slack rounds cause }
    ensures ends { (project : Project) → IsSound project → (left : OpenStanding) (slack rounds : ℕ)
        (stop : Option StopCause) → EndsOverSo project no_spread left slack rounds stop
        → EndsOpenlySo project left slack rounds stop }
{}

/// With the grid of the network on both sides a period is as sharp as one of the network.
pub fn sharpness()
    ensures { (project : Project) (sharpness : Sharpness) (here : OpenFound)
        → IsSharpWithin project no_spread sharpness (on_both_sides here) → IsSharpOpenly project sharpness here }
{}

/// A record that is refused without a spread is refused in a check of the network, for the same cause.
pub fn refusals()
    ensures { (project : Project) → IsSound project → (standing : OpenStanding) (found : OpenRecord)
        (cause : CertRefused) → IsRefusedOver project no_spread standing found cause
        → IsRefusedOpenly project standing found cause }
{}

// ---- promises

/// What a run without a spread writes and prints is what a run of the network does, whole or broken off.
pub fn runs()
    ensures tells { (project : Project) → IsSound project → (slack rounds : ℕ) (sharpness : Sharpness)
        (outcome : Outcome) (written printed : List ℕ)
        → RunTellsOver project no_spread slack rounds sharpness outcome written printed
        → RunTellsOpenly project slack rounds sharpness outcome written printed }
    ensures breaks_off { (project : Project) → IsSound project → (slack rounds : ℕ) (sharpness : Sharpness)
        (written printed : List ℕ) → RunBreaksOffOver project no_spread slack rounds sharpness written printed
        → RunBreaksOffOpenly project slack rounds sharpness written printed }
{}

/// What a check without a spread answers is what a check of the network does: it accepts, refuses, or is broken off.
pub fn checks()
    ensures accepts { (project : Project) → IsSound project → (text printed : List ℕ)
        → CheckTellsOver project no_spread text printed → CheckTellsOpenly project text printed }
    ensures refuses { (project : Project) → IsSound project → (text printed : List ℕ)
        → CheckRefusalOver project no_spread text printed → OpenCheckRefusal project text printed }
    ensures ends { (project : Project) → IsSound project → (text printed : List ℕ) (end : CheckEnd)
        → CheckEndsOver project no_spread text printed end → CheckEndsOpenly project text printed end }
    ensures finds { (project : Project) → IsSound project → (text report : List ℕ)
        → CheckFindsOver project no_spread text report → CheckFindsOpenly project text report }
    ensures breaks_off { (project : Project) → IsSound project → (text printed : List ℕ)
        → CheckBreaksOffOver project no_spread text printed → CheckBreaksOffOpenly project text printed }
{}
