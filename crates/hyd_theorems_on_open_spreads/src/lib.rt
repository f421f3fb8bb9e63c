//! Every history within a spread that keeps what it reaches agrees with every run for the spread with a slack, at every
//! scale; and what such runs are where nothing is open, neither data nor ends. The statements on the way stand before
//! it, each the contract of a small function.
#![tactic(auto)]

ghost use Rattle.std.specs.Prelude.{◌≡◌, ◌≢◌, ◌↔◌, ◌≤◌, ◌+◌, ℕ, ℤ, List, map};
ghost use Rattle.std.specs.List.{AllByRecursion};
ghost use Rattle.hyd_net.specs.Sound.{IsSound};
ghost use Rattle.hyd_spec.specs.ProgramTypes.{Project, LinkState};
ghost use Rattle.hyd_spec.specs.declared.TankState.{TankState};
ghost use Rattle.hyd_spec.specs.PeriodLength.{Period, HasItsLength};
ghost use Rattle.hyd_spec.specs.History.{Begins, commanded_after};
ghost use Rattle.hyd_spec_certificates.specs.declared.Side.{Side};
ghost use Rattle.hyd_spec_certificates.specs.Interval.{Interval};
ghost use Rattle.hyd_spec_certificates.specs.PeriodNetwork.{Grid};
ghost use Rattle.hyd_spec_certificates.specs.RecordAndStanding.{Record, Standing};
ghost use Rattle.hyd_spec_certificates.specs.Valid.{LeavesLinks};
ghost use Rattle.hyd_spec_open_ends.specs.InstantsOfClock.{HasNoInstant};
ghost use Rattle.hyd_spec_open_ends.specs.OpenStandings.{OpenStanding, OpenRecord, initial_open_standing};
ghost use Rattle.hyd_spec_open_ends.specs.OpenEnds.{Way, EndsIn};
ghost use Rattle.hyd_spec_open_ends.specs.OpenRecords.{IsValidOpenly, links_left};
ghost use Rattle.hyd_spec_open_ends.specs.OpenRuns.{OpenFound, IsOpenRun};
ghost use Rattle.hyd_spec_spread.specs.Spreads.{Spread, IsSpread, no_spread};
ghost use Rattle.hyd_spec_spread.specs.NetworksWithin.{NodeData, with_data};
ghost use Rattle.hyd_spec_spread.specs.OutermostGrids.{IsOutermostGrid};
ghost use Rattle.hyd_spec_spread.specs.HistoriesWithin.{IsPeriodWithin};
ghost use Rattle.hyd_spec_spread_runs.specs.OutermostPairs.{Pair, spanned, spanning};
ghost use Rattle.hyd_spec_spread_runs.specs.RunsForSpreads.{FoundOver, IsValidOver, IsRunOver};
ghost use Rattle.hyd_spec_open_spreads.specs.OpenRunsForSpreads.{open_standing_within, IsValidOpenlyOver};
ghost use Rattle.hyd_spec_open_spreads.specs.OpenRunsForSpreads.{OpenFoundOver, IsOpenRunOver};
ghost use Rattle.hyd_spec_open_spreads.specs.OpenAgreementWithin.{EveryKeepingHistoryWithinAgrees};
ghost use Rattle.hyd_theorems_on_open_ends.specs.AgreementOverStarts.{AgreesFrom, IsKeptOpenly, EndsSo};
ghost use Rattle.hyd_theorems_on_open_spreads.specs.BoundedOpenly.{IsBoundedOpenly};
ghost use Rattle.hyd_theorems_on_open_spreads.specs.RunsAsOthers.{on_both_sides, EndIsUncut, to_the_second, IsUncut};
ghost use Rattle.hyd_theorems_on_open_spreads.specs.RunsAsOthers.{known_standing, known_record, HasUncutEnd};
ghost use Rattle.hyd_theorems_on_open_spreads.specs.RunsAsOthers.{ClosedEndIsUncut, known_found};

// ---- a period

/// Where no instant of the clock lies in the seconds of a start, the outermost grids are the same at each of them.
pub fn starts()
    ensures { (project : Project) → IsSound project → (spread : Spread) (first time : ℕ) → first ≤ time
        → HasNoInstant project first time → (side : Side) (levels : List Interval) (tanks : List TankState)
        (links : List LinkState) (grid : Grid) → IsOutermostGrid project spread side first levels tanks links grid
        → IsOutermostGrid project spread side time levels tanks links grid }
{}

/// A period within a spread of a sound network that begins where a history agrees with a standing whose start is open
/// is bounded, as of its own start, by each record that is valid for the spread there.
pub fn bounds()
    ensures { (project : Project) → IsSound project → (spread : Spread) (S : ℕ) → 1 ≤ S → (pair : Pair)
        (standing : OpenStanding) (found : OpenRecord) (next : OpenStanding) → IsKeptOpenly project standing
        → IsValidOpenlyOver project spread standing pair found next
        → (time : ℕ) (levels volumes : List ℤ) (commanded : List LinkState)
        → AgreesFrom project S standing time levels volumes commanded
        → (period : Period) → Begins project S time levels volumes commanded period → (nodes : NodeData)
        → IsPeriodWithin project spread S period nodes
        → IsBoundedOpenly project nodes S period (spanned pair) standing (spanning pair found.row) }
{}

/// A period that a grid and a record bound, and that isn't the last, ends in the way that they decide, and leaves the
/// links commanded as it says.
pub fn ends()
    ensures lengths { (project : Project) → IsSound project → (nodes : NodeData) (S : ℕ) (period : Period) (grid : Grid)
        (standing : OpenStanding) (row : Record) → IsBoundedOpenly project nodes S period grid standing row
        → standing.known.time ≢ project.times.duration → HasItsLength (with_data project nodes) S period
        → (way : Way) → EndsIn project grid standing row way → EndsSo period standing way }
    ensures links { (project : Project) → IsSound project → (nodes : NodeData) (S : ℕ) (period : Period) (grid : Grid)
        (standing : OpenStanding) (row : Record) → IsBoundedOpenly project nodes S period grid standing row
        → standing.known.time ≢ project.times.duration → HasItsLength (with_data project nodes) S period
        → (way : Way) → EndsIn project grid standing row way
        → commanded_after (with_data project nodes) S period ≡ links_left project grid standing row way }
{}

// ---- all periods

/// Every history within a spread of a sound network that keeps what it reaches agrees with every run for the spread,
/// whatever its slack.
pub fn runs()
    ensures { (project : Project) → IsSound project → (spread : Spread) → IsSpread project spread → (slack : ℕ)
        (founds : List OpenFoundOver) (last : OpenStanding) → IsOpenRunOver project spread slack founds last
        → EveryKeepingHistoryWithinAgrees project spread founds }
{}

// ---- without a spread

/// Without a spread what is known at the start is what is known without one; the records that are valid for the spread,
/// with the grid of the network on both sides, are the valid records of the network, and the runs are its runs.
pub fn without_spread()
    ensures start { (project : Project) → open_standing_within project no_spread ≡ initial_open_standing project }
    ensures records { (project : Project) → IsSound project → (standing : OpenStanding) (grid : Grid)
        (found : OpenRecord) (next : OpenStanding)
        → IsValidOpenlyOver project no_spread standing (record { upper = grid; lower = grid }) found next
        ↔ IsValidOpenly project standing grid found next }
    ensures runs { (project : Project) → IsSound project → (slack : ℕ) (founds : List OpenFound)
        (last : OpenStanding) → IsOpenRun project slack founds last
        ↔ IsOpenRunOver project no_spread slack (map on_both_sides founds) last }
{}

// ---- without open ends

/// Where a start is known to the second, and the end too, a valid record has one length, which the words without open
/// ends decide, and it leaves the links commanded that they say. Where nothing of its levels is cut it is valid without
/// open ends; so a run with slack 0 of which no end cuts anything is a run without open ends.
pub fn known_starts()
    ensures ends { (project : Project) → IsSound project → (spread : Spread) (standing : OpenStanding) (pair : Pair)
        (found : OpenRecord) (next : OpenStanding) → IsValidOpenlyOver project spread standing pair found next
        → standing.late ≡ 0 → next.late ≤ 0 → standing.known.time ≢ project.times.duration
        → LeavesLinks project (spanned pair) standing.known (spanning pair found.row) found.row.length
        next.known.commanded × ((found.shortest ≡ found.row.length)
        × (next.known.time ≡ standing.known.time + found.row.length)) }
    ensures records { (project : Project) → IsSound project → (spread : Spread) (standing : OpenStanding) (pair : Pair)
        (found : OpenRecord) (next : OpenStanding) → IsValidOpenlyOver project spread standing pair found next
        → standing.late ≡ 0 → next.late ≤ 0
        → (standing.known.time ≢ project.times.duration
        → IsUncut project (spanned pair) standing.known (spanning pair found.row) next.known)
        → IsValidOver project spread standing.known pair found.row next.known }
    ensures runs { (project : Project) → IsSound project → (spread : Spread) (founds : List OpenFoundOver)
        (last : OpenStanding) → IsOpenRunOver project spread 0 founds last
        → AllByRecursion (EndIsUncut project) founds
        → IsRunOver project spread (map to_the_second founds) last.known }
{}

/// The other way round: a record that is valid without open ends is valid with them, its seconds being known, where the
/// words for open ends decide its end and cut nothing; and a run without open ends of which each end is such is a run
/// with slack 0.
pub fn known_records()
    ensures records { (project : Project) → IsSound project → (spread : Spread) (standing : Standing) (pair : Pair)
        (row : Record) (next : Standing) → IsValidOver project spread standing pair row next
        → (standing.time ≢ project.times.duration
        → HasUncutEnd project (spanned pair) standing (spanning pair row))
        → IsValidOpenlyOver project spread (known_standing standing) pair (known_record row) (known_standing next) }
    ensures runs { (project : Project) → IsSound project → (spread : Spread) (founds : List FoundOver)
        (last : Standing) → IsRunOver project spread founds last
        → AllByRecursion (ClosedEndIsUncut project) founds
        → IsOpenRunOver project spread 0 (map known_found founds) (known_standing last) }
{}
