//! Every history that keeps what it reaches agrees with every run whose periods may end between two seconds: their
//! starts, lengths, states of tanks and links and heads, at every scale. The statements on the way to it stand before
//! it, each the contract of a small function.
#![tactic(auto)]

ghost use Rattle.std.specs.Prelude.{◌≡◌, ◌≢◌, ℕ, ◌<◌, ◌≤◌, ℤ, pos, ◌≤ℤ◌, Bool, true, List, Option, None};
ghost use Rattle.std.specs.List.{AllByRecursion};
ghost use Rattle.hyd_net.specs.Sound.{IsSound};
ghost use Rattle.hyd_spec.specs.ProgramTypes.{Project, Tank, Control, LinkState};
ghost use Rattle.hyd_spec.specs.Tank.{Walls, Stock, carried_level, IsNextStock};
ghost use Rattle.hyd_spec.specs.PeriodLength.{Period, readings_after, HasItsLength};
ghost use Rattle.hyd_spec.specs.History.{commanded_after, initial_levels, initial_volumes, initial_links, Begins};
ghost use Rattle.hyd_spec.specs.History.{IsPeriod};
ghost use Rattle.hyd_spec_certificates.specs.Interval.{Interval};
ghost use Rattle.hyd_spec_certificates.specs.Stocks.{Stocks};
ghost use Rattle.hyd_spec_certificates.specs.PeriodNetwork.{Grid, IsGrid};
ghost use Rattle.hyd_spec_certificates.specs.RecordAndStanding.{Record, Standing};
ghost use Rattle.hyd_spec_certificates.specs.Decided.{links_at, End, EndsBy};
ghost use Rattle.hyd_spec_certificates.specs.Valid.{IsGridAt, AreCertificates};
ghost use Rattle.hyd_spec_open_ends.specs.InstantsOfClock.{HasNoInstant};
ghost use Rattle.hyd_spec_open_ends.specs.OpenStandings.{OpenStanding, OpenRecord, initial_open_standing};
ghost use Rattle.hyd_spec_open_ends.specs.StocksOverLengths.{carried_levels_over, contents_over, cut_by, stocks_at_end};
ghost use Rattle.hyd_spec_open_ends.specs.StocksOverLengths.{level_ends, content_ends, kept};
ghost use Rattle.hyd_spec_open_ends.specs.RulesOverLengths.{readings_below_over, readings_above_over};
ghost use Rattle.hyd_spec_open_ends.specs.OpenEnds.{Way, EndsIn, late_at_end, shortest_length, longest_length};
ghost use Rattle.hyd_spec_open_ends.specs.OpenEnds.{IsFirstOpen};
ghost use Rattle.hyd_spec_open_ends.specs.OpenStops.{LeavesEndOpen};
ghost use Rattle.hyd_spec_open_ends.specs.OpenRecords.{IsValidOpenly, ContinuesOpenly, links_left};
ghost use Rattle.hyd_spec_open_ends.specs.OpenRuns.{OpenFound, IsOpenRunFrom, IsOpenRun, EveryKeepingHistoryAgrees};
ghost use Rattle.hyd_spec_open_ends.specs.PromisesOfOpenRuns.{RunWritesOpenly, CheckAcceptsOpenly};
ghost use Rattle.hyd_spec_certificates.specs.declared.StopCause.{StopCause};
ghost use Rattle.hyd_theorems_on_definitions.specs.LyingInIntervals.{LiesIn, LiesAround, StockLies};
ghost use Rattle.hyd_theorems_on_definitions.specs.LyingInIntervals.{HasStock, IsInside, AreInside};
ghost use Rattle.hyd_theorems_on_definitions.specs.SoundTanks.{IsVessel};
ghost use Rattle.hyd_theorems_on_histories.specs.Agreement.{AreBetween, IsKept};
ghost use Rattle.hyd_theorems_on_nesting.specs.Nesting.{AreNested, IsOrdered};
ghost use Rattle.hyd_theorems_on_nesting.specs.StandingsOfRuns.{IsTidy};
ghost use Rattle.hyd_theorems_on_open_ends.specs.AgreementOverStarts.{begun_at, AgreesFrom, IsUnderOpenly};
ghost use Rattle.hyd_theorems_on_open_ends.specs.AgreementOverStarts.{IsKeptOpenly, EndsSo};
ghost use Rattle.hyd_theorems_on_open_ends.specs.WaysInside.{IsWayInside, HasFate, known_end};

// ---- over lengths

/// After each length between two seconds the carried level lies in the carried levels over those lengths, and the next
/// stock in the stocks at their end.
pub fn stocks()
    ensures carried { (S : ℕ) (walls : Walls) (tank : Tank) (stocks : Stocks) (inflow : Interval)
        (shortest length longest : ℕ) (stock : Stock) (q : ℤ) → 0 < S → IsVessel walls tank → StockLies S stocks stock
        → LiesIn S inflow q → shortest ≤ length → length ≤ longest
        → LiesAround S (carried_levels_over walls tank stocks inflow shortest longest)
        (carried_level S walls tank stock q length) }
    ensures next { (S : ℕ) (walls : Walls) (tank : Tank) (stocks : Stocks) (inflow : Interval)
        (shortest length longest : ℕ) (stock : Stock) (q : ℤ) (next : Stock) → 0 < S → IsVessel walls tank
        → StockLies S stocks stock → LiesIn S inflow q → shortest ≤ length → length ≤ longest
        → IsNextStock S walls tank stock q length next
        → StockLies S (stocks_at_end walls tank stocks inflow shortest longest None) next }
{}

/// Narrower stocks, inflows and lengths lead to narrower carried levels and contents. So does the cut by one level that
/// has just been reached, if it is made on its other side wherever it is of the wider ones, and what is kept.
pub fn narrower_stocks()
    ensures carried { (walls : Walls) (tank : Tank) → IsVessel walls tank → (stocks wider : Stocks)
        (inflow more : Interval) → HasStock stocks → IsOrdered inflow → AreInside stocks wider → IsInside inflow more
        → (first last shortest longest : ℕ) → first ≤ shortest → shortest ≤ longest → longest ≤ last
        → IsInside (carried_levels_over walls tank stocks inflow shortest longest)
        (carried_levels_over walls tank wider more first last) }
    ensures contents { (walls : Walls) (tank : Tank) → IsVessel walls tank → (stocks wider : Stocks)
        (inflow more : Interval) → HasStock stocks → IsOrdered inflow → AreInside stocks wider → IsInside inflow more
        → (first last shortest longest : ℕ) → first ≤ shortest → shortest ≤ longest → longest ≤ last
        → (widening : ℤ) → pos 0 ≤ℤ widening
        → IsInside (contents_over widening walls tank stocks inflow shortest longest)
        (contents_over widening walls tank wider more first last) }
    ensures cut_levels { (walls : Walls) (tank : Tank) → IsVessel walls tank → (widening : ℤ) → pos 0 ≤ℤ widening
        → (inflow more : Interval) (target : ℤ) (rising sooner later : Bool) (levels wider : Interval)
        → IsInside inflow more → IsInside levels wider → (later ≡ true → sooner ≡ true)
        → IsInside (cut_by (level_ends widening walls tank) walls tank inflow
        (record { target = target; rising = rising; not_before = sooner }) levels)
        (cut_by (level_ends widening walls tank) walls tank more
        (record { target = target; rising = rising; not_before = later }) wider) }
    ensures cut_contents { (walls : Walls) (tank : Tank) → IsVessel walls tank → (widening : ℤ) → pos 0 ≤ℤ widening
        → (inflow more : Interval) (target : ℤ) (rising sooner later : Bool) (levels wider : Interval)
        → IsInside inflow more → IsInside levels wider → (later ≡ true → sooner ≡ true)
        → IsInside (cut_by (content_ends widening walls tank) walls tank inflow
        (record { target = target; rising = rising; not_before = sooner }) levels)
        (cut_by (content_ends widening walls tank) walls tank more
        (record { target = target; rising = rising; not_before = later }) wider) }
    ensures keeping { (k : ℕ) (inner outer : Interval) → IsOrdered inner → IsInside inner outer
        → (controls : List Control) (x y : Interval) → IsInside x y
        → IsInside (kept controls k inner x) (kept controls k outer y) }
{}

// ---- open starts

/// Where no instant of the clock lies in the seconds of a start, the grid is the same at each of them, and so are the
/// states of links.
pub fn starts()
    ensures grids { (project : Project) → IsSound project → (standing : Standing) (time : ℕ) (grid : Grid)
        → standing.time ≤ time → HasNoInstant project standing.time time → IsGridAt project standing grid
        → IsGrid project time standing.levels standing.tanks (links_at project standing) grid }
    ensures links { (project : Project) (standing : Standing) (time : ℕ) → 0 < standing.time → standing.time ≤ time
        → HasNoInstant project standing.time time
        → links_at project (begun_at standing time) ≡ links_at project standing }
{}

/// What the rules look at in a period lies between what the record's ends give over lengths around it.
pub fn readings()
    ensures { (project : Project) (S : ℕ) (period : Period) (grid : Grid) (standing : OpenStanding) (row : Record)
        → IsUnderOpenly project S period grid standing row → (shortest seconds longest : ℕ) → shortest ≤ seconds
        → seconds ≤ longest
        → AreBetween project S (readings_below_over project grid standing.known row shortest longest)
        (readings_after project S period seconds)
        (readings_above_over project grid standing.known row shortest longest) }
{}

// ---- ends

/// A period that isn't the last ends in the way that its record decides, and leaves the links commanded as it says.
pub fn ends()
    ensures lengths { (project : Project) → IsSound project → (S : ℕ) (period : Period) (grid : Grid)
        (standing : OpenStanding) (row : Record) → IsUnderOpenly project S period grid standing row
        → standing.known.time ≢ project.times.duration → HasItsLength project S period → (way : Way)
        → EndsIn project grid standing row way → EndsSo period standing way }
    ensures links { (project : Project) → IsSound project → (S : ℕ) (period : Period) (grid : Grid)
        (standing : OpenStanding) (row : Record) → IsUnderOpenly project S period grid standing row
        → standing.known.time ≢ project.times.duration → HasItsLength project S period → (way : Way)
        → EndsIn project grid standing row way
        → commanded_after project S period ≡ links_left project grid standing row way }
{}

/// A record decides one way in which its period ends, or one matter that is open first, and not both.
pub fn one_end()
    ensures ways { (project : Project) (grid : Grid) (standing : OpenStanding) (row : Record) (a b : Way)
        → EndsIn project grid standing row a → EndsIn project grid standing row b → a ≡ b }
    ensures opens { (project : Project) (grid : Grid) (standing : OpenStanding) (row : Record) (slack : ℕ) (a b : End)
        → IsFirstOpen project grid standing row slack a → IsFirstOpen project grid standing row slack b → a ≡ b }
    ensures not_both { (project : Project) (grid : Grid) (standing : OpenStanding) (row : Record) (slack : ℕ)
        (way : Way) (end : End) → EndsIn project grid standing row way → late_at_end standing.late way ≤ slack
        → IsFirstOpen project grid standing row slack end → ⊥ }
{}

/// Under each record with certificates a period that begins before the end of the run ends in a way, or some matter is
/// open first.
pub fn every_end()
    ensures { (project : Project) (grid : Grid) (standing : OpenStanding) (row : Record)
        → AreNested project standing.known grid row row → standing.known.time < project.times.duration → (slack : ℕ)
        → HasFate project grid standing row slack }
{}

/// Where an outer record decides a way, each record inside it decides one inside that, whose end is open by no more
/// seconds and whose lengths lie between those of the other. So where the tight vectors leave an end open, no record
/// with certificates decides it.
pub fn inner_ends()
    ensures ways { (project : Project) → IsSound project → (standing : OpenStanding) (grid : Grid)
        (outer inner : Record) → AreNested project standing.known grid outer inner
        → standing.known.time < project.times.duration → (way : Way) → EndsIn project grid standing outer way
        → (inside : Way) × (EndsIn project grid standing inner inside × IsWayInside inside way) }
    ensures narrower { (late : ℕ) (inside way : Way) → IsWayInside inside way
        → late_at_end late inside ≤ late_at_end late way }
    ensures no_shorter { (late : ℕ) (inside way : Way) → IsWayInside inside way
        → shortest_length late way ≤ shortest_length late inside }
    ensures no_longer { (inside way : Way) → IsWayInside inside way → longest_length inside ≤ longest_length way }
    ensures stops { (project : Project) → IsSound project → (standing : OpenStanding)
        → IsKept project standing.known → IsTidy project standing.known → (grid : Grid) (row : Record)
        → IsGridAt project standing.known grid → AreCertificates project grid row
        → standing.known.time < project.times.duration → (slack : ℕ) (end : End)
        → LeavesEndOpen project standing slack end → (way : Way) → EndsIn project grid standing row way
        → late_at_end standing.late way ≤ slack → ⊥ }
{}

/// Where a start is known to the second and no end may be open, each way is an end as in runs without open ends, and
/// each first open matter is the one that is open there.
pub fn known_ends()
    ensures ends { (project : Project) → IsSound project → (grid : Grid) (standing : OpenStanding) (row : Record)
        → standing.late ≡ 0 → (way : Way) → EndsIn project grid standing row way → late_at_end standing.late way ≤ 0
        → EndsBy project grid standing.known row (known_end way) }
    ensures opens { (project : Project) → IsSound project → (grid : Grid) (standing : OpenStanding) (row : Record)
        → standing.late ≡ 0 → (end : End) → IsFirstOpen project grid standing row 0 end
        → EndsBy project grid standing.known row end }
{}

// ---- from period to period

/// The first standing of a run keeps what standings keep, and where a record leads on from one that does, so does the
/// next.
pub fn kept()
    ensures start { (project : Project) → IsSound project → IsKeptOpenly project (initial_open_standing project) }
    ensures next { (project : Project) → IsSound project → (grid : Grid) (standing : OpenStanding) (found : OpenRecord)
        (next : OpenStanding) → IsKeptOpenly project standing → ContinuesOpenly project grid standing found next
        → IsKeptOpenly project next }
{}

/// Histories agree with the first standing where they begin. Where one agrees with a standing and a record is valid
/// there, the period is under the record.
pub fn steps()
    ensures start { (project : Project) (S : ℕ) → 0 < S
        → AgreesFrom project S (initial_open_standing project) 0 (initial_levels project S) (initial_volumes project S)
        (initial_links project) }
    ensures under { (project : Project) → IsSound project → (S : ℕ) → 0 < S → (grid : Grid) (standing : OpenStanding)
        (found : OpenRecord) (next : OpenStanding) → IsKeptOpenly project standing
        → IsValidOpenly project standing grid found next
        → (time : ℕ) (levels volumes : List ℤ) (commanded : List LinkState)
        → AgreesFrom project S standing time levels volumes commanded
        → (period : Period) → Begins project S time levels volumes commanded period → IsPeriod project S period
        → IsUnderOpenly project S period grid standing found.row }
{}

// ---- whole runs

/// Every history of a sound network that keeps what it reaches agrees with every run with a slack.
pub fn runs()
    ensures { (project : Project) → IsSound project → (slack : ℕ) (founds : List OpenFound) (last : OpenStanding)
        → IsOpenRun project slack founds last → EveryKeepingHistoryAgrees project founds }
{}

/// No start of a run is open by more seconds than the slack. It is a run with each greater slack, and a check accepts
/// the certificate that a run wrote.
pub fn acceptance()
    ensures within { (project : Project) (slack : ℕ) (founds : List OpenFound) (last : OpenStanding)
        → IsOpenRun project slack founds last
        → AllByRecursion (λ (here : OpenFound). here.standing.late ≤ slack) founds × (last.late ≤ slack) }
    ensures slacks { (project : Project) (slack greater : ℕ) → slack ≤ greater → (standing : OpenStanding)
        (founds : List OpenFound) (last : OpenStanding)
        → IsOpenRunFrom project slack standing founds last → IsOpenRunFrom project greater standing founds last }
    ensures checks { (project : Project) (slack rounds : ℕ) (stop : Option StopCause) (written : List ℕ)
        → RunWritesOpenly project slack rounds stop written → CheckAcceptsOpenly project written }
{}
