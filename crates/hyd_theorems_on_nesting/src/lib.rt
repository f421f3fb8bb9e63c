//! What an outer record decides, each record inside it decides in the same way; so a valid record leaves no reason to
//! stop, and the tight vectors of its standing decide as it does. At each unfinished standing either a valid record
//! leads on or a stop holds. Each statement is the contract of a small function.
#![tactic(auto)]

ghost use Rattle.std.specs.Prelude.{◌⊎◌, false, ◌≡◌, ◌≢◌, ◌<◌, ◌≤◌, ◌%◌, ◌+◌, ◌-◌, ◌≤ℤ◌, ◌<ℤ◌, ◌+ℤ◌, ◌-ℤ◌, ℕ, ℤ, pos};
ghost use Rattle.std.specs.Prelude.{List, [], length, slice_get, Some, ◌∷◌, min};
ghost use Rattle.hyd_net.specs.Sound.{IsSound};
ghost use Rattle.hyd_spec.specs.ProgramTypes.{Project, Tank, LinkState};
ghost use Rattle.hyd_spec.specs.Assignment.{head_at};
ghost use Rattle.hyd_spec.specs.Tank.{walls_of};
ghost use Rattle.hyd_spec.specs.PeriodLength.{IsLeast};
ghost use Rattle.hyd_spec_certificates.specs.declared.Problem.{Problem};
ghost use Rattle.hyd_spec_certificates.specs.declared.Side.TheVariants.{Upper, Lower};
ghost use Rattle.hyd_spec_certificates.specs.FirstSeconds.{IsFirstSecond};
ghost use Rattle.hyd_spec_certificates.specs.Stocks.{may_reach, must_reach};
ghost use Rattle.hyd_spec_certificates.specs.PeriodNetwork.{Grid, GridLink, fixed_heads};
ghost use Rattle.hyd_spec_certificates.specs.FlowIntervals.{flow_box};
ghost use Rattle.hyd_spec_certificates.specs.Certificate.{IsCertificate};
ghost use Rattle.hyd_spec_certificates.specs.RecordAndStanding.{Record, Standing, initial_standing};
ghost use Rattle.hyd_spec_certificates.specs.Decided.{Watch, watches, stocks_of_tank, inflow_of_tank, heads_below};
ghost use Rattle.hyd_spec_certificates.specs.Decided.{heads_above, IsClockLength, IsEarliestEnd, IsLatestEnd};
ghost use Rattle.hyd_spec_certificates.specs.Decided.{RulesMatter, End, EndsBy};
ghost use Rattle.hyd_spec_certificates.specs.Valid.{DemandsAreInRange, IsGridAt, LeavesLinks, IsValid, Continues};
ghost use Rattle.hyd_spec_certificates.specs.Valid.{stocks_next, levels_next, volumes_next};
ghost use Rattle.hyd_spec_certificates.specs.declared.StopCause.{StopCause};
ghost use Rattle.hyd_spec_certificates.specs.Stops.{Stops};
ghost use Rattle.hyd_theorems_on_definitions.specs.LyingInIntervals.{IsInside, AreInside, HasStock};
ghost use Rattle.hyd_theorems_on_definitions.specs.SoundLawsAndGrids.{IsSteady};
ghost use Rattle.hyd_theorems_on_histories.specs.Agreement.{IsKept};
ghost use Rattle.hyd_theorems_on_nesting.specs.Nesting.{IsOrdered, AreNested, IsTightened};
ghost use Rattle.hyd_theorems_on_nesting.specs.FirstAmongWatched.{ReachTest, watch_passes, IsFirstAmong, IsWalked};
ghost use Rattle.hyd_theorems_on_nesting.specs.StandingsOfRuns.{IsTidy};
ghost use Rattle.hyd_theorems_on_nesting.specs.GoingOnOrStopped.{IsReason, LeadsSomewhere, IsStopped};

// ---- certificates of two sides

/// A LOWER certificate lies strictly below an UPPER one, of whatever problems, where no fixed head of it lies above the
/// other's; and where some do, by at most as much.
pub fn sides()
    ensures { (grid : Grid) → IsSteady grid → (p q : Problem) (u v : List ℤ) (t : ℤ) → IsCertificate grid p Upper u
        → IsCertificate grid q Lower v → pos 0 ≤ℤ t
        → ((m : ℕ) → (head_at (fixed_heads grid q Lower) m -ℤ head_at (fixed_heads grid p Upper) m) ≤ℤ t)
        → (j : ℕ) → j < length v → head_at v j <ℤ (head_at u j +ℤ t) }
{}

// ---- records inside others

/// The flow boxes, the inflow boxes and the next stocks of an inner record lie inside those of the outer one, and
/// each has a number.
pub fn boxes()
    ensures flows { (project : Project) (standing : Standing) (grid : Grid) (outer inner : Record)
        → AreNested project standing grid outer inner → (l : ℕ) (link : GridLink) → slice_get grid.links l ≡ Some link
        → IsInside (flow_box link (heads_below grid inner) (heads_above grid inner))
        (flow_box link (heads_below grid outer) (heads_above grid outer))
        × IsOrdered (flow_box link (heads_below grid inner) (heads_above grid inner)) }
    ensures inflows { (project : Project) (standing : Standing) (grid : Grid) (outer inner : Record)
        → AreNested project standing grid outer inner → (k : ℕ) (tank : Tank)
        → slice_get project.tanks.list k ≡ Some tank
        → IsInside (inflow_of_tank project grid inner k) (inflow_of_tank project grid outer k)
        × IsOrdered (inflow_of_tank project grid inner k) }
    ensures stocks { (project : Project) → IsSound project → (standing : Standing) (grid : Grid) (outer inner : Record)
        → AreNested project standing grid outer inner → (seconds k : ℕ) (tank : Tank)
        → slice_get project.tanks.list k ≡ Some tank
        → AreInside (stocks_next project grid standing inner seconds k tank)
        (stocks_next project grid standing outer seconds k tank)
        × HasStock (stocks_next project grid standing inner seconds k tank) }
{}

/// An inner record leaves the links after the same seconds and commanded in the same way as the outer one, where that
/// one decides it.
pub fn decisions()
    ensures { (project : Project) → IsSound project → (standing : Standing) (grid : Grid) (outer inner : Record)
        → AreNested project standing grid outer inner → (seconds : ℕ) (links : List LinkState)
        → LeavesLinks project grid standing outer seconds links
        → LeavesLinks project grid standing inner seconds links }
{}

/// The first standing of a run is tidy, and where a valid record leads on from a tidy one, so is the next.
pub fn tidied()
    ensures start { (project : Project) → IsSound project → IsTidy project (initial_standing project) }
    ensures next { (project : Project) → IsSound project → (standing : Standing) (grid : Grid) (row : Record)
        (next : Standing)
        → IsKept project standing → IsTidy project standing → IsValid project standing grid row next
        → Continues project grid standing row next → IsTidy project next }
{}

/// Where a valid record leads on, the same record with tight vectors is valid and leads on to the same standing but
/// for its stocks, which lie inside.
pub fn tightened()
    ensures { (project : Project) → IsSound project → (standing : Standing) (grid : Grid) (row : Record)
        (next : Standing)
        → IsKept project standing → IsTidy project standing → IsValid project standing grid row next
        → (tight : Record) → IsTightened project grid row tight → Continues project grid standing row next
        → IsValid project standing grid tight (record next {
          levels = levels_next project grid standing tight tight.length;
          volumes =
              volumes_next project grid standing tight tight.length;
        }) }
{}

/// At a standing with a valid record no cause of a stop holds but spent rounds.
pub fn stops()
    ensures { (project : Project) → IsSound project → (standing : Standing) (grid : Grid) (row : Record)
        (next : Standing)
        → IsKept project standing → IsTidy project standing → IsValid project standing grid row next
        → (rounds : ℕ) (cause : StopCause) → IsReason cause → Stops project standing rounds cause → ⊥ }
{}

// ---- ends, second by second

/// The first seconds of single watched levels make the earliest and the latest end: of no watched level the first
/// second is the clock's, of one more the lesser of two.
pub fn firsts()
    ensures none { (test : ReachTest) (project : Project) (grid : Grid) (standing : Standing) (row : Record) (cap : ℕ)
        → IsFirstAmong test project grid standing row cap [] cap }
    ensures one { (test : ReachTest) (project : Project) (grid : Grid) (standing : Standing) (row : Record) (cap : ℕ)
        (watch : Watch)
        (tank : Tank) (second : ℕ) → slice_get project.tanks.list watch.tank ≡ Some tank
        → IsFirstSecond (test (walls_of project tank) tank (stocks_of_tank standing watch.tank)
        (inflow_of_tank project grid row watch.tank) watch.target watch.rising) cap second
        → IsFirstSecond (watch_passes test project grid standing row watch) cap second }
    ensures more { (test : ReachTest) (project : Project) (grid : Grid) (standing : Standing) (row : Record) (cap : ℕ)
        (watch : Watch)
        (watched : List Watch) (e f : ℕ) → IsFirstSecond (watch_passes test project grid standing row watch) cap f
        → IsFirstAmong test project grid standing row cap watched e
        → IsFirstAmong test project grid standing row cap (watch ∷ watched) (min f e) }
    ensures earliest { (project : Project) (grid : Grid) (standing : Standing) (row : Record) (cap : ℕ)
        → IsClockLength project standing.time cap → (e : ℕ)
        → IsFirstAmong may_reach project grid standing row cap (watches project standing) e
        → IsEarliestEnd project grid standing row e }
    ensures latest { (project : Project) (grid : Grid) (standing : Standing) (row : Record) (cap : ℕ)
        → IsClockLength project standing.time cap → (e : ℕ)
        → IsFirstAmong must_reach project grid standing row cap (watches project standing) e
        → IsLatestEnd project grid standing row e }
{}

/// From one multiple of the rule step to the next, from the first after the start on: rules matter first where they
/// matter and mattered at no multiple before.
pub fn multiples()
    ensures start { (project : Project) (grid : Grid) (standing : Standing) (row : Record) → 1 ≤ project.times.rule
        → IsWalked project grid standing row (project.times.rule - standing.time % project.times.rule) }
    ensures on { (project : Project) (grid : Grid) (standing : Standing) (row : Record) (current : ℕ)
        → (standing.time + current) % project.times.rule ≡ 0 → (RulesMatter project grid standing row current → ⊥)
        → IsWalked project grid standing row current
        → IsWalked project grid standing row (current + project.times.rule) }
    ensures found { (project : Project) (grid : Grid) (standing : Standing) (row : Record) (current : ℕ)
        → RulesMatter project grid standing row current → IsWalked project grid standing row current
        → IsLeast (RulesMatter project grid standing row) current }
{}

// ---- nothing is missing

/// A standing at which the demands are in range has a grid.
pub fn grids()
    ensures { (project : Project) → IsSound project → (standing : Standing) → DemandsAreInRange project standing.time
        → (grid : Grid) × IsGridAt project standing grid }
{}

/// Under each record a period that doesn't begin at the end of the run ends in some way: the clock allows it a
/// length, it has an earliest and a latest end, and it is decided or open.
pub fn ends()
    ensures lengths { (project : Project) → IsSound project → (time : ℕ) → (cap : ℕ) × IsClockLength project time cap }
    ensures earliest { (project : Project) → IsSound project → (grid : Grid) (standing : Standing) (row : Record)
        → (e : ℕ) × IsEarliestEnd project grid standing row e }
    ensures latest { (project : Project) → IsSound project → (grid : Grid) (standing : Standing) (row : Record)
        → (e : ℕ) × IsLatestEnd project grid standing row e }
    ensures some { (project : Project) → IsSound project → (grid : Grid) (standing : Standing) (row : Record)
        → standing.time ≢ project.times.duration → (e : End) × EndsBy project grid standing row e }
{}

/// At each unfinished standing of a run a valid record leads on, or a cause of a stop holds, whatever the number of
/// rounds.
pub fn onward()
    ensures { (project : Project) → IsSound project → (standing : Standing) → IsKept project standing
        → standing.finished ≡ false
        → (rounds : ℕ) → LeadsSomewhere project standing ⊎ IsStopped project standing rounds }
{}
