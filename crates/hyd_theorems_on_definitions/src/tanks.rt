//! Laws of intervals of stocks. Beside them, what runs need of tanks is only that levels stay within their bounds.
#![tactic(auto)]

ghost use Rattle.std.specs.Prelude.{◌≡◌, ◌<◌, ◌≤◌, ◌≤ℤ◌, ◌<ℤ◌, ◌||◌, ℕ, ℤ, Bool, true, false, List, Some};
ghost use Rattle.hyd_num.specs.Rational.{Rational, is_at_most};
ghost use Rattle.hyd_net.specs.Curves.{value_at, volume_at, volume_knots, IsVolumeCurve};
ghost use Rattle.hyd_net.specs.Sound.{IsSound};
ghost use Rattle.hyd_spec.specs.ProgramTypes.{Project, Tank, VolumePoint};
ghost use Rattle.hyd_spec.specs.declared.TankState.{TankState};
ghost use Rattle.hyd_spec.specs.Lists.{Each};
ghost use Rattle.hyd_spec_certificates.specs.Interval.{Interval};
ghost use Rattle.hyd_spec.specs.Tank.{Walls, Curve, walls_of, Stock, level_bounds, content_bounds, level_on_curve};
ghost use Rattle.hyd_spec.specs.Tank.{exact_content, carried_level, reaches, has_reached, IsNextStock, tank_state};
ghost use Rattle.hyd_spec_certificates.specs.Stocks.{Stocks, carried_levels, next_stocks, state_of, may_reach};
ghost use Rattle.hyd_spec_certificates.specs.Stocks.{must_reach};
ghost use Rattle.hyd_spec_certificates.specs.FirstSeconds.{IsFirstSecond};
ghost use Rattle.hyd_theorems_on_definitions.specs.LyingInIntervals.{in_parts, LiesIn, LiesAround, StockLies};
ghost use Rattle.hyd_theorems_on_definitions.specs.SoundTanks.{IsVessel};
ghost use Rattle.hyd_theorems_on_definitions.specs.LyingInIntervals.{IsInside};
ghost use Rattle.hyd_theorems_on_definitions.specs.LyingInIntervals.{AreInside};
ghost use Rattle.hyd_theorems_on_definitions.specs.LyingInIntervals.{IsWithin, HasStock};

/// The tanks of a sound network hold water, and their bounds are in order.
pub fn vessels()
    ensures { (project : Project) → IsSound project → Each project.tanks.list
        (λ k tank. IsVessel (walls_of project tank) tank) }
{}

/// Each stock with which a next period may begin lies in the next stocks, lesser stocks lead into lesser ones, and
/// stocks that are there lead into stocks that are.
pub fn next_stock()
    ensures holds { (S : ℕ) (walls : Walls) (tank : Tank) (stocks : Stocks) (inflow : Interval) (seconds : ℕ)
        (stock : Stock)
        (q : ℤ) (next : Stock) → 0 < S → IsVessel walls tank → StockLies S stocks stock → LiesIn S inflow q
        → IsNextStock S walls tank stock q seconds next → StockLies S (next_stocks walls tank stocks inflow seconds)
        next }
    ensures nests { (walls : Walls) (tank : Tank) (stocks wider : Stocks) (inflow more : Interval) (seconds : ℕ)
        → IsVessel walls tank
        → AreInside stocks wider → IsInside inflow more
        → AreInside (next_stocks walls tank stocks inflow seconds) (next_stocks walls tank wider more seconds) }
    ensures bounded { (walls : Walls) (tank : Tank) (stocks : Stocks) (inflow : Interval) (seconds : ℕ)
        → IsVessel walls tank
        → IsWithin (level_bounds tank) (next_stocks walls tank stocks inflow seconds).level }
    ensures bounded_volumes { (points : List VolumePoint) (tank : Tank) (stocks : Stocks) (inflow : Interval)
        (seconds : ℕ)
        → IsVessel (Curve points) tank
        → IsWithin (content_bounds (Curve points) tank) (next_stocks (Curve points) tank stocks inflow seconds).volume }
    ensures there { (walls : Walls) (tank : Tank) (stocks : Stocks) (inflow : Interval) (seconds : ℕ)
        → IsVessel walls tank
        → HasStock stocks → inflow.lo ≤ℤ inflow.hi → HasStock (next_stocks walls tank stocks inflow seconds) }
{}

/// Each carried level lies in the interval of carried levels, lesser stocks have lesser intervals, and stocks that are
/// there have some carried level.
pub fn carried()
    ensures holds { (S : ℕ) (walls : Walls) (tank : Tank) (stocks : Stocks) (inflow : Interval) (seconds : ℕ)
        (stock : Stock)
        (q : ℤ) → 0 < S → IsVessel walls tank → StockLies S stocks stock → LiesIn S inflow q
        → LiesAround S (carried_levels walls tank stocks inflow seconds) (carried_level S walls tank stock q seconds) }
    ensures nests { (walls : Walls) (tank : Tank) (stocks wider : Stocks) (inflow more : Interval) (seconds : ℕ)
        → IsVessel walls tank
        → AreInside stocks wider → IsInside inflow more
        → IsInside (carried_levels walls tank stocks inflow seconds) (carried_levels walls tank wider more seconds) }
    ensures bounded { (walls : Walls) (tank : Tank) (stocks : Stocks) (inflow : Interval) (seconds : ℕ)
        → IsVessel walls tank
        → IsWithin (level_bounds tank) (carried_levels walls tank stocks inflow seconds) }
    ensures there { (walls : Walls) (tank : Tank) (stocks : Stocks) (inflow : Interval) (seconds : ℕ)
        → IsVessel walls tank
        → HasStock stocks → inflow.lo ≤ℤ inflow.hi
        → (carried_levels walls tank stocks inflow seconds).lo ≤ℤ (carried_levels walls tank stocks inflow seconds).hi }
{}

/// The state that both ends of a level interval have is that of each level between them, and of
/// each interval inside that has a number.
pub fn states()
    ensures holds { (S : ℕ) (tank : Tank) (level : Interval) (z : ℤ) (s : TankState) → 0 < S → LiesIn S level z
        → state_of tank level ≡ Some s → tank_state S tank z ≡ s }
    ensures nests { (tank : Tank) (level wider : Interval) (s : TankState) → level.lo ≤ℤ level.hi → IsInside level wider
        → state_of tank wider ≡ Some s → state_of tank level ≡ Some s }
{}

/// Along a volume curve the level at a volume is at least a target exactly where the volume is at least that at the
/// target, and at most it exactly where the volume is at most that. The carried level is the maximum exactly where the
/// exact volume is at least that of the maximum, and has risen to a target above the minimum where the volume is that,
/// or is at least the one at the target.
pub fn curve_levels()
    ensures rising { (S : ℕ) (points : List VolumePoint) (x : Rational) (t : ℤ) → 0 < S → 0 < x.den
        → IsVolumeCurve points
        → reaches S true t (level_on_curve S points x) ≡ is_at_most (in_parts S (value_at 1 (volume_knots points) t))
        x }
    ensures falling { (S : ℕ) (points : List VolumePoint) (x : Rational) (t : ℤ) → 0 < S → 0 < x.den
        → IsVolumeCurve points
        → reaches S false t (level_on_curve S points x) ≡ is_at_most x
        (in_parts S (value_at 1 (volume_knots points) t)) }
    ensures maximum { (S : ℕ) (points : List VolumePoint) (tank : Tank) (stock : Stock) (q : ℤ) (seconds : ℕ) → 0 < S
        → IsVolumeCurve points → tank.minimum <ℤ tank.maximum
        → has_reached S (Curve points) tank stock q true tank.maximum seconds
        ≡ reaches S true tank.maximum (carried_level S (Curve points) tank stock q seconds) }
    ensures risen { (S : ℕ) (points : List VolumePoint) (tank : Tank) (stock : Stock) (q t : ℤ) (seconds : ℕ) → 0 < S
        → IsVolumeCurve points → tank.minimum <ℤ t → t ≤ℤ tank.maximum
        → reaches S true t (carried_level S (Curve points) tank stock q seconds)
        ≡ (reaches S true (volume_at points tank.maximum) (exact_content (Curve points) stock q seconds)
        || is_at_most (in_parts S (value_at 1 (volume_knots points) t))
        (exact_content (Curve points) stock q seconds)) }
{}

/// The first second at which a tank reaches a target lies between the earliest and the latest one
/// of its stocks and inflow, or is the cap; lesser stocks and inflows have both inside.
pub fn seconds()
    ensures holds { (S : ℕ) (walls : Walls) (tank : Tank) (stocks : Stocks) (inflow : Interval) (target : ℤ)
        (rising : Bool)
        (cap : ℕ) (stock : Stock) (q : ℤ) (earliest latest first : ℕ) → 0 < S → IsVessel walls tank
        → StockLies S stocks stock → LiesIn S inflow q
        → IsFirstSecond (may_reach walls tank stocks inflow target rising) cap earliest
        → IsFirstSecond (must_reach walls tank stocks inflow target rising) cap latest
        → IsFirstSecond (has_reached S walls tank stock q rising target) cap first
        → (earliest ≤ first) × (first ≤ latest) }
    ensures nests { (walls : Walls) (tank : Tank) (stocks wider : Stocks) (inflow more : Interval) (target : ℤ)
        (rising : Bool)
        (cap earliest latest sooner later : ℕ) → IsVessel walls tank → AreInside stocks wider → IsInside inflow more
        → IsFirstSecond (may_reach walls tank stocks inflow target rising) cap earliest
        → IsFirstSecond (must_reach walls tank stocks inflow target rising) cap latest
        → IsFirstSecond (may_reach walls tank wider more target rising) cap sooner
        → IsFirstSecond (must_reach walls tank wider more target rising) cap later
        → (sooner ≤ earliest) × (latest ≤ later) }
{}
