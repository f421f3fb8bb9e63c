//! How the content of a tank moves under a constant inflow: the level of a cylinder, the volume of a tank with a curve.
#![tactic(auto)]

ghost use Rattle.std.specs.Prelude.{◌≡◌, ◌*◌, ◌^◌, ◌≤◌, pos, ◌*ℤ◌, unsigned_abs};
ghost use Rattle.hyd_net.specs.NumberRanges.{Lies};
ghost use Rattle.hyd_spec.specs.Tank.{Curve};
ghost use Rattle.hyd_spec.specs.ProgramTypes.{VolumePoint};
ghost use Rattle.hyd_tank.specs.StockIntervals.{IsCylinder, cylinder};
ghost use Rattle.hyd_stocks_at_scale.specs.Motions.{IsMotion, Moves, LiesAs, exact_shares, stock_of, content_limit};
ghost use Rattle.hyd_stocks_at_scale.specs.Motions.{inflow_limit, share_limit, IsSmallStock, rate_limit, breadth_of};
ghost use Rattle.std.specs.Prelude.{List};

use hyd_net::Tank;

/// A tank's level above its bottom and, where it has a volume curve, its volume (else 0), in parts of a head tick and
/// of a volume tick.
#[derive(Clone, Copy, Drop)]
pub struct Stock {
    pub level: i128,
    pub volume: i128,
}

/// A content in shares, of which `breadth` make a part of a tick: so many at the start, and so many more each second.
#[derive(Clone, Copy, Drop)]
pub(crate) struct Motion {
    pub breadth: i128,
    pub start: i128,
    pub rate: i128,
}

/// Over so many times the area, in 10^-9 square metres, a flow tick for a second is a whole number of shares: that for
/// a day is 10^15 head ticks on 10^-9 square metres, and a day has 86,400 seconds.
const BREADTH: i128 = 27;

/// How many shares of a cylinder's level a flow tick for a second is: 10^15 of 86,400, which 3,200 divides.
const RISE: i128 = 312_500_000_000;

/// How many shares a part of a volume tick has: a flow tick for a second is one of them.
pub(crate) const SHARES: i128 = 864;

/// A content in shares.
pub(crate) fn in_shares(breadth: i128, content: i128) -> i128
    requires breadth { Lies (pos 1) (pos (3 * 10 ^ 16)) breadth }
    requires content { unsigned_abs content ≤ content_limit }
    ensures value { result ≡ breadth *ℤ content }
    ensures small { unsigned_abs result ≤ share_limit }
{
    breadth * content
}

// What a flow adds each second.
fn rate_of(rise: i128, inflow: i128) -> i128
    requires rise { Lies (pos 1) (pos 312500000000) rise }
    requires inflow { unsigned_abs inflow ≤ inflow_limit }
    ensures value { result ≡ rise *ℤ inflow }
    ensures small { unsigned_abs result ≤ rate_limit }
{
    rise * inflow
}

/// How many shares of a tank's level make a part of a tick.
pub(crate) fn breadth_of_cylinder(tank: &Tank) -> i128
    requires { IsCylinder tank.now }
    ensures value { result ≡ breadth_of (cylinder tank.now) }
    ensures range { Lies (pos 1) (pos (3 * 10 ^ 16)) result }
{
    BREADTH * i128::from(tank.area)
}

/// How the level of a tank without a volume curve moves.
pub(crate) fn motion_of_cylinder(tank: &Tank, stock: Stock, inflow: i128) -> Motion
    requires tank { IsCylinder tank.now }
    requires stock { IsSmallStock stock }
    requires inflow { unsigned_abs inflow ≤ inflow_limit }
    ensures { Moves (cylinder tank.now) (stock_of stock) inflow result }
{
    let breadth = breadth_of_cylinder(tank);
    Motion {
        breadth,
        start: in_shares(breadth, stock.level),
        rate: rate_of(RISE, inflow),
    }
}

/// How the volume of a tank with a volume curve moves.
pub(crate) fn motion_of_volume(stock: Stock, inflow: i128) -> Motion
    requires stock { IsSmallStock stock }
    requires inflow { unsigned_abs inflow ≤ inflow_limit }
    ensures { (points : List VolumePoint) → Moves (Curve points) (stock_of stock) inflow result }
{
    Motion {
        breadth: SHARES,
        start: in_shares(SHARES, stock.volume),
        rate: inflow,
    }
}

/// The shares after some seconds. Where they would pass 128 bits, they are beyond each content that a tank may have.
pub(crate) fn shares_after(motion: Motion, seconds: u32) -> i128
    requires { IsMotion motion }
    ensures { LiesAs (exact_shares motion seconds) result }
{
    let change = motion.rate.saturating_mul(i128::from(seconds));
    motion.start.saturating_add(change)
}
