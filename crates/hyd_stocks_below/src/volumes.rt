//! Volumes after some seconds, rounded down.
#![tactic(auto)]

ghost use Rattle.std.specs.Prelude.{◌≡◌, ◌*◌, ◌^◌, ◌≤◌, pos, ◌+ℤ◌, ◌*ℤ◌, ◌≤ℤ◌, List, unsigned_abs};
ghost use Rattle.std.specs.Int.{int_max, int_min};
ghost use Rattle.hyd_num.specs.Rational.{floor};
ghost use Rattle.hyd_net.specs.Curves.{volume_at};
ghost use Rattle.hyd_spec.specs.ProgramTypes.{Tank, VolumePoint};
ghost use Rattle.hyd_spec.specs.Tank.{Curve};
ghost use Rattle.hyd_spec_witnesses.specs.MiddleCandidate.{content_below};
ghost use Rattle.hyd_stocks_at_scale.specs.Motions.{IsSmallStock, stock_of, content_limit, inflow_limit};

use hyd_stocks_at_scale::Stock;
use hyd_tank::VolumeSpan;

/// How many shares a half of a volume tick has: half a flow tick for a second is one of them.
const SHARES: i128 = 864;

/// A number of ticks in halves.
pub(crate) fn in_halves(ticks: i64) -> i128
    requires { unsigned_abs ticks ≤ 10 ^ 18 }
    ensures value { result ≡ pos 2 *ℤ ticks }
    ensures small { unsigned_abs result ≤ 2 * 10 ^ 18 }
{
    2 * i128::from(ticks)
}

// What a flow adds in some seconds, in shares.
fn gained(seconds: u32, inflow: i128) -> i128
    requires { unsigned_abs inflow ≤ inflow_limit }
    ensures value { result ≡ pos seconds *ℤ inflow }
    ensures small { unsigned_abs result ≤ 10 ^ 37 }
{
    i128::from(seconds) * inflow
}

// The volume after some seconds, in shares.
fn shares_after(stock: Stock, inflow: i128, seconds: u32) -> i128
    requires stock { IsSmallStock stock }
    requires inflow { unsigned_abs inflow ≤ inflow_limit }
    ensures value { result ≡ (pos 864 *ℤ stock.volume) +ℤ (pos seconds *ℤ inflow) }
    ensures small { unsigned_abs result ≤ 2 * 10 ^ 37 }
{
    let gained = gained(seconds, inflow);
    SHARES * stock.volume + gained
}

// The whole volume of so many shares.
fn whole_volume(shares: i128) -> i128
    requires { unsigned_abs shares ≤ 2 * 10 ^ 37 }
    ensures { result ≡ floor (record { num = shares; den = 864 }) }
{
    shares.div_euclid(SHARES)
}

// A number held from a least to a greatest one.
fn held(number: i128, least: i128, most: i128) -> i128
    requires most { unsigned_abs most ≤ 2 * 10 ^ 18 }
    requires least { unsigned_abs least ≤ 2 * 10 ^ 18 }
    ensures value { result ≡ int_min (int_max number least) most }
    ensures small { unsigned_abs result ≤ content_limit }
{
    number.max(least).min(most)
}

/// The volume of a tank with a volume curve after some seconds, held within its bounds and rounded down to halves of
/// volume ticks.
pub(crate) fn volume_below(volumes: VolumeSpan, stock: Stock, inflow: i128, seconds: u32) -> i128
    requires least { unsigned_abs volumes.lo ≤ 10 ^ 18 }
    requires most { unsigned_abs volumes.hi ≤ 10 ^ 18 }
    requires stock { IsSmallStock stock }
    requires inflow { unsigned_abs inflow ≤ inflow_limit }
    ensures value { (points : List VolumePoint) (tank : Tank) → volumes.lo ≡ volume_at points tank.minimum
        → volumes.hi ≡ volume_at points tank.maximum → volumes.lo ≤ℤ volumes.hi
        → result ≡ content_below (Curve points) tank (stock_of stock) inflow seconds }
    ensures small { unsigned_abs result ≤ content_limit }
{
    let shares = shares_after(stock, inflow, seconds);
    let volume = whole_volume(shares);
    let least = in_halves(volumes.lo);
    let most = in_halves(volumes.hi);
    held(volume, least, most)
}
