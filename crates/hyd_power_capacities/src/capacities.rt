//! The capacity that a pipe's numbers make (EPANET 2.2 User Manual, Analysis Algorithms).
#![tactic(auto)]

ghost use Rattle.std.specs.Prelude.{◌≡◌, ◌≤◌, ◌*◌, ◌^◌, pos, ◌<ℤ◌, IfOk, IfSome, OnOk, OnErr};
ghost use Rattle.hyd_num.specs.FileQuantity.{billionths};
ghost use Rattle.hyd_num.specs.BinaryNumbers.{reach};
ghost use Rattle.hyd_num.specs.Pairs.{pair_reach};
ghost use Rattle.hyd_num.specs.CapacityPairs.{IsMinorPair};
ghost use Rattle.hyd_spec_power_laws.specs.PowerCapacities.{IsCarried, IsDragged, IsConstant, IsMinorTicks};
ghost use Rattle.hyd_spec_power_laws.specs.PowerCapacities.{IsMinorWith};
ghost use Rattle.hyd_spec_power_laws.specs.PowerCapacities.{IsLessened, IsRaised, IsMade, IsRefused};

use crate::file_numbers::{FOOT, as_pair, diameter_in_feet, flow_unit, length_in_feet};
use hyd_num::{Decimal, Pair, Scaled, div, mul, pow, ratio};
use hyd_power_laws::covers;
use hyd_spec_power_laws::{HazenWilliamsPipe, PowerCapacity};
use thiserror::Error;

// The part by which both ends of a constant leave room for roundings.
const MARGIN: u128 = 1 << 49;

/// The numbers of a pipe stand for a capacity by which not each difference of heads has a flow of at most 2^62 ticks.
#[derive(Debug, Clone, Copy, Drop, Error)]
#[error("a capacity out of range")]
pub struct PowerRange;

/// The capacity of a pipe: with its length L and diameter d in feet and its coefficient C it loses
/// `4.727 C^-1.852 d^-4.871 L q^1.852 + 0.02517 K d^-4 q^2` feet for `q` cubic feet a second. Fails exactly where the
/// greatest flow, of 2^62 ticks, isn't known to lose the greatest difference of heads, of 3 * 10^18 ticks.
pub fn hazen_williams_capacity(pipe: HazenWilliamsPipe) -> Result<PowerCapacity, PowerRange>
    requires length { pos 0 <ℤ pipe.length.nano }
    requires diameter { pos 0 <ℤ pipe.diameter.nano }
    requires coefficient { pos 0 <ℤ pipe.coefficient.nano }
    ensures pipe { IfOk result (λ c. c.pipe ≡ pipe) }
    ensures made { IfOk result (λ c. IsMade c) }
    ensures accepted { OnOk result (¬ IsRefused pipe) }
    ensures refused { OnErr result (IsRefused pipe) }
{
    let constant = constant(pipe.length, pipe.diameter, pipe.coefficient, pipe.us);
    let low = lessened(constant);
    let high = raised(constant);
    let minor = minor(pipe.diameter, pipe.minor, pipe.us);
    if !covers(high, minor) {
        return Err(PowerRange);
    }
    Ok(PowerCapacity {
        low,
        high,
        minor,
        pipe,
    })
}

// The constant of powers.
fn constant(length: Decimal, diameter: Decimal, coefficient: Decimal, us: bool) -> Pair
    requires length { pos 0 <ℤ length.nano }
    requires diameter { pos 0 <ℤ diameter.nano }
    requires coefficient { pos 0 <ℤ coefficient.nano }
    ensures value { IsConstant length diameter coefficient us result }
    ensures near { pair_reach result ≤ 2 ^ 24 }
{
    div(carried(diameter, coefficient, us), dragged(length, us))
}

// The flow at which as many cubic feet a second flow as the coefficient, to the power 1852, times that of the diameter.
fn carried(diameter: Decimal, coefficient: Decimal, us: bool) -> Pair
    requires diameter { pos 0 <ℤ diameter.nano }
    requires coefficient { pos 0 <ℤ coefficient.nano }
    ensures value { IsCarried diameter coefficient us result }
    ensures near { pair_reach result ≤ 9 * 10 ^ 6 }
{
    let flow = mul(flow_unit(), as_pair(coefficient));
    mul(pow(flow, 1852), pow(diameter_in_feet(diameter, us), 4871))
}

// 4.727 times the length, in head ticks, to the power 1000.
fn dragged(length: Decimal, us: bool) -> Pair
    requires { pos 0 <ℤ length.nano }
    ensures value { IsDragged length us result }
    ensures near { pair_reach result ≤ 4 * 10 ^ 6 }
{
    let drag = mul(ratio(4727, 1000), length_in_feet(length, us));
    pow(mul(drag, ratio(FOOT, 1)), 1000)
}

// The head ticks that a squared flow tick loses to fittings, none where the coefficient isn't above 0.
fn minor(diameter: Decimal, k: Decimal, us: bool) -> Option<Pair>
    requires { pos 0 <ℤ diameter.nano }
    ensures value { IsMinorWith (billionths k) diameter k us result }
    ensures near { IfSome result (λ m. pair_reach m ≤ 2 ^ 26) }
{
    if k.nano > 0 {
        return Some(minor_ticks(diameter, k, us));
    }
    None
}

fn minor_ticks(diameter: Decimal, k: Decimal, us: bool) -> Pair
    requires diameter { pos 0 <ℤ diameter.nano }
    requires k { pos 0 <ℤ k.nano }
    ensures value { IsMinorTicks diameter k us result }
    ensures near { pair_reach result ≤ 2 ^ 14 }
{
    let ticks = mul(minor_loss(diameter, k, us), ratio(FOOT, 1));
    let unit = flow_unit();
    div(ticks, mul(unit, unit))
}

// The feet lost to fittings at one cubic foot a second.
fn minor_loss(diameter: Decimal, k: Decimal, us: bool) -> Pair
    requires diameter { pos 0 <ℤ diameter.nano }
    requires k { pos 0 <ℤ k.nano }
    ensures value { IsMinorPair diameter k us result }
    ensures near { pair_reach result ≤ 2 ^ 13 }
{
    let scaled = mul(ratio(2517, 100_000), as_pair(k));
    div(scaled, pow(diameter_in_feet(diameter, us), 4))
}

fn lessened(constant: Pair) -> Scaled
    requires { pair_reach constant ≤ 2 ^ 24 }
    ensures value { IsLessened constant result }
    ensures near { reach result ≤ 2 ^ 25 }
{
    mul(constant, ratio(MARGIN - 1, MARGIN)).lo
}

fn raised(constant: Pair) -> Scaled
    requires { pair_reach constant ≤ 2 ^ 24 }
    ensures value { IsRaised constant result }
    ensures near { reach result ≤ 2 ^ 25 }
{
    mul(constant, ratio(MARGIN + 1, MARGIN)).hi
}
