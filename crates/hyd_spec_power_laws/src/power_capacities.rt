//! Capacities of pipes with Hazen-Williams losses.
#![tactic(auto)]

ghost use Rattle.std.specs.Prelude.{◌+◌, ◌^◌, ◌≤◌, IfSome};
ghost use Rattle.std.proofs.Props.{props};
ghost use Rattle.hyd_num.specs.BinaryNumbers.{reach};
ghost use Rattle.hyd_num.specs.Pairs.{pair_reach};
ghost use Rattle.hyd_spec_power_laws.specs.WholeFlows.{Covers};

use hyd_num::{Decimal, Pair, Scaled};

/// The numbers of a file from which a pipe's losses are reckoned. `us` says that the length is in feet and the diameter
/// in inches, against metres and millimetres.
#[derive(Debug, Clone, Copy, Drop)]
pub struct HazenWilliamsPipe {
    pub length: Decimal,
    pub diameter: Decimal,
    /// The Hazen-Williams coefficient.
    pub coefficient: Decimal,
    /// The minor loss coefficient, 0 where it has none.
    pub minor: Decimal,
    pub us: bool,
}

/// In ticks, the power 1852 of a flow is between `low` and `high` times the power 1000 of the head that its friction
/// loses; both leave room for roundings. A squared flow loses between the two ends of `minor` to fittings, and nothing
/// where it is none. All exponents lie far within 32 bits.
#[derive(Debug, Clone, Copy, Drop)]
pub struct PowerCapacity {
    pub low: Scaled,
    pub high: Scaled,
    pub minor: Option<Pair>,
    pub pipe: HazenWilliamsPipe,
    pub ghost covers: { Covers high minor },
    pub ghost near: { reach low + reach high ≤ 2 ^ 26 },
    pub ghost minor_near: { IfSome minor (λ m. pair_reach m ≤ 2 ^ 26) } by { Prim.hlevel props },
}
