//! The heads where sweeps begin: all at the floor of the box for UPPER, all at its ceiling for LOWER.
#![tactic(auto)]

ghost use Rattle.std.specs.Prelude.{◌≡◌, length, Option};
ghost use Rattle.hyd_spec_certificates.specs.declared.Problem.{Problem};
ghost use Rattle.hyd_spec_certificates.specs.declared.HeldJunction.{HeldJunction};
ghost use Rattle.hyd_spec_certificates.specs.PeriodNetwork.{Grid};
ghost use Rattle.hyd_spec_certificates.specs.StartsRaisesAndLeaps.{IsStart};
ghost use Rattle.hyd_spec_certificates.specs.TurnsOfProblems.{beginning};
ghost use Rattle.hyd_theorems_on_definitions.specs.Sides.{near_end};

use hyd_spec_certificates::{BOX_LIMIT, Side};

fn near_end(side: Side) -> i64
    ensures { result ≡ near_end side }
{
    match side {
        Side::Upper => -BOX_LIMIT,
        Side::Lower => BOX_LIMIT,
    }
}

/// Puts every head where a sweep may begin in any case: to the floor of the box for UPPER, to its ceiling for LOWER.
pub fn begin(side: Side, u: &mut [i64])
    ensures heads { u.new ≡ beginning side (length u.old) }
    ensures start { (held : Option HeldJunction) (grid : Grid) (problem : Problem)
        → length u.old ≡ length grid.junctions → IsStart held grid problem side u.new }
{
    let end = near_end(side);
    for i in 0..u.len() {
        u[i] = end;
    }
}
