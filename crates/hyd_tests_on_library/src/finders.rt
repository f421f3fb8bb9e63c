//! Finders that tell their vectors, that propose nothing, and that lead astray.

ghost use Rattle.std.specs.Prelude.{◌∷◌, [], None, Some};

use crate::finder_proposals::{IDLE, IDLE_TIGHT};
use crate::vectors::{Vectors, finds};
use hyd_finders::{Finder, Null};
use hyd_period_network::Net;
use hyd_spec_certificates::{Problem, Side};
use hyd_test_helpers::METRE;
use std::test::Fail;

/// Tells the list of one head for UPPER and one for LOWER: the vectors of a network with one junction and no tank.
#[derive(Clone, Copy, Drop)]
struct Told {
    upper: i64,
    lower: i64,
}

impl Finder for Told {
    ghost told = { λ t. Some (t.upper ∷ t.lower ∷ []) };

    fn propose(&mut self, _net: &Net, _problem: Problem, side: Side, out: &mut [i64]) {
        let head = match side {
            Side::Upper => self.upper,
            Side::Lower => self.lower,
        };
        if out.len() == 1 {
            out.copy_from_slice(&[head]);
        }
    }

    /// Proposes no start.
    fn start(
        &mut self,
        _net: &Net,
        _problem: Problem,
        _side: Side,
        _out: &mut [i64],
        _order: &mut [u32],
    ) -> bool {
        false
    }
}

/// Proposes nothing, but names the start all the same, with an order of one junction that there isn't.
#[derive(Clone, Copy, Drop)]
struct Astray;

impl Finder for Astray {
    ghost told = { λ a. None };

    fn propose(&mut self, _net: &Net, _problem: Problem, _side: Side, _out: &mut [i64]) {}

    /// Says that it proposes a start, and leaves the heads as they are.
    fn start(
        &mut self,
        _net: &Net,
        _problem: Problem,
        _side: Side,
        _out: &mut [i64],
        order: &mut [u32],
    ) -> bool {
        for place in 0..order.len() {
            order[place] = u32::MAX;
        }
        true
    }
}

#[test]
fn a_list_that_is_told_is_the_record(rt: HostRuntime) -> Result<(), Fail> {
    let finder = Told {
        upper: 100 * METRE + 3,
        lower: 100 * METRE - 4,
    };
    let wanted = Vectors {
        upper: &[100 * METRE + 3],
        lower: &[100 * METRE - 4],
    };
    assert!(rt; finds(rt.alloc(), IDLE, false, finder, wanted));
    Ok(())
}

#[test]
fn a_certificate_that_is_told_stands_beside_one_that_isnt(rt: HostRuntime) -> Result<(), Fail> {
    let finder = Told {
        upper: 100 * METRE + 3,
        lower: 100 * METRE,
    };
    let wanted = Vectors {
        upper: &[100 * METRE + 3],
        lower: &[100 * METRE - 1],
    };
    assert!(rt; finds(rt.alloc(), IDLE, false, finder, wanted));
    Ok(())
}

#[test]
fn a_finder_that_proposes_nothing_leads_to_tight_vectors(rt: HostRuntime) -> Result<(), Fail> {
    assert!(rt; finds(rt.alloc(), IDLE, true, Null, IDLE_TIGHT));
    assert!(rt; finds(rt.alloc(), IDLE, false, Null, IDLE_TIGHT));
    Ok(())
}

#[test]
fn a_finder_that_leads_astray_leads_to_tight_vectors(rt: HostRuntime) -> Result<(), Fail> {
    assert!(rt; finds(rt.alloc(), IDLE, true, Astray, IDLE_TIGHT));
    assert!(rt; finds(rt.alloc(), IDLE, false, Astray, IDLE_TIGHT));
    Ok(())
}
