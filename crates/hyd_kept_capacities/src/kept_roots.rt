//! The power 5.33 of diameters, made once for each of the first few.
#![tactic(auto)]

ghost use Rattle.std.specs.Prelude.{◌≡◌, ◌≤◌, ◌<◌, ◌^◌, ◌*◌, pos, ◌<ℤ◌, IfSome};
ghost use Rattle.hyd_num.specs.FileQuantity.{billionths, feet_across};
ghost use Rattle.hyd_num.specs.Pairs.{pair_reach};
ghost use Rattle.hyd_num.specs.CapacityPairs.{IsPairOf};
ghost use Rattle.hyd_kept_capacities.specs.DiameterRoots.{IsRootOf};

use hyd_num::{Decimal, Pair, TEN_THOUSANDTHS_OF_METRE_IN_FOOT, ratio, root533};
use std::alloc::Global;
use std::marker::Model;

// A billion feet in ten-thousandths of a metre.
const BILLION: u128 = 1_000_000_000;

const BILLION_FEET: u128 = TEN_THOUSANDTHS_OF_METRE_IN_FOOT as u128 * BILLION;

// A network has few diameters; past so many they aren't kept.
const MOST_KEPT: usize = 64;

// The power 5.33 of a diameter.
#[derive(Clone, Copy, Drop)]
struct KeptRoot {
    diameter: Decimal,
    us: bool,
    root: Pair,
}

/// The power 5.33 of the diameters that came first. Contracts see how many there are.
#[derive(Drop)]
pub(crate) struct KeptRoots {
    kept: Vec<KeptRoot>,
}

impl Model for KeptRoots {
    ghost use Rattle.std.specs.Prelude.{ℕ, length};
    ghost use Rattle.std.specs.List.{All};
    ghost use Rattle.hyd_kept_capacities.specs.DiameterRoots.{IsRootOf};

    ghost Value = { ℕ };

    ghost view = { λ roots. length roots.kept.items };

    ghost invariant = { λ roots. All (λ k. IsRootOf k.diameter k.us k.root) roots.kept.items };
}

// A diameter in feet.
fn diameter_in_feet(diameter: Decimal, us: bool) -> Pair
    requires { pos 0 <ℤ diameter.nano }
    ensures value { IsPairOf (feet_across us (billionths diameter)) result }
    ensures near { pair_reach result ≤ 2 ^ 10 }
{
    let nano = diameter.nano.unsigned_abs();
    if us {
        return ratio(nano, 12 * BILLION);
    }
    ratio(10 * nano, BILLION_FEET)
}

fn root_of(diameter: Decimal, us: bool) -> KeptRoot
    requires { pos 0 <ℤ diameter.nano }
    ensures diameter { result.diameter ≡ diameter }
    ensures us { result.us ≡ us }
    ensures root { IsRootOf diameter us result.root }
{
    let root = root533(diameter_in_feet(diameter, us));
    KeptRoot { diameter, us, root }
}

impl KeptRoots {
    /// None yet. It takes no memory.
    pub(crate) fn new(alloc: Global) -> KeptRoots {
        KeptRoots {
            kept: Vec::new(alloc),
        }
    }

    fn find(&self, diameter: Decimal, us: bool) -> Option<KeptRoot>
        ensures diameter { IfSome result (λ found. found.diameter ≡ diameter) }
        ensures us { IfSome result (λ found. found.us ≡ us) }
        ensures root { IfSome result (λ found. IsRootOf found.diameter found.us found.root) }
    {
        for place in 0..self.kept.len() {
            let kept = self.kept[place];
            if kept.diameter == diameter && kept.us == us {
                return Some(kept);
            }
        }
        None
    }

    /// The power 5.33 of a diameter in feet, kept where there is memory for it.
    pub(crate) fn root(&mut self, diameter: Decimal, us: bool) -> Pair
        requires { pos 0 <ℤ diameter.nano }
        ensures { IsRootOf diameter us result }
    {
        if let Some(found) = self.find(diameter, us) {
            return found.root;
        }
        let made = root_of(diameter, us);
        if self.kept.len() < MOST_KEPT {
            let _ = self.kept.push(made);
        }
        made.root
    }
}
