//! Emitters of the outermost networks.
#![tactic(auto)]

ghost use Rattle.std.specs.Prelude.{◌≡◌, ◌<◌, ◌≤◌, ◌^◌, All, unsigned_abs, length, Option, Some, IfOk, IfErr};
ghost use Rattle.std.specs.Prelude.{IfSome, slice_get, OnOk, OnErr, [], ◌∷◌, ◌++◌};
ghost use Rattle.std.specs.List.{AllZip};
ghost use Rattle.hyd_num.specs.CapacityPairs.{IsMade};
ghost use Rattle.hyd_net.specs.NetworkRanges.{IsEmitter};
ghost use Rattle.hyd_net.specs.Sound.{IsSound};
ghost use Rattle.hyd_spec.specs.ProgramTypes.{Emitter as OfEmitter, Capacity, Junction};
ghost use Rattle.hyd_num.specs.declared.decimals.Decimal.{Decimal};
ghost use Rattle.hyd_theorems_on_definitions.specs.SoundLawsAndGrids.{IsSoundCapacity};
ghost use Rattle.hyd_spread_rows.specs.SpreadsRead.{spread_of, AreInRange};
ghost use Rattle.hyd_spec_spread.specs.NetworksWithin.{IsEmitterOf};
ghost use Rattle.hyd_spec_spread.specs.OutermostGrids.{ReachesOver, IsOutermostEmitter};
ghost use Rattle.hyd_spec_spread_rows.specs.TextsOfSpreads.{factors_from};
ghost use Rattle.hyd_spec_spread_rows.specs.RangesOfEnds.{AreFactors};
ghost use Rattle.hyd_spread_networks.specs.NetsOfSpreads.{IsOutermost, known_emitters};
ghost use Rattle.hyd_spread_networks.specs.RefusedSpreads.{IsRefusedAt, IsRefusedEmitter, IsEmitterFault};

use crate::ends::{factors_at, products};
use crate::fault::SpreadNetsRefused;
use hyd_capacities::{CapRange, emitter_capacity};
use hyd_net::ranges::GREATEST_COEFFICIENT;
use hyd_net::{OutOfMemory, Project};
use hyd_num::{Capacity, Decimal, FlowUnit, Origin};
use hyd_spec_spread_rows::Ends;
use hyd_spread_rows::SpreadRows;
use std::alloc::Global;

fn decimal(nano: i128) -> Decimal
    requires { unsigned_abs nano ≤ 10 ^ 21 }
    ensures { result.nano ≡ nano }
{
    Decimal { nano }
}

// The capacity of an emitter of a coefficient of so many billionths.
fn capacity_of(nano: i128, unit: FlowUnit) -> Result<Capacity, CapRange>
    requires { unsigned_abs nano ≤ 10 ^ 21 }
    ensures emitter { IfOk result (λ c. (own : Decimal) → IsEmitterOf (OfEmitter own unit) nano c) }
    ensures refused { OnErr result (IsRefusedAt unit nano) }
{
    if nano < 1 || nano > GREATEST_COEFFICIENT {
        return Err(CapRange);
    }
    emitter_capacity(decimal(nano), unit)
}

// The outermost emitter for the file's own and the factors of its coefficient: its capacity reaches from the least
// emitter's to the greatest one's.
fn outermost(project: &Project, own: Capacity, factors: Ends) -> Result<Capacity, CapRange>
    requires ranged { IsEmitter project.now.options.unit own.origin }
    requires made { IsMade own }
    requires factors { AreFactors factors }
    ensures reaches { IfOk result (λ c. ReachesOver (factors_from factors) own c) }
    ensures sound { IfOk result IsSoundCapacity }
    ensures refused { OnErr result (IsRefusedEmitter (factors_from factors) own) }
{
    let Origin::Emitter { coefficient, unit } = own.origin else {
        unreachable!()
    };
    let between = products(factors, coefficient.nano);
    let least = capacity_of(between.low, unit)?;
    let greatest = capacity_of(between.high, unit)?;
    Ok(Capacity {
        lo: least.lo,
        hi: greatest.hi,
        origin: own.origin,
    })
}

// The outermost emitter of a junction, or none where it has none.
fn outermost_at(
    project: &Project,
    junction: usize,
    factors: Ends,
) -> Result<Option<Capacity>, CapRange>
    requires sound { IsSound project.now }
    requires junction { junction < length project.now.junctions.list }
    requires factors { AreFactors factors }
    ensures outermost { IfOk result (λ e. (j : Junction) → slice_get project.now.junctions.list junction ≡ Some j
        → IsOutermostEmitter (factors_from factors) j.emitter e) }
    ensures sound { IfOk result (λ e. IfSome e IsSoundCapacity) }
    ensures refused { OnErr result ((j : Junction) → slice_get project.now.junctions.list junction ≡ Some j
        → (own : Capacity) × ((j.emitter ≡ Some own) × IsRefusedEmitter (factors_from factors) own)) }
{
    match project.junctions.as_slice()[junction].emitter {
        Some(own) => Ok(Some(outermost(project, own, factors)?)),
        None => Ok(None),
    }
}

fn add(emitters: &mut Vec<Option<Capacity>>, emitter: Option<Capacity>) -> Result<(), OutOfMemory>
    ensures added { OnOk result (emitters.new.items ≡ emitters.old.items ++ emitter ∷ []) }
{
    emitters.push(emitter)?;
    Ok(())
}

/// The emitters of the outermost networks, one for each junction. Fails with the first junction that has none though
/// the file gives it one.
pub(crate) fn outermost_emitters(
    alloc: Global,
    project: &Project,
    rows: &SpreadRows,
) -> Result<Vec<Option<Capacity>>, SpreadNetsRefused>
    requires sound { IsSound project.now }
    requires range { AreInRange rows.now }
    ensures outermost { IfOk result (λ v. AllZip IsOutermost (known_emitters project.now (spread_of rows.now))
        v.items) }
    ensures sound { IfOk result (λ v. All (λ (e : Option Capacity). IfSome e IsSoundCapacity) v.items) }
    ensures refused { IfErr result (IsEmitterFault project.now (spread_of rows.now)) }
{
    let mut emitters = Vec::with_capacity(alloc, project.junctions.len())?;
    for junction in 0..project.junctions.len() {
        match outermost_at(project, junction, factors_at(&rows.emitters, junction)) {
            Ok(emitter) => add(&mut emitters, emitter)?,
            Err(CapRange) => return Err(SpreadNetsRefused::Emitter(junction as u32)),
        }
    }
    Ok(emitters)
}
