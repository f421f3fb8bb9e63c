//! Demands of a period.
#![tactic(auto)]

ghost use Rattle.std.specs.Prelude.{◌≡◌, ◌⊎◌, ◌<◌, ◌≤◌, ◌+◌, ◌^◌, pos, ◌≤ℤ◌, length, true, IfOk, IfErr};
ghost use Rattle.hyd_net.specs.NetworkRanges.{HasOptions};
ghost use Rattle.hyd_net.specs.Sound.{IsSound};
ghost use Rattle.hyd_spec_certificates.specs.Valid.{DemandsAreInRange};
ghost use Rattle.hyd_spec_certificates.specs.Stops.{IsFirstDemand};
ghost use Rattle.hyd_demands_and_reservoir_heads.specs.DemandsAndHeadsByNumber.{junction_demand, IsInRange};
ghost use Rattle.hyd_demands_and_reservoir_heads.specs.DemandsAndHeadsByNumber.{IsOutOfRange};
ghost use Rattle.hyd_period_network.specs.Demands.{demand_held, IsOutLawOf, IsHeld, AreHeld, AreDemandsAt};

use crate::fault::PeriodDemand;
use hyd_capacities::pda_capacity;
use hyd_demands_and_reservoir_heads::demand_at;
use hyd_law::{Fixed, OutLaw, Pda};
use hyd_net::Project;
use hyd_units::pressure_ticks;

// The law of a demand above 0 that depends on the pressure.
fn driven_law(project: &Project, demand: i64) -> OutLaw
    requires options { HasOptions project.now.options project.now.patterns.list }
    requires driven { project.now.options.pda ≡ true }
    requires demanded { pos 1 ≤ℤ demand }
    requires in_range { IsInRange demand }
    ensures law { IsOutLawOf project.now demand result }
    ensures held { demand_held result ≡ demand }
{
    let minimum = project.options.p0;
    let required = project.options.pf;
    let us = project.options.unit.is_us();
    OutLaw::Pda(Pda {
        demand,
        cap: pda_capacity(demand, minimum, required, us),
        p0: pressure_ticks(minimum, us),
        pf: pressure_ticks(required, us),
        minimum,
        required,
        us,
    })
}

// The law of a demand.
fn out_law(project: &Project, demand: i64) -> OutLaw
    requires options { HasOptions project.now.options project.now.patterns.list }
    requires in_range { IsInRange demand }
    ensures law { IsOutLawOf project.now demand result }
    ensures held { demand_held result ≡ demand }
{
    if project.options.pda && demand > 0 {
        return driven_law(project, demand);
    }
    OutLaw::Fixed(Fixed { demand })
}

fn demand_held(law: &OutLaw) -> i64
    ensures { result ≡ demand_held law.now }
{
    match law {
        OutLaw::Fixed(law) => law.demand,
        OutLaw::Pda(law) => law.demand,
    }
}

/// Makes a law that of a demand. Where it is, nothing is written.
pub(crate) fn set_demand(project: &Project, demand: i64, law: &mut OutLaw)
    requires options { HasOptions project.now.options project.now.patterns.list }
    requires in_range { IsInRange demand }
    requires held { IsHeld project.now law.old }
    ensures law { IsOutLawOf project.now demand law.new }
    ensures held { demand_held law.new ≡ demand }
{
    if demand_held(law) != demand {
        *law = out_law(project, demand);
    }
}

// The demand of a junction at a time, where it is in range.
fn demand_in_range(project: &Project, junction: usize, time: u32) -> Result<i64, PeriodDemand>
    requires sound { IsSound project.now }
    requires junction { junction < length project.now.junctions.list }
    ensures ok { IfOk result (λ q. q ≡ junction_demand project.now time junction) }
    ensures within { IfOk result (λ q. IsInRange q) }
    ensures place { IfErr result (λ fault. fault.junction ≡ junction) }
    ensures err { IfErr result (λ fault. fault.value ≡ junction_demand project.now time junction) }
    ensures beyond { IfErr result (λ fault. IsOutOfRange fault.value) }
{
    match demand_at(project, junction as u32, time) {
        Ok(demand) => Ok(demand),
        Err(range) => Err(PeriodDemand {
            junction: junction as u32,
            value: range.value,
        }),
    }
}

// One more junction that keeps its demand, where all before it do.
fn kept_with(kept: usize, junction: usize, held: i64, demand: i64) -> usize
    requires { kept + 1 < 2 ^ 64 }
    ensures { (result ≡ kept) ⊎ ((kept ≡ junction) × ((held ≡ demand) × (result ≡ kept + 1))) }
{
    if kept == junction && held == demand {
        return kept + 1;
    }
    kept
}

/// How many junctions keep the demands that their laws hold, before the first whose demand at a time is another one.
/// Fails with the first junction whose demand is out of range.
pub(crate) fn kept_demands(
    project: &Project,
    time: u32,
    demands: &[OutLaw],
) -> Result<usize, PeriodDemand>
    requires sound { IsSound project.now }
    requires each { length demands.now ≡ length project.now.junctions.list }
    requires held { AreHeld project.now demands.now }
    ensures kept { IfOk result (λ n. AreDemandsAt project.now time demands.now n) }
    ensures few { IfOk result (λ n. n ≤ length demands.now) }
    ensures in_range { IfOk result (λ n. DemandsAreInRange project.now time) }
    ensures refused { IfErr result (λ fault. IsFirstDemand project.now time fault.junction fault.value) }
{
    let mut kept = 0;
    for i in 0..demands.len() {
        let demand = demand_in_range(project, i, time)?;
        kept = kept_with(kept, i, demand_held(&demands[i]), demand);
    }
    Ok(kept)
}

/// Makes the law of each junction's demand that of its demand at a time, from the first on whose demand changes. A
/// capacity is made anew only where the demand is another.
pub(crate) fn set_demands(project: &Project, time: u32, kept: usize, demands: &mut [OutLaw])
    requires sound { IsSound project.now }
    requires in_range { DemandsAreInRange project.now time }
    requires each { length demands.old ≡ length project.now.junctions.list }
    requires held { AreHeld project.now demands.old }
    requires kept { AreDemandsAt project.now time demands.old kept }
    requires few { kept ≤ length demands.old }
    ensures count { length demands.new ≡ length demands.old }
    ensures held { AreHeld project.now demands.new }
    ensures set { AreDemandsAt project.now time demands.new (length project.now.junctions.list) }
{
    for i in kept..demands.len() {
        let Ok(demand) = demand_at(project, i as u32, time) else {
            unreachable!()
        };
        set_demand(project, demand, &mut demands[i]);
    }
}
