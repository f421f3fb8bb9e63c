//! All that questions about a target pressure take.
#![tactic(auto)]

ghost use Rattle.std.specs.Prelude.{◌≡◌, ◌<◌, ◌≤◌, ◌^◌, length, map, unsigned_abs, Some, slice_get, IfOk, IfErr, OnOk};
ghost use Rattle.hyd_num.specs.Rational.{Rational, floor, ceiling};
ghost use Rattle.hyd_net.specs.NumberRanges.{IsHead};
ghost use Rattle.hyd_net.specs.Sound.{IsSound};
ghost use Rattle.hyd_spec_certificates.specs.Certificate.{IsInBox};
ghost use Rattle.hyd_spec_certificates.specs.Valid.{DemandsAreInRange};
ghost use Rattle.hyd_spec_certificates.specs.Stops.{IsFirstDemand};
ghost use Rattle.hyd_spec_pressure_targets.specs.FirstPeriod.{IsFirstGrid};
ghost use Rattle.hyd_period_network.specs.NetAsPeriodNetwork.{grid_of};
ghost use Rattle.hyd_first_period.specs.FirstPeriods.{IsReady};
ghost use Rattle.hyd_targets.specs.Inquiries.{IsOpen, target_for, target_of, target_pressure};
ghost use Rattle.hyd_spec.specs.ProgramTypes.{Junction};
ghost use Rattle.hyd_spec.specs.DemandsHeadsAndPumpLifts.{is_us};

use crate::target_heads::{heads_around, heads_at};
use hyd_finders::Gradient;
use hyd_fire::Study;
use hyd_first_period::FirstPeriod;
use hyd_net::{Junction, OutOfMemory, Project};
use hyd_num::{Decimal, Span};
use hyd_period_network::PeriodDemand;
use hyd_spec_certificates::LevelSpan;
use std::alloc::Global;

/// Questions about a target pressure in the first period of a network, with all the memory that they take.
#[derive(Drop)]
pub struct Inquiry {
    pub(crate) first: FirstPeriod,
    pub(crate) study: Study,
    pub(crate) finder: Gradient,
    /// The pressure, in the file's unit.
    pub(crate) pressure: Decimal,
    /// The whole heads around it at each junction.
    pub(crate) targets: Vec<LevelSpan>,
}

// The whole heads around a pressure at a junction.
fn target_at(junction: &Junction, pressures: Span) -> LevelSpan
    requires elevation { IsHead junction.now.elevation }
    requires lo { unsigned_abs pressures.lo ≤ 10 ^ 17 }
    requires hi { unsigned_abs pressures.hi ≤ 10 ^ 17 }
    ensures { (target : Rational) → pressures.lo ≡ floor target → pressures.hi ≡ ceiling target
        → result ≡ target_of target junction.now }
{
    heads_at(junction.elevation, pressures)
}

/// The whole heads (head ticks) around a pressure at each junction, in order. The pressure is at most 10^4 in
/// magnitude, in the file's unit. Fails where memory is wanting.
pub fn targets_at(
    alloc: Global,
    project: &Project,
    pressure: Decimal,
) -> Result<Vec<LevelSpan>, OutOfMemory>
    requires sound { IsSound project.now }
    requires small { unsigned_abs pressure.nano ≤ 10 ^ 13 }
    ensures { IfOk result (λ targets. targets.items
        ≡ map (target_of (target_pressure (is_us project.now) pressure.nano)) project.now.junctions.list) }
{
    let pressures = heads_around(pressure, project.options.unit.is_us());
    let junctions = project.junctions.as_slice();
    let mut targets = Vec::new(alloc);
    for place in 0..junctions.len() {
        targets.push(target_at(&junctions[place], pressures))?;
    }
    Ok(targets)
}

impl Inquiry {
    /// Takes the memory. The pressure is at most 10^4 in magnitude, in the file's unit.
    pub fn open(alloc: Global, project: &Project, pressure: Decimal) -> Result<Inquiry, OutOfMemory>
        requires sound { IsSound project.now }
        requires small { unsigned_abs pressure.nano ≤ 10 ^ 13 }
        ensures open { IfOk result (IsOpen project.now) }
        ensures pressure { IfOk result (λ inquiry. inquiry.pressure.nano ≡ pressure.nano) }
    {
        let first = FirstPeriod::open(alloc, project)?;
        let study = Study::open(alloc, first.net())?;
        let finder = Gradient::open(alloc, first.net())?;
        let targets = targets_at(alloc, project, pressure)?;
        Ok(Inquiry {
            first,
            study,
            finder,
            pressure,
            targets,
        })
    }

    /// Sets the net to the first period. Fails with the first junction whose demand is out of range in it.
    pub fn start(&mut self, project: &Project) -> Result<(), PeriodDemand>
        requires sound { IsSound project.now }
        requires open { IsOpen project.now self.old }
        ensures open { IsOpen project.now self.new }
        ensures pressure { self.new.pressure ≡ self.old.pressure }
        ensures grid { OnOk result (IsFirstGrid project.now (grid_of self.new.first.net)) }
        ensures in_range { OnOk result (DemandsAreInRange project.now 0) }
        ensures refused { IfErr result (λ fault. IsFirstDemand project.now 0 fault.junction fault.value) }
    {
        self.first.start(project)
    }

    /// The whole heads around the pressure at a junction.
    pub(crate) fn target(&self, project: &Project, junction: u32) -> LevelSpan
        requires sound { IsSound project.now }
        requires open { IsOpen project.now self.now }
        requires inside { junction < length project.now.junctions.list }
        ensures value { (here : Junction) → slice_get project.now.junctions.list junction ≡ Some here
            → result ≡ target_of (target_for project.now self.now) here }
        ensures low_in_box { IsInBox result.lo }
        ensures high_in_box { IsInBox result.hi }
    {
        let _project = project;
        self.targets[junction as usize]
    }
}
