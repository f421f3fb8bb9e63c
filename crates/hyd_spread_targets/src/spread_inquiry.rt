//! All that questions about a target pressure for a spread take.
#![tactic(auto)]

ghost use Rattle.std.specs.Prelude.{◌≡◌, ◌<◌, ◌≤◌, ◌^◌, length, unsigned_abs, Some, slice_get, IfOk, IfErr, OnOk};
ghost use Rattle.hyd_net.specs.Sound.{IsSound};
ghost use Rattle.hyd_spec.specs.ProgramTypes.{Junction};
ghost use Rattle.hyd_spec_certificates.specs.Certificate.{IsInBox};
ghost use Rattle.hyd_spec_spread_runs.specs.RunsForSpreads.{AreDemandsInRange};
ghost use Rattle.hyd_spec_spread_stops.specs.StopsOfSpreads.{IsFirstDemandOver};
ghost use Rattle.hyd_spec_spread_targets.specs.FirstPeriodWithin.{IsFirstPair};
ghost use Rattle.hyd_spread_rows.specs.SpreadsRead.{spread_of};
ghost use Rattle.hyd_spread_networks.specs.NetsOfSpreads.{pair_of};
ghost use Rattle.hyd_spread_networks.specs.RefusedSpreads.{IsRefusedFor};
ghost use Rattle.hyd_spread_start.specs.StartsOfRuns.{BeginsRun};
ghost use Rattle.hyd_targets.specs.Inquiries.{target_of};
ghost use Rattle.hyd_spread_targets.specs.InquiriesWithin.{IsOpenWithin, spread_for, target_within};

use crate::first_period_over::FirstPeriodOver;
use hyd_finders::Gradient;
use hyd_fire::Study;
use hyd_net::Project;
use hyd_num::Decimal;
use hyd_spec_certificates::{LevelSpan, Side};
use hyd_spread_networks::{DemandOver, SpreadNetsRefused};
use hyd_spread_start::SpreadStart;
use hyd_targets::targets_at;
use std::alloc::Global;

/// Questions about a target pressure in the first period of a network for a spread, with all the memory that they take.
#[derive(Drop)]
pub struct SpreadInquiry {
    pub(crate) first: FirstPeriodOver,
    pub(crate) study: Study,
    /// It serves the nets of both sides.
    pub(crate) finder: Gradient,
    /// The pressure, in the file's unit.
    pub(crate) pressure: Decimal,
    /// The whole heads around it at each junction.
    pub(crate) targets: Vec<LevelSpan>,
}

impl SpreadInquiry {
    /// Takes the memory, for a spread with which a run could begin. The pressure is at most 10^4 in magnitude, in the
    /// file's unit. Fails where the network has no nets for the spread, or for want of memory.
    pub fn open(
        alloc: Global,
        project: &Project,
        start: SpreadStart,
        pressure: Decimal,
    ) -> Result<SpreadInquiry, SpreadNetsRefused>
        requires sound { IsSound project.now }
        requires start { BeginsRun project.now start }
        requires small { unsigned_abs pressure.nano ≤ 10 ^ 13 }
        ensures open { IfOk result (IsOpenWithin project.now) }
        ensures spread { IfOk result (λ inquiry. spread_for inquiry ≡ spread_of start.rows) }
        ensures pressure { IfOk result (λ inquiry. inquiry.pressure.nano ≡ pressure.nano) }
        ensures refused { IfErr result (IsRefusedFor project.now (spread_of start.rows)) }
    {
        let first = FirstPeriodOver::open(alloc, project, start)?;
        let study = Study::open(alloc, first.net(Side::Upper))?;
        let finder = Gradient::open(alloc, first.net(Side::Upper))?;
        let targets = targets_at(alloc, project, pressure)?;
        Ok(SpreadInquiry {
            first,
            study,
            finder,
            pressure,
            targets,
        })
    }

    /// Sets the nets to the first period. Fails with the first junction of whose demand an end is out of range in it.
    pub fn start(&mut self, project: &Project) -> Result<(), DemandOver>
        requires sound { IsSound project.now }
        requires open { IsOpenWithin project.now self.old }
        ensures open { IsOpenWithin project.now self.new }
        ensures spread { spread_for self.new ≡ spread_for self.old }
        ensures pressure { self.new.pressure ≡ self.old.pressure }
        ensures pair { OnOk result (IsFirstPair project.now (spread_for self.old) (pair_of self.new.first.nets)) }
        ensures in_range { OnOk result (AreDemandsInRange project.now (spread_for self.old) 0) }
        ensures refused { IfErr result (λ fault. IsFirstDemandOver project.now (spread_for self.old) 0 fault.junction
            fault.value) }
    {
        self.first.start(project)
    }

    /// The whole heads around the pressure at a junction.
    pub(crate) fn target(&self, project: &Project, junction: u32) -> LevelSpan
        requires sound { IsSound project.now }
        requires open { IsOpenWithin project.now self.now }
        requires inside { junction < length project.now.junctions.list }
        ensures value { (here : Junction) → slice_get project.now.junctions.list junction ≡ Some here
            → result ≡ target_of (target_within project.now self.now) here }
        ensures low_in_box { IsInBox result.lo }
        ensures high_in_box { IsInBox result.hi }
    {
        let _project = project;
        self.targets[junction as usize]
    }
}
