//! What a period begins with: the stocks and the states of tanks.
#![tactic(auto)]

ghost use Rattle.std.specs.Prelude.{◌≡◌, ◌≤◌, IfOk};
ghost use Rattle.hyd_net.specs.Sound.{IsSound};

use crate::facts::Facts;
use crate::initial_stocks::{put_initial, put_initial_states};
use crate::states_and_level_controls::{Unsettled, put_settled};
use crate::stocks::put_stocks;
use hyd_net::{List, Project};
use hyd_spec::TankState;
use hyd_spec_certificates::LevelSpan;
use hyd_tank::VolumeSpan;
use std::alloc::{AllocError as OutOfMemory, Global};

/// What a period begins with: the stocks and the states of tanks.
#[derive(Drop)]
pub struct TankStart {
    /// The levels of each tank, in head ticks above its bottom.
    pub levels: List<LevelSpan>,
    /// The volumes of each tank, in volume ticks; 0 to 0 without a volume curve.
    pub volumes: List<VolumeSpan>,
    /// The state of each tank.
    pub tanks: List<TankState>,
}

impl TankStart {
    ghost use Rattle.std.specs.Prelude.{◌^◌, ℕ, Some, map, slice_get, IfErr, OnOk};
    ghost use Rattle.hyd_spec.specs.ProgramTypes.{Tank};
    ghost use Rattle.hyd_spec.specs.Tank.{walls_of};
    ghost use Rattle.hyd_spec_certificates.specs.SpansAsIntervals.{levels_of};
    ghost use Rattle.hyd_spec_certificates.specs.PeriodNetwork.{Grid};
    ghost use Rattle.hyd_spec_certificates.specs.RecordAndStanding.{Record, Standing, initial_standing};
    ghost use Rattle.hyd_spec_certificates.specs.Valid.{AreStates, ControlsAreDecided, levels_next, volumes_next};
    ghost use Rattle.hyd_tank.specs.StockIntervals.{AreHeld, volumes_of};
    ghost use Rattle.hyd_period_facts.specs.FactsBeforeEnd.{HaveTanks, AreStarted};
    ghost use Rattle.hyd_period_facts.specs.TankStart.{stocks_among, IsUnsettled};
    ghost use Rattle.hyd_period_facts.specs.RoomForStocks.{HasRoom, AreNone};

    /// The beginning of no period, with room for that of each period of a network: filling it takes no memory.
    pub fn open(alloc: Global, project: &Project) -> Result<TankStart, OutOfMemory>
        requires { IsSound project.now }
        ensures none { IfOk result AreNone }
        ensures room { IfOk result (HasRoom project.now) }
    {
        let tanks = project.tanks.len();
        Ok(TankStart {
            levels: List::with_room(alloc, tanks)?,
            volumes: List::with_room(alloc, tanks)?,
            tanks: List::with_room(alloc, tanks)?,
        })
    }

    /// Makes it what a run begins with: each tank has exactly its initial level, exactly the volume that is kept at
    /// it and the state at it. What it was before goes; no memory is taken.
    pub fn begin(&mut self, project: &Project)
        requires sound { IsSound project.now }
        requires room { HasRoom project.now self.old }
        ensures levels { map levels_of self.new.levels.list ≡ (initial_standing project.now).levels }
        ensures volumes { map volumes_of self.new.volumes.list ≡ (initial_standing project.now).volumes }
        ensures tanks { self.new.tanks.list ≡ (initial_standing project.now).tanks }
        ensures held { (k : ℕ) (each : Tank) → slice_get project.now.tanks.list k ≡ Some each
            → AreHeld (walls_of project.now each) each (stocks_among self.new.levels.list self.new.volumes.list k) }
        ensures room { HasRoom project.now self.new }
    {
        put_initial(project, &mut self.levels, &mut self.volumes);
        put_initial_states(project, self.levels.as_slice(), &mut self.tanks);
    }

    /// Makes it what follows a period after so many seconds: the stocks of tanks there, and their states. What it was
    /// before goes; no memory is taken. The facts hold the stocks at the start of the period and what flows into its
    /// tanks.
    ///
    /// Fails with [`Unsettled`], the first matter that is open there, exactly where the state of a tank or a level
    /// control is open; nothing is then said of the states.
    pub fn follow(
        &mut self,
        project: &Project,
        facts: &Facts,
        seconds: u32,
    ) -> Result<(), Unsettled>
        requires sound { IsSound project.now }
        requires tanks { HaveTanks project.now facts.now }
        requires seconds { seconds ≤ 10 ^ 8 }
        requires room { HasRoom project.now self.old }
        ensures levels { (grid : Grid) (standing : Standing) (row : Record)
            → AreStarted project.now grid standing row facts.now
            → map levels_of self.new.levels.list ≡ levels_next project.now grid standing row seconds }
        ensures volumes { (grid : Grid) (standing : Standing) (row : Record)
            → AreStarted project.now grid standing row facts.now
            → map volumes_of self.new.volumes.list ≡ volumes_next project.now grid standing row seconds }
        ensures held { (k : ℕ) (each : Tank) → slice_get project.now.tanks.list k ≡ Some each
            → AreHeld (walls_of project.now each) each (stocks_among self.new.levels.list self.new.volumes.list k) }
        ensures states { OnOk result (AreStates project.now (map levels_of self.new.levels.list) self.new.tanks.list) }
        ensures controls { OnOk result (ControlsAreDecided project.now (map levels_of self.new.levels.list)) }
        ensures open { IfErr result (IsUnsettled project.now self.new.levels.list) }
        ensures room { HasRoom project.now self.new }
    {
        put_stocks(project, facts, seconds, &mut self.levels, &mut self.volumes);
        put_settled(project, self.levels.as_slice(), &mut self.tanks)
    }
}
