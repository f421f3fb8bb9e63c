//! Capacities that are made when rows are judged, and taken when the network is built.
#![tactic(auto)]

ghost use Rattle.std.specs.Prelude.{◌≡◌, pos, ◌<ℤ◌, IfOk, OnOk, OnErr};
ghost use Rattle.hyd_num.specs.CapacityPairs.{IsMade};
ghost use Rattle.hyd_num.specs.CapacityRange.{IsRefused};
ghost use Rattle.hyd_spec.specs.CapacityEnclosure.{IsEnclosure, IsSharp};
ghost use Rattle.hyd_spec_power_laws.specs.PowerCapacities as power;
ghost use Rattle.hyd_kept_capacities.specs.KeptPromises.{IsPipeCapacity, IsPowerPipeCapacity};
ghost use Rattle.hyd_capacities.specs.FileNumberRanges.{IsLength, IsDiameter, IsRoughness, IsMinorCoefficient};

use crate::kept_pipes::{KeptPipes, PipeNumbers};
use crate::kept_power_pipes::KeptPowerPipes;
use crate::kept_roots::KeptRoots;
use crate::pipes_with_kept_roots::capacity_with;
use hyd_capacities::CapRange;
use hyd_num::{Capacity, Decimal, Origin};
use hyd_power_capacities::{PowerRange, hazen_williams_capacity};
use hyd_spec_power_laws::{HazenWilliamsPipe, PowerCapacity};
use std::alloc::Global;

/// Capacities of pipes in the order in which they were judged, for those that build the network in the same order.
/// What a call answers doesn't depend on what is kept: that alone says how long it takes.
#[derive(Drop)]
pub struct KeptCapacities {
    roots: KeptRoots,
    pipes: KeptPipes,
    power_pipes: KeptPowerPipes,
}

impl KeptCapacities {
    /// None yet. It takes no memory.
    pub fn new(alloc: Global) -> KeptCapacities {
        KeptCapacities {
            roots: KeptRoots::new(alloc),
            pipes: KeptPipes::new(alloc),
            power_pipes: KeptPowerPipes::new(alloc),
        }
    }

    // The capacity of a pipe with Manning's roughness. Rows like the one before them are common.
    fn made_pipe(
        &mut self,
        length: Decimal,
        diameter: Decimal,
        roughness: Decimal,
        minor: Decimal,
        us: bool,
    ) -> Result<Capacity, CapRange>
        requires length { IsLength length }
        requires diameter { IsDiameter diameter }
        requires roughness { IsRoughness roughness }
        requires minor { IsMinorCoefficient minor }
        ensures origin { IfOk result (λ c. c.origin ≡ Origin.Pipe us length diameter roughness minor) }
        ensures promises { IfOk result (λ c. IsPipeCapacity c) }
        ensures refused { OnErr result (IsRefused (Origin.Pipe us length diameter roughness minor)) }
    {
        let numbers = PipeNumbers {
            length,
            diameter,
            roughness,
            minor,
            us,
        };
        match self.pipes.last(numbers) {
            Some(capacity) => Ok(capacity),
            None => capacity_with(length, diameter, roughness, minor, us, &mut self.roots),
        }
    }

    // The capacity of a pipe with a Hazen-Williams coefficient.
    fn made_power_pipe(&self, pipe: HazenWilliamsPipe) -> Result<PowerCapacity, PowerRange>
        requires length { pos 0 <ℤ pipe.length.nano }
        requires diameter { pos 0 <ℤ pipe.diameter.nano }
        requires coefficient { pos 0 <ℤ pipe.coefficient.nano }
        ensures pipe { IfOk result (λ c. c.pipe ≡ pipe) }
        ensures promises { IfOk result (λ c. IsPowerPipeCapacity c) }
        ensures refused { OnErr result (power.IsRefused pipe) }
    {
        match self.power_pipes.last(pipe) {
            Some(capacity) => Ok(capacity),
            None => hazen_williams_capacity(pipe),
        }
    }

    /// The capacity of a pipe with Manning's `roughness`, as `pipe_capacity` makes it. It is kept for `pipe`.
    pub fn judged_pipe(
        &mut self,
        length: Decimal,
        diameter: Decimal,
        roughness: Decimal,
        minor: Decimal,
        us: bool,
    ) -> Result<Capacity, CapRange>
        requires length { IsLength length }
        requires diameter { IsDiameter diameter }
        requires roughness { IsRoughness roughness }
        requires minor { IsMinorCoefficient minor }
        ensures origin { IfOk result (λ c. c.origin ≡ Origin.Pipe us length diameter roughness minor) }
        ensures made { IfOk result (λ c. IsMade c) }
        ensures encloses { IfOk result (λ c. IsEnclosure c) }
        ensures sharp { IfOk result (λ c. IsSharp c) }
        ensures accepted { OnOk result (¬ IsRefused (Origin.Pipe us length diameter roughness minor)) }
        ensures refused { OnErr result (IsRefused (Origin.Pipe us length diameter roughness minor)) }
    {
        let capacity = self.made_pipe(length, diameter, roughness, minor, us)?;
        self.pipes.keep(capacity);
        Ok(capacity)
    }

    /// The same capacity, which is the next that `judged_pipe` kept where pipes come in the same order.
    pub fn pipe(
        &mut self,
        length: Decimal,
        diameter: Decimal,
        roughness: Decimal,
        minor: Decimal,
        us: bool,
    ) -> Result<Capacity, CapRange>
        requires length { IsLength length }
        requires diameter { IsDiameter diameter }
        requires roughness { IsRoughness roughness }
        requires minor { IsMinorCoefficient minor }
        ensures origin { IfOk result (λ c. c.origin ≡ Origin.Pipe us length diameter roughness minor) }
        ensures made { IfOk result (λ c. IsMade c) }
        ensures encloses { IfOk result (λ c. IsEnclosure c) }
        ensures sharp { IfOk result (λ c. IsSharp c) }
        ensures accepted { OnOk result (¬ IsRefused (Origin.Pipe us length diameter roughness minor)) }
        ensures refused { OnErr result (IsRefused (Origin.Pipe us length diameter roughness minor)) }
    {
        let numbers = PipeNumbers {
            length,
            diameter,
            roughness,
            minor,
            us,
        };
        match self.pipes.take(numbers) {
            Some(capacity) => Ok(capacity),
            None => capacity_with(length, diameter, roughness, minor, us, &mut self.roots),
        }
    }

    /// The capacity of a pipe with a Hazen-Williams coefficient, as `hazen_williams_capacity` makes it. It is kept for
    /// `power_pipe`.
    pub fn judged_power_pipe(
        &mut self,
        pipe: HazenWilliamsPipe,
    ) -> Result<PowerCapacity, PowerRange>
        requires length { pos 0 <ℤ pipe.length.nano }
        requires diameter { pos 0 <ℤ pipe.diameter.nano }
        requires coefficient { pos 0 <ℤ pipe.coefficient.nano }
        ensures pipe { IfOk result (λ c. c.pipe ≡ pipe) }
        ensures made { IfOk result (λ c. power.IsMade c) }
        ensures accepted { OnOk result (¬ power.IsRefused pipe) }
        ensures refused { OnErr result (power.IsRefused pipe) }
    {
        let capacity = self.made_power_pipe(pipe)?;
        self.power_pipes.keep(capacity);
        Ok(capacity)
    }

    /// The same capacity, which is the next that `judged_power_pipe` kept where pipes come in the same order.
    pub fn power_pipe(&mut self, pipe: HazenWilliamsPipe) -> Result<PowerCapacity, PowerRange>
        requires length { pos 0 <ℤ pipe.length.nano }
        requires diameter { pos 0 <ℤ pipe.diameter.nano }
        requires coefficient { pos 0 <ℤ pipe.coefficient.nano }
        ensures pipe { IfOk result (λ c. c.pipe ≡ pipe) }
        ensures made { IfOk result (λ c. power.IsMade c) }
        ensures accepted { OnOk result (¬ power.IsRefused pipe) }
        ensures refused { OnErr result (power.IsRefused pipe) }
    {
        match self.power_pipes.take(pipe) {
            Some(capacity) => Ok(capacity),
            None => hazen_williams_capacity(pipe),
        }
    }
}
