//! The end of a period by its vectors.
#![tactic(auto)]

ghost use Rattle.std.specs.Prelude.{◌≡◌, ◌<◌, ◌≤◌, ◌+◌, length, IfOk, IfErr, OnOk, OnErr};
ghost use Rattle.hyd_net.specs.Sound.{IsSound};
ghost use Rattle.hyd_spec.specs.NodeNumbers.{tank_count};
ghost use Rattle.hyd_spec_certificates.specs.RecordAndStanding.{Record as Row, Standing};
ghost use Rattle.hyd_spec_certificates.specs.Valid.{AreCertificates};
ghost use Rattle.hyd_cert.specs.RecordView.{row_of};
ghost use Rattle.hyd_period_facts.specs.ReservedMemory.{HasRoom as HasFactsRoom};
ghost use Rattle.hyd_period_network.specs.NetAsPeriodNetwork.{grid_of};
ghost use Rattle.hyd_period_network.specs.NetsSetToPeriods.{IsNetOf};
ghost use Rattle.hyd_theorems_on_definitions.specs.SoundLawsAndGrids.{TanksInOrder};
ghost use Rattle.hyd_period_facts.specs.FactsBeforeEnd.{HaveTanks};
ghost use Rattle.hyd_period_end.specs.FactsBeforeVectors.{AreBegun, AreReady};
ghost use Rattle.hyd_period_end.specs.EndOfPeriod.{HasRoom, AreKeptIn, IsClosed};
ghost use Rattle.hyd_period_end.specs.OpenMatters.{IsOpenAt, SharesVectors};

use crate::end_and_what_follows::{decide_end, follow};
use crate::inflows_and_readings::look;
use crate::length_and_events::tell_end;
use crate::undecided::Open;
use hyd_cert::Record;
use hyd_net::{LinkState, List, OutOfMemory, Project};
use hyd_period_facts::{Facts, TankStart};
use hyd_period_length::Readings;
use hyd_period_network::Net;
use hyd_spec_certificates::LevelSpan;
use std::alloc::Global;

/// Room for the end of each period of a network, and what the last one that ended left.
#[derive(Drop)]
pub struct PeriodEnd {
    /// What the rules look at.
    pub readings: Readings,
    /// The levels of tanks carried to an instant.
    pub carried: List<LevelSpan>,
    /// The values of rules there.
    pub values: Vec<bool>,
    /// The states that links are left commanded to be in.
    pub commanded: Vec<LinkState>,
    /// The stocks and the states of tanks with which the next period begins.
    pub next: TankStart,
}

// So many values of rules.
fn no_values(alloc: Global, count: usize) -> Result<Vec<bool>, OutOfMemory>
    ensures { IfOk result (λ values. length values.items ≡ count) }
{
    vec![in alloc; false; count]
}

// So many states of links.
fn no_states(alloc: Global, count: usize) -> Result<Vec<LinkState>, OutOfMemory>
    ensures { IfOk result (λ states. length states.items ≡ count) }
{
    vec![in alloc; LinkState::Closed; count]
}

// The empty list of levels, with room for so many.
fn no_levels(alloc: Global, count: usize) -> Result<List<LevelSpan>, OutOfMemory>
    ensures { IfOk result (λ list. count ≤ length list.list + list.spare) }
{
    let mut list = List::new(alloc);
    list.reserve(count)?;
    Ok(list)
}

impl PeriodEnd {
    /// Room for the end of each period of a network: no end takes memory.
    pub fn open(alloc: Global, project: &Project) -> Result<PeriodEnd, OutOfMemory>
        requires { IsSound project.now }
        ensures room { IfOk result (HasRoom project.now) }
    {
        Ok(PeriodEnd {
            readings: Readings::open(alloc, project)?,
            carried: no_levels(alloc, project.tanks.len())?,
            values: no_values(alloc, project.rules.len())?,
            commanded: no_states(alloc, project.links.len())?,
            next: TankStart::open(alloc, project)?,
        })
    }

    /// Ends a period that begins before the end of the run, by the vectors of its record, which are certificates: puts
    /// its length into the record, completes the facts by what flows into tanks, its length, and the events and changes
    /// of its end, and leaves the states that links are commanded to be in, and the stocks and states of tanks with
    /// which the next period begins. The facts hold what is known at its start. It takes no memory.
    ///
    /// Fails with [`Open`], the first matter that the vectors leave open: a rule at an instant or the end of the
    /// period, and where that is decided the state of a tank or a level control there. The record then stays; nothing
    /// but its room is said of what is left.
    pub fn finish(
        &mut self,
        project: &Project,
        net: &Net,
        row: &mut Record,
        facts: &mut Facts,
    ) -> Result<(), Open>
        requires sound { IsSound project.now }
        requires of { IsNetOf project.now net.now }
        requires order { TanksInOrder (grid_of net.now) }
        requires certificates { AreCertificates project.now (grid_of net.now) (row_of row.old) }
        requires tanks { row.old.tanks ≡ tank_count project.now }
        requires ready { AreReady project.now facts.old }
        requires before_end { facts.old.time < project.now.times.duration }
        requires room { HasRoom project.now self.old }
        ensures closed { OnOk result ((standing : Standing) → AreBegun project.now standing facts.old
            → IsClosed project.now (grid_of net.now) standing (row_of row.new) facts.new self.new) }
        ensures held { OnOk result (AreKeptIn project.now self.new.next) }
        ensures have { OnOk result (HaveTanks project.now facts.new) }
        ensures some { OnOk result (0 < row.new.length) }
        ensures within { OnOk result (facts.old.time + row.new.length ≤ project.now.times.duration) }
        ensures open { IfErr result (λ found. (standing : Standing) (other : Row)
            → AreBegun project.now standing facts.old
            → SharesVectors other (row_of row.old) → IsOpenAt project.now (grid_of net.now) standing other found) }
        ensures row { row.new ≡ record row.old { length = row.new.length } }
        ensures same { OnErr result (row.new ≡ row.old) }
        ensures links { facts.new.links ≡ facts.old.links }
        ensures facts { HasFactsRoom project.now facts.new }
        ensures room { HasRoom project.now self.new }
    {
        look(project, net, row, &mut self.readings, facts);
        let seconds = decide_end(
            project,
            facts,
            &self.readings,
            &mut self.carried,
            &mut self.values,
            &mut self.commanded,
        )?;
        if let Err(found) = follow(project, facts, seconds, &mut self.next) {
            return Err(found);
        }
        tell_end(project, facts, seconds, &mut self.carried);
        row.length = seconds;
        Ok(())
    }
}
