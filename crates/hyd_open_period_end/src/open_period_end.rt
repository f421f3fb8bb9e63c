//! The end of a period by its vectors, whose start or end may be open by some seconds.
#![tactic(auto)]

ghost use Rattle.std.specs.Prelude.{ℕ, ◌≡◌, ◌<◌, ◌≤◌, ◌+◌, ◌^◌, length, IfOk, IfErr, OnOk, OnErr};
ghost use Rattle.hyd_net.specs.Sound.{IsSound};
ghost use Rattle.hyd_spec_certificates.specs.Stops.{IsTightRow};
ghost use Rattle.hyd_spec_open_refusals.specs.RefusedOpenRecords.{LeavesMatterOpen, HasLengths, HasOtherLengths};
ghost use Rattle.hyd_theorems_on_definitions.specs.LyingInIntervals.{HasStock};
ghost use Rattle.hyd_period_facts.specs.ReservedMemory.{HasRoom as HasFactsRoom};
ghost use Rattle.hyd_period_facts.specs.FactsBeforeEnd.{HaveTanks, stocks_in};
ghost use Rattle.hyd_period_end.specs.FactsBeforeVectors.{AreReady};
ghost use Rattle.hyd_period_end.specs.EndOfPeriod.{AreKeptIn};
ghost use Rattle.hyd_open_period_end.specs.EndOfOpenPeriod.{AreOfSomeStart, HasRoom, IsClosedOpenly};
ghost use Rattle.hyd_open_period_end.specs.LookedAt.{AreReadings, AreOfSomeRecord, ForPeriod};
ghost use Rattle.hyd_open_period_end.specs.OpenMatters.{IsOpenlyOpenAt, IsLeftOpen};

use crate::arrivals::reached_at;
use crate::ending::decide_end;
use crate::following::follow;
use crate::matters::open_end;
use crate::telling::tell_end;
use hyd_cert::Record;
use hyd_net::{LinkState, List, OutOfMemory, Project};
use hyd_open_certificates::OpenRow;
use hyd_open_ends::{first_end, late_at_end, lengths_of};
use hyd_period_end::Open;
use hyd_period_facts::{Facts, TankStart};
use hyd_period_length::Readings;
use hyd_spec_certificates::{Event, LevelSpan};
use std::alloc::Global;

/// A slack by which no end is open by more: there are at most so many seconds from a period's start to the next instant
/// of the clock.
pub const ANY_SLACK: u32 = 100_000_000;

/// Room for the end of each period of a network, and what the last one that ended left.
#[derive(Drop)]
pub struct OpenPeriodEnd {
    /// What the rules look at.
    pub readings: Readings,
    /// The levels of tanks carried to an instant.
    pub carried: List<LevelSpan>,
    /// The values of rules there.
    pub values: Vec<bool>,
    /// The states that links are left commanded to be in.
    pub commanded: Vec<LinkState>,
    /// The stocks and the states of tanks with which the next period begins.
    pub next: TankStart,
    /// When the period ends first, in seconds after its first start.
    pub first: u32,
    /// How many seconds its end is open.
    pub late: u32,
    /// What happens there, where it is open by some seconds: events of tanks in order, then those of level controls in
    /// order. (Those of an end that is known to the second are among the facts.)
    pub opened: List<Event>,
}

// So many values of rules.
fn no_values(alloc: Global, count: usize) -> Result<Vec<bool>, OutOfMemory>
    ensures { IfOk result (λ values. length values.items ≡ count) }
{
    vec![in alloc; false; count]
}

// So many states of links.
fn no_states(alloc: Global, count: usize) -> Result<Vec<LinkState>, OutOfMemory>
    ensures { IfOk result (λ states. length states.items ≡ count) }
{
    vec![in alloc; LinkState::Closed; count]
}

// The empty list of levels, with room for so many.
fn no_levels(alloc: Global, count: usize) -> Result<List<LevelSpan>, OutOfMemory>
    ensures { IfOk result (λ list. count ≤ length list.list + list.spare) }
{
    let mut list = List::new(alloc);
    list.reserve(count)?;
    Ok(list)
}

// Puts how long a period lasts at most into its record.
fn put_longest(row: &mut Record, seconds: u32)
    ensures { row.new ≡ record row.old { length = seconds } }
{
    row.length = seconds;
}

impl OpenPeriodEnd {
    /// Room for the end of each period of a network: no end takes memory.
    pub fn open(alloc: Global, project: &Project) -> Result<OpenPeriodEnd, OutOfMemory>
        requires { IsSound project.now }
        ensures room { IfOk result (HasRoom project.now) }
    {
        Ok(OpenPeriodEnd {
            readings: Readings::open(alloc, project)?,
            carried: no_levels(alloc, project.tanks.len())?,
            values: no_values(alloc, project.rules.len())?,
            commanded: no_states(alloc, project.links.len())?,
            next: TankStart::open(alloc, project)?,
            first: 0,
            late: 0,
            opened: List::with_room(alloc, project.tanks.len() + project.controls.len())?,
        })
    }

    /// Ends a period that begins before the end of the run, in one of the seconds from the facts' time to `late` later,
    /// by what was looked at: what flows into its tanks, among the facts, and the readings. Its end may be open by at
    /// most `slack` seconds. Puts its lengths into the record, completes the facts by when its end comes first, and the
    /// events and changes of its end, and leaves when that comes, with its events where it is open by some seconds, the
    /// states that links are commanded to be in, and the stocks and states of tanks with which the next period begins
    /// (EPANET 2.2 User Manual, chapter 3). The facts hold what is known at its start, with some stock between the ends
    /// of each interval. It takes no memory.
    ///
    /// Contracts speak of any grid and record of which inflows and readings are: of a net and a record whose vectors
    /// are certificates there, as [`look`](crate::look) reads them, or of two nets, one a side.
    ///
    /// Fails with [`Open`], the first matter that is left open: a rule or the end of the period, between two seconds
    /// after its first start, and where that is decided the state of a tank or a level control there. The record then
    /// stays; nothing but its room is said of what is left. With [`ANY_SLACK`] it fails exactly where a matter is left
    /// open, by however many seconds.
    pub fn finish(
        &mut self,
        project: &Project,
        late: u32,
        slack: u32,
        found: &mut OpenRow,
        facts: &mut Facts,
    ) -> Result<(), Open>
        requires sound { IsSound project.now }
        requires ready { AreReady project.now facts.old }
        requires have { HaveTanks project.now facts.old }
        requires readings { AreReadings project.now self.old.readings }
        requires begins { AreOfSomeStart project.now late facts.old }
        requires looked { AreOfSomeRecord project.now facts.old self.old.readings }
        requires there { (k : ℕ) → HasStock (stocks_in facts.old k) }
        requires before_end { facts.old.time < project.now.times.duration }
        requires late { late ≤ 10 ^ 8 }
        requires room { HasRoom project.now self.old }
        ensures closed { OnOk result (ForPeriod project.now late facts.old self.old.readings
            (λ grid standing other. other.shortest ≡ found.new.shortest
            → other.row.length ≡ found.new.row.length
            → IsClosedOpenly project.now grid standing other facts.new self.new)) }
        ensures within_slack { OnOk result (self.new.late ≤ slack) }
        ensures held { OnOk result (AreKeptIn project.now self.new.next) }
        ensures have { OnOk result (HaveTanks project.now facts.new) }
        ensures open { IfErr result (λ what. ForPeriod project.now late facts.old self.old.readings
            (λ grid standing other. IsOpenlyOpenAt project.now grid standing slack other what)) }
        ensures stops { IfErr result (λ what. ForPeriod project.now late facts.old self.old.readings
            (λ grid standing other. IsTightRow project.now standing.known grid other.row
            → IsLeftOpen project.now standing slack what)) }
        ensures matter { 10 ^ 8 ≤ slack → OnErr result (ForPeriod project.now late facts.old self.old.readings
            (LeavesMatterOpen project.now)) }
        ensures decided { OnOk result (ForPeriod project.now late facts.old self.old.readings
            (λ grid standing other. LeavesMatterOpen project.now grid standing other → ⊥)) }
        ensures lengths { OnOk result (ForPeriod project.now late facts.old self.old.readings
            (λ grid standing other. (HasLengths other found.new.shortest found.new.row.length → ⊥)
            → HasOtherLengths project.now grid standing other)) }
        ensures row { found.new ≡ record found.old {
          row = record found.old.row { length = found.new.row.length };
          shortest = found.new.shortest;
        } }
        ensures same { OnErr result (found.new ≡ found.old) }
        ensures links { facts.new.links ≡ facts.old.links }
        ensures facts { HasFactsRoom project.now facts.new }
        ensures room { HasRoom project.now self.new }
    {
        let way = match decide_end(
            project,
            facts,
            late,
            slack,
            &self.readings,
            &mut self.carried,
            &mut self.values,
            &mut self.commanded,
        ) {
            Ok(way) => way,
            Err(what) => return Err(open_end(what)),
        };
        let lengths = lengths_of(way, late);
        let reached = reached_at(project, facts, way);
        if let Err(what) = follow(project, facts, lengths, reached, &mut self.next) {
            return Err(what);
        }
        self.first = first_end(way);
        self.late = late_at_end(way, late);
        tell_end(
            project,
            facts,
            lengths,
            reached,
            self.first,
            self.late,
            &mut self.carried,
            &mut self.opened,
        );
        put_longest(&mut found.row, lengths.longest);
        found.shortest = lengths.shortest;
        Ok(())
    }
}
