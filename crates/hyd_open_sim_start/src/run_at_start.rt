//! The standing at which a run begins.
#![tactic(auto)]

ghost use Rattle.std.specs.Prelude.{◌≡◌, false, length, map, IfOk};
ghost use Rattle.hyd_net.specs.Sound.{IsSound};
ghost use Rattle.hyd_spec_certificates.specs.RecordAndStanding.{initial_standing};
ghost use Rattle.hyd_spec_certificates.specs.SpansAsIntervals.{levels_of};
ghost use Rattle.hyd_tank.specs.StockIntervals.{volumes_of};
ghost use Rattle.hyd_period_end.specs.EndOfPeriod.{AreKeptIn};
ghost use Rattle.hyd_period_facts.specs.RoomForStocks.{HasRoom as HasNextRoom};
ghost use Rattle.hyd_spec_open_ends.specs.OpenStandings.{initial_open_standing};
ghost use Rattle.hyd_open_sim_start.specs.StandingsOfOpenRuns.{IsStanding, standing_for};

use crate::standing::Standing;
use hyd_net::{LinkState, OutOfMemory, Project};
use hyd_period_facts::TankStart;
use std::alloc::Global;

// The states in which links start.
fn starts(alloc: Global, project: &Project) -> Result<Vec<LinkState>, OutOfMemory>
    ensures { IfOk result (λ v. v.items ≡ map (λ link. link.start) project.now.links.list) }
{
    let links = project.links.as_slice();
    let mut states = Vec::with_capacity(alloc, links.len())?;
    for place in 0..links.len() {
        states.push(links[place].start)?;
    }
    Ok(states)
}

// Puts the states in which links start.
fn put_starts(project: &Project, states: &mut [LinkState])
    requires { length states.old ≡ length project.now.links.list }
    ensures { states.new ≡ map (λ link. link.start) project.now.links.list }
{
    let links = project.links.as_slice();
    for place in 0..states.len() {
        states[place] = links[place].start;
    }
}

// Puts a network's start into a standing that has room for it.
fn put_start(project: &Project, standing: &mut Standing)
    requires sound { IsSound project.now }
    requires room { HasNextRoom project.now standing.old.stocks }
    requires each { length standing.old.commanded.items ≡ length project.now.links.list }
    ensures number { standing.new.number ≡ 0 }
    ensures time { standing.new.time ≡ 0 }
    ensures late { standing.new.late ≡ 0 }
    ensures levels { map levels_of standing.new.stocks.levels.list ≡ (initial_standing project.now).levels }
    ensures volumes { map volumes_of standing.new.stocks.volumes.list ≡ (initial_standing project.now).volumes }
    ensures tanks { standing.new.stocks.tanks.list ≡ (initial_standing project.now).tanks }
    ensures commanded { standing.new.commanded.items ≡ (initial_standing project.now).commanded }
    ensures finished { standing.new.finished ≡ false }
    ensures held { AreKeptIn project.now standing.new.stocks }
    ensures room { HasNextRoom project.now standing.new.stocks }
{
    standing.stocks.begin(project);
    put_starts(project, &mut standing.commanded);
    standing.number = 0;
    standing.time = 0;
    standing.late = 0;
    standing.finished = false;
}

/// Makes a standing of a run the one at which it begins.
pub fn begin_run(project: &Project, standing: &mut Standing)
    requires sound { IsSound project.now }
    requires standing { IsStanding project.now standing.old }
    ensures initial { standing_for standing.new ≡ initial_open_standing project.now }
    ensures standing { IsStanding project.now standing.new }
{
    put_start(project, standing);
}

/// The standing at which a run begins.
pub fn first_standing(alloc: Global, project: &Project) -> Result<Standing, OutOfMemory>
    requires { IsSound project.now }
    ensures initial { IfOk result (λ standing. standing_for standing ≡ initial_open_standing project.now) }
    ensures standing { IfOk result (IsStanding project.now) }
{
    let mut stocks = TankStart::open(alloc, project)?;
    stocks.begin(project);
    let commanded = starts(alloc, project)?;
    Ok(Standing {
        number: 0,
        time: 0,
        late: 0,
        stocks,
        commanded,
        finished: false,
    })
}

/// The standing at which a run begins, in room that holds whatever it did. It takes no memory.
pub fn standing_within(project: &Project, stocks: TankStart, commanded: Vec<LinkState>) -> Standing
    requires sound { IsSound project.now }
    requires room { HasNextRoom project.now stocks }
    requires each { length commanded.items ≡ length project.now.links.list }
    ensures initial { standing_for result ≡ initial_open_standing project.now }
    ensures standing { IsStanding project.now result }
{
    let mut standing = Standing {
        number: 0,
        time: 0,
        late: 0,
        stocks,
        commanded,
        finished: false,
    };
    put_start(project, &mut standing);
    standing
}
