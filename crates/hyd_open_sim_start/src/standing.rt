//! Where a run stands between two periods.
#![tactic(auto)]

ghost use Rattle.std.specs.Prelude.{◌≡◌, ◌≤◌, ◌+◌, ◌^◌, true};

use hyd_net::LinkState;
use hyd_period_facts::TankStart;
use std::mem::swap;

/// What is known where the next period begins.
#[derive(Drop)]
pub struct Standing {
    /// The number of the next period, counted from 0.
    pub number: u32,
    /// The first second in which it begins.
    pub time: u32,
    /// In how many later seconds it may begin.
    pub late: u32,
    /// The stocks and the states of tanks.
    pub stocks: TankStart,
    /// The states that links were last commanded to be in.
    pub commanded: Vec<LinkState>,
    /// Whether the period at the end of the run is over.
    pub finished: bool,
}

impl Standing {
    /// Moves on behind the period at the end of the run.
    pub fn finish(&mut self)
        requires { self.old.number ≤ 10 ^ 9 }
        ensures { self.new ≡ record self.old { number = self.old.number + 1; finished = true } }
    {
        self.number += 1;
        self.finished = true;
    }

    /// Moves on behind another period, which ends first after so many seconds, and may in so many later ones, to these
    /// stocks and states of tanks and commanded states of links. What stood there before is left in their place.
    pub fn follow(
        &mut self,
        seconds: u32,
        late: u32,
        stocks: &mut TankStart,
        commanded: &mut Vec<LinkState>,
    )
        requires number { self.old.number ≤ 10 ^ 9 }
        requires time { self.old.time + seconds ≤ 10 ^ 9 }
        ensures moved { self.new ≡ record self.old {
          number = self.old.number + 1;
          time = self.old.time + seconds;
          late = late;
          stocks = stocks.old;
          commanded = commanded.old;
        } }
        ensures stocks { stocks.new ≡ self.old.stocks }
        ensures commanded { commanded.new ≡ self.old.commanded }
    {
        self.number += 1;
        self.time += seconds;
        self.late = late;
        swap(&mut self.stocks, stocks);
        swap(&mut self.commanded, commanded);
    }
}
