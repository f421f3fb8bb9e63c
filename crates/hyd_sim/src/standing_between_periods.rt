//! Where a run stands between two periods.
#![tactic(auto)]

ghost use Rattle.std.specs.Prelude.{◌≡◌, ◌≤◌, ◌+◌, ◌^◌, true, false};
ghost use Rattle.hyd_net.specs.Sound.{IsSound};

use hyd_cert::Record;
use hyd_net::{LinkState, Project};
use hyd_period_end::PeriodEnd;
use hyd_period_facts::{Facts, TankStart};
use hyd_period_network::Net;
use std::mem::swap;

/// What is known where the next period begins.
#[derive(Drop)]
pub(crate) struct Standing {
    /// The number of the next period, counted from 0.
    pub(crate) number: u32,
    /// When it begins, in seconds.
    pub(crate) time: u32,
    /// The stocks and the states of tanks.
    pub(crate) stocks: TankStart,
    /// The states that links were last commanded to be in.
    pub(crate) commanded: Vec<LinkState>,
    /// Whether the period at the end of the run is over.
    pub(crate) finished: bool,
}

impl Standing {
    ghost use Rattle.hyd_period_end.specs.EndOfPeriod.{HasRoom};
    ghost use Rattle.hyd_sim.specs.PeriodAttempt.{IsMade, next_standing};
    ghost use Rattle.hyd_sim.specs.RunView.{IsStanding, standing_for};

    // Moves on behind the period at the end of the run.
    fn finish(&mut self)
        requires { self.old.number ≤ 10 ^ 9 }
        ensures { self.new ≡ record self.old { number = self.old.number + 1; finished = true } }
    {
        self.number += 1;
        self.finished = true;
    }

    // Moves on behind another period, of so many seconds.
    fn follow(&mut self, seconds: u32, close: &mut PeriodEnd)
        requires number { self.old.number ≤ 10 ^ 9 }
        requires time { self.old.time + seconds ≤ 10 ^ 9 }
        ensures number { self.new.number ≡ self.old.number + 1 }
        ensures time { self.new.time ≡ self.old.time + seconds }
        ensures stocks { self.new.stocks ≡ close.old.next }
        ensures commanded { self.new.commanded ≡ close.old.commanded }
        ensures finished { self.new.finished ≡ self.old.finished }
        ensures close { close.new ≡ record close.old { next = self.old.stocks; commanded = self.old.commanded } }
    {
        self.number += 1;
        self.time += seconds;
        swap(&mut self.stocks, &mut close.next);
        swap(&mut self.commanded, &mut close.commanded);
    }

    /// Moves on behind a period that was done, to the standing that its record leads on to.
    pub(crate) fn move_on(
        &mut self,
        project: &Project,
        net: &Net,
        row: &Record,
        facts: &Facts,
        close: &mut PeriodEnd,
    )
        requires sound { IsSound project.now }
        requires standing { IsStanding project.now self.old }
        requires unfinished { self.old.finished ≡ false }
        requires made { IsMade project.now self.old net.now row.now facts.now close.old }
        requires room { HasRoom project.now close.old }
        ensures standing { standing_for self.new ≡ next_standing project.now self.old row.now.length close.old }
        ensures is { IsStanding project.now self.new }
        ensures close { HasRoom project.now close.new }
    {
        let _net = net;
        let _facts = facts;
        if self.time == project.times.duration {
            self.finish();
            return;
        }
        self.follow(row.length, close);
    }
}
