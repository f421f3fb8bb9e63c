//! What is kept of a period that is met.
#![tactic(auto)]

ghost use Rattle.std.specs.Prelude.{◌≡◌, length};
ghost use Rattle.hyd_net.specs.Sound.{IsSound};
ghost use Rattle.hyd_spec.specs.Lists.{Each};
ghost use Rattle.hyd_spec_witnesses.specs.MetPeriods.{Reached, IsMet, after_moment};
ghost use Rattle.hyd_laws_at_scale.specs.Scales.{parts_of};
ghost use Rattle.hyd_witness_texts.specs.MomentView.{moment_of};
ghost use Rattle.hyd_met_flows.specs.Periods.{IsMomentOf};
ghost use Rattle.hyd_stocks_at_scale.specs.Motions.{stock_of};
ghost use Rattle.hyd_course.specs.Stocks.{stock_in};
ghost use Rattle.hyd_course.specs.Standings.{IsStanding, StandsAt};
ghost use Rattle.hyd_course.specs.Trials.{IsTrial, IsTried};

use crate::standing::{Lasted, Standing};
use crate::starts::stock_of;
use crate::trial::Trial;
use hyd_length_at_scale::{MetPeriod, command_at_end};
use hyd_net::Project;
use hyd_stocks_at_scale::Stock;
use hyd_witness_texts::Moment;

// Puts the stocks of tanks with which a moment begins.
fn put_stocks(moment: &Moment, stocks: &mut [Stock])
    requires levels { length moment.now.levels.list ≡ length stocks.old }
    requires volumes { length moment.now.volumes.list ≡ length stocks.old }
    ensures each { Each stocks.new (λ k stock. stock_of stock ≡ stock_in (moment_of moment.now) k) }
    ensures length { length stocks.new ≡ length stocks.old }
{
    for tank in 0..stocks.len() {
        stocks[tank] = stock_of(moment, tank);
    }
}

impl Standing {
    /// Keeps a moment that was tried and is met.
    pub(crate) fn go_on(&mut self, project: &Project, moment: &Moment, trial: &mut Trial)
        requires sound { IsSound project.now }
        requires is { IsStanding project.now self.old }
        requires moment { IsMomentOf project.now (moment_of moment.now) }
        requires trial { IsTrial project.now trial.old }
        requires tried { IsTried project.now (parts_of self.old.scale) self.old.commanded.items (moment_of moment.now)
            trial.old }
        ensures is { IsStanding project.now self.new }
        ensures trial { IsTrial project.now trial.new }
        ensures stands { (reached : Reached) → StandsAt project.now (parts_of self.old.scale) reached self.old
            → IsMet project.now (parts_of self.old.scale) reached (moment_of moment.now)
            → StandsAt project.now (parts_of self.old.scale)
            (after_moment project.now (parts_of self.old.scale) reached (moment_of moment.now)) self.new }
    {
        let period = MetPeriod {
            project,
            scale: self.scale,
            moment,
            inflows: &trial.inflows,
            tanks: &trial.set.tanks,
            links: &trial.set.links,
        };
        command_at_end(&period, &mut trial.end, &mut self.commanded);
        put_stocks(moment, &mut self.stocks);
        self.inflows.copy_from_slice(&trial.inflows);
        self.last = Some(Lasted {
            time: moment.time,
            length: moment.length,
        });
        self.count = u64::from(moment.number) + 1;
    }
}
