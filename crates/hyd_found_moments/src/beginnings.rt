//! What a search for a moment begins with, in parts of ticks.
#![tactic(auto)]

ghost use Rattle.hyd_net.specs.Sound.{IsSound};
ghost use Rattle.hyd_spec_witnesses.specs.WitnessText.{Counts, IsMoment};
ghost use Rattle.hyd_witness_texts.specs.MomentView.{moment_of};
ghost use Rattle.hyd_met_flows.specs.Periods.{IsMomentOf};
ghost use Rattle.hyd_course.specs.Standings.{IsStanding};

use crate::heads::put_heads;
use crate::stocks::put_stocks;
use hyd_cert::Record;
use hyd_course::Standing;
use hyd_net::Project;
use hyd_witness_texts::Moment;

// Puts the number of a period, when it begins and how long it lasts.
fn put_numbers(number: u32, time: u32, seconds: u32, into: &mut Moment)
    ensures { (counts : Counts) → IsMoment counts (moment_of into.old) → IsMoment counts (moment_of into.new) }
{
    into.number = number;
    into.time = time;
    into.length = seconds;
}

/// Puts what a search for the next period begins with: the period of a record, heads halfway between the record's two
/// vectors, and the stocks where a course stands.
pub(crate) fn put_beginning(project: &Project, standing: &Standing, row: &Record, into: &mut Moment)
    requires sound { IsSound project.now }
    requires standing { IsStanding project.now standing.now }
    requires moment { IsMomentOf project.now (moment_of into.old) }
    ensures { IsMomentOf project.now (moment_of into.new) }
{
    put_numbers(row.number, row.time, row.length, into);
    put_heads(standing.scale, row, &mut into.heads);
    put_stocks(project, standing, &mut into.levels, &mut into.volumes);
}
