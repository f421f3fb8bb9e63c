//! The middle candidate for the next period.
#![tactic(auto)]

ghost use Rattle.std.specs.Prelude.{◌≡◌, ℕ, length};
ghost use Rattle.hyd_net.specs.Sound.{IsSound};
ghost use Rattle.hyd_spec.specs.NodeNumbers.{junction_count};
ghost use Rattle.hyd_spec_certificates.specs.RecordAndStanding.{Record as Row};
ghost use Rattle.hyd_spec_certificates.specs.Valid.{DemandsAreInRange};
ghost use Rattle.hyd_spec_witnesses.specs.MetPeriods.{Reached};
ghost use Rattle.hyd_spec_witnesses.specs.MiddleCandidate.{halves, heads_between, IsMiddle};
ghost use Rattle.hyd_spec_witnesses.specs.WitnessText.{AreValues, Counts, IsMoment};
ghost use Rattle.hyd_cert.specs.RecordView.{row_of};
ghost use Rattle.hyd_witness_texts.specs.MomentView.{moment_of};
ghost use Rattle.hyd_met_flows.specs.Periods.{IsMomentOf};
ghost use Rattle.hyd_middle_flows.specs.CandidateParts.{HasHeadsAndStocks};
ghost use Rattle.hyd_course.specs.Courses.{IsCourse, IsCourseOf};
ghost use Rattle.hyd_course.specs.NetsSetForMoments.{IsSetNet};
ghost use Rattle.hyd_course.specs.Standings.{IsStanding, StandsAt};

use crate::stocks::put_stocks;
use hyd_cert::Record;
use hyd_course::{Course, SetNet, Standing};
use hyd_middle_flows::{put_flows_halfway, put_heads_between};
use hyd_net::{List, Project};
use hyd_spec_certificates::{Problem, Side};
use hyd_stocks_below::halves;
use hyd_witness_texts::Moment;

// Puts the heads halfway between the two vectors of a record in which all tanks are alike.
fn put_heads(row: &Record, into: &mut List<i128>)
    requires { length into.old.list ≡ row.now.junctions }
    ensures value { into.new.list ≡ heads_between (row_of row.now).main.lower (row_of row.now).main.upper }
    ensures fit { AreValues row.now.junctions into.new.list }
{
    let lower = row.vector(Problem::Main, Side::Lower);
    let upper = row.vector(Problem::Main, Side::Upper);
    put_heads_between(lower, upper, into);
}

// Puts the number of a period, when it begins and how long it lasts.
fn put_numbers(number: u32, time: u32, seconds: u32, into: &mut Moment)
    ensures number { into.new.number ≡ number }
    ensures time { into.new.time ≡ time }
    ensures lasts { into.new.length ≡ seconds }
    ensures moment { (counts : Counts) → IsMoment counts (moment_of into.old) → IsMoment counts (moment_of into.new) }
{
    into.number = number;
    into.time = time;
    into.length = seconds;
}

// Puts all of the candidate but its flows.
fn put_heads_and_stocks(project: &Project, standing: &Standing, row: &Record, into: &mut Moment)
    requires sound { IsSound project.now }
    requires standing { IsStanding project.now standing.now }
    requires junctions { row.now.junctions ≡ junction_count project.now }
    requires moment { IsMomentOf project.now (moment_of into.old) }
    ensures has { (reached : Reached) → StandsAt project.now halves reached standing.now
        → HasHeadsAndStocks project.now reached (row_of row.now) (moment_of into.new) }
    ensures moment { IsMomentOf project.now (moment_of into.new) }
    ensures time { into.new.time ≡ row.now.time }
{
    put_numbers(row.number, row.time, row.length, into);
    put_heads(row, &mut into.heads);
    put_stocks(project, standing, &mut into.levels, &mut into.volumes);
}

// Puts the flows of the candidate, with the net that is set to its period.
fn put_flows(project: &Project, standing: &Standing, set: &mut SetNet, into: &mut Moment)
    requires sound { IsSound project.now }
    requires standing { IsStanding project.now standing.now }
    requires set { IsSetNet project.now set.old }
    requires moment { IsMomentOf project.now (moment_of into.old) }
    requires demands { DemandsAreInRange project.now into.old.time }
    ensures middle { (reached : Reached) (row : Row) → StandsAt project.now halves reached standing.now
        → HasHeadsAndStocks project.now reached row (moment_of into.old)
        → IsMiddle project.now reached row (moment_of into.new) }
    ensures moment { IsMomentOf project.now (moment_of into.new) }
    ensures set { IsSetNet project.now set.new }
{
    let levels = into.levels.as_slice();
    match set.set(project, halves(), into.time, levels, &standing.commanded) {
        Ok(()) => put_flows_halfway(project, &set.net, &set.tanks, into),
        Err(_) => {}
    }
}

/// Puts the middle candidate for the next period, from a record of a certificate: heads halfway between the record's two
/// vectors, flows halfway between what their laws pass at least and at most there, and exact stocks rounded down, in
/// halves of ticks. The demands at the record's time are in range. It takes no memory, and the course stands as before.
pub fn middle(course: &mut Course, project: &Project, row: &Record, into: &mut Moment)
    requires sound { IsSound project.now }
    requires course { IsCourse project.now course.old }
    requires junctions { row.now.junctions ≡ junction_count project.now }
    requires demands { DemandsAreInRange project.now row.now.time }
    requires moment { IsMomentOf project.now (moment_of into.old) }
    ensures middle { (reached : Reached) → IsCourseOf project.now halves reached course.old
        → IsMiddle project.now reached (row_of row.now) (moment_of into.new) }
    ensures stands { (S : ℕ) (reached : Reached) → IsCourseOf project.now S reached course.old
        → IsCourseOf project.now S reached course.new }
    ensures course { IsCourse project.now course.new }
    ensures moment { IsMomentOf project.now (moment_of into.new) }
{
    put_heads_and_stocks(project, &course.standing, row, into);
    put_flows(project, &course.standing, &mut course.trial.set, into);
}
