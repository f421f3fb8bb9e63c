//! A moment that is met as the next period.
#![tactic(auto)]

ghost use Rattle.std.specs.Prelude.{◌≡◌, ℕ};
ghost use Rattle.std.specs.Bool.{OnTrue, OnFalse};
ghost use Rattle.hyd_net.specs.Sound.{IsSound};
ghost use Rattle.hyd_spec.specs.NodeNumbers.{junction_count, tank_count};
ghost use Rattle.hyd_spec_certificates.specs.Valid.{DemandsAreInRange};
ghost use Rattle.hyd_spec_witness_answers.specs.PromisesOfWitnesses.{fine_parts};
ghost use Rattle.hyd_spec_witnesses.specs.MetPeriods.{Reached, IsMet, after_moment};
ghost use Rattle.hyd_spec_witnesses.specs.MiddleCandidate.{halves, IsMiddle};
ghost use Rattle.hyd_cert.specs.RecordView.{row_of};
ghost use Rattle.hyd_laws_at_scale.specs.Scales.{parts_of};
ghost use Rattle.hyd_witness_texts.specs.MomentView.{moment_of};
ghost use Rattle.hyd_met_flows.specs.Periods.{IsMomentOf};
ghost use Rattle.hyd_course.specs.Courses.{IsCourse, IsCourseOf};
ghost use Rattle.hyd_course.specs.NetsSetForMoments.{IsSetNet};
ghost use Rattle.hyd_course.specs.Standings.{IsStanding};

use crate::beginnings::put_beginning;
use hyd_cert::Record;
use hyd_course::{Course, SetNet, Standing};
use hyd_laws_at_scale::Scale;
use hyd_net::Project;
use hyd_witness::{find_middle, goes_on};
use hyd_witness_search::Search;
use hyd_witness_texts::Moment;

/// The finer scale of a witness that is written.
pub fn fine() -> Scale
    ensures { parts_of result ≡ fine_parts }
{
    Scale { power: 10 }
}

// Whether a scale is that of the middle candidate.
fn is_in_halves(scale: Scale) -> bool
    ensures yes { OnTrue result (parts_of scale ≡ halves) }
    ensures no { OnFalse result (parts_of scale ≡ halves → ⊥) }
{
    scale.parts() == 2
}

// Sets a net to the period of a moment, and puts what a search finds there into the moment. Tells whether it found
// something.
fn improve(
    project: &Project,
    standing: &Standing,
    set: &mut SetNet,
    search: &mut Search,
    into: &mut Moment,
) -> bool
    requires sound { IsSound project.now }
    requires standing { IsStanding project.now standing.now }
    requires set { IsSetNet project.now set.old }
    requires moment { IsMomentOf project.now (moment_of into.old) }
    ensures set { IsSetNet project.now set.new }
    ensures moment { IsMomentOf project.now (moment_of into.new) }
{
    let levels = into.levels.as_slice();
    match set.set(
        project,
        standing.scale,
        into.time,
        levels,
        &standing.commanded,
    ) {
        Ok(()) => search.improve(project, &set.net, standing.scale, into),
        Err(_) => false,
    }
}

// Looks for a moment near another one, and tells whether one was found that is met as the next period.
fn find_near(course: &mut Course, project: &Project, search: &mut Search, into: &mut Moment) -> bool
    requires sound { IsSound project.now }
    requires course { IsCourse project.now course.old }
    requires moment { IsMomentOf project.now (moment_of into.old) }
    ensures yes { (S : ℕ) (reached : Reached) → IsCourseOf project.now S reached course.old
        → OnTrue result (IsMet project.now S reached (moment_of into.new)) }
    ensures behind { (S : ℕ) (reached : Reached) → IsCourseOf project.now S reached course.old
        → OnTrue result (IsCourseOf project.now S (after_moment project.now S reached (moment_of into.new))
        course.new) }
    ensures stays { (S : ℕ) (reached : Reached) → IsCourseOf project.now S reached course.old
        → OnFalse result (IsCourseOf project.now S reached course.new) }
    ensures course { IsCourse project.now course.new }
    ensures moment { IsMomentOf project.now (moment_of into.new) }
{
    if !improve(
        project,
        &course.standing,
        &mut course.trial.set,
        search,
        into,
    ) {
        return false;
    }
    goes_on(course, project, into)
}

// Looks for a moment near the middle of a record, at any scale.
fn find_from_middle(
    course: &mut Course,
    project: &Project,
    row: &Record,
    search: &mut Search,
    into: &mut Moment,
) -> bool
    requires sound { IsSound project.now }
    requires course { IsCourse project.now course.old }
    requires moment { IsMomentOf project.now (moment_of into.old) }
    ensures yes { (S : ℕ) (reached : Reached) → IsCourseOf project.now S reached course.old
        → OnTrue result (IsMet project.now S reached (moment_of into.new)) }
    ensures behind { (S : ℕ) (reached : Reached) → IsCourseOf project.now S reached course.old
        → OnTrue result (IsCourseOf project.now S (after_moment project.now S reached (moment_of into.new))
        course.new) }
    ensures stays { (S : ℕ) (reached : Reached) → IsCourseOf project.now S reached course.old
        → OnFalse result (IsCourseOf project.now S reached course.new) }
    ensures course { IsCourse project.now course.new }
    ensures moment { IsMomentOf project.now (moment_of into.new) }
{
    put_beginning(project, &course.standing, row, into);
    find_near(course, project, search, into)
}

// The same in halves of ticks: the middle candidate is tried first, and is left where nothing is found.
fn find_in_halves(
    course: &mut Course,
    project: &Project,
    row: &Record,
    search: &mut Search,
    into: &mut Moment,
) -> bool
    requires sound { IsSound project.now }
    requires course { IsCourse project.now course.old }
    requires junctions { row.now.junctions ≡ junction_count project.now }
    requires demands { DemandsAreInRange project.now row.now.time }
    requires moment { IsMomentOf project.now (moment_of into.old) }
    ensures yes { (reached : Reached) → IsCourseOf project.now halves reached course.old
        → OnTrue result (IsMet project.now halves reached (moment_of into.new)) }
    ensures behind { (reached : Reached) → IsCourseOf project.now halves reached course.old
        → OnTrue result (IsCourseOf project.now halves (after_moment project.now halves reached (moment_of into.new))
        course.new) }
    ensures stays { (reached : Reached) → IsCourseOf project.now halves reached course.old
        → OnFalse result (IsCourseOf project.now halves reached course.new) }
    ensures middle { (reached : Reached) → IsCourseOf project.now halves reached course.old
        → OnFalse result (IsMiddle project.now reached (row_of row.now) (moment_of into.new)) }
    ensures no { (reached : Reached) → IsCourseOf project.now halves reached course.old
        → OnFalse result (IsMet project.now halves reached (moment_of into.new) → ⊥) }
    ensures course { IsCourse project.now course.new }
    ensures moment { IsMomentOf project.now (moment_of into.new) }
{
    if find_middle(course, project, row, into) {
        return true;
    }
    if find_near(course, project, search, into) {
        return true;
    }
    find_middle(course, project, row, into)
}

/// Looks for a moment that is met as the next period of a course, from a record of a certificate. True: it was found and
/// is left in `into`, and the course goes on behind it. False: the course stands as before; in halves of ticks the
/// middle candidate of the record is left, and isn't met. The demands at the record's time are in range. It takes no
/// memory.
///
/// In halves of ticks the middle candidate is tried first, then what the search makes of it; in other parts what the
/// search finds near the record's middle. Nothing is promised of what the search finds.
pub fn find_moment(
    course: &mut Course,
    project: &Project,
    row: &Record,
    search: &mut Search,
    into: &mut Moment,
) -> bool
    requires sound { IsSound project.now }
    requires course { IsCourse project.now course.old }
    requires junctions { row.now.junctions ≡ junction_count project.now }
    requires demands { DemandsAreInRange project.now row.now.time }
    requires moment { IsMomentOf project.now (moment_of into.old) }
    ensures yes { (S : ℕ) (reached : Reached) → IsCourseOf project.now S reached course.old
        → OnTrue result (IsMet project.now S reached (moment_of into.new)) }
    ensures behind { (S : ℕ) (reached : Reached) → IsCourseOf project.now S reached course.old
        → OnTrue result (IsCourseOf project.now S (after_moment project.now S reached (moment_of into.new))
        course.new) }
    ensures stays { (S : ℕ) (reached : Reached) → IsCourseOf project.now S reached course.old
        → OnFalse result (IsCourseOf project.now S reached course.new) }
    ensures middle { (reached : Reached) → IsCourseOf project.now halves reached course.old
        → OnFalse result (IsMiddle project.now reached (row_of row.now) (moment_of into.new)) }
    ensures no { (reached : Reached) → IsCourseOf project.now halves reached course.old
        → OnFalse result (IsMet project.now halves reached (moment_of into.new) → ⊥) }
    ensures course { IsCourse project.now course.new }
    ensures moment { IsMomentOf project.now (moment_of into.new) }
{
    if is_in_halves(course.standing.scale) {
        find_in_halves(course, project, row, search, into)
    } else {
        find_from_middle(course, project, row, search, into)
    }
}
