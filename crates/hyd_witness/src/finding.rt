//! A moment that is met as the next period.
#![tactic(auto)]

ghost use Rattle.std.specs.Prelude.{◌≡◌, ℕ};
ghost use Rattle.std.specs.Bool.{OnTrue, OnFalse};
ghost use Rattle.hyd_net.specs.Sound.{IsSound};
ghost use Rattle.hyd_spec.specs.NodeNumbers.{junction_count};
ghost use Rattle.hyd_spec_certificates.specs.Valid.{DemandsAreInRange};
ghost use Rattle.hyd_spec_witnesses.specs.MetPeriods.{Reached, IsMet, after_moment};
ghost use Rattle.hyd_spec_witnesses.specs.MiddleCandidate.{halves, IsMiddle};
ghost use Rattle.hyd_cert.specs.RecordView.{row_of};
ghost use Rattle.hyd_witness_texts.specs.MomentView.{moment_of};
ghost use Rattle.hyd_met_flows.specs.Periods.{IsMomentOf};
ghost use Rattle.hyd_course.specs.Courses.{IsCourse, IsCourseOf};

use crate::candidate::middle;
use hyd_cert::Record;
use hyd_course::Course;
use hyd_net::Project;
use hyd_witness_texts::Moment;

/// Whether a moment is met as the next period. The course goes on behind it where it is, and stands as before where it
/// isn't. It takes no memory.
pub fn goes_on(course: &mut Course, project: &Project, moment: &Moment) -> bool
    requires sound { IsSound project.now }
    requires course { IsCourse project.now course.old }
    requires moment { IsMomentOf project.now (moment_of moment.now) }
    ensures yes { (S : ℕ) (reached : Reached) → IsCourseOf project.now S reached course.old
        → OnTrue result (IsMet project.now S reached (moment_of moment.now)) }
    ensures behind { (S : ℕ) (reached : Reached) → IsCourseOf project.now S reached course.old
        → OnTrue result (IsCourseOf project.now S (after_moment project.now S reached (moment_of moment.now))
        course.new) }
    ensures no { (S : ℕ) (reached : Reached) → IsCourseOf project.now S reached course.old
        → OnFalse result (IsMet project.now S reached (moment_of moment.now) → ⊥) }
    ensures stays { (S : ℕ) (reached : Reached) → IsCourseOf project.now S reached course.old
        → OnFalse result (IsCourseOf project.now S reached course.new) }
    ensures course { IsCourse project.now course.new }
{
    match course.meets(project, moment) {
        Ok(()) => true,
        Err(_) => false,
    }
}

/// Puts the middle candidate of a record and tells whether it is met as the next period of a course in halves of ticks.
/// The course goes on behind it where it is, and stands as before where it isn't. The demands at the record's time are
/// in range. It takes no memory.
pub fn find_middle(course: &mut Course, project: &Project, row: &Record, into: &mut Moment) -> bool
    requires sound { IsSound project.now }
    requires course { IsCourse project.now course.old }
    requires junctions { row.now.junctions ≡ junction_count project.now }
    requires demands { DemandsAreInRange project.now row.now.time }
    requires moment { IsMomentOf project.now (moment_of into.old) }
    ensures middle { (reached : Reached) → IsCourseOf project.now halves reached course.old
        → IsMiddle project.now reached (row_of row.now) (moment_of into.new) }
    ensures yes { (reached : Reached) → IsCourseOf project.now halves reached course.old
        → OnTrue result (IsMet project.now halves reached (moment_of into.new)) }
    ensures behind { (reached : Reached) → IsCourseOf project.now halves reached course.old
        → OnTrue result (IsCourseOf project.now halves (after_moment project.now halves reached (moment_of into.new))
        course.new) }
    ensures no { (reached : Reached) → IsCourseOf project.now halves reached course.old
        → OnFalse result (IsMet project.now halves reached (moment_of into.new) → ⊥) }
    ensures stays { (reached : Reached) → IsCourseOf project.now halves reached course.old
        → OnFalse result (IsCourseOf project.now halves reached course.new) }
    ensures course { IsCourse project.now course.new }
    ensures moment { IsMomentOf project.now (moment_of into.new) }
{
    middle(course, project, row, into);
    goes_on(course, project, into)
}
