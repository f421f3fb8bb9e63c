//! The periods of a witness, one after another.

ghost use Rattle.std.specs.Prelude.{◌≡◌, ◌+◌, ◌^◌, ◌<◌, ℕ, List, Some, OnOk, OnErr, IfOk, IfNone, length};
ghost use Rattle.hyd_io.specs.DeskCounts.{with_read_fault};
ghost use Rattle.hyd_io.specs.LeftAsItWas.{KeepsOutput};
ghost use Rattle.hyd_net.specs.Sound.{IsSound};
ghost use Rattle.hyd_spec_witnesses.specs.MetPeriods.{Moment as Row, at_start, reached_after};
ghost use Rattle.hyd_spec_witnesses.specs.WitnessText.{IsScale, counts_of};
ghost use Rattle.hyd_course.specs.Courses.{IsCourse, IsCourseOf};
ghost use Rattle.hyd_met_flows.specs.Periods.{IsMomentOf};
ghost use Rattle.hyd_witness_texts.specs.MomentView.{HasCounts, moment_of};
ghost use Rattle.hyd_witness_texts.specs.ReaderView.{fresh, IsGoing};
ghost use Rattle.hyd_witness_trials.specs.Findings.{IsFound};
ghost use Rattle.hyd_witness_trials.specs.declared.finding.Finding.TheVariants.{Meets};
ghost use Rattle.hyd_witness_trials.specs.WitnessSoFar.{GoesOn, IsSoFar, StandsBehind, TrialGives, TurnGives};

use crate::finding::Finding;
use hyd_course::Course;
use hyd_io::{Desk, Failed};
use hyd_laws_at_scale::Scale;
use hyd_net::Project;
use hyd_witness_texts::{Moment, Reached, WitnessFault, WitnessNext, WitnessReader};

// Puts a course before the first period at a scale of so many parts.
fn begin(project: &Project, course: &mut Course, parts: u32)
    requires sound { IsSound project.now }
    requires course { IsCourse project.now course.old }
    ensures course { IsCourse project.now course.new }
    ensures begins { IsScale parts → IsCourseOf project.now parts at_start course.new }
{
    if let Some(scale) = Scale::new(parts) {
        course.begin(project, scale);
    }
}

// Puts a course before the first period where none was tried yet.
fn begin_first(project: &Project, course: &mut Course, reached: Reached)
    requires sound { IsSound project.now }
    requires course { IsCourse project.now course.old }
    ensures course { IsCourse project.now course.new }
    ensures stands { (moments : List Row) → IsScale reached.scale → reached.periods ≡ length moments + 1
        → StandsBehind project.now reached.scale moments course.old → IsCourseOf project.now reached.scale
        (reached_after project.now reached.scale at_start moments) course.new }
{
    if reached.periods == 1 {
        begin(project, course, reached.scale);
    }
}

// Tries a period behind those before it. Answers what is found where it isn't met.
fn try_moment(
    project: &Project,
    course: &mut Course,
    moment: &Moment,
    reached: Reached,
) -> Option<Finding>
    requires sound { IsSound project.now }
    requires course { IsCourse project.now course.old }
    requires moment { IsMomentOf project.now (moment_of moment.now) }
    ensures course { IsCourse project.now course.new }
    ensures gives { (moments : List Row) → IsScale reached.scale → reached.periods ≡ length moments + 1
        → StandsBehind project.now reached.scale moments course.old
        → TrialGives result project.now reached.scale moments (moment_of moment.now) course.new }
    ensures few { reached.periods < 2 ^ 32 }
{
    begin_first(project, course, reached);
    match course.meets(project, moment) {
        Ok(()) => None,
        Err(unmet) => Some(Finding::Fails(reached.periods.saturating_sub(1), unmet)),
    }
}

// What is found where so many periods were read and all are met.
fn all_met(reached: Reached) -> Finding
    ensures meets { result ≡ Meets reached.periods }
    ensures few { reached.periods < 2 ^ 32 }
{
    Finding::Meets(reached.periods)
}

// Reads what comes next of a witness, and tries it where it is a period. Answers what is found where it isn't met, or
// there is none.
fn take_moment<D: Desk>(
    project: &Project,
    reader: &mut WitnessReader,
    course: &mut Course,
    moment: &mut Moment,
    desk: &mut D,
) -> Result<Option<Finding>, Failed>
    requires sound { IsSound project.now }
    requires counts { reader.old.counts ≡ counts_of project.now }
    requires going { IsGoing reader.old.stand }
    requires course { IsCourse project.now course.old }
    requires lists { HasCounts (counts_of project.now) (moment_of moment.old) }
    ensures gives { (text : List ℕ)
        → IsSoFar reader.old.stand project.now text reader.old (D.rest desk.old) course.old
        → IfOk result (λ answer. TurnGives answer project.now text reader.new (D.rest desk.new) course.new) }
    ensures goes_on { IfOk result (λ answer. IfNone answer (GoesOn reader.old.stand reader.new.stand)) }
    ensures counts { reader.new.counts ≡ counts_of project.now }
    ensures course { IsCourse project.now course.new }
    ensures lists { HasCounts (counts_of project.now) (moment_of moment.new) }
    ensures fault { OnErr result (D.counts desk.new ≡ with_read_fault (D.counts desk.old)) }
    ensures steady { OnOk result (D.counts desk.new ≡ D.counts desk.old) }
    ensures stays { KeepsOutput D.files D.written D.printed D.target D.ready D.counts D.openings
        desk.old desk.new }
{
    match reader.next(desk, moment) {
        Ok(WitnessNext::Moment(reached)) => Ok(try_moment(project, course, moment, reached)),
        Ok(WitnessNext::End(reached)) => Ok(Some(all_met(reached))),
        Err(WitnessFault::Grammar { line }) => Ok(Some(Finding::BadLine(line))),
        Err(WitnessFault::Read) => Err(Failed),
    }
}

/// Reads the witness in the file that is being read, and tries its periods one after another, up to the first that isn't
/// met, the end of the text or a line that can't be so. Takes no memory. The course and the moment are the network's.
///
/// The error: a read failed, and the read faults rose.
pub fn find<D: Desk>(
    project: &Project,
    reader: &mut WitnessReader,
    course: &mut Course,
    moment: &mut Moment,
    desk: &mut D,
) -> Result<Finding, Failed>
    requires sound { IsSound project.now }
    requires reader { reader.old ≡ fresh (counts_of project.now) }
    requires course { IsCourse project.now course.old }
    requires lists { HasCounts (counts_of project.now) (moment_of moment.old) }
    ensures found { (text : List ℕ) → D.rest desk.old ≡ Some text → IfOk result (IsFound project.now text) }
    ensures fault { OnErr result (D.counts desk.new ≡ with_read_fault (D.counts desk.old)) }
    ensures steady { OnOk result (D.counts desk.new ≡ D.counts desk.old) }
    ensures stays { KeepsOutput D.files D.written D.printed D.target D.ready D.counts D.openings
        desk.old desk.new }
{
    loop {
        if let Some(finding) = take_moment(project, reader, course, moment, desk)? {
            return Ok(finding);
        }
    }
}
