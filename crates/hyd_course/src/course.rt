//! The course of a witness's periods.
#![tactic(auto)]

ghost use Rattle.std.specs.Prelude.{ℕ, IfOk, IfErr, OnOk, OnErr};
ghost use Rattle.hyd_net.specs.Sound.{IsSound};
ghost use Rattle.hyd_spec_witnesses.specs.MetPeriods.{Reached, IsMet, at_start, after_moment};
ghost use Rattle.hyd_spec_witnesses.specs.FirstUnmetClause.{IsUnmet};
ghost use Rattle.hyd_laws_at_scale.specs.Scales.{parts_of};
ghost use Rattle.hyd_witness_texts.specs.MomentView.{moment_of};
ghost use Rattle.hyd_met_flows.specs.Periods.{IsMomentOf};
ghost use Rattle.hyd_course.specs.Courses.{IsCourse, IsCourseOf};

use crate::standing::Standing;
use crate::trial::Trial;
use hyd_laws_at_scale::Scale;
use hyd_net::{OutOfMemory, Project};
use hyd_spec_witnesses::Unmet;
use hyd_witness_texts::Moment;
use std::alloc::Global;

/// The course of a witness's periods: what is kept of the last one that was met, and what the next one is tried with.
#[derive(Drop)]
pub struct Course {
    pub standing: Standing,
    pub trial: Trial,
}

impl Course {
    /// The course of a network's periods at a scale, before the first one, with all the memory that it takes.
    pub fn open(alloc: Global, project: &Project, scale: Scale) -> Result<Course, OutOfMemory>
        requires { IsSound project.now }
        ensures { IfOk result (IsCourseOf project.now (parts_of scale) at_start) }
    {
        let standing = Standing::open(alloc, project, scale)?;
        let trial = Trial::open(alloc, project)?;
        Ok(Course { standing, trial })
    }

    /// Stands before the first period again, at a scale. It takes no memory.
    pub fn begin(&mut self, project: &Project, scale: Scale)
        requires sound { IsSound project.now }
        requires course { IsCourse project.now self.old }
        ensures { IsCourseOf project.now (parts_of scale) at_start self.new }
    {
        self.standing.begin(project, scale);
    }

    /// Judges a moment of the network as the next period, and goes on behind it where it is met. Fails with the first
    /// of its clauses that isn't met, in the order START, a demand out of range, LINK, DEMAND, EMITTER, BALANCE and
    /// LENGTH, and then the course stands where it stood. It takes no memory.
    pub fn meets(&mut self, project: &Project, moment: &Moment) -> Result<(), Unmet>
        requires sound { IsSound project.now }
        requires course { IsCourse project.now self.old }
        requires moment { IsMomentOf project.now (moment_of moment.now) }
        ensures met { (S : ℕ) (reached : Reached) → IsCourseOf project.now S reached self.old
            → OnOk result (IsMet project.now S reached (moment_of moment.now)) }
        ensures stands { (S : ℕ) (reached : Reached) → IsCourseOf project.now S reached self.old
            → OnOk result (IsCourseOf project.now S (after_moment project.now S reached (moment_of moment.now))
            self.new) }
        ensures unmet { (S : ℕ) (reached : Reached) → IsCourseOf project.now S reached self.old
            → IfErr result (IsUnmet project.now S reached (moment_of moment.now)) }
        ensures stays { (S : ℕ) (reached : Reached) → IsCourseOf project.now S reached self.old
            → OnErr result (IsCourseOf project.now S reached self.new) }
        ensures course { IsCourse project.now self.new }
    {
        self.trial.judge(project, &self.standing, moment)?;
        self.standing.go_on(project, moment, &mut self.trial);
        Ok(())
    }
}
