//! A text has one answer and one report when it is checked, with flows or without, and what is printed when a check is
//! broken off begins that report. Each statement is the contract of a small function.
#![tactic(auto)]

ghost use Rattle.std.specs.Prelude.{◌≡◌, ℕ, List, ◌++◌};
ghost use Rattle.hyd_net.specs.Sound.{IsSound};
ghost use Rattle.hyd_spec.specs.ProgramTypes.{Project};
ghost use Rattle.hyd_cert_check.specs.Checks.{CheckRefusal, CheckEnds, CheckBreaksOff};
ghost use Rattle.hyd_cert_check.specs.ChecksWithFlows.{CheckRefusalNaming};
ghost use Rattle.hyd_spec_check_ends.specs.declared.CheckEnd.{CheckEnd};
ghost use Rattle.hyd_theorems_on_reports_of_checks.specs.SameEnding.{HaveOneReason, HaveOneReasonNaming};

/// Checks of one text by a sound network that come to their end end in one way: all of them accept it, or all refuse it
/// for one reason, and they print one report.
pub fn one_report()
    ensures end { (project : Project) → IsSound project → (text printed other : List ℕ) (a b : CheckEnd)
        → CheckEnds project text printed a → CheckEnds project text other b → a ≡ b }
    ensures reason { (project : Project) → IsSound project → (text printed other : List ℕ)
        (a : CheckRefusal project text printed) (b : CheckRefusal project text other)
        → HaveOneReason project text printed other a b }
    ensures reason_with_flows { (project : Project) → IsSound project → (text printed other : List ℕ)
        (a : CheckRefusalNaming project text printed) (b : CheckRefusalNaming project text other)
        → HaveOneReasonNaming project text printed other a b }
    ensures report { (project : Project) → IsSound project → (text printed other : List ℕ) (a b : CheckEnd)
        → CheckEnds project text printed a → CheckEnds project text other b → printed ≡ other }
{}

/// What a check that was broken off has printed, in its last line or before, is a front of the report that each check of
/// the text prints that comes to its end.
pub fn broken_off()
    ensures { (project : Project) → IsSound project → (text printed report : List ℕ) (end : CheckEnd)
        → CheckBreaksOff project text printed → CheckEnds project text report end
        → (unprinted : List ℕ) × (printed ++ unprinted ≡ report) }
{}
