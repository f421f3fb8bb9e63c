//! How runs end, what is there of their texts before the end, and how wide a record may be.
#![tactic(auto)]

ghost use Rattle.std.specs.Prelude.{◌≡◌, pos, true, false, [], ◌∷◌, map, take, codes, Some, None};
ghost use Rattle.hyd_spec_certificates.specs.declared.Problem.TheVariants.{Main};
ghost use Rattle.hyd_spec_certificates.specs.declared.Side.TheVariants.{Upper, Lower};
ghost use Rattle.hyd_spec_certificates.specs.declared.StopCause.TheVariants.{Demand as DemandOutOfRange, NoCertificate};
ghost use Rattle.hyd_spec_certificates.specs.declared.StopCause.TheVariants.{RoundsSpent, RuleOpen, EventOpen};
ghost use Rattle.hyd_spec_certificates.specs.declared.StopCause.TheVariants.{TankOpen};
ghost use Rattle.hyd_spec_certificates.specs.declared.StopCause.TheVariants.{ControlOpen};
ghost use Rattle.hyd_spec_reports.specs.PromisesOfRunsAndChecks.{Finished, Stopped, outcome_number, is_finished};
ghost use Rattle.hyd_spec_reports.specs.PromisesOfRunsAndChecks.{accepted_line};
ghost use Rattle.hyd_spec_reports.specs.PromisesOfRunsAndChecks.{certificate_so_far, report_so_far};
ghost use Rattle.hyd_spec_certificates.specs.Narrow.{widest, IsNarrow};
ghost use Rattle.hyd_cases_of_runs.specs.Village.{village, village_with};
ghost use Rattle.hyd_cases_of_runs.specs.VillageRun.{standing_0, standing_1, standing_2, row_0, row_1, left, found_0};
ghost use Rattle.hyd_cases_of_runs.specs.VillageRun.{founds};
ghost use Rattle.hyd_cases_of_runs.specs.VillageTexts.{written, printed};
ghost use Rattle.hyd_cases_of_runs.specs.VillageStops.{last_level, open_rule};
ghost use Rattle.hyd_cases_of_runs.specs.ShallowVillage.{shallow, left as shallow_left, founds as shallow_founds};
ghost use Rattle.hyd_cases_of_runs.specs.ShallowVillage.{written as shallow_written, printed as shallow_printed};

/// The exit statuses of the run that finishes and of each cause, as the independent program ends.
pub fn statuses()
    ensures { map outcome_number (Finished ∷ Stopped (NoCertificate 0 Main Lower 1)
        ∷ Stopped (RuleOpen 0 open_rule.rule open_rule.clause open_rule.lo open_rule.hi) ∷ Stopped (EventOpen 0 5 6)
        ∷ Stopped (TankOpen 0 0 last_level.lo last_level.hi) ∷ Stopped (ControlOpen 0 0 last_level.lo last_level.hi)
        ∷ Stopped (RoundsSpent 0 Main Upper 0)
        ∷ Stopped (DemandOutOfRange 0 0 (pos 1200000000000000)) ∷ [])
        ≡ 0 ∷ 6 ∷ 6 ∷ 6 ∷ 6 ∷ 6 ∷ 7 ∷ 8 ∷ [] }
{}

/// Whether a run finished, and the last lines of a check that accepts its certificate.
pub fn last_words()
    ensures finished { map is_finished (Finished ∷ Stopped (EventOpen 0 5 6) ∷ []) ≡ true ∷ false ∷ [] }
    ensures accepted { (accepted_line 5 true ∷ accepted_line 2 false ∷ []) ≡ codes "DONE 5\n" ∷ codes "PARTIAL 2\n"
        ∷ [] }
{}

/// The certificate and the report after the first period, and whole ones with and without a stop.
pub fn fronts()
    ensures first_record { certificate_so_far village (found_0 ∷ []) None ≡ take 179 written }
    ensures first_lines { report_so_far village standing_1 (found_0 ∷ []) None ≡ take 465 printed }
    ensures certificate { certificate_so_far village founds (Some Finished) ≡ written }
    ensures report { report_so_far village left founds (Some Finished) ≡ printed }
    ensures stopped_certificate { certificate_so_far (village_with shallow) shallow_founds
        (Some (Stopped (NoCertificate 2 Main Lower 1)))
        ≡ shallow_written }
    ensures stopped_report { report_so_far (village_with shallow) shallow_left shallow_founds
        (Some (Stopped (NoCertificate 2 Main Lower 1)))
        ≡ shallow_printed }
{}

/// The first two records of the village are narrow for these widths (head ticks) and not for one tick less, by the rule
/// of widths itself: the independent program doesn't ask it of tight vectors.
pub fn narrow()
    ensures widths { (widest standing_0.levels ∷ widest standing_1.levels ∷ []) ≡ pos 0 ∷ pos 59468 ∷ [] }
    ensures first { IsNarrow (pos 5946800) standing_0 row_0 standing_1 }
    ensures first_wider { IsNarrow (pos 5946799) standing_0 row_0 standing_1 → ⊥ }
    ensures second { IsNarrow (pos 1) standing_1 row_1 standing_2 }
    ensures second_wider { IsNarrow (pos 0) standing_1 row_1 standing_2 → ⊥ }
{}
