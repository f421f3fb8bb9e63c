//! The start of periods of the town: pump patterns, then controls of all kinds.
#![tactic(auto)]

ghost use Rattle.std.specs.Prelude.{◌≡◌, pos, true, false, [], ◌∷◌, map, codes};
ghost use Rattle.hyd_spec.specs.declared.Source.TheVariants.{Control as ByControl};
ghost use Rattle.hyd_spec.specs.ProgramTypes.{Project, Capacity, Open, Closed, Speed};
ghost use Rattle.hyd_spec.specs.PumpPatternsAndSimpleControls.{started, acts_at};
ghost use Rattle.hyd_spec.specs.History.{initial_links, initial_levels};
ghost use Rattle.hyd_spec_certificates.specs.RecordAndStanding.{initial_standing};
ghost use Rattle.hyd_spec_certificates.specs.Decided.{links_at, acts_on};
ghost use Rattle.hyd_spec_certificates.specs.ChangesAtStart.{start_changes};
ghost use Rattle.hyd_spec_reports.specs.Report.{control_lines};
ghost use Rattle.hyd_spec_reports.specs.ReportLine.{ControlLine, line_text};
ghost use Rattle.hyd_cases_of_runs.specs.TwoTankTown.{IsTown, town, filling, fast_filling, narrow_main, night_main};
ghost use Rattle.hyd_cases_of_runs.specs.TwoTankTown.{wide_main};
ghost use Rattle.hyd_cases_of_runs.specs.TwoTankTown.{unthrottled};
ghost use Rattle.hyd_cases_of_runs.specs.TwoTankTownPeriods.{standing_at_start, standing_at_one, standing_at_two};
ghost use Rattle.hyd_cases_of_runs.specs.TwoTankTownPeriods.{standing_when_full, standing_after_rules};
ghost use Rattle.hyd_cases_of_runs.specs.TwoTankTownPeriods.{standing_at_three};

/// There is such a town.
pub fn towns()
    ensures { (capacity : Capacity) → IsTown (town capacity) }
{}

/// What is known at the start of the run.
pub fn initial()
    ensures standing { (project : Project) → IsTown project → initial_standing project ≡ standing_at_start }
    ensures links { (project : Project) → IsTown project
        → initial_links project ≡ Speed (pos 1000000000) ∷ filling ∷ Open ∷ narrow_main ∷ unthrottled ∷ [] }
    ensures levels { (project : Project) → IsTown project
        → initial_levels project 3 ≡ pos 135000000000000 ∷ pos 60000000000000 ∷ [] }
{}

/// The states of the links in a period.
pub fn links()
    ensures at_start { (project : Project) → IsTown project
        → links_at project standing_at_start ≡ Closed ∷ filling ∷ Open ∷ narrow_main ∷ unthrottled ∷ [] }
    ensures at_one { (project : Project) → IsTown project
        → links_at project standing_at_one ≡ Closed ∷ filling ∷ Open ∷ narrow_main ∷ unthrottled ∷ [] }
    ensures at_two { (project : Project) → IsTown project
        → links_at project standing_at_two ≡ Closed ∷ filling ∷ Open ∷ narrow_main ∷ unthrottled ∷ [] }
    ensures when_full { (project : Project) → IsTown project
        → links_at project standing_when_full ≡ Closed ∷ Closed ∷ Open ∷ wide_main ∷ unthrottled ∷ [] }
    ensures after_rules { (project : Project) → IsTown project
        → links_at project standing_after_rules ≡ Closed ∷ fast_filling ∷ Open ∷ night_main ∷ Open ∷ [] }
    ensures at_three { (project : Project) → IsTown project
        → links_at project standing_at_three ≡ Speed (pos 900000000) ∷ fast_filling ∷ Open ∷ night_main ∷ Open ∷ [] }
{}

/// What the controls change at the start of a period.
pub fn changes()
    ensures at_start { (project : Project) → IsTown project
        → start_changes project 0 (acts_on standing_at_start.levels) standing_at_start.commanded ≡ [] }
    ensures at_one { (project : Project) → IsTown project
        → start_changes project 3600 (acts_on standing_at_one.levels) standing_at_one.commanded
        ≡ record { source = ByControl 0; link = 0; to = Speed (pos 1200000000) } ∷ record {
          source = ByControl 1;
          link = 0;
          to = Closed;
        } ∷ [] }
    ensures at_two { (project : Project) → IsTown project
        → start_changes project 7200 (acts_on standing_at_two.levels) standing_at_two.commanded ≡ [] }
    ensures when_full { (project : Project) → IsTown project
        → start_changes project 7313 (acts_on standing_when_full.levels) standing_when_full.commanded
        ≡ record { source = ByControl 2; link = 3; to = wide_main } ∷ record {
          source = ByControl 3;
          link = 1;
          to = Closed;
        } ∷ [] }
    ensures after_rules { (project : Project) → IsTown project
        → start_changes project 8640 (acts_on standing_after_rules.levels) standing_after_rules.commanded ≡ [] }
    ensures at_three { (project : Project) → IsTown project
        → start_changes project 10800 (acts_on standing_at_three.levels) standing_at_three.commanded ≡ [] }
{}

/// The lines of the controls, and their texts.
pub fn lines()
    ensures at_one { (project : Project) → IsTown project
        → control_lines project standing_at_one
        ≡ ControlLine 3600 0 0 (Speed (pos 1200000000)) ∷ ControlLine 3600 1 0 Closed ∷ [] }
    ensures when_full { (project : Project) → IsTown project
        → control_lines project standing_when_full ≡ ControlLine 7313 2 3 wide_main ∷ ControlLine 7313 3 1 Closed ∷ [] }
    ensures at_three { (project : Project) → IsTown project → control_lines project standing_at_three ≡ [] }
    ensures text_at_one { (project : Project) → IsTown project
        → map (line_text project) (control_lines project standing_at_one)
        ≡ codes "CONTROL 1 1:00:00 LINK LIFT SETTING 1.200000000\n" ∷ codes "CONTROL 2 1:00:00 LINK LIFT CLOSED\n"
        ∷ [] }
    ensures text_when_full { (project : Project) → IsTown project
        → map (line_text project) (control_lines project standing_when_full)
        ≡ codes "CONTROL 3 2:01:53 LINK MAIN SETTING 900.000000000\n" ∷ codes "CONTROL 4 2:01:53 LINK FILL CLOSED\n"
        ∷ [] }
{}

/// Level controls at levels in thirds of a tick, on, above and below the control's level.
pub fn levels()
    ensures above { map (λ level. acts_at 3 (level ∷ []) 0 true (pos 50000000000000)) (pos 149999999999999
        ∷ pos 150000000000000 ∷ pos 150000000000001 ∷ [])
        ≡ false ∷ true ∷ true ∷ [] }
    ensures below { map (λ level. acts_at 3 (level ∷ []) 0 false (pos 50000000000000)) (pos 149999999999999
        ∷ pos 150000000000000 ∷ pos 150000000000001 ∷ [])
        ≡ true ∷ true ∷ false ∷ [] }
{}

/// The states of the links in a period of a history, at levels in thirds of a tick: a level control acts from its level
/// on.
pub fn histories()
    ensures reached { (project : Project) → IsTown project
        → started project 7313 (acts_at 3 (pos 150000000000000 ∷ pos 45000000000000 ∷ [])) standing_when_full.commanded
        ≡ Closed ∷ Closed ∷ Open ∷ wide_main ∷ unthrottled ∷ [] }
    ensures not_reached { (project : Project) → IsTown project
        → started project 7313 (acts_at 3 (pos 149999999999999 ∷ pos 45000000000001 ∷ [])) standing_when_full.commanded
        ≡ Closed ∷ filling ∷ Open ∷ narrow_main ∷ unthrottled ∷ [] }
    ensures only_below { (project : Project) → IsTown project
        → started project 7313 (acts_at 3 (pos 149999999999999 ∷ pos 45000000000000 ∷ [])) standing_when_full.commanded
        ≡ Closed ∷ filling ∷ Open ∷ wide_main ∷ unthrottled ∷ [] }
{}
