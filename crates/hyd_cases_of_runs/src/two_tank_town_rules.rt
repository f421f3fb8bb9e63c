//! Rules of the town: what they look at, which are true, false or open, what they offer and what they change.
#![tactic(auto)]

ghost use Rattle.std.specs.Prelude.{◌≡◌, pos, neg_ℤ, true, false, [], ◌∷◌, map, codes, Some, None};
ghost use Rattle.hyd_num.specs.Rational.{whole};
ghost use Rattle.hyd_spec.specs.declared.Source.TheVariants.{Rule as ByRule};
ghost use Rattle.hyd_spec.specs.ProgramTypes.{Project, Open, Closed, Speed};
ghost use Rattle.hyd_spec_certificates.specs.declared.Verdict.TheVariants.{Yes, No, Unknown};
ghost use Rattle.hyd_spec_certificates.specs.ThreeValuedLogic.{is_yes};
ghost use Rattle.hyd_spec.specs.Rules.{head_of, pressure_of, state_of_link, rule_values, offers_from, best_offer};
ghost use Rattle.hyd_spec.specs.Rules.{higher, change_of, rule_changes, acted};
ghost use Rattle.hyd_spec_certificates.specs.Decided.{links_at, readings_below, readings_above, rule_truths};
ghost use Rattle.hyd_spec_certificates.specs.Decided.{decided_changes};
ghost use Rattle.hyd_spec_reports.specs.Report.{change_line};
ghost use Rattle.hyd_spec_reports.specs.ReportLine.{RuleLine, line_text};
ghost use Rattle.hyd_cases_of_runs.specs.TwoTankTown.{IsTown, numbers, earlier, later, filling, fast_filling};
ghost use Rattle.hyd_cases_of_runs.specs.TwoTankTown.{narrow_main};
ghost use Rattle.hyd_cases_of_runs.specs.TwoTankTown.{night_main, wide_main, unthrottled};
ghost use Rattle.hyd_cases_of_runs.specs.TwoTankTownPeriods.{standing_at_two, standing_when_full};
ghost use Rattle.hyd_cases_of_runs.specs.TwoTankTownPeriods.{grid_at_two};
ghost use Rattle.hyd_cases_of_runs.specs.TwoTankTownPeriods.{grid_when_full, row_at_two, row_when_full};
ghost use Rattle.hyd_cases_of_runs.specs.TwoTankTownReadings.{readings_none, readings_three, readings_edges};
ghost use Rattle.hyd_cases_of_runs.specs.TwoTankTownReadings.{readings_past_edges};
ghost use Rattle.hyd_cases_of_runs.specs.TwoTankTownReadings.{readings_of_halves};

/// What the rules look at, from below and above.
pub fn readings()
    ensures below_at_two { (project : Project) → IsTown project
        → readings_below project grid_at_two standing_at_two row_at_two 60
        ≡ record {
          heads = pos 449923184137361 ∷ pos 215076805275904 ∷ pos 600000000000000 ∷ pos 449923185009438
              ∷ pos 215076805853966 ∷ [];
          levels = whole (pos 49964211551183) ∷ whole (pos 15035779236082) ∷ [];
          flows = 0
              ∷ 11639999990 ∷ 0 ∷ 3999999990 ∷ 0 ∷ [];
          links = Closed ∷ filling ∷ Open ∷ narrow_main ∷ unthrottled ∷ [];
        } }
    ensures above_at_two { (project : Project) → IsTown project
        → readings_above project grid_at_two standing_at_two row_at_two 60
        ≡ record {
          heads = pos 449923192697818 ∷ pos 215076813815139 ∷ pos 600000000000000 ∷ pos 449923193569894
              ∷ pos 215076814393200 ∷ [];
          levels = whole (pos 49964220182977) ∷ whole (pos 15035787846477) ∷ [];
          flows = 10
              ∷ 11640000010 ∷ 75713269598 ∷ 4000000010 ∷ 73182918105 ∷ [];
          links = Closed ∷ filling ∷ Open ∷ narrow_main
              ∷ unthrottled ∷ [];
        } }
    ensures below_when_full { (project : Project) → IsTown project
        → readings_below project grid_when_full standing_when_full row_when_full 247
        ≡ record {
          heads = pos 449999998505012 ∷ pos 215000000044849 ∷ pos 600000000000000 ∷ pos 450000000000000
              ∷ pos 215000000000000 ∷ [];
          levels = whole (pos 49563207970773) ∷ whole (pos 15013103573490) ∷ [];
          flows = 0 ∷ 0
              ∷ 11999995512 ∷ 8999999990 ∷ 359994959 ∷ [];
          links = Closed ∷ Closed ∷ Open ∷ wide_main ∷ unthrottled ∷ [];
        } }
    ensures above_when_full { (project : Project) → IsTown project
        → readings_above project grid_when_full standing_when_full row_when_full 247
        ≡ record {
          heads = pos 449999998505013 ∷ pos 215000000044850 ∷ pos 600000000000000 ∷ pos 450000000000000
              ∷ pos 215000000000000 ∷ [];
          levels = whole (pos 49563208264407) ∷ whole (pos 15013103866433) ∷ [];
          flows = 10 ∷ 10
              ∷ 12000003559 ∷ 9000000010 ∷ 360003007 ∷ [];
          links = Closed ∷ Closed ∷ Open ∷ wide_main ∷ unthrottled ∷ [];
        } }
{}

/// The truths of the rules at seconds of a period.
pub fn truths()
    ensures when_full { (project : Project) → IsTown project
        → map (rule_truths project grid_when_full standing_when_full row_when_full) (247 ∷ 967 ∷ 1327 ∷ 1687 ∷ [])
        ≡ (No ∷ No ∷ Yes ∷ No ∷ []) ∷ (No ∷ No ∷ Yes ∷ No ∷ []) ∷ (Yes ∷ Yes ∷ No ∷ No ∷ [])
        ∷ (Yes ∷ Yes ∷ No ∷ No ∷ []) ∷ [] }
    ensures at_two { (project : Project) → IsTown project
        → map (rule_truths project grid_at_two standing_at_two row_at_two) (0 ∷ 60 ∷ 360 ∷ [])
        ≡ (No ∷ No ∷ Yes ∷ No ∷ []) ∷ (No ∷ No ∷ Yes ∷ No ∷ []) ∷ (No ∷ No ∷ Yes ∷ No ∷ []) ∷ [] }
{}

/// The truths of the rules where levels are less certain.
pub fn open_truths()
    ensures upper { (project : Project) → IsTown project
        → map (rule_truths project grid_when_full (record standing_when_full {
          levels = record { lo = pos 47000000000000; hi = pos 49000000000000 }
              ∷ record { lo = pos 15000000000000; hi = pos 18000000000000 } ∷ [];
        }) row_when_full) (247 ∷ 967 ∷ 1327 ∷ [])
        ≡ (Unknown ∷ No ∷ Yes ∷ No ∷ []) ∷ (Yes ∷ No ∷ Yes ∷ No ∷ []) ∷ (Yes ∷ Yes ∷ No ∷ No ∷ []) ∷ [] }
    ensures lower { (project : Project) → IsTown project
        → map (rule_truths project grid_when_full (record standing_when_full {
          levels = record { lo = pos 46000000000000; hi = pos 47000000000000 }
              ∷ record { lo = pos 18000000000000; hi = pos 20000000000000 } ∷ [];
        }) row_when_full) (247 ∷ 967 ∷ 1327 ∷ [])
        ≡ (Yes ∷ No ∷ Yes ∷ No ∷ []) ∷ (Yes ∷ No ∷ Yes ∷ No ∷ []) ∷ (Yes ∷ Yes ∷ Unknown ∷ No ∷ []) ∷ [] }
    ensures both { (project : Project) → IsTown project
        → map (rule_truths project grid_when_full (record standing_when_full {
          levels = record { lo = pos 47000000000000; hi = pos 49000000000000 }
              ∷ record { lo = pos 18000000000000; hi = pos 20000000000000 } ∷ [];
        }) row_when_full) (247 ∷ 967 ∷ 1327 ∷ [])
        ≡ (Unknown ∷ No ∷ Yes ∷ No ∷ []) ∷ (Yes ∷ No ∷ Yes ∷ No ∷ []) ∷ (Yes ∷ Yes ∷ Unknown ∷ No ∷ []) ∷ [] }
    ensures earlier { (project : Project) → IsTown project
        → rule_truths project grid_when_full (record standing_when_full {
          time = 3600;
          levels =
              record { lo = pos 47000000000000; hi = pos 49000000000000 }
              ∷ record { lo = pos 15000000000000; hi = pos 18000000000000 } ∷ [];
        }) row_when_full 247
        ≡ No ∷ No ∷ Yes ∷ No ∷ [] }
{}

/// What the rules change at seconds of a period.
pub fn changes()
    ensures when_full_247 { (project : Project) → IsTown project
        → decided_changes project grid_when_full standing_when_full row_when_full 247 ≡ [] }
    ensures when_full_967 { (project : Project) → IsTown project
        → decided_changes project grid_when_full standing_when_full row_when_full 967 ≡ [] }
    ensures when_full_1327 { (project : Project) → IsTown project
        → decided_changes project grid_when_full standing_when_full row_when_full 1327
        ≡ record { source = ByRule 0; link = 1; to = fast_filling } ∷ record {
          source = ByRule 1;
          link = 3;
          to = night_main;
        }
        ∷ record { source = ByRule 2; link = 4; to = Open } ∷ [] }
    ensures when_full_1687 { (project : Project) → IsTown project
        → decided_changes project grid_when_full standing_when_full row_when_full 1687
        ≡ record { source = ByRule 0; link = 1; to = fast_filling } ∷ record {
          source = ByRule 1;
          link = 3;
          to = night_main;
        }
        ∷ record { source = ByRule 2; link = 4; to = Open } ∷ [] }
    ensures at_two_60 { (project : Project) → IsTown project
        → decided_changes project grid_at_two standing_at_two row_at_two 60 ≡ [] }
{}

/// The states of the links after the rules.
pub fn states()
    ensures when_full_247 { (project : Project) → IsTown project
        → acted project (map is_yes (rule_truths project grid_when_full standing_when_full row_when_full 247))
        (links_at project standing_when_full)
        ≡ Closed ∷ Closed ∷ Open ∷ wide_main ∷ unthrottled ∷ [] }
    ensures when_full_1327 { (project : Project) → IsTown project
        → acted project (map is_yes (rule_truths project grid_when_full standing_when_full row_when_full 1327))
        (links_at project standing_when_full)
        ≡ Closed ∷ fast_filling ∷ Open ∷ night_main ∷ Open ∷ [] }
{}

/// The lines of the rules at the end of a period, and their texts.
pub fn lines()
    ensures when_full { (project : Project) → IsTown project
        → map (change_line 8640) (decided_changes project grid_when_full standing_when_full row_when_full
        row_when_full.length)
        ≡ RuleLine 8640 0 1 fast_filling ∷ RuleLine 8640 1 3 night_main ∷ RuleLine 8640 2 4 Open ∷ [] }
    ensures before { (project : Project) → IsTown project
        → map (change_line 8280) (decided_changes project grid_when_full standing_when_full
        (record row_when_full { length = 967 }) 967) ≡ [] }
    ensures text_when_full { (project : Project) → IsTown project
        → map (line_text project) (map (change_line 8640) (decided_changes project grid_when_full standing_when_full
        row_when_full row_when_full.length))
        ≡ codes "RULE LOW 2:24:00 LINK FILL SETTING 1400.000000000\n"
        ∷ codes "RULE NIGHT 2:24:00 LINK MAIN SETTING 880.000000000\n" ∷ codes "RULE REST 2:24:00 LINK LOWER OPEN\n"
        ∷ [] }
{}

/// The values of the rules at an instant, where all is exact.
pub fn values()
    ensures none { (project : Project) → IsTown project
        → rule_values project 1 7560 readings_none ≡ false ∷ false ∷ true ∷ false ∷ [] }
    ensures three { (project : Project) → IsTown project
        → rule_values project 1 8640 readings_three ≡ true ∷ true ∷ false ∷ true ∷ [] }
    ensures edges { (project : Project) → IsTown project
        → rule_values project 1 8640 readings_edges ≡ false ∷ true ∷ false ∷ true ∷ [] }
    ensures past_edges { (project : Project) → IsTown project
        → rule_values project 1 8640 readings_past_edges ≡ true ∷ true ∷ true ∷ false ∷ [] }
{}

/// Heads of all nodes, pressures of junctions and tanks, and states of links, as rules read them.
pub fn measures()
    ensures heads { (project : Project) → IsTown project
        → map (head_of project 1 readings_of_halves) numbers
        ≡ whole (pos 449999998505013) ∷ whole (pos 215000000044850) ∷ whole (pos 600000000000000)
        ∷ record { num = pos 899126415941547; den = 2 } ∷ record { num = pos 430026207146981; den = 2 } ∷ [] }
    ensures pressures { (project : Project) → IsTown project
        → map (pressure_of project 1 readings_of_halves) (0 ∷ 1 ∷ 3 ∷ 4 ∷ [])
        ≡ whole (pos 349999998505013) ∷ whole (pos 165000000044850) ∷ record { num = pos 99126415941547; den = 2 }
        ∷ record { num = pos 30026207146981; den = 2 } ∷ [] }
    ensures states { (project : Project) → IsTown project
        → map (state_of_link (links_at project standing_when_full)) numbers
        ≡ Closed ∷ Closed ∷ Open ∷ wide_main ∷ unthrottled ∷ [] }
{}

/// What the rules offer with some values, in order.
pub fn offers()
    ensures three { (project : Project) → IsTown project
        → offers_from 0 project.rules.list (true ∷ true ∷ false ∷ false ∷ [])
        ≡ record { rule = 0; priority = Some (pos 2000000000); link = 1; to = fast_filling }
        ∷ record { rule = 1; priority = Some (pos 1000000000); link = 1; to = Closed }
        ∷ record { rule = 1; priority = Some (pos 1000000000); link = 3; to = night_main }
        ∷ record { rule = 2; priority = None; link = 4; to = Open } ∷ [] }
    ensures all { (project : Project) → IsTown project
        → offers_from 0 project.rules.list (true ∷ true ∷ true ∷ true ∷ [])
        ≡ record { rule = 0; priority = Some (pos 2000000000); link = 1; to = fast_filling }
        ∷ record { rule = 1; priority = Some (pos 1000000000); link = 1; to = Closed }
        ∷ record { rule = 1; priority = Some (pos 1000000000); link = 3; to = night_main }
        ∷ record { rule = 2; priority = None; link = 4; to = unthrottled }
        ∷ record { rule = 3; priority = None; link = 0; to = Speed (pos 500000000) } ∷ [] }
    ensures none { (project : Project) → IsTown project
        → offers_from 0 project.rules.list (false ∷ false ∷ false ∷ false ∷ [])
        ≡ record { rule = 2; priority = None; link = 4; to = Open } ∷ [] }
{}

/// The offer of highest rank to each link.
pub fn best_offers()
    ensures three { (project : Project) → IsTown project
        → map (λ link. best_offer link (offers_from 0 project.rules.list (true ∷ true ∷ false ∷ false ∷ []))) numbers
        ≡ None ∷ Some (record { rule = 0; priority = Some (pos 2000000000); link = 1; to = fast_filling }) ∷ None
        ∷ Some (record { rule = 1; priority = Some (pos 1000000000); link = 3; to = night_main })
        ∷ Some (record { rule = 2; priority = None; link = 4; to = Open }) ∷ [] }
    ensures all { (project : Project) → IsTown project
        → map (λ link. best_offer link (offers_from 0 project.rules.list (true ∷ true ∷ true ∷ true ∷ []))) numbers
        ≡ Some (record { rule = 3; priority = None; link = 0; to = Speed (pos 500000000) })
        ∷ Some (record { rule = 0; priority = Some (pos 2000000000); link = 1; to = fast_filling }) ∷ None
        ∷ Some (record { rule = 1; priority = Some (pos 1000000000); link = 3; to = night_main })
        ∷ Some (record { rule = 2; priority = None; link = 4; to = unthrottled }) ∷ [] }
    ensures none { (project : Project) → IsTown project
        → map (λ link. best_offer link (offers_from 0 project.rules.list (false ∷ false ∷ false ∷ false ∷ []))) numbers
        ≡ None ∷ None ∷ None ∷ None ∷ Some (record { rule = 2; priority = None; link = 4; to = Open }) ∷ [] }
{}

/// What the rules change of each link, and of all.
pub fn changed()
    ensures three { (project : Project) → IsTown project
        → map (λ link. change_of project (true ∷ true ∷ false ∷ false
        ∷ []) link (state_of_link (links_at project standing_when_full) link)) numbers
        ≡ None ∷ Some (record { source = ByRule 0; link = 1; to = fast_filling }) ∷ None
        ∷ Some (record { source = ByRule 1; link = 3; to = night_main }) ∷ Some (record {
          source = ByRule 2;
          link = 4;
          to = Open;
        }) ∷ [] }
    ensures three_in_order { (project : Project) → IsTown project
        → rule_changes project (true ∷ true ∷ false ∷ false ∷ []) (links_at project standing_when_full)
        ≡ record { source = ByRule 0; link = 1; to = fast_filling } ∷ record {
          source = ByRule 1;
          link = 3;
          to = night_main;
        }
        ∷ record { source = ByRule 2; link = 4; to = Open } ∷ [] }
    ensures all { (project : Project) → IsTown project
        → map (λ link. change_of project (true ∷ true ∷ true ∷ true
        ∷ []) link (state_of_link (links_at project standing_when_full) link)) numbers
        ≡ Some (record { source = ByRule 3; link = 0; to = Speed (pos 500000000) })
        ∷ Some (record { source = ByRule 0; link = 1; to = fast_filling }) ∷ None
        ∷ Some (record { source = ByRule 1; link = 3; to = night_main }) ∷ None ∷ [] }
    ensures all_in_order { (project : Project) → IsTown project
        → rule_changes project (true ∷ true ∷ true ∷ true ∷ []) (links_at project standing_when_full)
        ≡ record { source = ByRule 3; link = 0; to = Speed (pos 500000000) } ∷ record {
          source = ByRule 0;
          link = 1;
          to = fast_filling;
        }
        ∷ record { source = ByRule 1; link = 3; to = night_main } ∷ [] }
    ensures none { (project : Project) → IsTown project
        → map (λ link. change_of project (false ∷ false ∷ false ∷ false
        ∷ []) link (state_of_link (links_at project standing_when_full) link)) numbers
        ≡ None ∷ None ∷ None ∷ None ∷ Some (record { source = ByRule 2; link = 4; to = Open }) ∷ [] }
    ensures none_in_order { (project : Project) → IsTown project
        → rule_changes project (false ∷ false ∷ false ∷ false ∷ []) (links_at project standing_when_full)
        ≡ record { source = ByRule 2; link = 4; to = Open } ∷ [] }
{}

/// Of two offers to a link the one of higher rank, of equal ranks the earlier one.
pub fn ranks()
    ensures none { map (λ priority. higher (earlier None) (Some (later priority))) (None ∷ Some (neg_ℤ (pos 1000000000))
        ∷ Some (pos 0) ∷ Some (pos 1000000000) ∷ [])
        ≡ Some (earlier None) ∷ Some (later (Some (neg_ℤ (pos 1000000000)))) ∷ Some (later (Some (pos 0)))
        ∷ Some (later (Some (pos 1000000000))) ∷ [] }
    ensures negative { map (λ priority. higher (earlier (Some (neg_ℤ (pos 1000000000)))) (Some (later priority))) (None
        ∷ Some (neg_ℤ (pos 1000000000)) ∷ Some (pos 0) ∷ Some (pos 1000000000) ∷ [])
        ≡ Some (earlier (Some (neg_ℤ (pos 1000000000)))) ∷ Some (earlier (Some (neg_ℤ (pos 1000000000))))
        ∷ Some (later (Some (pos 0))) ∷ Some (later (Some (pos 1000000000))) ∷ [] }
    ensures nothing { map (λ priority. higher (earlier (Some (pos 0))) (Some (later priority))) (None
        ∷ Some (neg_ℤ (pos 1000000000)) ∷ Some (pos 0) ∷ Some (pos 1000000000) ∷ [])
        ≡ Some (earlier (Some (pos 0))) ∷ Some (earlier (Some (pos 0))) ∷ Some (earlier (Some (pos 0)))
        ∷ Some (later (Some (pos 1000000000))) ∷ [] }
    ensures one { map (λ priority. higher (earlier (Some (pos 1000000000))) (Some (later priority))) (None
        ∷ Some (neg_ℤ (pos 1000000000)) ∷ Some (pos 0) ∷ Some (pos 1000000000) ∷ [])
        ≡ Some (earlier (Some (pos 1000000000))) ∷ Some (earlier (Some (pos 1000000000)))
        ∷ Some (earlier (Some (pos 1000000000))) ∷ Some (earlier (Some (pos 1000000000))) ∷ [] }
{}
