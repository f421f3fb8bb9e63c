//! The report of periods of the town: statuses, outflows, and the texts of all lines of a period.
#![tactic(auto)]

ghost use Rattle.std.specs.Prelude.{◌≡◌, pos, true, false, [], ◌∷◌, ◌++◌, map, codes, slice_index_or};
ghost use Rattle.hyd_spec.specs.ProgramTypes.{Project};
ghost use Rattle.hyd_spec_certificates.specs.declared.StatusWord.TheVariants.{Open as WordOpen, Closed as WordClosed};
ghost use Rattle.hyd_spec_certificates.specs.declared.StatusWord.TheVariants.{Active as WordActive};
ghost use Rattle.hyd_spec.specs.Lists.{map_from, joined};
ghost use Rattle.hyd_spec.specs.DemandsHeadsAndPumpLifts.{is_us};
ghost use Rattle.hyd_spec.specs.Rules.{state_of_link};
ghost use Rattle.hyd_spec_certificates.specs.FlowIntervals.{difference, out_box};
ghost use Rattle.hyd_spec_certificates.specs.Decided.{links_at, heads_below, heads_above};
ghost use Rattle.hyd_spec_certificates.specs.PrintedIntervals.{is_report_time};
ghost use Rattle.hyd_spec_certificates.specs.StatusesOfLinks.{status_of};
ghost use Rattle.hyd_spec_certificates.specs.EndsOfPeriods.{events_of};
ghost use Rattle.hyd_spec_reports.specs.Report.{event_line};
ghost use Rattle.hyd_spec_reports.specs.Report.{control_lines};
ghost use Rattle.hyd_spec_reports.specs.ReportLine.{line_text, report_text, done_line};
ghost use Rattle.hyd_cases_of_runs.specs.TwoTankTown.{IsTown};
ghost use Rattle.hyd_cases_of_runs.specs.TwoTankTownPeriods.{east, west, standing_at_two, standing_when_full};
ghost use Rattle.hyd_cases_of_runs.specs.TwoTankTownPeriods.{grid_at_two};
ghost use Rattle.hyd_cases_of_runs.specs.TwoTankTownPeriods.{grid_when_full, row_at_two, row_when_full};
ghost use Rattle.hyd_cases_of_runs.specs.TwoTankTownReport.{lift, lines_at_two};

/// The status words of all links.
pub fn statuses()
    ensures at_two { (project : Project) → IsTown project
        → map_from (λ l link. status_of (is_us project) project.bends.list link.kind
        (state_of_link (links_at project standing_at_two) l)
        (difference (slice_index_or grid_at_two.links l lift) (heads_below grid_at_two row_at_two)
        (heads_above grid_at_two row_at_two))) 0 project.links.list
        ≡ WordClosed ∷ WordActive ∷ WordOpen ∷ WordActive ∷ WordActive ∷ [] }
    ensures when_full { (project : Project) → IsTown project
        → map_from (λ l link. status_of (is_us project) project.bends.list link.kind
        (state_of_link (links_at project standing_when_full) l)
        (difference (slice_index_or grid_when_full.links l lift) (heads_below grid_when_full row_when_full)
        (heads_above grid_when_full row_when_full))) 0 project.links.list
        ≡ WordClosed ∷ WordClosed ∷ WordOpen ∷ WordActive ∷ WordActive ∷ [] }
{}

/// The outflow boxes of the junctions.
pub fn outflows()
    ensures at_two { out_box east (pos 449923184137361) (pos 449923192697818)
        ∷ out_box west (pos 215076805275904) (pos 215076813815139) ∷ []
        ≡ record { lo = pos 2999999990; hi = pos 3000000010 } ∷ record {
          lo = pos 8639999990;
          hi = pos 8640000010;
        } ∷ [] }
    ensures when_full { out_box east (pos 449999998505012) (pos 449999998505013)
        ∷ out_box west (pos 215000000044849) (pos 215000000044850) ∷ []
        ≡ record { lo = pos 2999999990; hi = pos 3000000010 } ∷ record {
          lo = pos 8639999990;
          hi = pos 8640000010;
        } ∷ [] }
{}

/// The report times among the starts of periods.
pub fn times()
    ensures { (project : Project) → IsTown project
        → map (is_report_time project) (0 ∷ 3600 ∷ 7200 ∷ 7313 ∷ 8640 ∷ 9720 ∷ 10080 ∷ 10800 ∷ [])
        ≡ true ∷ true ∷ true ∷ false ∷ false ∷ false ∷ false ∷ true ∷ [] }
{}

/// The texts of all lines of the period from 2:00 on.
pub fn texts()
    ensures text_state { (project : Project) → IsTown project
        → map (line_text project) lines_at_two
        ≡ codes "TIME 2:00:00\n"
        ∷ codes "JUNCTION EAST head 44.9923 44.9924 pressure 34.9923 34.9924 outflow 299.9999 300.0001\n"
        ∷ codes "JUNCTION WEST head 21.5076 21.5077 pressure 16.5076 16.5077 outflow 863.9999 864.0001\n"
        ∷ codes "RESERVOIR SPRING head 60.0000 60.0000\n"
        ∷ codes "TANK NORTH head 44.9923 44.9924 level 4.9923 4.9924 inflow 463.9992 464.0001 state BETWEEN\n"
        ∷ codes "TANK SOUTH head 21.5076 21.5077 level 1.5076 1.5077 inflow -464.0002 -463.9993 state BETWEEN\n"
        ∷ codes "LINK LIFT flow -0.0001 0.0001 status CLOSED\n"
        ∷ codes "LINK FILL flow 1163.9999 1164.0001 status ACTIVE\n"
        ∷ codes "LINK UPPER flow -6171.3263 7571.3270 status OPEN\n"
        ∷ codes "LINK MAIN flow 399.9999 400.0001 status ACTIVE\n"
        ∷ codes "LINK LOWER flow -6390.2924 7318.2919 status ACTIVE\n" ∷ [] }
    ensures text_report { (project : Project) → IsTown project
        → report_text project (control_lines project standing_at_two ++
        (lines_at_two ++ map (event_line 7313) (events_of project grid_at_two standing_at_two row_at_two)))
        (done_line 1)
        ≡ joined (codes "HYD 1\n" ∷ codes "TIME 2:00:00\n"
        ∷ codes "JUNCTION EAST head 44.9923 44.9924 pressure 34.9923 34.9924 outflow 299.9999 300.0001\n"
        ∷ codes "JUNCTION WEST head 21.5076 21.5077 pressure 16.5076 16.5077 outflow 863.9999 864.0001\n"
        ∷ codes "RESERVOIR SPRING head 60.0000 60.0000\n"
        ∷ codes "TANK NORTH head 44.9923 44.9924 level 4.9923 4.9924 inflow 463.9992 464.0001 state BETWEEN\n"
        ∷ codes "TANK SOUTH head 21.5076 21.5077 level 1.5076 1.5077 inflow -464.0002 -463.9993 state BETWEEN\n"
        ∷ codes "LINK LIFT flow -0.0001 0.0001 status CLOSED\n"
        ∷ codes "LINK FILL flow 1163.9999 1164.0001 status ACTIVE\n"
        ∷ codes "LINK UPPER flow -6171.3263 7571.3270 status OPEN\n"
        ∷ codes "LINK MAIN flow 399.9999 400.0001 status ACTIVE\n"
        ∷ codes "LINK LOWER flow -6390.2924 7318.2919 status ACTIVE\n" ∷ codes "EVENT 2:01:53 TANK NORTH FULL\n"
        ∷ codes "EVENT 2:01:53 TANK SOUTH EMPTY\n" ∷ codes "EVENT 2:01:53 TANK SOUTH CONTROL 3\n"
        ∷ codes "EVENT 2:01:53 TANK NORTH CONTROL 4\n" ∷ codes "DONE 1\n" ∷ []) }
{}
