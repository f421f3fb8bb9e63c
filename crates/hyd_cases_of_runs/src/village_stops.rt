//! Villages whose run an independent calculation stops at its start: the cause holds by the definitions too, and the
//! last line is the one that it prints.
#![tactic(auto)]

ghost use Rattle.std.specs.Prelude.{◌≡◌, pos, codes};
ghost use Rattle.hyd_spec_certificates.specs.declared.Problem.TheVariants.{Main};
ghost use Rattle.hyd_spec_certificates.specs.declared.Side.TheVariants.{Upper, Lower};
ghost use Rattle.hyd_spec_certificates.specs.Stops.{Stops};
ghost use Rattle.hyd_spec_certificates.specs.declared.StopCause.TheVariants.{Demand as DemandOutOfRange, NoCertificate};
ghost use Rattle.hyd_spec_certificates.specs.declared.StopCause.TheVariants.{RoundsSpent, RuleOpen, EventOpen};
ghost use Rattle.hyd_spec_certificates.specs.declared.StopCause.TheVariants.{TankOpen};
ghost use Rattle.hyd_spec_certificates.specs.declared.StopCause.TheVariants.{ControlOpen};
ghost use Rattle.hyd_spec_reports.specs.ReportLine.{stop_line};
ghost use Rattle.hyd_spec_certificates.specs.RecordAndStanding.{initial_standing};
ghost use Rattle.hyd_spec_certificates.specs.declared.Truth.TheVariants.{True, False, Open};
ghost use Rattle.hyd_spec_certificates.specs.Decided.{IsTruthBetween, readings_below, readings_above};
ghost use Rattle.hyd_cases_of_runs.specs.Village.{village, village_with, refill_rule};
ghost use Rattle.hyd_cases_of_runs.specs.VillageRun.{standing_0, grid_0, row_0};
ghost use Rattle.hyd_cases_of_runs.specs.VillageStops.{thirsty, dry, unsure_rule, open_rule, unsure_event};
ghost use Rattle.hyd_cases_of_runs.specs.VillageStops.{unsure_control};
ghost use Rattle.hyd_cases_of_runs.specs.VillageStops.{unsure_tank, last_level};

/// A demand is out of range.
pub fn demand()
    ensures stops { Stops thirsty (initial_standing thirsty) 200 (DemandOutOfRange 0 0 (pos 1200000000000000)) }
    ensures line { stop_line thirsty 0 (DemandOutOfRange 0 0 (pos 1200000000000000))
        ≡ codes "STOP period 0 time 0:00:00 DEMAND Mill 1200000000000000\n" }
{}

/// A junction has no source.
pub fn source()
    ensures stops { Stops (village_with dry) (initial_standing (village_with dry)) 200 (NoCertificate 0 Main Lower 1) }
    ensures line { stop_line (village_with dry) 0 (NoCertificate 0 Main Lower 1)
        ≡ codes "STOP period 0 time 0:00:00 NOCERT MAIN LOWER JUNCTION Farm\n" }
{}

/// No rounds are allowed.
pub fn rounds()
    ensures stops { Stops village (initial_standing village) 0 (RoundsSpent 0 Main Upper 0) }
    ensures line { stop_line village 0 (RoundsSpent 0 Main Upper 0)
        ≡ codes "STOP period 0 time 0:00:00 ROUNDS MAIN UPPER 0\n" }
{}

/// What is known of a rule between two readings: one second after the start it is true, after two it is open by its
/// second clause, after three it is false.
pub fn truths()
    ensures first { IsTruthBetween (village_with unsure_rule) 1 (readings_below (village_with unsure_rule) grid_0
        standing_0 row_0 1)
        (readings_above (village_with unsure_rule) grid_0 standing_0 row_0 1) (refill_rule unsure_rule.clauses) True }
    ensures second { IsTruthBetween (village_with unsure_rule) 2 (readings_below (village_with unsure_rule) grid_0
        standing_0 row_0 2)
        (readings_above (village_with unsure_rule) grid_0 standing_0 row_0 2) (refill_rule unsure_rule.clauses)
        (Open 1 (pos 20014736562746) (pos 20014736577608)) }
    ensures third { IsTruthBetween (village_with unsure_rule) 3 (readings_below (village_with unsure_rule) grid_0
        standing_0 row_0 3)
        (readings_above (village_with unsure_rule) grid_0 standing_0 row_0 3) (refill_rule unsure_rule.clauses) False }
{}

/// A rule is open.
pub fn rule()
    ensures stops { Stops (village_with unsure_rule) (initial_standing (village_with unsure_rule)) 200
        (RuleOpen 0 open_rule.rule open_rule.clause open_rule.lo open_rule.hi) }
    ensures line { stop_line (village_with unsure_rule) 0 (RuleOpen 0 open_rule.rule open_rule.clause open_rule.lo
        open_rule.hi)
        ≡ codes "STOP period 0 time 0:00:00 RULE Refill CLAUSE 2 20014736562746 20014736577608\n" }
{}

/// The end is open between two seconds.
pub fn event()
    ensures stops { Stops (village_with unsure_event) (initial_standing (village_with unsure_event)) 200
        (EventOpen 0 5 6) }
    ensures line { stop_line (village_with unsure_event) 0 (EventOpen 0 5 6)
        ≡ codes "STOP period 0 time 0:00:00 EVENT 5 6\n" }
{}

/// A level control is open at the end of the period.
pub fn control()
    ensures stops { Stops (village_with unsure_control) (initial_standing (village_with unsure_control)) 200
        (ControlOpen 0 0 last_level.lo last_level.hi) }
    ensures line { stop_line (village_with unsure_control) 0 (ControlOpen 0 0 last_level.lo last_level.hi)
        ≡ codes "STOP period 0 time 0:00:00 CONTROL 1 20058946250974 20058946310442\n" }
{}

/// The state of the tank is open at the end of the period.
pub fn tank()
    ensures stops { Stops (village_with unsure_tank) (initial_standing (village_with unsure_tank)) 200
        (TankOpen 0 0 last_level.lo last_level.hi) }
    ensures line { stop_line (village_with unsure_tank) 0 (TankOpen 0 0 last_level.lo last_level.hi)
        ≡ codes "STOP period 0 time 0:00:00 TANK Tower 20058946250974 20058946310442\n" }
{}
