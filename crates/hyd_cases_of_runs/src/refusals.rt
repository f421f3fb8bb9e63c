//! Records that a check refuses: each of the six causes, in the village and in villages like it.
#![tactic(auto)]

ghost use Rattle.std.specs.Prelude.{◌≡◌, codes};
ghost use Rattle.hyd_spec_certificates.specs.declared.Problem.TheVariants.{Main};
ghost use Rattle.hyd_spec_certificates.specs.declared.Side.TheVariants.{Upper};
ghost use Rattle.hyd_spec_certificates.specs.RecordAndStanding.{initial_standing};
ghost use Rattle.hyd_spec_certificates.specs.declared.CertRefused.TheVariants.{Place, Demand, Fails};
ghost use Rattle.hyd_spec_certificates.specs.declared.CertRefused.TheVariants.{Open as MatterOpen};
ghost use Rattle.hyd_spec_certificates.specs.declared.CertRefused.TheVariants.{Length, After};
ghost use Rattle.hyd_spec_reports.specs.ReportLine.{refused_line};
ghost use Rattle.hyd_spec_certificates.specs.RefusedRecords.{IsRefused};
ghost use Rattle.hyd_cases_of_runs.specs.Village.{village, village_with};
ghost use Rattle.hyd_cases_of_runs.specs.VillageRun.{standing_0, standing_1, standing_4, left, row_0, row_1, row_4};
ghost use Rattle.hyd_cases_of_runs.specs.VillageStops.{thirsty, unsure_rule, unsure_event, unsure_control, unsure_tank};
ghost use Rattle.hyd_cases_of_runs.specs.VillageRefusals.{low_row, far_row};

/// Another number or time than is due.
pub fn place()
    ensures number { IsRefused village standing_0 (record row_0 { number = 1 }) (Place 0) }
    ensures time { IsRefused village standing_1 (record row_1 { time = 9 }) (Place 1) }
{}

/// A demand out of range.
pub fn demand()
    ensures refused { IsRefused thirsty (initial_standing thirsty) row_0 (Demand 0) }
{}

/// A vector that is no certificate: one tick nearer at the first junction, or out of the box at the second.
pub fn fails()
    ensures nearer { IsRefused village standing_0 low_row (Fails 0 Main Upper 0) }
    ensures out_of_box { IsRefused village standing_0 far_row (Fails 0 Main Upper 1) }
    ensures line { refused_line village (Fails 0 Main Upper 1)
        ≡ codes "BADCERT period 0 FAILS MAIN UPPER JUNCTION Farm\n" }
{}

/// A matter that isn't decided: a rule, the end between two seconds, the state of a tank, a level control.
pub fn matters()
    ensures rule { IsRefused (village_with unsure_rule) standing_0 row_0 (MatterOpen 0) }
    ensures event { IsRefused (village_with unsure_event) standing_0 row_0 (MatterOpen 0) }
    ensures tank { IsRefused (village_with unsure_tank) standing_0 row_0 (MatterOpen 0) }
    ensures control { IsRefused (village_with unsure_control) standing_0 row_0 (MatterOpen 0) }
{}

/// Another length than the decided one.
pub fn length()
    ensures last { IsRefused village standing_4 (record row_4 { length = 5 }) (Length 4) }
{}

/// A record after the end of the run.
pub fn after()
    ensures refused { IsRefused village left (record row_4 { number = 5 }) (After 5) }
{}
