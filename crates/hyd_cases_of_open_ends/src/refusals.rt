//! Records of certificates of version 4, as lines, and such that a check refuses, in the village.
#![tactic(auto)]

ghost use Rattle.std.specs.Prelude.{◌≡◌, codes, [], ◌∷◌};
ghost use Rattle.hyd_spec_certificates.specs.declared.Problem.TheVariants.{Main};
ghost use Rattle.hyd_spec_certificates.specs.declared.Side.TheVariants.{Upper};
ghost use Rattle.hyd_spec_certificates.specs.CertificateText.{header_line};
ghost use Rattle.hyd_spec_certificates.specs.RecordAndStanding.{initial_standing};
ghost use Rattle.hyd_spec_certificates.specs.declared.CertRefused.TheVariants.{Place, Demand, Fails, Length, After};
ghost use Rattle.hyd_spec_open_ends.specs.OpenCertificateText.{open_version, open_period_line};
ghost use Rattle.hyd_spec_open_refusals.specs.RefusedOpenRecords.{IsRefusedOpenly};
ghost use Rattle.hyd_cases_of_runs.specs.Village.{village};
ghost use Rattle.hyd_cases_of_runs.specs.VillageRun.{standing_0, standing_1, standing_4, left, row_0, row_1, row_4};
ghost use Rattle.hyd_cases_of_runs.specs.VillageStops.{thirsty};
ghost use Rattle.hyd_cases_of_runs.specs.VillageRefusals.{low_row, far_row};
ghost use Rattle.hyd_cases_of_open_ends.specs.VillageOpenly.{since, opens};

/// The header, and the first line of a record that begins 8 to 11 seconds after the start of the run and lasts 2 to 3.
pub fn lines()
    ensures header { header_line open_version 2 1 ≡ codes "HYDCERT 4 2 1\n" }
    ensures period { open_period_line (opens (record row_1 { length = 3 }) 3 2) ≡ codes "PERIOD 1 8 3 2 3\n" }
{}

/// Another number, another first second, or more or fewer seconds of the start than are due.
pub fn place()
    ensures number { IsRefusedOpenly village (since standing_0 0) (opens (record row_0 { number = 1 }) 0 8) (Place 0) }
    ensures time { IsRefusedOpenly village (since standing_1 2) (opens (record row_1 { time = 9 }) 2 3) (Place 1) }
    ensures later { IsRefusedOpenly village (since standing_1 2) (opens row_1 3 3) (Place 1) }
    ensures forgotten { IsRefusedOpenly village (since standing_1 2) (opens row_1 0 3) (Place 1) }
{}

/// A demand out of range.
pub fn demand()
    ensures refused { IsRefusedOpenly thirsty (since (initial_standing thirsty) 0) (opens row_0 0 8) (Demand 0) }
{}

/// A vector that is no certificate, whatever the lengths: one tick nearer at the first junction, or out of the box at
/// the second.
pub fn fails()
    ensures nearer { IsRefusedOpenly village (since standing_0 0) (opens low_row 0 5) (Fails 0 Main Upper 0) }
    ensures out_of_box { IsRefusedOpenly village (since standing_0 0) (opens far_row 0 5) (Fails 0 Main Upper 1) }
{}

/// Other lengths than those of the end of the run: the shortest alone, the longest alone, both.
pub fn length()
    ensures shortest { IsRefusedOpenly village (since standing_4 0) (opens row_4 0 5) (Length 4) }
    ensures longest { IsRefusedOpenly village (since standing_4 0) (opens (record row_4 { length = 5 }) 0 0)
        (Length 4) }
    ensures both { IsRefusedOpenly village (since standing_4 0) (opens (record row_4 { length = 5 }) 0 5) (Length 4) }
{}

/// A record after the end of the run.
pub fn after()
    ensures refused { IsRefusedOpenly village (since left 0) (opens (record row_4 { number = 5 }) 0 0) (After 5) }
{}
