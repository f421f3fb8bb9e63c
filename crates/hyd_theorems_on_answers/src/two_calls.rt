//! Two calls of the program on one text: no `check` refuses what a `run` wrote, with a slack or without, though each
//! reads the network anew.
#![tactic(auto)]

ghost use Rattle.std.specs.Prelude.{◌≡◌, ◌≢◌, List, ℕ, Some};
ghost use Rattle.hyd_io.specs.DeskBytes.{append_known};
ghost use Rattle.hyd_open_certificates.specs.OpenFaults.{HasOpenHeader, LacksOpenHeader};
ghost use Rattle.hyd_sim.specs.declared.settings.Settings.{Settings};
ghost use Rattle.hyd_command_answers.specs.declared.status.Status.{Status};
ghost use Rattle.hyd_command_answers.specs.declared.status.Status.TheVariants.{Done, CertificateRefused};
ghost use Rattle.hyd_command_answers.specs.DeskContents.{Seen};
ghost use Rattle.hyd_naming_command.specs.NamingAnswers.{AnswersTextNaming};
ghost use Rattle.hyd_cli.specs.PassedOn.{Asked, AnswersTextOpenly};
ghost use Rattle.hyd_cli.specs.RunAnswers.{AnswersText};
ghost use Rattle.hyd_check_command.specs.CheckAnswers.{AnswersCheck};
ghost use Rattle.hyd_check_command.specs.OpenCheckAnswers.{AnswersOpenCheck};
ghost use Rattle.hyd_theorems_on_answers.specs.StatusesThatWrote.{HasWritten};

/// What a run wrote that finished or was stopped by a cause begins with a header line of version 4 where it had a slack,
/// and with none where it had none, with flows of links or without: by that a check judges it.
pub fn versions_written()
    ensures plain { (text cert certificate : List ℕ) (settings : Settings) (status : Status) (before now : Seen)
        → AnswersText text settings cert status before now → HasWritten status → now.written ≡ Some certificate
        → LacksOpenHeader (Some certificate) }
    ensures naming { (text cert certificate : List ℕ) (names : List (List ℕ)) (settings : Settings) (status : Status)
        (before now : Seen) → AnswersTextNaming text names settings cert status before now → HasWritten status
        → now.written ≡ Some certificate → LacksOpenHeader (Some certificate) }
    ensures openly { (text cert certificate : List ℕ) (asked : Asked) (status : Status) (before now : Seen)
        → AnswersTextOpenly text asked cert status before now → HasWritten status → now.written ≡ Some certificate
        → HasOpenHeader (Some certificate) }
{}

/// Where a run on a text of NET finished or was stopped by a cause, no check on that text refuses what the run wrote.
pub fn never_refused()
    ensures { (text cert certificate : List ℕ) (settings : Settings) (status answer : Status)
        (before now start end : Seen) → AnswersText text settings cert status before now → HasWritten status
        → now.written ≡ Some certificate → AnswersCheck text certificate answer start end
        → answer ≢ CertificateRefused }
{}

/// Where a run finished and such a check accepts what it wrote, both printed one text.
pub fn same_report()
    ensures { (text cert certificate : List ℕ) (settings : Settings) (before now start end : Seen)
        → AnswersText text settings cert Done before now → now.written ≡ Some certificate
        → AnswersCheck text certificate Done start end
        → (report : List ℕ) × ((now.printed ≡ append_known before.printed report)
        × (end.printed ≡ append_known start.printed report)) }
{}

/// Where a run that names links finished or was stopped by a cause, no check on that text refuses what the run wrote.
pub fn never_refused_naming()
    ensures { (text cert certificate : List ℕ) (names : List (List ℕ)) (settings : Settings) (status answer : Status)
        (before now start end : Seen) → AnswersTextNaming text names settings cert status before now
        → HasWritten status → now.written ≡ Some certificate → AnswersCheck text certificate answer start end
        → answer ≢ CertificateRefused }
{}

/// Where it finished and such a check accepts what it wrote, both printed one text.
pub fn same_report_naming()
    ensures { (text cert certificate : List ℕ) (names : List (List ℕ)) (settings : Settings)
        (before now start end : Seen) → AnswersTextNaming text names settings cert Done before now
        → now.written ≡ Some certificate → AnswersCheck text certificate Done start end
        → (report : List ℕ) × ((now.printed ≡ append_known before.printed report)
        × (end.printed ≡ append_known start.printed report)) }
{}

/// Where a run with a slack finished or was stopped by a cause, no check on that text refuses what the run wrote, which
/// begins with a header line of version 4.
pub fn never_refused_openly()
    ensures { (text cert certificate : List ℕ) (asked : Asked) (status answer : Status)
        (before now start end : Seen) → AnswersTextOpenly text asked cert status before now → HasWritten status
        → now.written ≡ Some certificate → AnswersOpenCheck text certificate answer start end
        → answer ≢ CertificateRefused }
{}

/// Where it finished and such a check accepts what it wrote, both printed one text.
pub fn same_report_openly()
    ensures { (text cert certificate : List ℕ) (asked : Asked) (before now start end : Seen)
        → AnswersTextOpenly text asked cert Done before now → now.written ≡ Some certificate
        → AnswersOpenCheck text certificate Done start end
        → (report : List ℕ) × ((now.printed ≡ append_known before.printed report)
        × (end.printed ≡ append_known start.printed report)) }
{}
