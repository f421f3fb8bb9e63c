//! What holds of the start of a run for the spread of a text. Each statement is the contract of a small function.
#![tactic(auto)]

ghost use Rattle.std.specs.Prelude.{◌≡◌, ◌⊎◌, ◌<◌, ℕ, Bool, List, Some, None, slice_get, false};
ghost use Rattle.hyd_net.specs.Sound.{IsSound};
ghost use Rattle.hyd_net.specs.declared.refusal_cause.Cause.{Cause};
ghost use Rattle.hyd_net.specs.declared.refusal_cause.Cause.TheVariants.{Range};
ghost use Rattle.hyd_spec.specs.ProgramTypes.{Project};
ghost use Rattle.hyd_spec_lines.specs.WordsOfLines.{text_lines};
ghost use Rattle.hyd_spec_spread_rows.specs.declared.Subject.{Subject};
ghost use Rattle.hyd_spec_spread_rows.specs.declared.Subject.TheVariants.{Level};
ghost use Rattle.hyd_spec_spread_rows.specs.TextsOfSpreads.{HasNoFault, rows_of, row_for, spread_in};
ghost use Rattle.hyd_spec_spread_runs.specs.RunsForSpreads.{StartIsDecided};
ghost use Rattle.hyd_spec_spread_starts.specs.StartsOfSpreads.{last_place, place_for, IsFaultAtStart};

/// The place of the last row that a test picks is that of a row which it picks, and it picks no later one; and the row
/// that counts for a node stands at the place that counts, and there is one where there is the other.
pub fn rows()
    ensures last { (test : List (List ℕ) → Bool) (rows : List (List (List ℕ))) (place later : ℕ) (row : List (List ℕ))
        → last_place test rows ≡ Some place → place < later → slice_get rows later ≡ Some row → test row ≡ false }
    ensures there { (project : Project) (subject : Subject) (rows : List (List (List ℕ))) (node place : ℕ)
        → place_for project subject rows node ≡ Some place → slice_get rows place ≡ row_for project subject rows node }
    ensures some { (project : Project) (subject : Subject) (rows : List (List (List ℕ))) (node place : ℕ)
        → place_for project subject rows node ≡ Some place
        → (row : List (List ℕ)) × (row_for project subject rows node ≡ Some row) }
    ensures none { (project : Project) (subject : Subject) (rows : List (List (List ℕ))) (node : ℕ)
        → place_for project subject rows node ≡ None → row_for project subject rows node ≡ None }
{}

/// A text without another fault is refused at the start exactly where it leaves a doubt there, in one line alone.
pub fn faults()
    ensures decided { (project : Project) → IsSound project → (text : List ℕ) → HasNoFault project text
        → StartIsDecided project (spread_in project text) ⊎ ((number : ℕ) × IsFaultAtStart project text number Range) }
    ensures open { (project : Project) (text : List ℕ) (number : ℕ) (cause : Cause)
        → IsFaultAtStart project text number cause → StartIsDecided project (spread_in project text) → ⊥ }
    ensures alone { (project : Project) (text : List ℕ) (number other : ℕ) (cause also : Cause)
        → IsFaultAtStart project text number cause → IsFaultAtStart project text other also → number ≡ other }
{}

/// The file's own levels leave no doubt at the start. So a text in which no row speaks of levels doesn't, either.
pub fn without_levels()
    ensures { (project : Project) → IsSound project → (text : List ℕ) → HasNoFault project text
        → ((node : ℕ) → row_for project Level (rows_of (text_lines text)) node ≡ None)
        → StartIsDecided project (spread_in project text) }
{}
