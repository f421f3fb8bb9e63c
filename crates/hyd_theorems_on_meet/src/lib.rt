//! What `meet` says of a text: a network and a text have one answer, so whoever asks again is told the same. The statement
//! is the contract of a small function.
#![tactic(auto)]

ghost use Rattle.std.specs.Prelude.{◌≡◌, ℕ, List};
ghost use Rattle.hyd_net.specs.Sound.{IsSound};
ghost use Rattle.hyd_spec.specs.ProgramTypes.{Project};
ghost use Rattle.hyd_spec_witnesses.specs.declared.Unmet.{Unmet};
ghost use Rattle.hyd_spec_witness_answers.specs.PromisesOfWitnesses.{WitnessIsMet, WitnessIsUnmet, WitnessIsFaulty};

/// Of a sound network and a text one thing is true at most: the text is a witness whose periods are all met, or it has a
/// first period that isn't met, or a line of it is at fault; and one line says so.
pub fn one_answer_of_meet()
    ensures met { (project : Project) → IsSound project → (text a b : List ℕ) → WitnessIsMet project text a
        → WitnessIsMet project text b → a ≡ b }
    ensures unmet { (project : Project) → IsSound project → (text a b : List ℕ) (u v : Unmet)
        → WitnessIsUnmet project text a u → WitnessIsUnmet project text b v → (u ≡ v) × (a ≡ b) }
    ensures faulty { (project : Project) (text a b : List ℕ) (m n : ℕ) → WitnessIsFaulty project text a m
        → WitnessIsFaulty project text b n → (m ≡ n) × (a ≡ b) }
    ensures met_or_unmet { (project : Project) → IsSound project → (text a b : List ℕ) (u : Unmet)
        → WitnessIsMet project text a → WitnessIsUnmet project text b u → ⊥ }
    ensures met_or_faulty { (project : Project) (text a b : List ℕ) (n : ℕ) → WitnessIsMet project text a
        → WitnessIsFaulty project text b n → ⊥ }
    ensures unmet_or_faulty { (project : Project) (text a b : List ℕ) (u : Unmet) (n : ℕ)
        → WitnessIsUnmet project text a u → WitnessIsFaulty project text b n → ⊥ }
{}
