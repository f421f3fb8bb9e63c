//! Laws of witnesses that are read: where they are at fault, and how they begin.

ghost use Rattle.std.specs.Prelude.{◌≡◌, ℕ, ◌+◌, ◌^◌, ◌<◌, List, ◌++◌, length, map, All, Some};
ghost use Rattle.hyd_spec.specs.Lists.{joined, IsFrontOf};
ghost use Rattle.hyd_spec_witnesses.specs.MetPeriods.{Moment};
ghost use Rattle.hyd_spec_witnesses.specs.WitnessText.{Counts, IsMoment, IsScale, moment_text, witness_header};
ghost use Rattle.hyd_spec_witnesses.specs.FaultyLine.{IsWitness, IsFaultyLine};
ghost use Rattle.hyd_witness_texts.specs.FirstFaults.{IsFaultOf};
ghost use Rattle.hyd_witness_texts.specs.PartsOfWitness.{IsRest, LacksMoment, lines_of};

/// A fault of a text that has to be a witness is its faulty line.
pub fn faults_are_lines()
    ensures { (counts : Counts) (text : List ℕ) (number : ℕ) → IsFaultOf (IsWitness counts) text number
        → IsFaultyLine counts text number }
{}

/// A fault behind a header line and some periods is one of the whole text, so many lines further.
pub fn faults_behind_moments()
    ensures { (counts : Counts) → counts.junctions < 2 ^ 32 → counts.links < 2 ^ 32 → counts.tanks < 2 ^ 32
        → (text rest : List ℕ) (scale number : ℕ) (moments : List Moment) → IsScale scale
        → All (IsMoment counts) moments
        → text ≡ witness_header scale counts ++ (joined (map moment_text moments) ++ rest)
        → IsFaultOf (IsRest counts (length moments)) rest number
        → IsFaultyLine counts text (lines_of counts (length moments) + number) }
{}

/// A text begins as a witness in one way: where it goes on with no whole period behind some, it begins with no others,
/// and with no other scale.
pub fn one_beginning()
    ensures { (counts : Counts) → counts.junctions < 2 ^ 32 → counts.links < 2 ^ 32 → counts.tanks < 2 ^ 32
        → (text rest unread : List ℕ) (scale other : ℕ) (moments others : List Moment) → IsScale scale → IsScale other
        → All (IsMoment counts) moments → All (IsMoment counts) others → length others < 2 ^ 32
        → text ≡ witness_header scale counts ++ (joined (map moment_text moments) ++ rest)
        → LacksMoment counts (length moments) (Some rest)
        → text ≡ witness_header other counts ++ (joined (map moment_text others) ++ unread)
        → (scale ≡ other) × IsFrontOf others moments }
{}
