//! What holds of the spreads that texts give. Each statement is the contract of a small function.
#![tactic(auto)]

ghost use Rattle.std.specs.Prelude.{ℕ, List, All};
ghost use Rattle.hyd_net.specs.Sound.{IsSound};
ghost use Rattle.hyd_spec.specs.ProgramTypes.{Project};
ghost use Rattle.hyd_spec_lines.specs.WordsOfLines.{text_lines};
ghost use Rattle.hyd_spec_spread.specs.Spreads.{IsSpread};
ghost use Rattle.hyd_spec_spread_rows.specs.TextsOfSpreads.{HasNoFault, rows_of, spread_in};
ghost use Rattle.hyd_spec_spread_rows.specs.TextsOfSpreads.{demand_ends, emitter_ends, head_ends};
ghost use Rattle.hyd_spec_spread_rows.specs.RangesOfEnds.{AreFactors, AreOffsets};

/// What a text without a fault gives is a spread of the network: the file's own data are among what it allows.
pub fn spreads()
    ensures { (project : Project) → IsSound project → (text : List ℕ) → HasNoFault project text
        → IsSpread project (spread_in project text) }
{}

/// The numbers that a text without a fault gives are in range: factors lie from 0 to a million with 1 among them, and
/// offsets of heads are at most the greatest head with 0 among them.
pub fn ranges()
    ensures demands { (project : Project) → (text : List ℕ) → HasNoFault project text
        → All AreFactors (demand_ends project (rows_of (text_lines text))) }
    ensures emitters { (project : Project) → (text : List ℕ) → HasNoFault project text
        → All AreFactors (emitter_ends project (rows_of (text_lines text))) }
    ensures heads { (project : Project) → (text : List ℕ) → HasNoFault project text
        → All AreOffsets (head_ends project (rows_of (text_lines text))) }
{}
