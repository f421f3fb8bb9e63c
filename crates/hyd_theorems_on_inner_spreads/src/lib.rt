//! What a run for a spread is for the spreads inside it. Each statement is the contract of a small function.
//!
//! A record that is valid for a spread need not be so for one inside it that leaves less of the heads of tanks or
//! reservoirs open: a tank's inflow is found with the tank at the other end of its level interval, and where that end
//! moves inward the vectors of that problem are no certificates any more, though what they say of the inflow stays true.
//! Where only demands and emitters are less open, each standing of the run stays, and with them each record is valid.
#![tactic(auto)]

ghost use Rattle.std.specs.Prelude.{List, map};
ghost use Rattle.hyd_net.specs.Sound.{IsSound};
ghost use Rattle.hyd_spec.specs.ProgramTypes.{Project};
ghost use Rattle.hyd_spec_certificates.specs.RecordAndStanding.{Standing};
ghost use Rattle.hyd_spec_certificates.specs.Valid.{AreValid};
ghost use Rattle.hyd_spec_spread.specs.Spreads.{Spread, IsSpread, IsInside, no_spread};
ghost use Rattle.hyd_spec_spread_runs.specs.RunsForSpreads.{FoundOver, IsRunOver};
ghost use Rattle.hyd_theorems_on_inner_spreads.specs.RunsInside.{LeaveSameHeads, HasOutermostEmitters, IsRunToo};
ghost use Rattle.hyd_theorems_on_inner_spreads.specs.RunsInside.{row_of};

/// A run for a spread is one for each spread inside it that leaves the same heads of reservoirs and the same initial
/// levels open, with the same records and standings.
pub fn runs()
    ensures { (project : Project) → IsSound project → (inner outer : Spread) → IsSpread project inner
        → IsSpread project outer
        → IsInside project inner outer → LeaveSameHeads project inner outer → HasOutermostEmitters project inner
        → (founds : List FoundOver) (last : Standing) → IsRunOver project outer founds last
        → IsRunToo project inner founds last }
{}

/// So where a spread leaves only demands and emitters open, the records of a run for it are valid records of the file's
/// own network, from its start on.
pub fn own_network()
    ensures { (project : Project) → IsSound project → (spread : Spread) → IsSpread project spread
        → LeaveSameHeads project no_spread spread → (founds : List FoundOver) (last : Standing)
        → IsRunOver project spread founds last → AreValid project (map row_of founds) last }
{}
