//! Stops without a spread.
#![tactic(auto)]

ghost use Rattle.std.specs.Prelude.{ℕ};
ghost use Rattle.hyd_net.specs.Sound.{IsSound};
ghost use Rattle.hyd_spec.specs.ProgramTypes.{Project};
ghost use Rattle.hyd_spec_certificates.specs.declared.StopCause.{StopCause};
ghost use Rattle.hyd_spec_certificates.specs.RecordAndStanding.{Standing};
ghost use Rattle.hyd_spec_spread.specs.Spreads.{no_spread};
ghost use Rattle.hyd_sim.specs.NarrowRecordsAndStops.{NamesStuck};
ghost use Rattle.hyd_spread_stops.specs.StuckOverSpreads.{NamesStuckOver};

/// Without a spread the junction that a stop names has no value on the grid of the network.
pub fn stuck_without_spread()
    ensures { (project : Project) → IsSound project → (standing : Standing) (rounds : ℕ) (cause : StopCause)
        → NamesStuckOver project no_spread standing rounds cause → NamesStuck project standing rounds cause }
{}
