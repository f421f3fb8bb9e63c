//! The stops at a lacking vector.
#![tactic(auto)]

ghost use Rattle.std.specs.Prelude.{◌≡◌, ℕ, Bool, false, IfErr, IfOk};
ghost use Rattle.hyd_spec.specs.ProgramTypes.{Project};
ghost use Rattle.hyd_spec.specs.NodeNumbers.{tank_count};
ghost use Rattle.hyd_spec_open_ends.specs.OpenStandings.{OpenStanding};
ghost use Rattle.hyd_spec_spread.specs.Spreads.{Spread};
ghost use Rattle.hyd_spec_spread_runs.specs.OutermostPairs.{Pair};
ghost use Rattle.hyd_spec_spread_runs.specs.RunsForSpreads.{AreDemandsInRange, ArePairAt};
ghost use Rattle.hyd_spec_spread_stops.specs.StopsOfSpreads.{StopsOver};
ghost use Rattle.hyd_sim.specs.NarrowRecordsAndStops.{SaysNone, IsBySpentRounds, stop_of};
ghost use Rattle.hyd_spread_vectors.specs.VectorsOfBothNetworks.{Told, Held, LacksFirstOver};
ghost use Rattle.hyd_spread_stops.specs.StuckOverSpreads.{NamesStuckOver};

use hyd_open_sim_start::{lack_fits as fits_alone, lack_stop as stop_alone};
use hyd_spec_certificates::StopCause;
use hyd_spread_vectors::SpreadLack;

/// The stop at the period of a number that lacks a vector on one of the outermost networks. It names the problem and
/// the side, not the network; and where no vector is a certificate, a junction that has no value at heads that were
/// reached there.
pub fn lack_stop(number: u32, rounds: u32, lack: SpreadLack) -> StopCause
    ensures value { result ≡ stop_of number rounds lack.lack }
    ensures stops { (project : Project) (spread : Spread) (standing : OpenStanding) (slack : ℕ) (tight : Bool)
        (told : Told) (pair : Pair) (held : Held) → standing.known.number ≡ number
        → AreDemandsInRange project spread standing.known.time → ArePairAt project spread standing.known pair
        → LacksFirstOver tight told pair (tank_count project) rounds held lack
        → StopsOver project spread standing slack rounds result }
    ensures stuck { (project : Project) (spread : Spread) (standing : OpenStanding) (tight : Bool) (told : Told)
        (pair : Pair) (held : Held) → ArePairAt project spread standing.known pair
        → LacksFirstOver tight told pair (tank_count project) rounds held lack
        → NamesStuckOver project spread standing.known rounds result }
{
    stop_alone(number, rounds, lack.lack)
}

/// Whether a period that lacks a vector is done: it isn't, but where only rounds were spent the tight vectors may be
/// reached from other starts. Fails with the stop where no vector is a certificate, and only there.
pub fn lack_fits(number: u32, rounds: u32, lack: SpreadLack) -> Result<bool, StopCause>
    ensures stop { IfErr result (λ cause. cause ≡ stop_of number rounds lack.lack) }
    ensures certain { IfErr result SaysNone }
    ensures goes_on { IfOk result (λ fits. fits ≡ false) }
    ensures spent { IfOk result (λ fits. IsBySpentRounds lack.lack) }
{
    fits_alone(number, rounds, lack.lack)
}
