//! One vector: proposed and checked, or found by rounds.
#![tactic(auto)]

ghost use Rattle.std.specs.Prelude.{◌≡◌, ◌≤◌, ℕ, ℤ, List, length, None, false, IfErr, OnOk, OnErr, IsTrue};
ghost use Rattle.hyd_spec_certificates.specs.Certificate.{IsTight};
ghost use Rattle.hyd_spec_certificates.specs.StartsRaisesAndLeaps.{IsStart};
ghost use Rattle.hyd_cert.specs.RecordView.{header_of, row_of};
ghost use Rattle.hyd_period_network.specs.NetAsPeriodNetwork.{grid_of};
ghost use Rattle.hyd_period_network.specs.SoundNets.{HasProblem};
ghost use Rattle.hyd_sweep.specs.LeapingRounds.{AreLeapingRounds};
ghost use Rattle.hyd_theorems_on_definitions.specs.SoundLawsAndGrids.{TanksInOrder};
ghost use Rattle.hyd_period_vectors.specs.SoughtVectors.{HasOther, Fits, IsBegun, IsFound, IsTold};
ghost use Rattle.hyd_period_vectors.specs.SoughtVectors.{IsSought, IsOffered, Tells};
ghost use Rattle.hyd_period_vectors.specs.SoughtVectors.{Comes, Lacks};

use crate::missing_vector::Lack;
use crate::search_start::{Starter, begin_near};
use hyd_cert::Record;
use hyd_finders::Finder;
use hyd_period_network::Net;
use hyd_spec_certificates::{Problem, Side};
use hyd_sweep::{Sweeper, Swept, begin};
use hyd_vector_check::check;

// Whether the finder proposes a certificate, which then stands in `heads`.
fn propose<F: Finder>(
    net: &Net,
    finder: &mut F,
    problem: Problem,
    side: Side,
    heads: &mut [i64],
) -> bool
    requires one_each { length heads.old ≡ length net.now.junctions }
    requires pinned { HasProblem net.now problem }
    ensures found { IsTrue result
        → IsFound (F.told finder.old) (grid_of net.now) (length net.now.tanks) problem side heads.new }
    ensures refused { result ≡ false → (w : List ℤ)
        → IsTold (F.told finder.old) (grid_of net.now) (length net.now.tanks) problem side w → ⊥ }
    ensures tells { IsTrue result
        → Tells (F.told finder.old) (length (grid_of net.now).junctions) (length net.now.tanks)
        → IsTold (F.told finder.old) (grid_of net.now) (length net.now.tanks) problem side heads.new }
    ensures each { length heads.new ≡ length heads.old }
    ensures told { F.told finder.new ≡ F.told finder.old }
{
    let _junctions = net.junctions();
    begin(side, heads);
    finder.propose(net, problem, side, heads);
    check(net, problem, side, heads).is_ok()
}

// The tight vector of a problem and side, by at most so many rounds of raises from a start, with leaps between them,
// where rounds begin.
fn sweep(
    net: &Net,
    problem: Problem,
    side: Side,
    rounds: u32,
    sweeper: &mut Sweeper,
    heads: &mut [i64],
) -> Result<(), Lack>
    requires one_each { length heads.old ≡ length net.now.junctions }
    requires start { IsStart None (grid_of net.now) problem side heads.old }
    requires begun { IsBegun (grid_of net.now) problem side heads.old }
    requires room { sweeper.old ≡ length heads.old }
    requires pinned { HasProblem net.now problem }
    ensures tight { OnOk result (IsTight (grid_of net.now) problem side heads.new) }
    ensures goes { OnOk result ((n : ℕ)
        × ((n ≤ rounds) × AreLeapingRounds None (grid_of net.now) problem side n heads.old heads.new)) }
    ensures lack { IfErr result (Lacks (grid_of net.now) problem side rounds) }
    ensures each { length heads.new ≡ length heads.old }
    ensures room { sweeper.new ≡ sweeper.old }
{
    let _junctions = net.junctions();
    match sweeper.tighten(net, problem, side, None, heads, rounds) {
        Swept::Least => Ok(()),
        Swept::NoCertificate { junction } => Err(Lack::NoCertificate {
            problem,
            side,
            junction,
        }),
        Swept::RoundsSpent => Err(Lack::RoundsSpent { problem, side }),
    }
}

/// The vector that is sought of a problem and side: where it is to be tight, by rounds from a start of the finder's;
/// else the finder's where that passes, and by rounds where it doesn't. The record holds the vectors before it.
pub(crate) fn find<F: Finder>(
    net: &Net,
    finder: &mut F,
    tight: bool,
    problem: Problem,
    side: Side,
    rounds: u32,
    row: &Record,
    starter: &mut Starter,
    sweeper: &mut Sweeper,
    heads: &mut [i64],
) -> Result<(), Lack>
    requires one_each { length heads.old ≡ length net.now.junctions }
    requires starter_room { starter.old ≡ length heads.old }
    requires room { sweeper.old ≡ length heads.old }
    requires pinned { HasProblem net.now problem }
    requires order { TanksInOrder (grid_of net.now) }
    requires fits { Fits net.now (header_of row.now) }
    requires other { HasOther (grid_of net.now) problem side (row_of row.now) }
    ensures sought { OnOk result
        (IsSought tight (F.told finder.old) (grid_of net.now) (length net.now.tanks) problem side heads.new) }
    ensures comes { OnOk result
        (Comes tight (F.told finder.old) (grid_of net.now) (length net.now.tanks) rounds problem side heads.new) }
    ensures lack { IfErr result (Lacks (grid_of net.now) problem side rounds) }
    ensures unoffered { OnErr result ((w : List ℤ)
        → IsOffered tight (F.told finder.old) (grid_of net.now) (length net.now.tanks) problem side w → ⊥) }
    ensures each { length heads.new ≡ length heads.old }
    ensures starter_room { starter.new ≡ starter.old }
    ensures room { sweeper.new ≡ sweeper.old }
    ensures told { F.told finder.new ≡ F.told finder.old }
{
    let _junctions = net.junctions();
    if tight {
        starter.start(net, finder, problem, side, rounds, row, heads);
        return sweep(net, problem, side, rounds, sweeper, heads);
    }
    if propose(net, finder, problem, side, heads) {
        return Ok(());
    }
    begin_near(net, row, problem, side, heads);
    sweep(net, problem, side, rounds, sweeper, heads)
}
