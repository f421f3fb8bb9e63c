//! Searches for the vectors of a record.
#![tactic(auto)]

ghost use Rattle.std.specs.Prelude.{◌≡◌, ◌+◌, length, IfOk, IfErr, OnOk};
ghost use Rattle.hyd_spec_certificates.specs.declared.Side.TheVariants.{Upper};
ghost use Rattle.hyd_spec_certificates.specs.TurnsOfProblems.{turn};
ghost use Rattle.hyd_cert.specs.RecordView.{header_of, row_of};
ghost use Rattle.hyd_period_network.specs.NetAsPeriodNetwork.{grid_of};
ghost use Rattle.hyd_period_network.specs.SoundNets.{HasProblem};
ghost use Rattle.hyd_period_vectors.specs.SoughtVectors.{IsSought, Comes, LacksFirst, EachBefore};
ghost use Rattle.hyd_theorems_on_definitions.specs.SoundLawsAndGrids.{TanksInOrder};
ghost use Rattle.hyd_period_vectors.specs.SoughtVectors.{OfEach, Stays, Fits};

use crate::missing_vector::Lack;
use crate::one_vector::find;
use crate::search_start::Starter;
use hyd_cert::Record;
use hyd_finders::Finder;
use hyd_period_network::Net;
use hyd_spec_certificates::{Problem, Side};
use hyd_sweep::Sweeper;
use std::alloc::{AllocError as OutOfMemory, Global};
use std::marker::Model;

/// Room for the search for the vectors of a net, opened once, and how many rounds a search may take. Contracts see the
/// number of junctions that it is for, and the number of rounds.
#[derive(Drop)]
pub struct Search {
    rounds: u32,
    heads: Vec<i64>,
    starter: Starter,
    sweeper: Sweeper,
}

impl Model for Search {
    ghost use Rattle.std.specs.Prelude.{◌≡◌, length};
    ghost use Rattle.hyd_period_vectors.specs.SizeOfSearch.{Room};

    ghost Value = { Room };

    ghost view = { λ s. record { junctions = length s.heads.items; rounds = s.rounds } };

    ghost invariant = { λ s. (s.starter ≡ length s.heads.items) × (s.sweeper ≡ length s.heads.items) };
}

impl Search {
    /// Room for nets with so many junctions, and the most rounds that a search takes.
    pub fn open(alloc: Global, junctions: u32, rounds: u32) -> Result<Search, OutOfMemory>
        ensures { IfOk result (λ s. s ≡ record { junctions = junctions; rounds = rounds }) }
    {
        let heads = vec![in alloc; 0i64; junctions as usize]?;
        let starter = Starter::open(alloc, junctions)?;
        let sweeper = Sweeper::open(alloc, junctions)?;
        Ok(Search {
            rounds,
            heads,
            starter,
            sweeper,
        })
    }

    // Finds the vector of a problem and side, where all before it in their order stand in the record.
    fn find_vector<F: Finder>(
        &mut self,
        net: &Net,
        finder: &mut F,
        tight: bool,
        problem: Problem,
        side: Side,
        row: &mut Record,
    ) -> Result<(), Lack>
        requires room { self.old.junctions ≡ length net.now.junctions }
        requires fits { Fits net.now (header_of row.old) }
        requires order { TanksInOrder (grid_of net.now) }
        requires pinned { HasProblem net.now problem }
        requires before { EachBefore (IsSought tight (F.told finder.old) (grid_of net.now) (length net.now.tanks))
            (length net.now.tanks) (turn problem side) (row_of row.old) }
        requires came { EachBefore
            (Comes tight (F.told finder.old) (grid_of net.now) (length net.now.tanks) self.old.rounds)
            (length net.now.tanks) (turn problem side) (row_of row.old) }
        ensures found { OnOk result (EachBefore
            (IsSought tight (F.told finder.old) (grid_of net.now) (length net.now.tanks)) (length net.now.tanks)
            (turn problem side + 1) (row_of row.new)) }
        ensures comes { OnOk result (EachBefore
            (Comes tight (F.told finder.old) (grid_of net.now) (length net.now.tanks) self.old.rounds)
            (length net.now.tanks) (turn problem side + 1) (row_of row.new)) }
        ensures lack { IfErr result (LacksFirst tight (F.told finder.old) (grid_of net.now)
            (length net.now.tanks) self.old.rounds (row_of row.new)) }
        ensures stays { Stays row.old row.new }
        ensures keeps { self.new ≡ self.old }
        ensures told { F.told finder.new ≡ F.told finder.old }
    {
        find(
            net,
            finder,
            tight,
            problem,
            side,
            self.rounds,
            row,
            &mut self.starter,
            &mut self.sweeper,
            &mut self.heads,
        )?;
        row.set_vector(problem, side, &self.heads);
        Ok(())
    }

    // Finds both vectors of a problem, UPPER first.
    fn find_both<F: Finder>(
        &mut self,
        net: &Net,
        finder: &mut F,
        tight: bool,
        problem: Problem,
        row: &mut Record,
    ) -> Result<(), Lack>
        requires room { self.old.junctions ≡ length net.now.junctions }
        requires fits { Fits net.now (header_of row.old) }
        requires order { TanksInOrder (grid_of net.now) }
        requires pinned { HasProblem net.now problem }
        requires before { EachBefore (IsSought tight (F.told finder.old) (grid_of net.now) (length net.now.tanks))
            (length net.now.tanks) (turn problem Upper) (row_of row.old) }
        requires came { EachBefore
            (Comes tight (F.told finder.old) (grid_of net.now) (length net.now.tanks) self.old.rounds)
            (length net.now.tanks) (turn problem Upper) (row_of row.old) }
        ensures found { OnOk result (EachBefore
            (IsSought tight (F.told finder.old) (grid_of net.now) (length net.now.tanks)) (length net.now.tanks)
            (turn problem Upper + 2) (row_of row.new)) }
        ensures comes { OnOk result (EachBefore
            (Comes tight (F.told finder.old) (grid_of net.now) (length net.now.tanks) self.old.rounds)
            (length net.now.tanks) (turn problem Upper + 2) (row_of row.new)) }
        ensures lack { IfErr result (LacksFirst tight (F.told finder.old) (grid_of net.now)
            (length net.now.tanks) self.old.rounds (row_of row.new)) }
        ensures stays { Stays row.old row.new }
        ensures keeps { self.new ≡ self.old }
        ensures told { F.told finder.new ≡ F.told finder.old }
    {
        self.find_vector(net, finder, tight, problem, Side::Upper, row)?;
        self.find_vector(net, finder, tight, problem, Side::Lower, row)
    }

    /// Finds the vector of each problem and side, in the order MAIN UPPER, MAIN LOWER and both sides of each tank
    /// pinned. Where they are to be tight, it is the tight one, by rounds of raises; else the finder's where that
    /// passes the check, and else another certificate, by rounds. No search for a tight vector
    /// makes more rounds than it may, and none for a certificate beside a finder that tells its vectors. Fails with the
    /// first problem and side that lacks one; those before it stand in the record then.
    pub fn find<F: Finder>(
        &mut self,
        net: &Net,
        finder: &mut F,
        tight: bool,
        row: &mut Record,
    ) -> Result<(), Lack>
        requires room { self.old.junctions ≡ length net.now.junctions }
        requires fits { Fits net.now (header_of row.old) }
        requires order { TanksInOrder (grid_of net.now) }
        ensures found { OnOk result (OfEach (IsSought tight (F.told finder.old) (grid_of net.now)
            (length net.now.tanks))
            (length net.now.tanks) (row_of row.new)) }
        ensures comes { OnOk result (OfEach
            (Comes tight (F.told finder.old) (grid_of net.now) (length net.now.tanks) self.old.rounds)
            (length net.now.tanks) (row_of row.new)) }
        ensures lack { IfErr result (LacksFirst tight (F.told finder.old) (grid_of net.now)
            (length net.now.tanks) self.old.rounds (row_of row.new)) }
        ensures stays { Stays row.old row.new }
        ensures keeps { self.new ≡ self.old }
        ensures told { F.told finder.new ≡ F.told finder.old }
    {
        self.find_both(net, finder, tight, Problem::Main, row)?;
        for tank in 0..row.tanks {
            self.find_both(net, finder, tight, Problem::Pinned(tank), row)?;
        }
        Ok(())
    }
}
