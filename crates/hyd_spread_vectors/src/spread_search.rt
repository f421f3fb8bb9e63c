//! Searches for the vectors of a record for a spread.
#![tactic(auto)]

ghost use Rattle.std.specs.Prelude.{◌≡◌, length, true, IfOk, IfErr, OnOk, OnErr};
ghost use Rattle.hyd_spec_certificates.specs.declared.Side.{Side};
ghost use Rattle.hyd_spec_certificates.specs.declared.Side.TheVariants.{Lower};
ghost use Rattle.hyd_cert.specs.RecordView.{header_of, row_of};
ghost use Rattle.hyd_period_network.specs.NetAsPeriodNetwork.{grid_of};
ghost use Rattle.hyd_period_end.specs.OpenMatters.{SharesVectors};
ghost use Rattle.hyd_period_vectors.specs.SoughtVectors.{IsSought, Comes, OfEach, LacksFirst, Fits, Stays};
ghost use Rattle.hyd_theorems_on_definitions.specs.SoundLawsAndGrids.{TanksInOrder};
ghost use Rattle.hyd_spread_vectors.specs.VectorsOfBothNetworks.{pair_of, held_on, KeepsSize, AreFoundOn};
ghost use Rattle.hyd_spread_vectors.specs.VectorsOfBothNetworks.{HaveSameCounts, IsHeldIn, IsSoughtOver, ComesOver, LacksFirstOver};

use crate::lack_on_network::SpreadLack;
use crate::written_sides::write_sides;
use hyd_cert::Record;
use hyd_open_sim_start::take_vectors;
use hyd_period_network::Net;
use hyd_period_vectors::{Finder, Search};
use hyd_spec_certificates::Side;
use std::alloc::{AllocError as OutOfMemory, Global};
use std::marker::Model;

/// Room for the search for the vectors of a period on both outermost networks, opened once, and the vectors that were
/// found there last. Contracts see the number of junctions and of tanks that it is for, the number of rounds, and these
/// vectors.
#[derive(Drop)]
pub struct SpreadSearch {
    search: Search,
    /// The vectors of both sides on the upper network.
    pub(crate) above: Record,
    /// Those on the lower network.
    pub(crate) below: Record,
}

impl Model for SpreadSearch {
    ghost use Rattle.hyd_spread_vectors.specs.VectorsOfBothNetworks.{SpreadRoom, AreOfSize, held_in};

    ghost Value = { SpreadRoom };

    ghost view = { λ s. record {
      junctions = s.search.junctions;
      tanks = s.above.tanks;
      rounds = s.search.rounds;
      held = held_in s.above s.below;
    } };

    ghost invariant = { λ s. AreOfSize s.search.junctions s.above.tanks s.above s.below };
}

// Finds the vectors of both sides on the network of one.
fn search_on<F: Finder>(
    search: &mut Search,
    network: Side,
    net: &Net,
    finder: &mut F,
    tight: bool,
    held: &mut Record,
) -> Result<(), SpreadLack>
    requires room { search.old.junctions ≡ length net.now.junctions }
    requires fits { Fits net.now (header_of held.old) }
    requires order { TanksInOrder (grid_of net.now) }
    ensures found { OnOk result (OfEach (IsSought tight (F.told finder.old) (grid_of net.now) (length net.now.tanks))
        (length net.now.tanks) (row_of held.new)) }
    ensures comes { OnOk result (OfEach
        (Comes tight (F.told finder.old) (grid_of net.now) (length net.now.tanks) search.old.rounds)
        (length net.now.tanks) (row_of held.new)) }
    ensures lack { IfErr result (λ lack. LacksFirst tight (F.told finder.old) (grid_of net.now)
        (length net.now.tanks) search.old.rounds (row_of held.new) lack.lack) }
    ensures network { IfErr result (λ lack. lack.network ≡ network) }
    ensures header { header_of held.new ≡ header_of held.old }
    ensures keeps { search.new ≡ search.old }
    ensures told { F.told finder.new ≡ F.told finder.old }
{
    match search.find(net, finder, tight, held) {
        Ok(()) => Ok(()),
        Err(lack) => Err(SpreadLack { network, lack }),
    }
}

// Finds the vectors of both sides on the lower network. Where that is the upper one too, what was found there does.
fn search_below<F: Finder>(
    search: &mut Search,
    alike: bool,
    found: &Record,
    net: &Net,
    finder: &mut F,
    tight: bool,
    held: &mut Record,
) -> Result<(), SpreadLack>
    requires room { search.old.junctions ≡ length net.now.junctions }
    requires fits { Fits net.now (header_of held.old) }
    requires counts { HaveSameCounts found.now held.old }
    requires order { TanksInOrder (grid_of net.now) }
    requires found { alike ≡ true → OfEach (IsSought tight (F.told finder.old) (grid_of net.now) (length net.now.tanks))
        (length net.now.tanks) (row_of found.now) }
    requires come { alike ≡ true → OfEach
        (Comes tight (F.told finder.old) (grid_of net.now) (length net.now.tanks) search.old.rounds)
        (length net.now.tanks) (row_of found.now) }
    ensures found { OnOk result (OfEach (IsSought tight (F.told finder.old) (grid_of net.now) (length net.now.tanks))
        (length net.now.tanks) (row_of held.new)) }
    ensures comes { OnOk result (OfEach
        (Comes tight (F.told finder.old) (grid_of net.now) (length net.now.tanks) search.old.rounds)
        (length net.now.tanks) (row_of held.new)) }
    ensures lack { IfErr result (λ lack. LacksFirst tight (F.told finder.old) (grid_of net.now)
        (length net.now.tanks) search.old.rounds (row_of held.new) lack.lack) }
    ensures network { IfErr result (λ lack. lack.network ≡ Lower) }
    ensures alike { alike ≡ true → OnOk result (SharesVectors (row_of found.now) (row_of held.new)) }
    ensures header { header_of held.new ≡ header_of held.old }
    ensures keeps { search.new ≡ search.old }
    ensures told { F.told finder.new ≡ F.told finder.old }
{
    if alike {
        take_vectors(held, found);
        return Ok(());
    }
    search_on(search, Side::Lower, net, finder, tight, held)
}

impl SpreadSearch {
    /// Room for nets with so many junctions and tanks, and the most rounds that a search for one vector takes.
    pub fn open(
        alloc: Global,
        junctions: u32,
        tanks: u32,
        rounds: u32,
    ) -> Result<SpreadSearch, OutOfMemory>
        ensures junctions { IfOk result (λ s. s.junctions ≡ junctions) }
        ensures tanks { IfOk result (λ s. s.tanks ≡ tanks) }
        ensures rounds { IfOk result (λ s. s.rounds ≡ rounds) }
    {
        let search = Search::open(alloc, junctions, rounds)?;
        let above = Record::open(alloc, 1, junctions, tanks)?;
        let below = Record::open(alloc, 1, junctions, tanks)?;
        Ok(SpreadSearch {
            search,
            above,
            below,
        })
    }

    /// The vectors that were found last on the network of a side: those of both sides.
    pub fn on(&self, network: Side) -> &Record
        ensures row { row_of result.now ≡ held_on network self.now.held }
        ensures header { header_of result.now
            ≡ record { version = 1; junctions = self.now.junctions; tanks = self.now.tanks } }
    {
        match network {
            Side::Upper => &self.above,
            Side::Lower => &self.below,
        }
    }

    /// Finds the vectors of both sides on each of two nets, which are put into the outermost networks of a period: the
    /// upper one, with the greatest heads, and the lower one. On each they are those that a search on a single net
    /// finds, by a finder of its own; where the two are alike, one search does. Then writes the UPPER vectors of the upper network and the LOWER vectors of the
    /// lower one into the record. The others are kept with them, network by network. Fails with the first problem and
    /// side that lacks a vector, on the upper network first; then the record is as it was, and those before it are
    /// kept.
    pub fn find<F: Finder, G: Finder>(
        &mut self,
        above: &Net,
        below: &Net,
        above_finder: &mut F,
        below_finder: &mut G,
        alike: bool,
        tight: bool,
        row: &mut Record,
    ) -> Result<(), SpreadLack>
        requires above { Fits above.now (header_of row.old) }
        requires below { Fits below.now (header_of row.old) }
        requires junctions { self.old.junctions ≡ row.old.junctions }
        requires tanks { self.old.tanks ≡ row.old.tanks }
        requires above_order { TanksInOrder (grid_of above.now) }
        requires below_order { TanksInOrder (grid_of below.now) }
        requires alike { alike ≡ true → (grid_of below.now ≡ grid_of above.now)
            × (G.told below_finder.old ≡ F.told above_finder.old) }
        ensures found { OnOk result (OfEach (IsSoughtOver tight
            (record { above = F.told above_finder.old; below = G.told below_finder.old })
            (pair_of above.now below.now) self.old.tanks) self.old.tanks (row_of row.new)) }
        ensures comes { OnOk result (OfEach (ComesOver tight
            (record { above = F.told above_finder.old; below = G.told below_finder.old })
            (pair_of above.now below.now) self.old.tanks self.old.rounds) self.old.tanks (row_of row.new)) }
        ensures held { OnOk result ((network : Side) → AreFoundOn tight
            (record { above = F.told above_finder.old; below = G.told below_finder.old })
            (pair_of above.now below.now) self.old.tanks self.old.rounds network (held_on network self.new.held)) }
        ensures same { OnOk result (OfEach (IsHeldIn self.new.held) self.old.tanks (row_of row.new)) }
        ensures alike { alike ≡ true → OnOk result (SharesVectors self.new.held.above self.new.held.below) }
        ensures lack { IfErr result (LacksFirstOver tight
            (record { above = F.told above_finder.old; below = G.told below_finder.old })
            (pair_of above.now below.now) self.old.tanks self.old.rounds self.new.held) }
        ensures unchanged { OnErr result (row.new ≡ row.old) }
        ensures stays { Stays row.old row.new }
        ensures keeps { KeepsSize self.old self.new }
        ensures told_above { F.told above_finder.new ≡ F.told above_finder.old }
        ensures told_below { G.told below_finder.new ≡ G.told below_finder.old }
    {
        search_on(
            &mut self.search,
            Side::Upper,
            above,
            above_finder,
            tight,
            &mut self.above,
        )?;
        search_below(
            &mut self.search,
            alike,
            &self.above,
            below,
            below_finder,
            tight,
            &mut self.below,
        )?;
        write_sides(&self.above, &self.below, row);
        Ok(())
    }
}
