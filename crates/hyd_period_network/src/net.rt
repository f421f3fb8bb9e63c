//! The network of a period.
#![tactic(auto)]

use crate::both_laws::BothLaws;
use crate::junctions_ends_and_settings::{Ends, NetJunction, Setting, Tie};
use hyd_law::OutLaw;
use hyd_spec_certificates::LevelSpan;
use smallvec::SmallVec;
use std::marker::Model;

/// The network of a period: its junctions with the laws of their demands, the heads of reservoirs and tanks, its links
/// with their laws, and the link ends at each node. Contracts see it as a grid.
#[derive(Drop)]
pub struct Net {
    pub(crate) junctions: Vec<NetJunction>,
    pub(crate) demands: Vec<OutLaw>,
    pub(crate) reservoirs: Vec<i64>,
    pub(crate) tanks: Vec<LevelSpan>,
    pub(crate) ends: Vec<Ends>,
    pub(crate) settings: Vec<Setting>,
    pub(crate) laws: Vec<BothLaws>,
    pub(crate) rows: Vec<SmallVec<Tie, 4>>,
}

impl Model for Net {
    ghost use Rattle.std.specs.Prelude.{◌+◌, length, map};
    ghost use Rattle.std.specs.Coded.{codes};
    ghost use Rattle.hyd_spec_power_laws.specs.contracts.power_capacities.PowerCapacity as power;
    ghost use Rattle.hyd_period_network.specs.NetView.{NetView};
    ghost use Rattle.hyd_period_network.specs.SoundNets.{IsSoundNet};
    ghost use Rattle.hyd_period_network.specs.LinkEnds.{AreRowsOf};
    ghost use Rattle.hyd_period_network.specs.BothLaws.{own_of, law_of, AreFree};

    ghost Value = { NetView };

    // A loss by powers says of its minor loss that it is near 1 where there is one.
    ghost coded = { Prim.hlevel (codes, power.the_row.coded) };

    ghost view = { λ n. record {
      junctions = n.junctions.items;
      demands = n.demands.items;
      reservoirs = n.reservoirs.items;
      tanks = n.tanks.items;
      ends = n.ends.items;
      settings = n.settings.items;
      own = map own_of n.laws.items;
      laws = map law_of n.laws.items;
    } };

    ghost invariant = { λ n. IsSoundNet (record {
      junctions = n.junctions.items;
      demands = n.demands.items;
      reservoirs = n.reservoirs.items;
      tanks = n.tanks.items;
      ends = n.ends.items;
      settings = n.settings.items;
      own = map own_of n.laws.items;
      laws = map law_of n.laws.items;
    }) × (AreRowsOf (length n.junctions.items + length n.reservoirs.items
        + length n.tanks.items) n.ends.items n.rows.items
        × AreFree (length n.junctions.items + length n.reservoirs.items) n.ends.items n.laws.items) };
}
