//! The nets of both sides.
#![tactic(auto)]

use hyd_period_network::Net;
use hyd_spec_certificates::Side;
use hyd_spread_rows::SpreadRows;
use std::marker::Model;

/// The two nets of a run for a spread: the UPPER one, with the least demands and the greatest heads of reservoirs, and
/// the LOWER one, with the greatest demands and the least heads. Contracts see the spread and the nets.
#[derive(Drop)]
pub struct SpreadNets {
    pub(crate) rows: SpreadRows,
    pub(crate) upper: Net,
    pub(crate) lower: Net,
    /// Room for the demands of a period, least and greatest, and for the heads of reservoirs.
    pub(crate) least_demands: Vec<i64>,
    pub(crate) greatest_demands: Vec<i64>,
    pub(crate) least_heads: Vec<i64>,
    pub(crate) greatest_heads: Vec<i64>,
}

impl Model for SpreadNets {
    ghost use Rattle.std.specs.Coded.{codes};
    ghost use Rattle.hyd_spec_power_laws.specs.contracts.power_capacities.PowerCapacity as power;
    ghost use Rattle.hyd_spread_rows.specs.SpreadsRead.{spread_of};
    ghost use Rattle.hyd_spread_networks.specs.NetsOfSpreads.{SpreadNetsView};
    ghost use Rattle.hyd_spread_networks.specs.RoomForPeriods.{HasRoom};

    ghost Value = { SpreadNetsView };

    // A loss by powers says of its minor loss that it is near 1 where there is one.
    ghost coded = { Prim.hlevel (codes, power.the_row.coded) };

    ghost view = { λ n. record { spread = spread_of n.rows; upper = n.upper; lower = n.lower } };

    ghost invariant = { λ n. HasRoom n.rows n.upper n.least_demands.items n.greatest_demands.items n.least_heads.items
        n.greatest_heads.items };
}

impl SpreadNets {
    ghost use Rattle.std.specs.Prelude.{◌≡◌};
    ghost use Rattle.hyd_spread_rows.specs.SpreadsRead.{spread_of};
    ghost use Rattle.hyd_spread_networks.specs.NetsOfSpreads.{net_on};

    /// What the spread leaves open.
    pub fn spread(&self) -> &SpreadRows
        ensures { spread_of result.now ≡ self.now.spread }
    {
        &self.rows
    }

    /// The net of a side.
    pub fn on(&self, side: Side) -> &Net
        ensures { result.now ≡ net_on side self.now }
    {
        match side {
            Side::Upper => &self.upper,
            Side::Lower => &self.lower,
        }
    }
}
