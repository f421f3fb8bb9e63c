//! Capacities of links, emitters and pressure-driven demands.
#![tactic(auto)]

ghost use Rattle.std.specs.Prelude.{◌≤◌, ◌<◌, ◌*◌, ◌^◌};
ghost use Rattle.hyd_num.specs.BinaryNumbers.{numerator, denominator};

use crate::binary::Scaled;
use crate::decimals::Decimal;
use crate::flow_units::FlowUnit;

/// The numbers of a file from which a capacity is made, with their unit. `us` says that lengths
/// are in feet, diameters in inches and pressures in pounds a square inch, against metres,
/// millimetres and metres.
#[derive(Debug, Clone, Copy, PartialEq, Eq, Drop)]
pub enum Origin {
    /// A pipe: its roughness is Manning's, its minor loss coefficient is 0 where it has none.
    Pipe {
        // Beside the variant's mark it takes no room, where behind the numbers it would take 16 bytes.
        us: bool,
        length: Decimal,
        diameter: Decimal,
        roughness: Decimal,
        minor: Decimal,
    },
    /// An open valve with a minor loss coefficient `k`.
    Valve {
        diameter: Decimal,
        k: Decimal,
        us: bool,
    },
    /// A pump that loses `drop / thirds` of head, in feet or metres, at `flow`.
    Pump {
        flow: Decimal,
        drop: Decimal,
        thirds: u32,
        unit: FlowUnit,
    },
    /// An emitter that gives `coefficient` at a pressure of one pound a square inch or one metre.
    Emitter {
        coefficient: Decimal,
        unit: FlowUnit,
    },
    /// A junction that gets `demand` flow ticks at the pressure `required` and none at `minimum`.
    PressureDemand {
        demand: i64,
        minimum: Decimal,
        required: Decimal,
        us: bool,
    },
}

/// An enclosure of the square of the flow in ticks of 10^-7 cubic metres a day that one head tick
/// of 10^-13 metres drives, and the numbers from which it is made. It lies from 2^-61 to below
/// 2^66.
#[derive(Debug, Clone, Copy, PartialEq, Eq, Drop)]
pub struct Capacity {
    pub lo: Scaled,
    pub hi: Scaled,
    pub origin: Origin,
    pub ghost ordered: { numerator lo * denominator hi ≤ numerator hi * denominator lo },
    pub ghost least: { denominator lo ≤ numerator lo * 2 ^ 61 },
    pub ghost greatest: { numerator hi < 2 ^ 66 * denominator hi },
}
