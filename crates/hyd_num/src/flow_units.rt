//! The units in which a file gives its flows, and what a foot, a metre and a pound a square inch are worth.
#![tactic(auto)]

ghost use Rattle.std.specs.Prelude.{◌≡◌};
ghost use Rattle.hyd_num.specs.FileQuantity.{is_us_unit, flow_factor};

/// A foot in ten-thousandths of a metre: 0.3048 m (EPANET 2.2 User Manual, appendix A). So many head ticks, of
/// 10^-13 m, are a billionth of a foot.
pub const TEN_THOUSANDTHS_OF_METRE_IN_FOOT: u64 = 3_048;

/// A foot of water in ten-thousandths of a pound a square inch: 0.4333 of them, which is this program's value.
pub const TEN_THOUSANDTHS_OF_POUND_IN_FOOT: u64 = 4_333;

/// A billionth of a metre in head ticks, of 10^-13 m (this program's).
pub const HEAD_TICKS_IN_BILLIONTH_OF_METRE: u64 = 10_000;

/// A billionth of a pound a square inch as a height of water in head ticks, times
/// [`TEN_THOUSANDTHS_OF_POUND_IN_FOOT`]: 10,000 for the ten-thousandths there, and the head ticks of a billionth of a
/// foot.
pub const NUMERATOR_OF_BILLIONTH_OF_POUND: u64 = 10_000 * TEN_THOUSANDTHS_OF_METRE_IN_FOOT;

/// A unit of flow (EPANET 2.2 User Manual, Units of Measurement).
#[derive(Debug, Clone, Copy, PartialEq, Eq, Drop)]
pub enum FlowUnit {
    /// Cubic feet a second.
    Cfs,
    /// Gallons a minute.
    Gpm,
    /// Million gallons a day.
    Mgd,
    /// Million imperial gallons a day.
    Imgd,
    /// Acre-feet a day.
    Afd,
    /// Litres a second.
    Lps,
    /// Litres a minute.
    Lpm,
    /// Million litres a day.
    Mld,
    /// Cubic metres an hour.
    Cmh,
    /// Cubic metres a day.
    Cmd,
}

impl FlowUnit {
    /// Whether the other quantities of a file with this unit are in US customary units: feet,
    /// inches and pounds a square inch, against metres, millimetres and metres.
    pub fn is_us(self) -> bool
        ensures { result ≡ is_us_unit self }
    {
        match self {
            FlowUnit::Cfs | FlowUnit::Gpm | FlowUnit::Mgd | FlowUnit::Imgd | FlowUnit::Afd => true,
            FlowUnit::Lps | FlowUnit::Lpm | FlowUnit::Mld | FlowUnit::Cmh | FlowUnit::Cmd => false,
        }
    }

    /// Cubic metres a day of one unit, as a numerator over the least power of ten that serves.
    pub fn factor(self) -> (u64, u64)
        ensures numerator { result.0 ≡ (flow_factor self).num }
        ensures denominator { result.1 ≡ (flow_factor self).den }
    {
        match self {
            FlowUnit::Cfs => (24_465_755_455_488, 10_000_000_000),
            FlowUnit::Gpm => (545_099_296_896, 100_000_000_000),
            FlowUnit::Mgd => (3_785_411_784, 1_000_000),
            FlowUnit::Imgd => (454_609, 100),
            FlowUnit::Afd => (123_348_183_754_752, 100_000_000_000),
            FlowUnit::Lps => (864, 10),
            FlowUnit::Lpm => (144, 100),
            FlowUnit::Mld => (1000, 1),
            FlowUnit::Cmh => (24, 1),
            FlowUnit::Cmd => (1, 1),
        }
    }
}
