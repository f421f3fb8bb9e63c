//! Quantities in the units of a file, and clock times, as they are shown.

use crate::shown::Name;
use hyd_num::FlowUnit;
use hyd_units::{BUFFER_SIZE, Way, print_flow, print_head, print_pressure};
use std::fmt::{self, Display, Formatter};

// The greatest magnitude that is printed in a unit, in ticks.
const GREATEST: u128 = 1_000_000_000_000_000_000_000_000_000;

// A number of a file in billionths.
const BILLION: u128 = 1_000_000_000;

/// A time in seconds as h:mm:ss.
#[derive(Clone, Copy)]
pub(crate) struct Clock(pub u64);

/// A time in seconds as h:mm.
#[derive(Clone, Copy)]
pub(crate) struct Hours(pub u32);

/// A number of a file, given by its billionths, without zeros at its end.
#[derive(Clone, Copy)]
pub(crate) struct Billionths(pub i128);

/// What is measured, and in which units the file gives it.
#[derive(Clone, Copy)]
pub(crate) enum Measure {
    /// A head or a level in head ticks.
    Head,
    /// A pressure in head ticks.
    Pressure,
    /// A flow in flow ticks.
    Flow,
}

/// A quantity in a file's units, with four decimals.
#[derive(Clone, Copy)]
pub(crate) struct Quantity {
    /// Its ticks.
    pub ticks: i128,
    /// What it measures.
    pub measure: Measure,
    /// The unit of flows of the file.
    pub unit: FlowUnit,
    /// How it is rounded.
    pub way: Way,
}

// The text of a quantity in a buffer, and how long it is.
fn printed(quantity: &Quantity, buffer: &mut [u8; BUFFER_SIZE]) -> usize {
    let Quantity {
        ticks,
        measure,
        unit,
        way,
    } = *quantity;
    if ticks.unsigned_abs() > GREATEST {
        return 0;
    }
    match measure {
        Measure::Head => print_head(ticks, unit.is_us(), way, buffer),
        Measure::Pressure => print_pressure(ticks, unit.is_us(), way, buffer),
        Measure::Flow => print_flow(ticks, unit, way, buffer),
    }
}

// The name of a unit of flow, as OPTIONS has it.
fn flow_unit(unit: FlowUnit) -> &'static str {
    match unit {
        FlowUnit::Cfs => "CFS",
        FlowUnit::Gpm => "GPM",
        FlowUnit::Mgd => "MGD",
        FlowUnit::Imgd => "IMGD",
        FlowUnit::Afd => "AFD",
        FlowUnit::Lps => "LPS",
        FlowUnit::Lpm => "LPM",
        FlowUnit::Mld => "MLD",
        FlowUnit::Cmh => "CMH",
        FlowUnit::Cmd => "CMD",
    }
}

// The unit of a measure in a file.
fn unit_of(measure: Measure, unit: FlowUnit) -> &'static str {
    match measure {
        Measure::Flow => flow_unit(unit),
        Measure::Pressure if unit.is_us() => "psi",
        Measure::Head if unit.is_us() => "ft",
        _ => "m",
    }
}

impl Display for Quantity {
    fn fmt<W: fmt::Write>(&self, f: &mut Formatter<W>) -> fmt::Result {
        let mut buffer = [0; BUFFER_SIZE];
        let length = printed(self, &mut buffer);
        match buffer.get(..length) {
            Some(text) if length > 0 => {
                write!(f, "{} {}", Name(text), unit_of(self.measure, self.unit))
            }
            _ => write!(f, "{} ticks", self.ticks),
        }
    }
}

impl Display for Clock {
    fn fmt<W: fmt::Write>(&self, f: &mut Formatter<W>) -> fmt::Result {
        let time = self.0;
        let hours = time / 3600;
        let minutes = time / 60 % 60;
        let seconds = time % 60;
        write!(f, "{hours}:{minutes:02}:{seconds:02}")
    }
}

impl Display for Hours {
    fn fmt<W: fmt::Write>(&self, f: &mut Formatter<W>) -> fmt::Result {
        let hours = self.0 / 3600;
        let minutes = self.0 / 60 % 60;
        write!(f, "{hours}:{minutes:02}")
    }
}

// A sign.
fn sign(negative: bool) -> &'static str {
    if negative {
        return "-";
    }
    ""
}

// The decimals of a number of billionths: their number without zeros at its end, and how many there are.
fn decimals(billionths: u128) -> (u128, usize) {
    let mut rest = billionths;
    for places in 0..9_usize {
        if rest % 10 != 0 {
            return (rest, 9_usize.saturating_sub(places));
        }
        rest /= 10;
    }
    (0, 0)
}

impl Display for Billionths {
    fn fmt<W: fmt::Write>(&self, f: &mut Formatter<W>) -> fmt::Result {
        let whole = self.0.unsigned_abs() / BILLION;
        let sign = sign(self.0 < 0);
        let (rest, places) = decimals(self.0.unsigned_abs() % BILLION);
        if places == 0 {
            return write!(f, "{sign}{whole}");
        }
        write!(f, "{sign}{whole}.{rest:0places$}")
    }
}
