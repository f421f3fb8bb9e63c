//! Numbers of the network simulator: decimals of a file and the units of flows, whole-number roots and quotients,
//! products and their comparison, pairs of 63-bit binary numbers that enclose a positive real number, and the
//! capacities that pairs make.
//!
//! Tested by the rows of `hyd_stored_rows`.
#![tactic(auto)]

mod binary;
mod binary_arithmetic;
mod decimals;
mod flow_units;
mod fractions;
mod guessed_roots;
mod link_capacities;
mod numerals;
mod pair_arithmetic;
mod pairs;
mod power_5_33;
mod products;
mod quotients;
mod roots;
mod roots_of_binary_numbers;
mod spans;
mod square_comparison;

pub use binary::Scaled;
pub use decimals::{Decimal, NumFault};
pub use flow_units::{
    FlowUnit, HEAD_TICKS_IN_BILLIONTH_OF_METRE, NUMERATOR_OF_BILLIONTH_OF_POUND,
    TEN_THOUSANDTHS_OF_METRE_IN_FOOT, TEN_THOUSANDTHS_OF_POUND_IN_FOOT,
};
pub use link_capacities::{Capacity, Origin};
pub use numerals::{all_digits, before, read_decimal};
pub use pair_arithmetic::{add, div, mul, pow, ratio};
pub use pairs::Pair;
pub use power_5_33::root533;
pub use products::whole_product;
pub use quotients::{mul_div_ceil, mul_div_floor};
pub use roots::isqrt;
pub use roots_of_binary_numbers::{sqrt_down, sqrt_up};
pub use spans::Span;
pub use square_comparison::compare_squares;
