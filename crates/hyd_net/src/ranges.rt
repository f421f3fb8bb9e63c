//! The ranges that an input file's numbers keep to, where more than one of its sections has them. A number of a file
//! comes as its billionths, one of ticks as it is.

/// A number of a file in billionths.
const BILLION: i128 = 1_000_000_000;

/// The greatest head, up or down, in head ticks of 10^-13 m.
pub const GREATEST_HEAD: i128 = 100_000_000_000_000_000;

/// The greatest flow, either way, in flow ticks of 10^-7 cubic metres a day.
pub const GREATEST_FLOW: i128 = 1_000_000_000_000_000;

/// The greatest volume, in volume ticks of 10^-9 cubic metres.
pub const GREATEST_VOLUME: i128 = 1_000_000_000_000_000_000;

/// The greatest head of a pump at no flow, up or down, in head ticks.
pub const GREATEST_SHUTOFF_HEAD: i128 = 10_000_000_000_000_000;

/// The greatest relative speed of a pump, in billionths.
pub const GREATEST_SPEED: i128 = 10 * BILLION;

/// The greatest coefficient of an emitter, of a minor loss or of a throttle control valve, in billionths of the file's
/// unit.
pub const GREATEST_COEFFICIENT: i128 = 1_000_000 * BILLION;

/// The greatest multiplier of demands, of a pattern either way, in billionths.
pub const GREATEST_MULTIPLIER: i128 = 1_000_000 * BILLION;

/// A tenth of a unit of pressure, in billionths: the least by which the required pressure exceeds the minimum one where
/// demands depend on pressure, and the required pressure where a file gives none.
pub const TENTH: i128 = BILLION / 10;

/// The greatest diameter of a pipe or a valve, in billionths of an inch or a millimetre.
pub const GREATEST_DIAMETER: i128 = 10_000 * BILLION;
