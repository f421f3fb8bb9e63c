//! Intervals of a tank's level and volume.
#![tactic(auto)]

use hyd_spec_certificates::LevelSpan;

/// All volumes from one to another, in volume ticks of 10^-9 cubic metres.
#[derive(Clone, Copy, Drop)]
pub struct VolumeSpan {
    pub lo: i64,
    pub hi: i64,
}

/// What is known of a tank's content: its level and, where it has a volume curve, its volume, else 0 to 0.
#[derive(Clone, Copy, Drop)]
pub struct Stock {
    pub level: LevelSpan,
    pub volume: VolumeSpan,
}
