//! How full a tank is, at a scale.
#![tactic(auto)]

ghost use Rattle.std.specs.Prelude.{◌≡◌};
ghost use Rattle.hyd_spec.specs.Tank.{tank_state};
ghost use Rattle.hyd_tank.specs.StockIntervals.{IsTankOfRange};
ghost use Rattle.hyd_laws_at_scale.specs.Scales.{parts_of};

use crate::contents::in_parts;
use hyd_laws_at_scale::Scale;
use hyd_net::Tank;
use hyd_spec::{STATE_BAND, TankState};

/// The state of a tank at a level in parts of a head tick: full from the maximum less the band on, empty up to the
/// minimum plus the band, else between.
pub fn state_at(tank: &Tank, scale: Scale, level: i128) -> TankState
    requires { IsTankOfRange tank.now }
    ensures { result ≡ tank_state (parts_of scale) tank.now level }
{
    let full = in_parts(scale, tank.maximum - STATE_BAND);
    let empty = in_parts(scale, tank.minimum + STATE_BAND);
    if level >= full {
        return TankState::Full;
    }
    if level <= empty {
        return TankState::Empty;
    }
    TankState::Between
}
