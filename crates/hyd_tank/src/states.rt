//! How full a tank is.
#![tactic(auto)]

ghost use Rattle.std.specs.Prelude.{◌≡◌, ◌<◌, ◌≤ℤ◌, ℕ, ℤ, Some};
ghost use Rattle.hyd_spec.specs.Tank.{tank_state};
ghost use Rattle.hyd_spec.specs.declared.TankState.{TankState};
ghost use Rattle.hyd_spec_certificates.specs.SpansAsIntervals.{levels_of};
ghost use Rattle.hyd_spec_certificates.specs.Interval.{Interval};
ghost use Rattle.hyd_spec_certificates.specs.Stocks.{state_of};
ghost use Rattle.hyd_theorems_on_definitions.specs.LyingInIntervals.{LiesIn, IsInside};
ghost use Rattle.hyd_tank.specs.StockIntervals.{IsTankOfRange};

use hyd_net::Tank;
use hyd_spec::{STATE_BAND, TankState};
use hyd_spec_certificates::LevelSpan;

fn state_at(tank: &Tank, level: i64) -> TankState
    requires { IsTankOfRange tank.now }
    ensures { result ≡ tank_state 1 tank.now level }
{
    if level >= tank.maximum - STATE_BAND {
        TankState::Full
    } else if level <= tank.minimum + STATE_BAND {
        TankState::Empty
    } else {
        TankState::Between
    }
}

/// The state of a tank at a level interval: none exactly where the two ends differ in state.
pub fn state_of(tank: &Tank, level: LevelSpan) -> Option<TankState>
    requires { IsTankOfRange tank.now }
    ensures value { result ≡ state_of tank.now (levels_of level) }

    // The state is that of each level of the interval, at every scale, and of each interval inside it.
    ensures holds { (S : ℕ) (z : ℤ) (state : TankState) → 0 < S → LiesIn S (levels_of level) z → result ≡ Some state
        → tank_state S tank.now z ≡ state }
    ensures nests { (inner : Interval) (state : TankState) → inner.lo ≤ℤ inner.hi → IsInside inner (levels_of level)
        → result ≡ Some state → state_of tank.now inner ≡ Some state }
{
    let state = state_at(tank, level.lo);
    if state == state_at(tank, level.hi) {
        Some(state)
    } else {
        None
    }
}
