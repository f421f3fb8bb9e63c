//! The small networks are ones that a file can stand for.
#![tactic(auto)]

ghost use Rattle.hyd_net.specs.Sound.{IsSound};
ghost use Rattle.hyd_cases_of_histories.specs.OneLink.{network_of};
ghost use Rattle.hyd_cases_of_histories.specs.Spurs.{pipe_spur, check_spur, pump_spur, setting_spur, emitter_spur};
ghost use Rattle.hyd_cases_of_histories.specs.Spurs.{driven_spur};
ghost use Rattle.hyd_cases_of_histories.specs.Timed.{timed_spur};

/// Of links.
pub fn links()
    ensures pipe { IsSound (network_of pipe_spur) }
    ensures check_valve { IsSound (network_of check_spur) }
    ensures pump { IsSound (network_of pump_spur) }
    ensures control_valve { IsSound (network_of setting_spur) }
{}

/// Of outflows.
pub fn outflows()
    ensures emitter { IsSound (network_of emitter_spur) }
    ensures driven_demand { IsSound (network_of driven_spur) }
{}

/// Of controls.
pub fn controls()
    ensures { IsSound (network_of timed_spur) }
{}
