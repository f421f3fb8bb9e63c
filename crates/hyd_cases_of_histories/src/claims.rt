//! What a link's line of a report claims of such periods: its flow, in ten-thousandths, and its word.
#![tactic(auto)]

ghost use Rattle.std.specs.Prelude.{pos};
ghost use Rattle.hyd_spec_certificates.specs.Interval.{exactly};
ghost use Rattle.hyd_spec_certificates.specs.declared.StatusWord.TheVariants.{Open as WordOpen, Closed as WordClosed};
ghost use Rattle.hyd_spec_certificates.specs.declared.StatusWord.TheVariants.{Active as WordActive};
ghost use Rattle.hyd_spec_reports.specs.Claims.{LinkLies};
ghost use Rattle.hyd_cases_of_histories.specs.OneLink.{network_of, period_of};
ghost use Rattle.hyd_cases_of_histories.specs.Spurs.{idle_spur, pump_spur, idle_pump, setting_spur, half_spur};

/// A pump that lifts 1000 cubic metres a day is OPEN.
pub fn running_pump()
    ensures holds { LinkLies (network_of pump_spur) 1
        (period_of pump_spur (pos 1300000000000000) (pos 10000000000) (pos 10000000000) (pos 0))
        0 (exactly (pos 10000000)) WordOpen }
    ensures not_more { LinkLies (network_of pump_spur) 1
        (period_of pump_spur (pos 1300000000000000) (pos 10000000001) (pos 10000000001) (pos 0))
        0 (exactly (pos 10000000)) WordOpen → ⊥ }
    ensures not_less { LinkLies (network_of pump_spur) 1
        (period_of pump_spur (pos 1300000000000000) (pos 9999999999) (pos 9999999999) (pos 0))
        0 (exactly (pos 10000000)) WordOpen → ⊥ }
    ensures not_shut { LinkLies (network_of pump_spur) 1
        (period_of pump_spur (pos 1300000000000000) (pos 10000000000) (pos 10000000000) (pos 0))
        0 (exactly (pos 10000000)) WordClosed → ⊥ }
{}

/// A pump that can't lift so far is CLOSED.
pub fn weak_pump()
    ensures holds { LinkLies (network_of idle_pump) 1
        (period_of idle_pump (pos 1500000000000000) (pos 0) (pos 0) (pos 0))
        0 (exactly (pos 0)) WordClosed }
    ensures not_running { LinkLies (network_of idle_pump) 1
        (period_of idle_pump (pos 1500000000000000) (pos 0) (pos 0) (pos 0))
        0 (exactly (pos 0)) WordOpen → ⊥ }
{}

/// A check valve that holds water back is CLOSED.
pub fn held_back()
    ensures holds { LinkLies (network_of idle_spur) 125
        (period_of idle_spur (pos 45720000000000000) (pos 0) (pos 0) (pos 0))
        0 (exactly (pos 0)) WordClosed }
    ensures not_passing { LinkLies (network_of idle_spur) 125
        (period_of idle_spur (pos 45720000000000000) (pos 0) (pos 0) (pos 0))
        0 (exactly (pos 0)) WordOpen → ⊥ }
{}

/// A flow-control valve at its setting is ACTIVE, below it OPEN.
pub fn control_valve()
    ensures at_setting { LinkLies (network_of setting_spur) 1
        (period_of setting_spur (pos 999999998000000) (pos 8026822000) (pos 8026822000) (pos 0))
        0 (exactly (pos 8026822)) WordActive }
    ensures not_wide { LinkLies (network_of setting_spur) 1
        (period_of setting_spur (pos 999999998000000) (pos 8026822000) (pos 8026822000) (pos 0))
        0 (exactly (pos 8026822)) WordOpen → ⊥ }
    ensures below_setting { LinkLies (network_of half_spur) 1
        (period_of half_spur (pos 999999999500000) (pos 4013411000) (pos 4013411000) (pos 0))
        0 (exactly (pos 4013411)) WordOpen }
    ensures not_active { LinkLies (network_of half_spur) 1
        (period_of half_spur (pos 999999999500000) (pos 4013411000) (pos 4013411000) (pos 0))
        0 (exactly (pos 4013411)) WordActive → ⊥ }
{}
