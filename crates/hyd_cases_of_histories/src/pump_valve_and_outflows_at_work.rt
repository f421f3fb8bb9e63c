//! Histories of one period of small networks, in which a link or an outflow of each kind is at work. The exact flow is
//! whole, so histories go up to the tolerance above and below it, and none goes farther.
#![tactic(auto)]

ghost use Rattle.std.specs.Prelude.{pos, [], ◌∷◌};
ghost use Rattle.hyd_spec.specs.History.{IsHistory};
ghost use Rattle.hyd_cases_of_histories.specs.OneLink.{network_of, period_of};
ghost use Rattle.hyd_cases_of_histories.specs.Spurs.{pump_spur, setting_spur, emitter_spur, driven_spur};

/// A pump lifts 1000 cubic metres a day by 30 m.
pub fn pump()
    ensures most { IsHistory (network_of pump_spur) 1
        (period_of pump_spur (pos 1300000000000000) (pos 10000000010) (pos 10000000000) (pos 0) ∷ []) }
    ensures least { IsHistory (network_of pump_spur) 1
        (period_of pump_spur (pos 1300000000000000) (pos 9999999990) (pos 9999999990) (pos 0) ∷ []) }
    ensures no_more { IsHistory (network_of pump_spur) 1
        (period_of pump_spur (pos 1300000000000000) (pos 10000000011) (pos 10000000001) (pos 0) ∷ []) → ⊥ }
    ensures no_less { IsHistory (network_of pump_spur) 1
        (period_of pump_spur (pos 1300000000000000) (pos 9999999989) (pos 9999999999) (pos 0) ∷ []) → ⊥ }
{}

/// A flow-control valve passes its setting at a head difference at which, open, it would pass twice as much.
pub fn control_valve()
    ensures most { IsHistory (network_of setting_spur) 1
        (period_of setting_spur (pos 999999998000000) (pos 8026822666) (pos 8026822656) (pos 0) ∷ []) }
    ensures least { IsHistory (network_of setting_spur) 1
        (period_of setting_spur (pos 999999998000000) (pos 8026822646) (pos 8026822646) (pos 0) ∷ []) }
    ensures no_more { IsHistory (network_of setting_spur) 1
        (period_of setting_spur (pos 999999998000000) (pos 8026822667) (pos 8026822657) (pos 0) ∷ []) → ⊥ }
    ensures no_less { IsHistory (network_of setting_spur) 1
        (period_of setting_spur (pos 999999998000000) (pos 8026822645) (pos 8026822655) (pos 0) ∷ []) → ⊥ }
{}

/// An emitter passes 200 cubic metres a day at a pressure of 4 m.
pub fn emitter()
    ensures most { IsHistory (network_of emitter_spur) 1
        (period_of emitter_spur (pos 999999999000000) (pos 8026822656) (pos 6026822656) (pos 2000000010) ∷ []) }
    ensures least { IsHistory (network_of emitter_spur) 1
        (period_of emitter_spur (pos 999999999000000) (pos 8026822656) (pos 6026822656) (pos 1999999990) ∷ []) }
    ensures no_more { IsHistory (network_of emitter_spur) 1
        (period_of emitter_spur (pos 999999999000000) (pos 8026822656) (pos 6026822655) (pos 2000000011) ∷ []) → ⊥ }
    ensures no_less { IsHistory (network_of emitter_spur) 1
        (period_of emitter_spur (pos 999999999000000) (pos 8026822656) (pos 6026822657) (pos 1999999989) ∷ []) → ⊥ }
{}

/// A demand that is driven by pressure gets half of itself a quarter of the way from the minimum pressure to the
/// required one.
pub fn driven_demand()
    ensures most { IsHistory (network_of driven_spur) 1
        (period_of driven_spur (pos 999999999000000) (pos 8026822656) (pos 8026822666) (pos 0) ∷ []) }
    ensures least { IsHistory (network_of driven_spur) 1
        (period_of driven_spur (pos 999999999000000) (pos 8026822656) (pos 8026822646) (pos 0) ∷ []) }
    ensures no_more { IsHistory (network_of driven_spur) 1
        (period_of driven_spur (pos 999999999000000) (pos 8026822657) (pos 8026822667) (pos 0) ∷ []) → ⊥ }
    ensures no_less { IsHistory (network_of driven_spur) 1
        (period_of driven_spur (pos 999999999000000) (pos 8026822655) (pos 8026822645) (pos 0) ∷ []) → ⊥ }
{}
