//! The definitions of open ends on small cases: contents over lengths, cuts by what has just been reached of cylinders
//! and of tanks with volume curves, levels that are kept, and the seconds of the three ways, each compared with an
//! independent calculation in exact fractions; and records that are refused. No function here has a body.
#![tactic(auto)]

pub mod refusals;

ghost use Rattle.std.specs.Prelude.{◌≡◌, pos, neg_ℤ, true, false, [], ◌∷◌, map, Some, None};
ghost use Rattle.hyd_spec.specs.ProgramTypes.{Decimal};
ghost use Rattle.hyd_spec.specs.Tank.{Cylinder};
ghost use Rattle.hyd_spec_open_ends.specs.StocksOverLengths.{hull, carried_at_end, stocks_at_end, kept};
ghost use Rattle.hyd_spec_open_ends.specs.StocksOverLengths.{goal_volume, goal_stocks};
ghost use Rattle.hyd_spec_open_ends.specs.OpenEnds.{ByRules, ByInstant, ByWatched, shortest_length, longest_length};
ghost use Rattle.hyd_spec_open_ends.specs.OpenEnds.{first_end, late_at_end, last_end};
ghost use Rattle.hyd_spec_open_ends.specs.Arrivals.{arrival_of};
ghost use Rattle.hyd_cases_of_open_ends.specs.FillingTank.{between, stocks, tower, from_below, from_above, controls};
ghost use Rattle.hyd_cases_of_open_ends.specs.CurvedTank.{curve, walls, basin, holding, stocks_of, filled, emptied};

/// Carried levels of a tank that fills by 1.25 m in 108 seconds, or that drains so: over 108 to 109 seconds, cut where
/// 6.25 m has just been reached, or cut on one side where it may have been a second before.
pub fn carried()
    ensures filling { (diameter : Decimal)
        → map (carried_at_end (Cylinder 3141592654) (tower diameter) (stocks (pos 50000000000000) (pos 50000000000000))
        (between (pos 31415926530) (pos 31415926550)) 108 109)
        (None ∷ Some (from_below true) ∷ Some (from_below false) ∷ [])
        ≡ between (pos 62499999996021) (pos 62615740744757) ∷ between (pos 62500000000000) (pos 62615740740778)
        ∷ between (pos 62500000000000) (pos 62615740744757) ∷ [] }
    ensures draining { (diameter : Decimal)
        → map (carried_at_end (Cylinder 3141592654) (tower diameter) (stocks (pos 75000000000000) (pos 75000000000003))
        (between (neg_ℤ (pos 31415926550)) (neg_ℤ (pos 31415926530))) 108 109)
        (None ∷ Some (from_above true) ∷ Some (from_above false) ∷ [])
        ≡ between (pos 62384259255243) (pos 62500000003982) ∷ between (pos 62384259259222) (pos 62500000000000)
        ∷ between (pos 62384259255243) (pos 62500000000000) ∷ [] }
    ensures either_way { (diameter : Decimal)
        → carried_at_end (Cylinder 3141592654) (tower diameter) (stocks (pos 50000000000000) (pos 50000000000000))
        (between (neg_ℤ (pos 31415926540)) (pos 31415926540)) 2 3 None
        ≡ between (pos 49652777777777) (pos 50347222222223) }
    ensures full { (diameter : Decimal)
        → carried_at_end (Cylinder 3141592654) (tower diameter) (stocks (pos 99990000000000) (pos 99995000000000))
        (between (pos 31415926530) (pos 31415926550)) 1 9 None
        ≡ between (pos 100000000000000) (pos 100000000000000) }
{}

/// The stocks with which the next period begins then, ten ticks wider.
pub fn next()
    ensures filling { (diameter : Decimal)
        → map (stocks_at_end (Cylinder 3141592654) (tower diameter) (stocks (pos 50000000000000) (pos 50000000000000))
        (between (pos 31415926530) (pos 31415926550)) 108 109)
        (None ∷ Some (from_below true) ∷ Some (from_below false) ∷ [])
        ≡ stocks (pos 62499999996011) (pos 62615740744767) ∷ stocks (pos 62499999999990) (pos 62615740740788)
        ∷ stocks (pos 62499999999990) (pos 62615740744767) ∷ [] }
    ensures draining { (diameter : Decimal)
        → map (stocks_at_end (Cylinder 3141592654) (tower diameter) (stocks (pos 75000000000000) (pos 75000000000003))
        (between (neg_ℤ (pos 31415926550)) (neg_ℤ (pos 31415926530))) 108 109)
        (None ∷ Some (from_above true) ∷ Some (from_above false) ∷ [])
        ≡ stocks (pos 62384259255233) (pos 62500000003992) ∷ stocks (pos 62384259259212) (pos 62500000000010)
        ∷ stocks (pos 62384259255233) (pos 62500000000010) ∷ [] }
    ensures full { (diameter : Decimal)
        → stocks_at_end (Cylinder 3141592654) (tower diameter) (stocks (pos 99990000000000) (pos 99995000000000))
        (between (pos 31415926530) (pos 31415926550)) 1 9 None
        ≡ stocks (pos 100000000000000) (pos 100000000000000) }
{}

/// Carried levels of a tank with a volume curve, cut by the volume at 6.25 m, rounded outward to whole ticks, or at a
/// bound by the volume that is kept there.
pub fn curved()
    ensures filling { (diameter : Decimal)
        → map (carried_at_end walls (basin diameter) (holding (pos 17853873457) (pos 17862873457))
        (between (pos 31415926530) (pos 31415926550)) 201 202)
        (None ∷ Some (from_below true) ∷ Some (from_below false) ∷ [])
        ≡ between (pos 62485008934482) (pos 62562497850306) ∷ between (pos 62499999999306) (pos 62562114473370)
        ∷ between (pos 62499999999306) (pos 62562497850306) ∷ [] }
    ensures draining { (diameter : Decimal)
        → map (carried_at_end walls (basin diameter) (holding (pos 32479557099) (pos 32488557099))
        (between (neg_ℤ (pos 31415926550)) (neg_ℤ (pos 31415926530))) 201 202)
        (None ∷ Some (from_above true) ∷ Some (from_above false) ∷ [])
        ≡ between (pos 62437502148306) (pos 62514991064130) ∷ between (pos 62437885526950) (pos 62500000001015)
        ∷ between (pos 62437502148306) (pos 62500000001015) ∷ [] }
    ensures full { (diameter : Decimal)
        → map (carried_at_end walls (basin diameter) (holding (pos 46934240740) (pos 46943240740))
        (between (pos 31415926530) (pos 31415926550)) 5 6) (None ∷ Some (filled true) ∷ Some (filled false) ∷ [])
        ≡ between (pos 99987709214383) (pos 100000000000000) ∷ between (pos 100000000000000) (pos 100000000000000)
        ∷ between (pos 100000000000000) (pos 100000000000000) ∷ [] }
    ensures empty { (diameter : Decimal)
        → map (carried_at_end walls (basin diameter) (holding (pos 3180000000) (pos 3189000000))
        (between (neg_ℤ (pos 31415926550)) (neg_ℤ (pos 31415926530))) 5 6)
        (None ∷ Some (emptied true) ∷ Some (emptied false) ∷ [])
        ≡ between (pos 10000000000000) (pos 10023982897892) ∷ between (pos 10000000000000) (pos 10000000000000)
        ∷ between (pos 10000000000000) (pos 10000000000000) ∷ [] }
{}

/// The stocks with which the next period begins then: the volumes are ten ticks wider, and the levels go with them.
pub fn curved_next()
    ensures filling { (diameter : Decimal)
        → map (stocks_at_end walls (basin diameter) (holding (pos 17853873457) (pos 17862873457))
        (between (pos 31415926530) (pos 31415926550)) 201 202)
        (None ∷ Some (from_below true) ∷ Some (from_below false) ∷ [])
        ≡ stocks_of (pos 62485008916784) (pos 62562497868926) (pos 25162439688) (pos 25207800740)
        ∷ stocks_of (pos 62499999982213) (pos 62562114492001) (pos 25171215268) (pos 25207576316)
        ∷ stocks_of (pos 62499999982213) (pos 62562497868926) (pos 25171215268) (pos 25207800740) ∷ [] }
    ensures draining { (diameter : Decimal)
        → map (stocks_at_end walls (basin diameter) (holding (pos 32479557099) (pos 32488557099))
        (between (neg_ℤ (pos 31415926550)) (neg_ℤ (pos 31415926530))) 201 202)
        (None ∷ Some (from_above true) ∷ Some (from_above false) ∷ [])
        ≡ stocks_of (pos 62437502129686) (pos 62514991081828) (pos 25134629816) (pos 25179990868)
        ∷ stocks_of (pos 62437885508319) (pos 62500000018107) (pos 25134854241) (pos 25171215289)
        ∷ stocks_of (pos 62437502129686) (pos 62500000018107) (pos 25134629816) (pos 25171215289) ∷ [] }
    ensures full { (diameter : Decimal)
        → map (stocks_at_end walls (basin diameter) (holding (pos 46934240740) (pos 46943240740))
        (between (pos 31415926530) (pos 31415926550)) 5 6) (None ∷ Some (filled true) ∷ [])
        ≡ stocks_of (pos 99987709196638) (pos 100000000000000) (pos 47116045860) (pos 47123240740)
        ∷ stocks_of (pos 100000000000000) (pos 100000000000000) (pos 47123240740) (pos 47123240740) ∷ [] }
    ensures empty { (diameter : Decimal)
        → map (stocks_at_end walls (basin diameter) (holding (pos 3180000000) (pos 3189000000))
        (between (neg_ℤ (pos 31415926550)) (neg_ℤ (pos 31415926530))) 5 6) (None ∷ Some (emptied true) ∷ [])
        ≡ stocks_of (pos 10000000000000) (pos 10023982932509) (pos 3000000000) (pos 3007194880)
        ∷ stocks_of (pos 10000000000000) (pos 10000000000000) (pos 3000000000) (pos 3000000000) ∷ [] }
{}

/// The volume at which a level is met: a bound's own from its side, the one on the curve from the other.
pub fn goals()
    ensures inside { (diameter : Decimal) → goal_volume curve (basin diameter) true (pos 62500000000000)
        ≡ between (pos 25171215278) (pos 25171215279) }
    ensures full { (diameter : Decimal) → goal_volume curve (basin diameter) true (pos 100000000000000)
        ≡ between (pos 47123240740) (pos 47123240740) }
    ensures from_full { (diameter : Decimal) → goal_volume curve (basin diameter) false (pos 100000000000000)
        ≡ between (pos 47123240740) (pos 47123240741) }
    ensures empty { (diameter : Decimal) → goal_volume curve (basin diameter) false (pos 10000000000000)
        ≡ between (pos 3000000000) (pos 3000000000) }
    ensures whole { (diameter : Decimal) → goal_volume curve (basin diameter) false (pos 40000000000000)
        ≡ between (pos 12000000001) (pos 12000000001) }
    ensures cylinder { (diameter : Decimal)
        → goal_stocks (Cylinder 3141592654) (tower diameter) true (pos 62500000000000)
        ≡ stocks (pos 62500000000000) (pos 62500000000000) }
{}

/// Next levels keep what the whole carried interval has met: of tank 0 ABOVE 6.25 m, and not ABOVE 6.26 m, which half
/// of it has; of tank 1 BELOW 6.3 m.
pub fn keeping()
    ensures above { kept controls 0 (between (pos 62500000000000) (pos 62615740740778))
        (between (pos 62499999999990) (pos 62615740740788)) ≡ between (pos 62500000000000) (pos 62615740740788) }
    ensures below { kept controls 1 (between (pos 62900000000000) (pos 63000000000000))
        (between (pos 62899999999990) (pos 63000000000010)) ≡ between (pos 62899999999990) (pos 63000000000000) }
    ensures neither { kept controls 1 (between (pos 62900000000000) (pos 63000000000001))
        (between (pos 62899999999990) (pos 63000000000011)) ≡ between (pos 62899999999990) (pos 63000000000011) }
    ensures no_control { kept controls 2 (between (pos 0) (pos 1)) (between (pos 0) (pos 11)) ≡ between (pos 0)
        (pos 11) }
    ensures hulls { hull (between (pos 3) (pos 9)) (between (neg_ℤ (pos 4)) (pos 8)) ≡ between (neg_ℤ (pos 4)) (pos 9) }
{}

/// A start that is open by 5 seconds: rules 40 seconds after its first one, an instant 60 seconds after it, and levels
/// 7 to 11 seconds after each start. The hydraulic step counts as they do.
pub fn ways()
    ensures shortest { map (shortest_length 5) (ByRules 40 ∷ ByInstant 60 ∷ ByWatched 7 11 ∷ []) ≡ 35 ∷ 55 ∷ 7 ∷ [] }
    ensures longest { map longest_length (ByRules 40 ∷ ByInstant 60 ∷ ByWatched 7 11 ∷ []) ≡ 40 ∷ 60 ∷ 11 ∷ [] }
    ensures first { map first_end (ByRules 40 ∷ ByInstant 60 ∷ ByWatched 7 11 ∷ []) ≡ 40 ∷ 60 ∷ 7 ∷ [] }
    ensures late { map (late_at_end 5) (ByRules 40 ∷ ByInstant 60 ∷ ByWatched 7 11 ∷ []) ≡ 0 ∷ 0 ∷ 9 ∷ [] }
    ensures last { last_end 5 11 60 ≡ 16 }
    ensures last_at_instant { last_end 5 58 60 ≡ 60 }
{}

/// What has just been reached is that of its tank alone, and had not been a second before where a period lasts two
/// seconds at least.
pub fn arrivals()
    ensures its_tank { arrival_of 2 (Some (record { tank = 3; target = pos 62500000000000; rising = true })) 3
        ≡ Some (from_below true) }
    ensures a_second { arrival_of 1 (Some (record { tank = 3; target = pos 62500000000000; rising = false })) 3
        ≡ Some (from_above false) }
    ensures another_tank { arrival_of 2 (Some (record { tank = 3; target = pos 62500000000000; rising = true })) 2
        ≡ None }
    ensures no_level { arrival_of 2 None 3 ≡ None }
{}
