//! Flows through links and outflows of realistic capacities: whole numbers of flow ticks below and above
//! the exact flow, at head differences and pressures of both signs.
#![tactic(auto)]

ghost use Rattle.std.specs.Prelude.{◌≡◌, pos, neg_ℤ, [], ◌∷◌, map, Some};
ghost use Rattle.hyd_spec.specs.ProgramTypes.{Capacity, Origin};
ghost use Rattle.hyd_spec.specs.Law.{QuadraticLaw};
ghost use Rattle.hyd_spec_certificates.specs.EnclosingFunctions.{low, high, demand_low, demand_high, emitter_low};
ghost use Rattle.hyd_spec_certificates.specs.EnclosingFunctions.{emitter_high};
ghost use Rattle.hyd_cases_of_definitions.specs.Capacities.{IsValve, IsPipe, IsPipeInFeet, IsPump, IsPumpInFeet};
ghost use Rattle.hyd_cases_of_definitions.specs.Capacities.{IsEmitter};
ghost use Rattle.hyd_cases_of_definitions.specs.Capacities.{IsDriven, IsDrivenInPounds};
ghost use Rattle.hyd_cases_of_definitions.specs.Capacities.{differences, driven, driven_in_pounds, around};
ghost use Rattle.hyd_cases_of_definitions.specs.Capacities.{around_in_pounds};

/// A valve of 304.8 mm with the loss coefficient 100.
pub fn valve()
    ensures low { (capacity : Capacity) → IsValve capacity
        → map (low (QuadraticLaw capacity)) differences ≡ pos 0 ∷ pos 8833 ∷ neg_ℤ (pos 8834) ∷ pos 8833039
        ∷ neg_ℤ (pos 8833040) ∷ pos 27932482887
        ∷ neg_ℤ (pos 27932482888) ∷ pos 98144740256 ∷ neg_ℤ (pos 98144740257) ∷ pos 279324828875
        ∷ neg_ℤ (pos 279324828876) ∷ [] }
    ensures high { (capacity : Capacity) → IsValve capacity
        → map (high (QuadraticLaw capacity)) differences ≡ pos 0 ∷ pos 8834 ∷ neg_ℤ (pos 8833) ∷ pos 8833040
        ∷ neg_ℤ (pos 8833039) ∷ pos 27932482888
        ∷ neg_ℤ (pos 27932482887) ∷ pos 98144740257 ∷ neg_ℤ (pos 98144740256) ∷ pos 279324828876
        ∷ neg_ℤ (pos 279324828875) ∷ [] }
{}

/// A pipe of 1000 m, 300 mm across, of roughness 0.011, without minor losses.
pub fn pipe_metres()
    ensures low { (capacity : Capacity) → IsPipe capacity
        → map (low (QuadraticLaw capacity)) differences ≡ pos 0 ∷ pos 9876 ∷ neg_ℤ (pos 9877) ∷ pos 9876473
        ∷ neg_ℤ (pos 9876474) ∷ pos 31232104945
        ∷ neg_ℤ (pos 31232104946) ∷ pos 109738430338 ∷ neg_ℤ (pos 109738430339) ∷ pos 312321049455
        ∷ neg_ℤ (pos 312321049456) ∷ [] }
    ensures high { (capacity : Capacity) → IsPipe capacity
        → map (high (QuadraticLaw capacity)) differences ≡ pos 0 ∷ pos 9877 ∷ neg_ℤ (pos 9876) ∷ pos 9876474
        ∷ neg_ℤ (pos 9876473) ∷ pos 31232104946
        ∷ neg_ℤ (pos 31232104945) ∷ pos 109738430339 ∷ neg_ℤ (pos 109738430338) ∷ pos 312321049456
        ∷ neg_ℤ (pos 312321049455) ∷ [] }
{}

/// A pipe of 5280.123456789 feet, 8.123456789 inches across, of roughness 0.013, with a minor loss coefficient of 2.5.
pub fn pipe_feet()
    ensures low { (capacity : Capacity) → IsPipeInFeet capacity
        → map (low (QuadraticLaw capacity)) differences ≡ pos 0 ∷ pos 2418 ∷ neg_ℤ (pos 2419) ∷ pos 2418732
        ∷ neg_ℤ (pos 2418733) ∷ pos 7648693384
        ∷ neg_ℤ (pos 7648693385) ∷ pos 26874769011 ∷ neg_ℤ (pos 26874769012) ∷ pos 76486933844
        ∷ neg_ℤ (pos 76486933845) ∷ [] }
    ensures high { (capacity : Capacity) → IsPipeInFeet capacity
        → map (high (QuadraticLaw capacity)) differences ≡ pos 0 ∷ pos 2419 ∷ neg_ℤ (pos 2418) ∷ pos 2418733
        ∷ neg_ℤ (pos 2418732) ∷ pos 7648693385
        ∷ neg_ℤ (pos 7648693384) ∷ pos 26874769012 ∷ neg_ℤ (pos 26874769011) ∷ pos 76486933845
        ∷ neg_ℤ (pos 76486933844) ∷ [] }
{}

/// A pump with a curve of one point, 40 m at 2160 cubic metres a day.
pub fn pump_metres()
    ensures low { (capacity : Capacity) → IsPump capacity
        → map (low (QuadraticLaw capacity)) differences ≡ pos 0 ∷ pos 1870 ∷ neg_ℤ (pos 1871) ∷ pos 1870617
        ∷ neg_ℤ (pos 1870618) ∷ pos 5915403621
        ∷ neg_ℤ (pos 5915403622) ∷ pos 20784609597 ∷ neg_ℤ (pos 20784609598) ∷ pos 59154036210
        ∷ neg_ℤ (pos 59154036211) ∷ [] }
    ensures high { (capacity : Capacity) → IsPump capacity
        → map (high (QuadraticLaw capacity)) differences ≡ pos 0 ∷ pos 1871 ∷ neg_ℤ (pos 1870) ∷ pos 1870618
        ∷ neg_ℤ (pos 1870617) ∷ pos 5915403622
        ∷ neg_ℤ (pos 5915403621) ∷ pos 20784609598 ∷ neg_ℤ (pos 20784609597) ∷ pos 59154036211
        ∷ neg_ℤ (pos 59154036210) ∷ [] }
{}

/// A pump with a curve of three points that loses 63 feet at 600 gallons a minute.
pub fn pump_feet()
    ensures low { (capacity : Capacity) → IsPumpInFeet capacity
        → map (low (QuadraticLaw capacity)) differences ≡ pos 0 ∷ pos 2360 ∷ neg_ℤ (pos 2361) ∷ pos 2360205
        ∷ neg_ℤ (pos 2360206) ∷ pos 7463613063
        ∷ neg_ℤ (pos 7463613064) ∷ pos 26224463054 ∷ neg_ℤ (pos 26224463055) ∷ pos 74636130635
        ∷ neg_ℤ (pos 74636130636) ∷ [] }
    ensures high { (capacity : Capacity) → IsPumpInFeet capacity
        → map (high (QuadraticLaw capacity)) differences ≡ pos 0 ∷ pos 2361 ∷ neg_ℤ (pos 2360) ∷ pos 2360206
        ∷ neg_ℤ (pos 2360205) ∷ pos 7463613064
        ∷ neg_ℤ (pos 7463613063) ∷ pos 26224463055 ∷ neg_ℤ (pos 26224463054) ∷ pos 74636130636
        ∷ neg_ℤ (pos 74636130635) ∷ [] }
{}

/// An emitter that passes 43.2 cubic metres a day at a pressure of one metre.
pub fn emitter()
    ensures low { (capacity : Capacity) → IsEmitter capacity
        → map (emitter_low (Some capacity)) differences ≡ pos 0 ∷ pos 136 ∷ neg_ℤ (pos 137) ∷ pos 136610
        ∷ neg_ℤ (pos 136611) ∷ pos 431999999
        ∷ neg_ℤ (pos 432000001) ∷ pos 1517893270 ∷ neg_ℤ (pos 1517893271) ∷ pos 4319999999 ∷ neg_ℤ (pos 4320000001)
        ∷ [] }
    ensures high { (capacity : Capacity) → IsEmitter capacity
        → map (emitter_high (Some capacity)) differences ≡ pos 0 ∷ pos 137 ∷ neg_ℤ (pos 136) ∷ pos 136611
        ∷ neg_ℤ (pos 136610) ∷ pos 432000001
        ∷ neg_ℤ (pos 431999999) ∷ pos 1517893271 ∷ neg_ℤ (pos 1517893270) ∷ pos 4320000001 ∷ neg_ℤ (pos 4319999999)
        ∷ [] }
{}

/// A demand of 800 cubic metres a day between pressures of 5 and 20 m.
pub fn demand_metres()
    ensures low { (capacity : Capacity) → IsDriven capacity
        → map (demand_low (driven capacity)) around ≡ pos 0 ∷ pos 0 ∷ pos 0 ∷ pos 653 ∷ pos 4618802153
        ∷ pos 7999999999 ∷ pos 8000000000
        ∷ pos 8000000000 ∷ pos 8000000000 ∷ [] }
    ensures high { (capacity : Capacity) → IsDriven capacity
        → map (demand_high (driven capacity)) around ≡ pos 0 ∷ pos 0 ∷ pos 0 ∷ pos 654 ∷ pos 4618802154
        ∷ pos 8000000000 ∷ pos 8000000000
        ∷ pos 8000000000 ∷ pos 8000000000 ∷ [] }
{}

/// A demand of 545.1 cubic metres a day between 5 and 20.000000001 pounds a square inch.
pub fn demand_pounds()
    ensures low { (capacity : Capacity) → IsDrivenInPounds capacity
        → map (demand_low (driven_in_pounds capacity)) around_in_pounds ≡ pos 0 ∷ pos 0 ∷ pos 0 ∷ pos 530
        ∷ pos 4272665960 ∷ pos 5450999999
        ∷ pos 5450999999 ∷ pos 5451000000 ∷ pos 5451000000 ∷ pos 5451000000 ∷ [] }
    ensures high { (capacity : Capacity) → IsDrivenInPounds capacity
        → map (demand_high (driven_in_pounds capacity)) around_in_pounds ≡ pos 0 ∷ pos 0 ∷ pos 531 ∷ pos 751
        ∷ pos 4272665961 ∷ pos 5451000000
        ∷ pos 5451000000 ∷ pos 5451000000 ∷ pos 5451000000 ∷ pos 5451000000 ∷ [] }
{}

/// There are capacities with these ends, so none of these statements holds for want of one.
pub fn exist()
    ensures valve { (origin : Origin) → (capacity : Capacity) × IsValve capacity }
    ensures pipe { (origin : Origin) → (capacity : Capacity) × IsPipe capacity }
    ensures pipe_in_feet { (origin : Origin) → (capacity : Capacity) × IsPipeInFeet capacity }
    ensures pump { (origin : Origin) → (capacity : Capacity) × IsPump capacity }
    ensures pump_in_feet { (origin : Origin) → (capacity : Capacity) × IsPumpInFeet capacity }
    ensures emitter { (origin : Origin) → (capacity : Capacity) × IsEmitter capacity }
    ensures driven { (origin : Origin) → (capacity : Capacity) × IsDriven capacity }
    ensures driven_in_pounds { (origin : Origin) → (capacity : Capacity) × IsDrivenInPounds capacity }
{}
