//! Laws of links with realistic capacities in their states, and between full and empty tanks: whole flows below and
//! above the exact flow.
#![tactic(auto)]

ghost use Rattle.std.specs.Prelude.{◌≡◌, ℕ, pos, neg_ℤ, true, false, [], ◌∷◌, map, length, Option};
ghost use Rattle.hyd_num.specs.declared.spans.Span.{Span};
ghost use Rattle.hyd_spec.specs.ProgramTypes.{Project, Decimal, Capacity, PipeLink, CheckPipe, PumpLink, Tcv, Fcv};
ghost use Rattle.hyd_spec.specs.ProgramTypes.{PipeLoss, Manning};
ghost use Rattle.hyd_spec.specs.ProgramTypes.{Quadratic};
ghost use Rattle.hyd_spec.specs.ProgramTypes.{Linear};
ghost use Rattle.hyd_spec.specs.ProgramTypes.{FourThirds, Given, Open, Closed, Speed, Throttle, Limit, Cmd};
ghost use Rattle.hyd_spec.specs.LinkLaw.{own_law, law_of};
ghost use Rattle.hyd_spec_certificates.specs.EnclosingFunctions.{low, high};
ghost use Rattle.hyd_cases_of_definitions.specs.Capacities.{IsValve, IsPipe, IsPump, IsPumpInFeet, differences};
ghost use Rattle.hyd_cases_of_definitions.specs.LinksBetweenTanks.{between_tanks, pairs, HasTanks};

/// A pipe that is open, and one that is closed.
pub fn pipes()
    ensures open_low { (capacity : Capacity) → IsPipe capacity
        → map (low (own_law false [] (PipeLink (Manning capacity)) Open)) differences
        ≡ pos 0 ∷ pos 9876 ∷ neg_ℤ (pos 9877)
        ∷ pos 9876473 ∷ neg_ℤ (pos 9876474)
        ∷ pos 31232104945 ∷ neg_ℤ (pos 31232104946) ∷ pos 109738430338 ∷ neg_ℤ (pos 109738430339) ∷ pos 312321049455
        ∷ neg_ℤ (pos 312321049456) ∷ [] }
    ensures open_high { (capacity : Capacity) → IsPipe capacity
        → map (high (own_law false [] (PipeLink (Manning capacity)) Open)) differences
        ≡ pos 0 ∷ pos 9877 ∷ neg_ℤ (pos 9876)
        ∷ pos 9876474 ∷ neg_ℤ (pos 9876473)
        ∷ pos 31232104946 ∷ neg_ℤ (pos 31232104945) ∷ pos 109738430339 ∷ neg_ℤ (pos 109738430338) ∷ pos 312321049456
        ∷ neg_ℤ (pos 312321049455) ∷ [] }
    ensures closed_low { (loss : PipeLoss)
        → map (low (own_law false [] (PipeLink loss) Closed)) differences ≡ pos 0 ∷ pos 0 ∷ pos 0 ∷ pos 0 ∷ pos 0
        ∷ pos 0 ∷ pos 0 ∷ pos 0 ∷ pos 0
        ∷ pos 0 ∷ pos 0 ∷ [] }
    ensures closed_high { (loss : PipeLoss)
        → map (high (own_law false [] (PipeLink loss) Closed)) differences ≡ pos 0 ∷ pos 0 ∷ pos 0 ∷ pos 0 ∷ pos 0
        ∷ pos 0 ∷ pos 0 ∷ pos 0 ∷ pos 0
        ∷ pos 0 ∷ pos 0 ∷ [] }
{}

/// A pipe with a check valve.
pub fn check_pipes()
    ensures open_low { (capacity : Capacity) → IsPipe capacity
        → map (low (own_law false [] (CheckPipe (Manning capacity)) Open)) differences
        ≡ pos 0 ∷ pos 9876 ∷ pos 0 ∷ pos 9876473
        ∷ pos 0 ∷ pos 31232104945 ∷ pos 0
        ∷ pos 109738430338 ∷ pos 0 ∷ pos 312321049455 ∷ pos 0 ∷ [] }
    ensures open_high { (capacity : Capacity) → IsPipe capacity
        → map (high (own_law false [] (CheckPipe (Manning capacity)) Open)) differences
        ≡ pos 0 ∷ pos 9877 ∷ pos 0 ∷ pos 9876474
        ∷ pos 0 ∷ pos 31232104946 ∷ pos 0
        ∷ pos 109738430339 ∷ pos 0 ∷ pos 312321049456 ∷ pos 0 ∷ [] }
    ensures closed_low { (loss : PipeLoss)
        → map (low (own_law false [] (CheckPipe loss) Closed)) differences ≡ pos 0 ∷ pos 0 ∷ pos 0 ∷ pos 0 ∷ pos 0
        ∷ pos 0 ∷ pos 0 ∷ pos 0 ∷ pos 0
        ∷ pos 0 ∷ pos 0 ∷ [] }
    ensures closed_high { (loss : PipeLoss)
        → map (high (own_law false [] (CheckPipe loss) Closed)) differences ≡ pos 0 ∷ pos 0 ∷ pos 0 ∷ pos 0
        ∷ pos 0 ∷ pos 0 ∷ pos 0 ∷ pos 0 ∷ pos 0
        ∷ pos 0 ∷ pos 0 ∷ [] }
{}

/// A pump whose curve has one point, 40 m, at nine tenths of its speed and at its speed, and one that is closed.
pub fn pumps_metres()
    ensures slow_low { (capacity : Capacity) (shutoff : Span) (head : Decimal) (pattern : Option ℕ) → IsPump capacity
        → head.nano ≡ pos 40000000000
        → map (low (own_law false [] (PumpLink capacity shutoff (FourThirds head) pattern) (Speed (pos 900000000))))
        differences ≡ pos 38879999999
        ∷ pos 38880000000 ∷ pos 38879999999 ∷ pos 38880000045 ∷ pos 38879999954 ∷ pos 39327425545 ∷ pos 38427365249
        ∷ pos 44086895968
        ∷ pos 32858094952 ∷ pos 70787388707 ∷ pos 0 ∷ [] }
    ensures slow_high { (capacity : Capacity) (shutoff : Span) (head : Decimal) (pattern : Option ℕ) → IsPump capacity
        → head.nano ≡ pos 40000000000
        → map (high (own_law false [] (PumpLink capacity shutoff (FourThirds head) pattern) (Speed (pos 900000000))))
        differences ≡ pos 38880000001
        ∷ pos 38880000001 ∷ pos 38880000000 ∷ pos 38880000046 ∷ pos 38879999955 ∷ pos 39327425546 ∷ pos 38427365250
        ∷ pos 44086895969
        ∷ pos 32858094953 ∷ pos 70787388708 ∷ pos 0 ∷ [] }
    ensures running_low { (capacity : Capacity) (shutoff : Span) (head : Decimal) (pattern : Option ℕ)
        → IsPump capacity → head.nano ≡ pos 40000000000
        → map (low (own_law false [] (PumpLink capacity shutoff (FourThirds head) pattern) (Speed (pos 1000000000))))
        differences ≡ pos 43199999999
        ∷ pos 43200000000 ∷ pos 43199999999 ∷ pos 43200000040 ∷ pos 43199999959 ∷ pos 43603119154 ∷ pos 42793083553
        ∷ pos 47939962412
        ∷ pos 37871361262 ∷ pos 73249163817 ∷ pos 0 ∷ [] }
    ensures running_high { (capacity : Capacity) (shutoff : Span) (head : Decimal) (pattern : Option ℕ)
        → IsPump capacity → head.nano
        ≡ pos 40000000000
        → map (high (own_law false [] (PumpLink capacity shutoff (FourThirds head) pattern) (Speed (pos 1000000000))))
        differences ≡ pos 43200000001
        ∷ pos 43200000001 ∷ pos 43200000000 ∷ pos 43200000041 ∷ pos 43199999960 ∷ pos 43603119155 ∷ pos 42793083554
        ∷ pos 47939962413
        ∷ pos 37871361263 ∷ pos 73249163818 ∷ pos 0 ∷ [] }
    ensures closed_low { (capacity : Capacity) (shutoff : Span) (head : Decimal) (pattern : Option ℕ)
        → map (low (own_law false [] (PumpLink capacity shutoff (FourThirds head) pattern) Closed)) differences
        ≡ pos 0 ∷ pos 0 ∷ pos 0 ∷ pos 0 ∷ pos 0
        ∷ pos 0 ∷ pos 0 ∷ pos 0 ∷ pos 0 ∷ pos 0 ∷ pos 0 ∷ [] }
    ensures closed_high { (capacity : Capacity) (shutoff : Span) (head : Decimal) (pattern : Option ℕ)
        → map (high (own_law false [] (PumpLink capacity shutoff (FourThirds head) pattern) Closed)) differences
        ≡ pos 0 ∷ pos 0 ∷ pos 0 ∷ pos 0 ∷ pos 0
        ∷ pos 0 ∷ pos 0 ∷ pos 0 ∷ pos 0 ∷ pos 0 ∷ pos 0 ∷ [] }
{}

/// A pump whose curve has three points, from 252 feet on, at its speed and above it, and one that is closed.
pub fn pumps_feet()
    ensures running_low { (capacity : Capacity) (shutoff : Span) (head : Decimal) (pattern : Option ℕ)
        → IsPumpInFeet capacity → head.nano
        ≡ pos 252000000000
        → map (low (own_law true [] (PumpLink capacity shutoff (Given head) pattern) (Speed (pos 1000000000))))
        differences ≡ pos 65411915627
        ∷ pos 65411915627 ∷ pos 65411915627 ∷ pos 65411915670 ∷ pos 65411915584 ∷ pos 65836344263 ∷ pos 64984715018
        ∷ pos 70472981833
        ∷ pos 59924921723 ∷ pos 99243491989 ∷ pos 0 ∷ [] }
    ensures running_high { (capacity : Capacity) (shutoff : Span) (head : Decimal) (pattern : Option ℕ)
        → IsPumpInFeet capacity → head.nano
        ≡ pos 252000000000
        → map (high (own_law true [] (PumpLink capacity shutoff (Given head) pattern) (Speed (pos 1000000000))))
        differences ≡ pos 65411915628
        ∷ pos 65411915628 ∷ pos 65411915628 ∷ pos 65411915671 ∷ pos 65411915585 ∷ pos 65836344264 ∷ pos 64984715019
        ∷ pos 70472981834
        ∷ pos 59924921724 ∷ pos 99243491990 ∷ pos 0 ∷ [] }
    ensures fast_low { (capacity : Capacity) (shutoff : Span) (head : Decimal) (pattern : Option ℕ)
        → IsPumpInFeet capacity → head.nano
        ≡ pos 252000000000
        → map (low (own_law true [] (PumpLink capacity shutoff (Given head) pattern) (Speed (pos 1123456789))))
        differences ≡ pos 73487460693
        ∷ pos 73487460693 ∷ pos 73487460693 ∷ pos 73487460731 ∷ pos 73487460655 ∷ pos 73865502090 ∷ pos 73107464455
        ∷ pos 78026465648
        ∷ pos 68648994287 ∷ pos 104742345187 ∷ pos 0 ∷ [] }
    ensures fast_high { (capacity : Capacity) (shutoff : Span) (head : Decimal) (pattern : Option ℕ)
        → IsPumpInFeet capacity → head.nano
        ≡ pos 252000000000
        → map (high (own_law true [] (PumpLink capacity shutoff (Given head) pattern) (Speed (pos 1123456789))))
        differences ≡ pos 73487460694
        ∷ pos 73487460694 ∷ pos 73487460694 ∷ pos 73487460732 ∷ pos 73487460656 ∷ pos 73865502091 ∷ pos 73107464456
        ∷ pos 78026465649
        ∷ pos 68648994288 ∷ pos 104742345188 ∷ pos 0 ∷ [] }
    ensures closed_low { (capacity : Capacity) (shutoff : Span) (head : Decimal) (pattern : Option ℕ)
        → map (low (own_law true [] (PumpLink capacity shutoff (Given head) pattern) Closed)) differences ≡ pos 0
        ∷ pos 0 ∷ pos 0 ∷ pos 0 ∷ pos 0 ∷ pos 0
        ∷ pos 0 ∷ pos 0 ∷ pos 0 ∷ pos 0 ∷ pos 0 ∷ [] }
    ensures closed_high { (capacity : Capacity) (shutoff : Span) (head : Decimal) (pattern : Option ℕ)
        → map (high (own_law true [] (PumpLink capacity shutoff (Given head) pattern) Closed)) differences ≡ pos 0
        ∷ pos 0 ∷ pos 0 ∷ pos 0 ∷ pos 0
        ∷ pos 0 ∷ pos 0 ∷ pos 0 ∷ pos 0 ∷ pos 0 ∷ pos 0 ∷ [] }
{}

/// A throttle control valve of 304.8 mm: open, with a minor loss coefficient of 100; throttled to a setting of 100;
/// closed.
pub fn throttle_valves()
    ensures open_low { (capacity : Capacity) → IsValve capacity
        → map (low (own_law false [] (Tcv (Quadratic capacity)) Open)) differences ≡ pos 0 ∷ pos 8833
        ∷ neg_ℤ (pos 8834) ∷ pos 8833039
        ∷ neg_ℤ (pos 8833040) ∷ pos 27932482887 ∷ neg_ℤ (pos 27932482888) ∷ pos 98144740256 ∷ neg_ℤ (pos 98144740257)
        ∷ pos 279324828875
        ∷ neg_ℤ (pos 279324828876) ∷ [] }
    ensures open_high { (capacity : Capacity) → IsValve capacity
        → map (high (own_law false [] (Tcv (Quadratic capacity)) Open)) differences ≡ pos 0 ∷ pos 8834
        ∷ neg_ℤ (pos 8833) ∷ pos 8833040
        ∷ neg_ℤ (pos 8833039) ∷ pos 27932482888 ∷ neg_ℤ (pos 27932482887) ∷ pos 98144740257 ∷ neg_ℤ (pos 98144740256)
        ∷ pos 279324828876
        ∷ neg_ℤ (pos 279324828875) ∷ [] }
    ensures throttled_low { (capacity : Capacity) → IsValve capacity
        → map (low (own_law false [] (Tcv Linear) (Throttle (pos 100000000000) (Quadratic capacity)))) differences
        ≡ pos 0 ∷ pos 8833 ∷ neg_ℤ (pos 8834)
        ∷ pos 8833039 ∷ neg_ℤ (pos 8833040) ∷ pos 27932482887 ∷ neg_ℤ (pos 27932482888) ∷ pos 98144740256
        ∷ neg_ℤ (pos 98144740257) ∷ pos 279324828875
        ∷ neg_ℤ (pos 279324828876) ∷ [] }
    ensures throttled_high { (capacity : Capacity) → IsValve capacity
        → map (high (own_law false [] (Tcv Linear) (Throttle (pos 100000000000) (Quadratic capacity)))) differences
        ≡ pos 0 ∷ pos 8834 ∷ neg_ℤ (pos 8833)
        ∷ pos 8833040 ∷ neg_ℤ (pos 8833039) ∷ pos 27932482888 ∷ neg_ℤ (pos 27932482887) ∷ pos 98144740257
        ∷ neg_ℤ (pos 98144740256) ∷ pos 279324828876
        ∷ neg_ℤ (pos 279324828875) ∷ [] }
    ensures closed_low { (capacity : Capacity)
        → map (low (own_law false [] (Tcv (Quadratic capacity)) Closed)) differences ≡ pos 0 ∷ pos 0 ∷ pos 0 ∷ pos 0
        ∷ pos 0 ∷ pos 0 ∷ pos 0 ∷ pos 0
        ∷ pos 0 ∷ pos 0 ∷ pos 0 ∷ [] }
    ensures closed_high { (capacity : Capacity)
        → map (high (own_law false [] (Tcv (Quadratic capacity)) Closed)) differences ≡ pos 0 ∷ pos 0 ∷ pos 0 ∷ pos 0
        ∷ pos 0 ∷ pos 0 ∷ pos 0 ∷ pos 0
        ∷ pos 0 ∷ pos 0 ∷ pos 0 ∷ [] }
{}

/// A flow control valve of 304.8 mm with a minor loss coefficient of 100: open; with a limit of 500 cubic metres a day;
/// closed.
pub fn control_valves()
    ensures open_low { (capacity : Capacity) → IsValve capacity
        → map (low (own_law false [] (Fcv (Quadratic capacity)) Open)) differences ≡ pos 0 ∷ pos 8833
        ∷ neg_ℤ (pos 8834) ∷ pos 8833039
        ∷ neg_ℤ (pos 8833040) ∷ pos 27932482887 ∷ neg_ℤ (pos 27932482888) ∷ pos 98144740256 ∷ neg_ℤ (pos 98144740257)
        ∷ pos 279324828875
        ∷ neg_ℤ (pos 279324828876) ∷ [] }
    ensures open_high { (capacity : Capacity) → IsValve capacity
        → map (high (own_law false [] (Fcv (Quadratic capacity)) Open)) differences ≡ pos 0 ∷ pos 8834
        ∷ neg_ℤ (pos 8833) ∷ pos 8833040
        ∷ neg_ℤ (pos 8833039) ∷ pos 27932482888 ∷ neg_ℤ (pos 27932482887) ∷ pos 98144740257 ∷ neg_ℤ (pos 98144740256)
        ∷ pos 279324828876
        ∷ neg_ℤ (pos 279324828875) ∷ [] }
    ensures limited_low { (capacity : Capacity) → IsValve capacity
        → map (low (own_law false [] (Fcv (Quadratic capacity)) (Limit (pos 500000000000) (pos 5000000000))))
        differences ≡ pos 0 ∷ pos 8833
        ∷ neg_ℤ (pos 8834) ∷ pos 8833039 ∷ neg_ℤ (pos 8833040) ∷ pos 5000000000 ∷ neg_ℤ (pos 27932482888)
        ∷ pos 5000000000 ∷ neg_ℤ (pos 98144740257)
        ∷ pos 5000000000 ∷ neg_ℤ (pos 279324828876) ∷ [] }
    ensures limited_high { (capacity : Capacity) → IsValve capacity
        → map (high (own_law false [] (Fcv (Quadratic capacity)) (Limit (pos 500000000000) (pos 5000000000))))
        differences ≡ pos 0 ∷ pos 8834
        ∷ neg_ℤ (pos 8833) ∷ pos 8833040 ∷ neg_ℤ (pos 8833039) ∷ pos 5000000000 ∷ neg_ℤ (pos 27932482887)
        ∷ pos 5000000000 ∷ neg_ℤ (pos 98144740256)
        ∷ pos 5000000000 ∷ neg_ℤ (pos 279324828875) ∷ [] }
    ensures closed_low { (capacity : Capacity)
        → map (low (own_law false [] (Fcv (Quadratic capacity)) Closed)) differences ≡ pos 0 ∷ pos 0 ∷ pos 0 ∷ pos 0
        ∷ pos 0 ∷ pos 0 ∷ pos 0 ∷ pos 0
        ∷ pos 0 ∷ pos 0 ∷ pos 0 ∷ [] }
    ensures closed_high { (capacity : Capacity)
        → map (high (own_law false [] (Fcv (Quadratic capacity)) Closed)) differences ≡ pos 0 ∷ pos 0 ∷ pos 0 ∷ pos 0
        ∷ pos 0 ∷ pos 0 ∷ pos 0 ∷ pos 0
        ∷ pos 0 ∷ pos 0 ∷ pos 0 ∷ [] }
{}

/// An open pipe from one tank to another, each of them full, between or empty.
pub fn pipes_at_tanks()
    ensures low { (project : Project) (capacity : Capacity) → project.options.unit ≡ Cmd
        → length project.junctions.list ≡ 1
        → length project.reservoirs.list ≡ 0 → HasTanks project false false
        → IsPipe capacity
        → map (λ tanks. map (low (law_of project tanks (between_tanks (PipeLink (Manning capacity))) Open))
        (pos 1000000000000000 ∷ neg_ℤ (pos 1000000000000000)
        ∷ [])) pairs
        ≡ (pos 0 ∷ pos 0 ∷ []) ∷ (pos 312321049455 ∷ pos 0 ∷ []) ∷ (pos 312321049455 ∷ pos 0 ∷ [])
        ∷ (pos 0 ∷ neg_ℤ (pos 312321049456) ∷ [])
        ∷ (pos 312321049455 ∷ neg_ℤ (pos 312321049456) ∷ []) ∷ (pos 312321049455 ∷ pos 0 ∷ [])
        ∷ (pos 0 ∷ neg_ℤ (pos 312321049456) ∷ []) ∷ (pos 0
        ∷ neg_ℤ (pos 312321049456) ∷ []) ∷ (pos 0 ∷ pos 0 ∷ []) ∷ [] }
    ensures high { (project : Project) (capacity : Capacity) → project.options.unit ≡ Cmd
        → length project.junctions.list ≡ 1
        → length project.reservoirs.list ≡ 0 → HasTanks project false false
        → IsPipe capacity
        → map (λ tanks. map (high (law_of project tanks (between_tanks (PipeLink (Manning capacity))) Open))
        (pos 1000000000000000
        ∷ neg_ℤ (pos 1000000000000000) ∷ [])) pairs
        ≡ (pos 0 ∷ pos 0 ∷ []) ∷ (pos 312321049456 ∷ pos 0 ∷ []) ∷ (pos 312321049456 ∷ pos 0 ∷ [])
        ∷ (pos 0 ∷ neg_ℤ (pos 312321049455) ∷ [])
        ∷ (pos 312321049456 ∷ neg_ℤ (pos 312321049455) ∷ []) ∷ (pos 312321049456 ∷ pos 0 ∷ [])
        ∷ (pos 0 ∷ neg_ℤ (pos 312321049455) ∷ []) ∷ (pos 0
        ∷ neg_ℤ (pos 312321049455) ∷ []) ∷ (pos 0 ∷ pos 0 ∷ []) ∷ [] }
{}

/// A pipe with a check valve from one tank to another.
pub fn check_pipes_at_tanks()
    ensures low { (project : Project) (capacity : Capacity) → project.options.unit ≡ Cmd
        → length project.junctions.list ≡ 1
        → length project.reservoirs.list ≡ 0 → HasTanks project false false
        → IsPipe capacity
        → map (λ tanks. map (low (law_of project tanks (between_tanks (CheckPipe (Manning capacity))) Open))
        (pos 1000000000000000
        ∷ neg_ℤ (pos 1000000000000000) ∷ [])) pairs
        ≡ (pos 0 ∷ pos 0 ∷ []) ∷ (pos 312321049455 ∷ pos 0 ∷ []) ∷ (pos 312321049455 ∷ pos 0 ∷ [])
        ∷ (pos 0 ∷ pos 0 ∷ []) ∷ (pos 312321049455 ∷ pos 0
        ∷ []) ∷ (pos 312321049455 ∷ pos 0 ∷ []) ∷ (pos 0 ∷ pos 0 ∷ []) ∷ (pos 0 ∷ pos 0 ∷ []) ∷ (pos 0 ∷ pos 0 ∷ [])
        ∷ [] }
    ensures high { (project : Project) (capacity : Capacity) → project.options.unit ≡ Cmd
        → length project.junctions.list ≡ 1
        → length project.reservoirs.list ≡ 0 → HasTanks project false false
        → IsPipe capacity
        → map (λ tanks. map (high (law_of project tanks (between_tanks (CheckPipe (Manning capacity))) Open))
        (pos 1000000000000000
        ∷ neg_ℤ (pos 1000000000000000) ∷ [])) pairs
        ≡ (pos 0 ∷ pos 0 ∷ []) ∷ (pos 312321049456 ∷ pos 0 ∷ []) ∷ (pos 312321049456 ∷ pos 0 ∷ [])
        ∷ (pos 0 ∷ pos 0 ∷ []) ∷ (pos 312321049456 ∷ pos 0
        ∷ []) ∷ (pos 312321049456 ∷ pos 0 ∷ []) ∷ (pos 0 ∷ pos 0 ∷ []) ∷ (pos 0 ∷ pos 0 ∷ []) ∷ (pos 0 ∷ pos 0 ∷ [])
        ∷ [] }
{}

/// A pump from one tank to another.
pub fn pumps_at_tanks()
    ensures low { (project : Project) (capacity : Capacity) (shutoff : Span) (head : Decimal) (pattern : Option ℕ)
        → project.options.unit ≡ Cmd
        → length project.junctions.list ≡ 1 → length project.reservoirs.list ≡ 0 → HasTanks project false false
        → IsPump capacity → head.nano ≡ pos 40000000000
        → map (λ tanks. map (low (law_of project tanks (between_tanks
        (PumpLink capacity shutoff (FourThirds head) pattern)) (Speed (pos 900000000)))) (pos 1000000000000000
        ∷ neg_ℤ (pos 1000000000000000) ∷ [])) pairs
        ≡ (pos 0 ∷ pos 0 ∷ []) ∷ (pos 70787388707 ∷ pos 0 ∷ []) ∷ (pos 70787388707 ∷ pos 0 ∷ [])
        ∷ (pos 0 ∷ pos 0 ∷ []) ∷ (pos 70787388707 ∷ pos 0
        ∷ []) ∷ (pos 70787388707 ∷ pos 0 ∷ []) ∷ (pos 0 ∷ pos 0 ∷ []) ∷ (pos 0 ∷ pos 0 ∷ []) ∷ (pos 0 ∷ pos 0 ∷ [])
        ∷ [] }
    ensures high { (project : Project) (capacity : Capacity) (shutoff : Span) (head : Decimal) (pattern : Option ℕ)
        → project.options.unit ≡ Cmd
        → length project.junctions.list ≡ 1 → length project.reservoirs.list ≡ 0 → HasTanks project false false
        → IsPump capacity → head.nano ≡ pos 40000000000
        → map (λ tanks. map (high (law_of project tanks (between_tanks
        (PumpLink capacity shutoff (FourThirds head) pattern)) (Speed (pos 900000000)))) (pos 1000000000000000
        ∷ neg_ℤ (pos 1000000000000000) ∷ [])) pairs
        ≡ (pos 0 ∷ pos 0 ∷ []) ∷ (pos 70787388708 ∷ pos 0 ∷ []) ∷ (pos 70787388708 ∷ pos 0 ∷ [])
        ∷ (pos 0 ∷ pos 0 ∷ []) ∷ (pos 70787388708 ∷ pos 0
        ∷ []) ∷ (pos 70787388708 ∷ pos 0 ∷ []) ∷ (pos 0 ∷ pos 0 ∷ []) ∷ (pos 0 ∷ pos 0 ∷ []) ∷ (pos 0 ∷ pos 0 ∷ [])
        ∷ [] }
{}

/// A throttled valve from one tank to another.
pub fn throttle_valves_at_tanks()
    ensures low { (project : Project) (capacity : Capacity) → project.options.unit ≡ Cmd
        → length project.junctions.list ≡ 1
        → length project.reservoirs.list ≡ 0 → HasTanks project false false
        → IsValve capacity
        → map (λ tanks. map (low (law_of project tanks (between_tanks (Tcv Linear))
        (Throttle (pos 100000000000) (Quadratic capacity)))) (pos 1000000000000000
        ∷ neg_ℤ (pos 1000000000000000) ∷ [])) pairs
        ≡ (pos 0 ∷ pos 0 ∷ []) ∷ (pos 279324828875 ∷ pos 0 ∷ []) ∷ (pos 279324828875 ∷ pos 0 ∷ [])
        ∷ (pos 0 ∷ neg_ℤ (pos 279324828876) ∷ [])
        ∷ (pos 279324828875 ∷ neg_ℤ (pos 279324828876) ∷ []) ∷ (pos 279324828875 ∷ pos 0 ∷ [])
        ∷ (pos 0 ∷ neg_ℤ (pos 279324828876) ∷ []) ∷ (pos 0
        ∷ neg_ℤ (pos 279324828876) ∷ []) ∷ (pos 0 ∷ pos 0 ∷ []) ∷ [] }
    ensures high { (project : Project) (capacity : Capacity) → project.options.unit ≡ Cmd
        → length project.junctions.list ≡ 1
        → length project.reservoirs.list ≡ 0 → HasTanks project false false
        → IsValve capacity
        → map (λ tanks. map (high (law_of project tanks (between_tanks (Tcv Linear))
        (Throttle (pos 100000000000) (Quadratic capacity)))) (pos 1000000000000000
        ∷ neg_ℤ (pos 1000000000000000) ∷ [])) pairs
        ≡ (pos 0 ∷ pos 0 ∷ []) ∷ (pos 279324828876 ∷ pos 0 ∷ []) ∷ (pos 279324828876 ∷ pos 0 ∷ [])
        ∷ (pos 0 ∷ neg_ℤ (pos 279324828875) ∷ [])
        ∷ (pos 279324828876 ∷ neg_ℤ (pos 279324828875) ∷ []) ∷ (pos 279324828876 ∷ pos 0 ∷ [])
        ∷ (pos 0 ∷ neg_ℤ (pos 279324828875) ∷ []) ∷ (pos 0
        ∷ neg_ℤ (pos 279324828875) ∷ []) ∷ (pos 0 ∷ pos 0 ∷ []) ∷ [] }
{}

/// A flow control valve with a limit from one tank to another.
pub fn control_valves_at_tanks()
    ensures low { (project : Project) (capacity : Capacity) → project.options.unit ≡ Cmd
        → length project.junctions.list ≡ 1
        → length project.reservoirs.list ≡ 0 → HasTanks project false false
        → IsValve capacity
        → map (λ tanks. map (low (law_of project tanks (between_tanks (Fcv (Quadratic capacity)))
        (Limit (pos 500000000000) (pos 5000000000)))) (pos 1000000000000000
        ∷ neg_ℤ (pos 1000000000000000) ∷ [])) pairs
        ≡ (pos 0 ∷ pos 0 ∷ []) ∷ (pos 5000000000 ∷ pos 0 ∷ []) ∷ (pos 5000000000 ∷ pos 0 ∷ [])
        ∷ (pos 0 ∷ neg_ℤ (pos 279324828876) ∷ [])
        ∷ (pos 5000000000 ∷ neg_ℤ (pos 279324828876) ∷ []) ∷ (pos 5000000000 ∷ pos 0 ∷ [])
        ∷ (pos 0 ∷ neg_ℤ (pos 279324828876) ∷ []) ∷ (pos 0
        ∷ neg_ℤ (pos 279324828876) ∷ []) ∷ (pos 0 ∷ pos 0 ∷ []) ∷ [] }
    ensures high { (project : Project) (capacity : Capacity) → project.options.unit ≡ Cmd
        → length project.junctions.list ≡ 1
        → length project.reservoirs.list ≡ 0 → HasTanks project false false
        → IsValve capacity
        → map (λ tanks. map (high (law_of project tanks (between_tanks (Fcv (Quadratic capacity)))
        (Limit (pos 500000000000) (pos 5000000000)))) (pos 1000000000000000
        ∷ neg_ℤ (pos 1000000000000000) ∷ [])) pairs
        ≡ (pos 0 ∷ pos 0 ∷ []) ∷ (pos 5000000000 ∷ pos 0 ∷ []) ∷ (pos 5000000000 ∷ pos 0 ∷ [])
        ∷ (pos 0 ∷ neg_ℤ (pos 279324828875) ∷ [])
        ∷ (pos 5000000000 ∷ neg_ℤ (pos 279324828875) ∷ []) ∷ (pos 5000000000 ∷ pos 0 ∷ [])
        ∷ (pos 0 ∷ neg_ℤ (pos 279324828875) ∷ []) ∷ (pos 0
        ∷ neg_ℤ (pos 279324828875) ∷ []) ∷ (pos 0 ∷ pos 0 ∷ []) ∷ [] }
{}
