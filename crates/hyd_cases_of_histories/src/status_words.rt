//! Which status word holds of a link, decided where one word gives way to another.
#![tactic(auto)]

ghost use Rattle.std.specs.Prelude.{ℕ, ℤ, pos, neg_ℤ, Bool, false, List, Option};
ghost use Rattle.hyd_num.specs.declared.spans.Span.{Span};
ghost use Rattle.hyd_net.specs.ListView.{ListView};
ghost use Rattle.hyd_spec.specs.ProgramTypes.{Capacity, HeadPoint, OpenValve, PipeLink, CheckPipe, PumpLink, CurvePump};
ghost use Rattle.hyd_spec.specs.ProgramTypes.{PipeLoss};
ghost use Rattle.hyd_spec.specs.ProgramTypes.{Tcv};
ghost use Rattle.hyd_spec.specs.ProgramTypes.{Fcv, Gpv, Linear, FourThirds, Open, Closed, Speed, Throttle, Limit};
ghost use Rattle.hyd_spec_certificates.specs.declared.StatusWord.TheVariants.{Open as WordOpen, Closed as WordClosed};
ghost use Rattle.hyd_spec_certificates.specs.declared.StatusWord.TheVariants.{Active as WordActive};
ghost use Rattle.hyd_cases_of_histories.specs.StatusWords.{HoldsAlone, thirty, falling};

/// An open check valve pipe is CLOSED where the head difference is 0, OPEN one part of a head tick above it.
pub fn check_valves()
    ensures none { (us : Bool) (bends : List (ListView HeadPoint)) (loss : PipeLoss) (S : ℕ)
        → HoldsAlone us bends WordClosed (CheckPipe loss) Open S (pos 0) }
    ensures above { (us : Bool) (bends : List (ListView HeadPoint)) (loss : PipeLoss) (S : ℕ)
        → HoldsAlone us bends WordOpen (CheckPipe loss) Open S (pos 1) }
    ensures shut { (us : Bool) (bends : List (ListView HeadPoint)) (loss : PipeLoss) (S : ℕ) (x : ℤ)
        → HoldsAlone us bends WordClosed (CheckPipe loss) Closed S x }
{}

/// A running pump of a shutoff head of 40 m, in thirds of head ticks, is CLOSED where its second node stands higher by
/// the whole lift, OPEN where by one third of a tick less; at half its speed the lift is 10 m.
pub fn pumps()
    ensures lifted { (bends : List (ListView HeadPoint)) (capacity : Capacity)
        (shutoff : Span) (pattern : Option ℕ)
        → HoldsAlone false bends WordClosed (PumpLink capacity shutoff (FourThirds thirty) pattern)
        (Speed (pos 1000000000)) 3
        (neg_ℤ (pos 1200000000000000)) }
    ensures less_lifted { (bends : List (ListView HeadPoint)) (capacity : Capacity)
        (shutoff : Span) (pattern : Option ℕ)
        → HoldsAlone false bends WordOpen (PumpLink capacity shutoff (FourThirds thirty) pattern)
        (Speed (pos 1000000000)) 3
        (neg_ℤ (pos 1199999999999999)) }
    ensures slowly_lifted { (bends : List (ListView HeadPoint)) (capacity : Capacity)
        (shutoff : Span) (pattern : Option ℕ)
        → HoldsAlone false bends WordClosed (PumpLink capacity shutoff (FourThirds thirty) pattern)
        (Speed (pos 500000000)) 3
        (neg_ℤ (pos 300000000000000)) }
    ensures slowly_less_lifted { (bends : List (ListView HeadPoint)) (capacity : Capacity)
        (shutoff : Span) (pattern : Option ℕ)
        → HoldsAlone false bends WordOpen (PumpLink capacity shutoff (FourThirds thirty) pattern)
        (Speed (pos 500000000)) 3
        (neg_ℤ (pos 299999999999999)) }
    ensures shut { (us : Bool) (bends : List (ListView HeadPoint)) (capacity : Capacity)
        (shutoff : Span) (pattern : Option ℕ) (S : ℕ) (x : ℤ)
        → HoldsAlone us bends WordClosed (PumpLink capacity shutoff (FourThirds thirty) pattern) Closed S x }
{}

/// A running pump whose curve is one by straight lines is CLOSED where the exact flow by the lines is 0, OPEN where it
/// is above that.
pub fn curve_pumps()
    ensures lifted { (pattern : Option ℕ)
        → HoldsAlone false falling WordClosed (CurvePump 0 pattern)
        (Speed (pos 1000000000)) 3 (neg_ℤ (pos 1200000000000000)) }
    ensures less_lifted { (pattern : Option ℕ)
        → HoldsAlone false falling WordOpen (CurvePump 0 pattern)
        (Speed (pos 1000000000)) 3 (neg_ℤ (pos 1199999999999999)) }
    ensures slowly_lifted { (pattern : Option ℕ)
        → HoldsAlone false falling WordClosed (CurvePump 0 pattern)
        (Speed (pos 500000000)) 3 (neg_ℤ (pos 300000000000000)) }
    ensures slowly_less_lifted { (pattern : Option ℕ)
        → HoldsAlone false falling WordOpen (CurvePump 0 pattern)
        (Speed (pos 500000000)) 3 (neg_ℤ (pos 299999999999999)) }
    ensures shut { (us : Bool) (bends : List (ListView HeadPoint)) (pattern : Option ℕ) (S : ℕ) (x : ℤ)
        → HoldsAlone us bends WordClosed (CurvePump 0 pattern) Closed S x }
{}

/// A flow-control valve without loss and with a setting of 802.6822656 cubic metres a day is ACTIVE from the head
/// difference on at which the open valve passes as much, 1,000,000 head ticks, and OPEN below it.
pub fn control_valves()
    ensures at_setting { (us : Bool) (bends : List (ListView HeadPoint))
        → HoldsAlone us bends WordActive (Fcv Linear) (Limit (pos 802682265600) (pos 8026822656)) 3 (pos 3000000) }
    ensures below_setting { (us : Bool) (bends : List (ListView HeadPoint))
        → HoldsAlone us bends WordOpen (Fcv Linear) (Limit (pos 802682265600) (pos 8026822656)) 3 (pos 2999999) }
    ensures unset { (us : Bool) (bends : List (ListView HeadPoint)) (valve : OpenValve) (S : ℕ) (x : ℤ)
        → HoldsAlone us bends WordOpen (Fcv valve) Open S x }
    ensures shut { (us : Bool) (bends : List (ListView HeadPoint)) (valve : OpenValve) (S : ℕ) (x : ℤ)
        → HoldsAlone us bends WordClosed (Fcv valve) Closed S x }
{}

/// Pipes, throttle control valves and general purpose valves have the word of their state.
pub fn commanded()
    ensures open_pipe { (us : Bool) (bends : List (ListView HeadPoint)) (loss : PipeLoss) (S : ℕ) (x : ℤ)
        → HoldsAlone us bends WordOpen (PipeLink loss) Open S x }
    ensures shut_pipe { (us : Bool) (bends : List (ListView HeadPoint)) (loss : PipeLoss) (S : ℕ) (x : ℤ)
        → HoldsAlone us bends WordClosed (PipeLink loss) Closed S x }
    ensures open_throttle { (us : Bool) (bends : List (ListView HeadPoint)) (valve : OpenValve) (S : ℕ) (x : ℤ)
        → HoldsAlone us bends WordOpen (Tcv valve) Open S x }
    ensures throttled { (us : Bool) (bends : List (ListView HeadPoint)) (valve law : OpenValve)
        (setting : ℤ) (S : ℕ) (x : ℤ)
        → HoldsAlone us bends WordActive (Tcv valve) (Throttle setting law) S x }
    ensures shut_throttle { (us : Bool) (bends : List (ListView HeadPoint)) (valve : OpenValve) (S : ℕ) (x : ℤ)
        → HoldsAlone us bends WordClosed (Tcv valve) Closed S x }
    ensures open_purpose { (us : Bool) (bends : List (ListView HeadPoint)) (bend : ℕ) (S : ℕ) (x : ℤ)
        → HoldsAlone us bends WordOpen (Gpv bend) Open S x }
    ensures shut_purpose { (us : Bool) (bends : List (ListView HeadPoint)) (bend : ℕ) (S : ℕ) (x : ℤ)
        → HoldsAlone us bends WordClosed (Gpv bend) Closed S x }
{}
