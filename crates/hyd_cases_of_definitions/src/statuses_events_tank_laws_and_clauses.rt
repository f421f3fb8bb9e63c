//! Status words, events, the laws of links at full and empty tanks, and clauses of rules.
#![tactic(auto)]

ghost use Rattle.std.specs.Prelude.{◌≡◌, pos, neg_ℤ, true, false, [], ◌∷◌, map, length, slice_get, Some, None};
ghost use Rattle.hyd_num.specs.declared.spans.Span.{Span};
ghost use Rattle.hyd_num.specs.declared.flow_units.FlowUnit.TheVariants.{Gpm, Cmd};
ghost use Rattle.hyd_num.specs.Rational.{whole};
ghost use Rattle.hyd_spec.specs.ProgramTypes.{Project, Decimal, Capacity, Junction, Tank, Amount, Less, NotMore, More};
ghost use Rattle.hyd_spec.specs.ProgramTypes.{NotLess, FourThirds, Given, CheckPipe, PumpLink, Tcv, Fcv, Linear, Open};
ghost use Rattle.hyd_spec.specs.ProgramTypes.{PipeLoss};
ghost use Rattle.hyd_spec.specs.ProgramTypes.{Closed};
ghost use Rattle.hyd_spec.specs.ProgramTypes.{Speed, Throttle, Limit, Head, Pressure, Level, Flow, Setting, AtLevel};
ghost use Rattle.hyd_spec.specs.declared.TankState.TheVariants.{Empty, Between, Full};
ghost use Rattle.hyd_spec_certificates.specs.declared.StatusWord.TheVariants.{Open as WordOpen, Closed as WordClosed};
ghost use Rattle.hyd_spec_certificates.specs.declared.StatusWord.TheVariants.{Active as WordActive};
ghost use Rattle.hyd_spec_certificates.specs.declared.StatusWord.TheVariants.{Unsure as WordUnsure};
ghost use Rattle.hyd_spec_certificates.specs.EnclosingFunctions.{low, high};
ghost use Rattle.hyd_spec.specs.LinkLaw.{law_of};
ghost use Rattle.hyd_spec.specs.Rules.{measured, holds_on};
ghost use Rattle.hyd_spec_certificates.specs.StatusesOfLinks.{by_drive, by_setting, status_of};
ghost use Rattle.hyd_spec_certificates.specs.EndsOfPeriods.{tank_event, control_event};
ghost use Rattle.hyd_spec_reports.specs.Report.{event_line};
ghost use Rattle.hyd_spec_certificates.specs.declared.EventKind.TheVariants.{Full as BecomesFull};
ghost use Rattle.hyd_spec_certificates.specs.declared.EventKind.TheVariants.{Empty as BecomesEmpty};
ghost use Rattle.hyd_spec_certificates.specs.declared.EventKind.TheVariants.{Control as ReachesLevel};
ghost use Rattle.hyd_spec_reports.specs.ReportLine.{FilledLine, EmptiedLine, ReachedLine};
ghost use Rattle.hyd_cases_of_definitions.specs.LinksBetweenTanks.{HasTanks};

/// Status words by the interval of the head difference: of a check valve, a flow control valve and pumps, whose curve
/// has a shutoff head of 50 m, or gives it as four thirds of 50 m.
pub fn statuses()
    ensures drives { map by_drive ((record { lo = pos 1; hi = pos 5 }) ∷ (record {
      lo = pos 0;
      hi = pos 5;
    }) ∷ (record { lo = neg_ℤ (pos 5); hi = pos 1 })
        ∷ (record { lo = neg_ℤ (pos 5); hi = pos 0 }) ∷ (record { lo = neg_ℤ (pos 5); hi = neg_ℤ (pos 1) })
        ∷ (record { lo = pos 3; hi = pos 3 }) ∷ [])
        ≡ WordOpen ∷ WordUnsure ∷ WordUnsure ∷ WordClosed ∷ WordClosed ∷ WordOpen ∷ [] }
    ensures settings { map (by_setting (pos 5)) ((record { lo = pos 5; hi = pos 9 }) ∷ (record {
      lo = pos 4;
      hi = pos 4;
    })
        ∷ (record { lo = pos 4; hi = pos 5 }) ∷ (record { lo = neg_ℤ (pos 9); hi = pos 4 }) ∷ [])
        ≡ WordActive ∷ WordOpen ∷ WordUnsure ∷ WordOpen ∷ [] }
    ensures closed { map (status_of false [] (Tcv Linear) (Closed)) ((record { lo = pos 1; hi = pos 2 }) ∷ [])
        ≡ WordClosed ∷ [] }
    ensures open { map (status_of false [] (Tcv Linear) (Open)) ((record { lo = neg_ℤ (pos 1); hi = pos 2 }) ∷ [])
        ≡ WordOpen ∷ [] }
    ensures throttled { map (status_of false [] (Tcv Linear) (Throttle (pos 5) Linear)) ((record {
      lo = neg_ℤ (pos 1);
      hi = pos 2;
    }) ∷ [])
        ≡ WordActive ∷ [] }
    ensures check_valve { (loss : PipeLoss) → map (status_of false [] (CheckPipe loss) (Open)) ((record {
      lo = pos 1;
      hi = pos 5;
    })
        ∷ (record { lo = pos 0; hi = pos 5 }) ∷ (record { lo = neg_ℤ (pos 5); hi = pos 1 })
        ∷ (record { lo = neg_ℤ (pos 5); hi = pos 0 }) ∷ (record { lo = neg_ℤ (pos 5); hi = neg_ℤ (pos 1) })
        ∷ (record { lo = pos 3; hi = pos 3 }) ∷ [])
        ≡ WordOpen ∷ WordUnsure ∷ WordUnsure ∷ WordClosed ∷ WordClosed ∷ WordOpen ∷ [] }
    ensures flow_control { map (status_of false [] (Fcv Linear) (Limit (pos 2000000) (pos 20000))) ((record {
      lo = pos 0;
      hi = pos 0;
    })
        ∷ (record { lo = pos 1; hi = pos 2 }) ∷ (record { lo = pos 2; hi = pos 3 }) ∷ (record {
          lo = pos 3;
          hi = pos 9;
        })
        ∷ (record { lo = neg_ℤ (pos 5); hi = pos 1 }) ∷ (record { lo = neg_ℤ (pos 5); hi = pos 3 }) ∷ [])
        ≡ WordOpen ∷ WordOpen ∷ WordUnsure ∷ WordActive ∷ WordOpen ∷ WordUnsure ∷ [] }
    ensures pump_given { (capacity : Capacity) (shutoff : Span) (head : Decimal) → head.nano ≡ pos 50000000000
        → map (status_of false [] (PumpLink capacity shutoff (Given head) None) (Speed (pos 1000000000))) ((record {
          lo = neg_ℤ (pos 500000000000001);
          hi = pos 0;
        })
        ∷ (record { lo = neg_ℤ (pos 500000000000000); hi = pos 0 }) ∷ (record {
          lo = neg_ℤ (pos 499999999999999);
          hi = pos 0;
        })
        ∷ (record { lo = neg_ℤ (pos 600000000000000); hi = neg_ℤ (pos 500000000000000) })
        ∷ (record { lo = neg_ℤ (pos 600000000000000); hi = neg_ℤ (pos 500000000000001) })
        ∷ (record { lo = neg_ℤ (pos 600000000000000); hi = neg_ℤ (pos 499999999999999) }) ∷ [])
        ≡ WordUnsure ∷ WordUnsure ∷ WordOpen ∷ WordClosed ∷ WordClosed ∷ WordUnsure ∷ [] }
    ensures pump_four_thirds { (capacity : Capacity) (shutoff : Span) (head : Decimal) → head.nano ≡ pos 50000000000
        → map (status_of false [] (PumpLink capacity shutoff (FourThirds head) None) (Speed (pos 1000000000)))
        ((record { lo = neg_ℤ (pos 670000000000000); hi = pos 0 })
        ∷ (record { lo = neg_ℤ (pos 666666666666667); hi = pos 0 }) ∷ (record {
          lo = neg_ℤ (pos 666666666666666);
          hi = pos 0;
        })
        ∷ (record { lo = neg_ℤ (pos 700000000000000); hi = neg_ℤ (pos 666666666666667) })
        ∷ (record { lo = neg_ℤ (pos 700000000000000); hi = neg_ℤ (pos 666666666666666) }) ∷ [])
        ≡ WordUnsure ∷ WordUnsure ∷ WordUnsure ∷ WordClosed ∷ WordUnsure ∷ [] }
{}

/// A tank that wasn't full, or empty, and whose whole level interval stands at the bound.
pub fn events()
    ensures full { (tank : Tank) → tank.minimum ≡ pos 100 → tank.maximum ≡ pos 200
        → map (tank_event 0 tank Full) ((record { lo = pos 200; hi = pos 200 }) ∷ (record {
          lo = pos 199;
          hi = pos 200;
        })
        ∷ (record { lo = pos 100; hi = pos 100 }) ∷ (record { lo = pos 100; hi = pos 101 })
        ∷ (record { lo = pos 150; hi = pos 160 }) ∷ [])
        ≡ ([]) ∷ ([]) ∷ (record { tank = 0; what = BecomesEmpty } ∷ []) ∷ ([]) ∷ ([]) ∷ [] }
    ensures empty { (tank : Tank) → tank.minimum ≡ pos 100 → tank.maximum ≡ pos 200
        → map (tank_event 0 tank Empty) ((record { lo = pos 200; hi = pos 200 }) ∷ (record {
          lo = pos 199;
          hi = pos 200;
        })
        ∷ (record { lo = pos 100; hi = pos 100 }) ∷ (record { lo = pos 100; hi = pos 101 })
        ∷ (record { lo = pos 150; hi = pos 160 }) ∷ [])
        ≡ (record { tank = 0; what = BecomesFull } ∷ []) ∷ ([]) ∷ ([]) ∷ ([]) ∷ ([]) ∷ [] }
    ensures between { (tank : Tank) → tank.minimum ≡ pos 100 → tank.maximum ≡ pos 200
        → map (tank_event 0 tank Between) ((record { lo = pos 200; hi = pos 200 }) ∷ (record {
          lo = pos 199;
          hi = pos 200;
        })
        ∷ (record { lo = pos 100; hi = pos 100 }) ∷ (record { lo = pos 100; hi = pos 101 })
        ∷ (record { lo = pos 150; hi = pos 160 }) ∷ [])
        ≡ (record { tank = 0; what = BecomesFull } ∷ []) ∷ ([]) ∷ (record {
          tank = 0;
          what = BecomesEmpty;
        } ∷ []) ∷ ([]) ∷ ([]) ∷ [] }
{}

/// A level control that didn't hold, and whose level the whole level interval has reached.
pub fn control_events()
    ensures { (control_event ((record { lo = pos 120; hi = pos 140 }) ∷ []) ((record { lo = pos 150; hi = pos 160 })
        ∷ []) 4 (record { link = 0; to = Open; when = AtLevel 0 true (pos 150) })
        ∷ control_event ((record { lo = pos 120; hi = pos 140 }) ∷ []) ((record { lo = pos 149; hi = pos 160 })
        ∷ []) 4 (record { link = 0; to = Open; when = AtLevel 0 true (pos 150) })
        ∷ control_event ((record { lo = pos 150; hi = pos 150 }) ∷ []) ((record { lo = pos 150; hi = pos 160 })
        ∷ []) 4 (record { link = 0; to = Open; when = AtLevel 0 true (pos 150) }) ∷ [])
        ≡ Some (record { tank = 0; what = ReachesLevel 4 }) ∷ None ∷ None ∷ [] }
{}

/// The line of each kind of event.
pub fn event_lines()
    ensures { map (event_line 60) ((record { tank = 3; what = BecomesFull }) ∷ (record {
      tank = 3;
      what = BecomesEmpty;
    })
        ∷ (record { tank = 3; what = ReachesLevel 4 }) ∷ [])
        ≡ FilledLine 60 3 ∷ EmptiedLine 60 3 ∷ ReachedLine 60 3 4 ∷ [] }
{}

/// A valve between a junction and tanks, or two tanks: nothing flows into a full tank that doesn't overflow, or out of
/// an empty one.
pub fn tank_laws()
    ensures out_of_full_low { (project : Project) → length project.junctions.list ≡ 1 → length project.reservoirs.list
        ≡ 0 → HasTanks project false false
        → map (low (law_of project (Full ∷ Between
        ∷ []) (record { from = 1; to = 0; kind = Tcv Linear; start = Open }) Open)) (neg_ℤ (pos 125) ∷ pos 0 ∷ pos 125
        ∷ [])
        ≡ pos 0 ∷ pos 0 ∷ pos 1003352 ∷ [] }
    ensures out_of_full_high { (project : Project) → length project.junctions.list ≡ 1
        → length project.reservoirs.list ≡ 0 → HasTanks project false false
        → map (high (law_of project (Full ∷ Between
        ∷ []) (record { from = 1; to = 0; kind = Tcv Linear; start = Open }) Open)) (neg_ℤ (pos 125) ∷ pos 0 ∷ pos 125
        ∷ [])
        ≡ pos 0 ∷ pos 0 ∷ pos 1003353 ∷ [] }
    ensures into_full_low { (project : Project) → length project.junctions.list ≡ 1 → length project.reservoirs.list
        ≡ 0 → HasTanks project false false
        → map (low (law_of project (Full ∷ Between
        ∷ []) (record { from = 0; to = 1; kind = Tcv Linear; start = Open }) Open)) (neg_ℤ (pos 125) ∷ pos 0 ∷ pos 125
        ∷ [])
        ≡ neg_ℤ (pos 1003353) ∷ pos 0 ∷ pos 0 ∷ [] }
    ensures into_full_high { (project : Project) → length project.junctions.list ≡ 1 → length project.reservoirs.list
        ≡ 0 → HasTanks project false false
        → map (high (law_of project (Full ∷ Between
        ∷ []) (record { from = 0; to = 1; kind = Tcv Linear; start = Open }) Open)) (neg_ℤ (pos 125) ∷ pos 0 ∷ pos 125
        ∷ [])
        ≡ neg_ℤ (pos 1003352) ∷ pos 0 ∷ pos 0 ∷ [] }
    ensures out_of_empty_low { (project : Project) → length project.junctions.list ≡ 1
        → length project.reservoirs.list ≡ 0
        → map (low (law_of project (Empty ∷ Between
        ∷ []) (record { from = 1; to = 0; kind = Tcv Linear; start = Open }) Open)) (neg_ℤ (pos 125) ∷ pos 0 ∷ pos 125
        ∷ [])
        ≡ neg_ℤ (pos 1003353) ∷ pos 0 ∷ pos 0 ∷ [] }
    ensures out_of_empty_high { (project : Project) → length project.junctions.list ≡ 1
        → length project.reservoirs.list ≡ 0
        → map (high (law_of project (Empty ∷ Between
        ∷ []) (record { from = 1; to = 0; kind = Tcv Linear; start = Open }) Open)) (neg_ℤ (pos 125) ∷ pos 0 ∷ pos 125
        ∷ [])
        ≡ neg_ℤ (pos 1003352) ∷ pos 0 ∷ pos 0 ∷ [] }
    ensures into_empty_low { (project : Project) → length project.junctions.list ≡ 1 → length project.reservoirs.list
        ≡ 0
        → map (low (law_of project (Empty ∷ Between
        ∷ []) (record { from = 0; to = 1; kind = Tcv Linear; start = Open }) Open)) (neg_ℤ (pos 125) ∷ pos 0 ∷ pos 125
        ∷ [])
        ≡ pos 0 ∷ pos 0 ∷ pos 1003352 ∷ [] }
    ensures into_empty_high { (project : Project) → length project.junctions.list ≡ 1 → length project.reservoirs.list
        ≡ 0
        → map (high (law_of project (Empty ∷ Between
        ∷ []) (record { from = 0; to = 1; kind = Tcv Linear; start = Open }) Open)) (neg_ℤ (pos 125) ∷ pos 0 ∷ pos 125
        ∷ [])
        ≡ pos 0 ∷ pos 0 ∷ pos 1003353 ∷ [] }
    ensures full_to_full_low { (project : Project) → length project.junctions.list ≡ 1
        → length project.reservoirs.list ≡ 0 → HasTanks project false false
        → map (low (law_of project (Full ∷ Full
        ∷ []) (record { from = 1; to = 2; kind = Tcv Linear; start = Open }) Open)) (neg_ℤ (pos 125) ∷ pos 0 ∷ pos 125
        ∷ [])
        ≡ pos 0 ∷ pos 0 ∷ pos 0 ∷ [] }
    ensures full_to_full_high { (project : Project) → length project.junctions.list ≡ 1
        → length project.reservoirs.list ≡ 0 → HasTanks project false false
        → map (high (law_of project (Full ∷ Full
        ∷ []) (record { from = 1; to = 2; kind = Tcv Linear; start = Open }) Open)) (neg_ℤ (pos 125) ∷ pos 0 ∷ pos 125
        ∷ [])
        ≡ pos 0 ∷ pos 0 ∷ pos 0 ∷ [] }
    ensures empty_to_full_low { (project : Project) → length project.junctions.list ≡ 1
        → length project.reservoirs.list ≡ 0 → HasTanks project false false
        → map (low (law_of project (Empty ∷ Full
        ∷ []) (record { from = 1; to = 2; kind = Tcv Linear; start = Open }) Open)) (neg_ℤ (pos 125) ∷ pos 0 ∷ pos 125
        ∷ [])
        ≡ neg_ℤ (pos 1003353) ∷ pos 0 ∷ pos 0 ∷ [] }
    ensures empty_to_full_high { (project : Project) → length project.junctions.list ≡ 1
        → length project.reservoirs.list ≡ 0 → HasTanks project false false
        → map (high (law_of project (Empty ∷ Full
        ∷ []) (record { from = 1; to = 2; kind = Tcv Linear; start = Open }) Open)) (neg_ℤ (pos 125) ∷ pos 0 ∷ pos 125
        ∷ [])
        ≡ neg_ℤ (pos 1003352) ∷ pos 0 ∷ pos 0 ∷ [] }
    ensures full_to_empty_low { (project : Project) → length project.junctions.list ≡ 1
        → length project.reservoirs.list ≡ 0 → HasTanks project false false
        → map (low (law_of project (Full ∷ Empty
        ∷ []) (record { from = 1; to = 2; kind = Tcv Linear; start = Open }) Open)) (neg_ℤ (pos 125) ∷ pos 0 ∷ pos 125
        ∷ [])
        ≡ pos 0 ∷ pos 0 ∷ pos 1003352 ∷ [] }
    ensures full_to_empty_high { (project : Project) → length project.junctions.list ≡ 1
        → length project.reservoirs.list ≡ 0 → HasTanks project false false
        → map (high (law_of project (Full ∷ Empty
        ∷ []) (record { from = 1; to = 2; kind = Tcv Linear; start = Open }) Open)) (neg_ℤ (pos 125) ∷ pos 0 ∷ pos 125
        ∷ [])
        ≡ pos 0 ∷ pos 0 ∷ pos 1003353 ∷ [] }
    ensures between_low { (project : Project) → length project.junctions.list ≡ 1 → length project.reservoirs.list ≡ 0
        → map (low (law_of project (Between ∷ Between
        ∷ []) (record { from = 1; to = 2; kind = Tcv Linear; start = Open }) Open)) (neg_ℤ (pos 125) ∷ pos 0 ∷ pos 125
        ∷ [])
        ≡ neg_ℤ (pos 1003353) ∷ pos 0 ∷ pos 1003352 ∷ [] }
    ensures between_high { (project : Project) → length project.junctions.list ≡ 1 → length project.reservoirs.list ≡ 0
        → map (high (law_of project (Between ∷ Between
        ∷ []) (record { from = 1; to = 2; kind = Tcv Linear; start = Open }) Open)) (neg_ℤ (pos 125) ∷ pos 0 ∷ pos 125
        ∷ [])
        ≡ neg_ℤ (pos 1003352) ∷ pos 0 ∷ pos 1003353 ∷ [] }
    ensures into_overflowing_low { (project : Project) → length project.junctions.list ≡ 1
        → length project.reservoirs.list ≡ 0 → HasTanks project true false
        → map (low (law_of project (Full ∷ Between
        ∷ []) (record { from = 0; to = 1; kind = Tcv Linear; start = Open }) Open)) (neg_ℤ (pos 125) ∷ pos 0 ∷ pos 125
        ∷ [])
        ≡ neg_ℤ (pos 1003353) ∷ pos 0 ∷ pos 1003352 ∷ [] }
    ensures into_overflowing_high { (project : Project) → length project.junctions.list ≡ 1
        → length project.reservoirs.list ≡ 0 → HasTanks project true false
        → map (high (law_of project (Full ∷ Between
        ∷ []) (record { from = 0; to = 1; kind = Tcv Linear; start = Open }) Open)) (neg_ℤ (pos 125) ∷ pos 0 ∷ pos 125
        ∷ [])
        ≡ neg_ℤ (pos 1003352) ∷ pos 0 ∷ pos 1003353 ∷ [] }
    ensures overflowing_to_full_low { (project : Project) → length project.junctions.list ≡ 1
        → length project.reservoirs.list ≡ 0 → HasTanks project true false
        → map (low (law_of project (Full ∷ Full
        ∷ []) (record { from = 1; to = 2; kind = Tcv Linear; start = Open }) Open)) (neg_ℤ (pos 125) ∷ pos 0 ∷ pos 125
        ∷ [])
        ≡ neg_ℤ (pos 1003353) ∷ pos 0 ∷ pos 0 ∷ [] }
{}

/// Clauses on a pressure about the amount, which in pounds a square inch isn't a whole number of head ticks.
pub fn pressure_clauses()
    ensures pounds_less { (project : Project) (junction : Junction) (span : Span) (number : Decimal)
        → length project.junctions.list ≡ 1 → length project.reservoirs.list ≡ 0
        → slice_get project.junctions.list 0 ≡ Some junction → junction.elevation ≡ pos 40
        → project.options.unit ≡ Gpm → number.nano ≡ pos 1
        → map (λ head. holds_on project 1 0 (record {
          heads = head
              ∷ [];
          levels = [];
          flows = [];
          links = [];
        }) (Pressure 0) Less (Amount span number)) (pos 7074 ∷ pos 7075 ∷ []) ≡ true
        ∷ false ∷ [] }
    ensures pounds_notmore { (project : Project) (junction : Junction) (span : Span) (number : Decimal)
        → length project.junctions.list ≡ 1 → length project.reservoirs.list ≡ 0
        → slice_get project.junctions.list 0 ≡ Some junction → junction.elevation ≡ pos 40
        → project.options.unit ≡ Gpm → number.nano ≡ pos 1
        → map (λ head. holds_on project 1 0 (record {
          heads = head
              ∷ [];
          levels = [];
          flows = [];
          links = [];
        }) (Pressure 0) NotMore (Amount span number)) (pos 7074 ∷ pos 7075 ∷ []) ≡ true
        ∷ false ∷ [] }
    ensures pounds_more { (project : Project) (junction : Junction) (span : Span) (number : Decimal)
        → length project.junctions.list ≡ 1 → length project.reservoirs.list ≡ 0
        → slice_get project.junctions.list 0 ≡ Some junction → junction.elevation ≡ pos 40
        → project.options.unit ≡ Gpm → number.nano ≡ pos 1
        → map (λ head. holds_on project 1 0 (record {
          heads = head
              ∷ [];
          levels = [];
          flows = [];
          links = [];
        }) (Pressure 0) More (Amount span number)) (pos 7074 ∷ pos 7075 ∷ []) ≡ false
        ∷ true ∷ [] }
    ensures pounds_notless { (project : Project) (junction : Junction) (span : Span) (number : Decimal)
        → length project.junctions.list ≡ 1 → length project.reservoirs.list ≡ 0
        → slice_get project.junctions.list 0 ≡ Some junction → junction.elevation ≡ pos 40
        → project.options.unit ≡ Gpm → number.nano ≡ pos 1
        → map (λ head. holds_on project 1 0 (record {
          heads = head
              ∷ [];
          levels = [];
          flows = [];
          links = [];
        }) (Pressure 0) NotLess (Amount span number)) (pos 7074 ∷ pos 7075 ∷ []) ≡ false
        ∷ true ∷ [] }
    ensures pounds_below_less { (project : Project) (junction : Junction) (span : Span) (number : Decimal)
        → length project.junctions.list ≡ 1 → length project.reservoirs.list ≡ 0
        → slice_get project.junctions.list 0 ≡ Some junction → junction.elevation ≡ pos 40
        → project.options.unit ≡ Gpm → number.nano ≡ neg_ℤ (pos 1)
        → map (λ head. holds_on project 1 0 (record {
          heads = head
              ∷ [];
          levels = [];
          flows = [];
          links = [];
        }) (Pressure 0) Less (Amount span number)) (neg_ℤ (pos 6995) ∷ neg_ℤ (pos 6994)
        ∷ []) ≡ true ∷ false ∷ [] }
    ensures pounds_below_notmore { (project : Project) (junction : Junction) (span : Span) (number : Decimal)
        → length project.junctions.list ≡ 1 → length project.reservoirs.list ≡ 0
        → slice_get project.junctions.list 0 ≡ Some junction → junction.elevation ≡ pos 40
        → project.options.unit ≡ Gpm → number.nano ≡ neg_ℤ (pos 1)
        → map (λ head. holds_on project 1 0 (record {
          heads = head
              ∷ [];
          levels = [];
          flows = [];
          links = [];
        }) (Pressure 0) NotMore (Amount span number)) (neg_ℤ (pos 6995)
        ∷ neg_ℤ (pos 6994) ∷ []) ≡ true ∷ false ∷ [] }
    ensures pounds_below_more { (project : Project) (junction : Junction) (span : Span) (number : Decimal)
        → length project.junctions.list ≡ 1 → length project.reservoirs.list ≡ 0
        → slice_get project.junctions.list 0 ≡ Some junction → junction.elevation ≡ pos 40
        → project.options.unit ≡ Gpm → number.nano ≡ neg_ℤ (pos 1)
        → map (λ head. holds_on project 1 0 (record {
          heads = head
              ∷ [];
          levels = [];
          flows = [];
          links = [];
        }) (Pressure 0) More (Amount span number)) (neg_ℤ (pos 6995) ∷ neg_ℤ (pos 6994)
        ∷ []) ≡ false ∷ true ∷ [] }
    ensures pounds_below_notless { (project : Project) (junction : Junction) (span : Span) (number : Decimal)
        → length project.junctions.list ≡ 1 → length project.reservoirs.list ≡ 0
        → slice_get project.junctions.list 0 ≡ Some junction → junction.elevation ≡ pos 40
        → project.options.unit ≡ Gpm → number.nano ≡ neg_ℤ (pos 1)
        → map (λ head. holds_on project 1 0 (record {
          heads = head
              ∷ [];
          levels = [];
          flows = [];
          links = [];
        }) (Pressure 0) NotLess (Amount span number)) (neg_ℤ (pos 6995)
        ∷ neg_ℤ (pos 6994) ∷ []) ≡ false ∷ true ∷ [] }
    ensures metres_less { (project : Project) (junction : Junction) (span : Span) (number : Decimal)
        → length project.junctions.list ≡ 1 → length project.reservoirs.list ≡ 0
        → slice_get project.junctions.list 0 ≡ Some junction → junction.elevation ≡ pos 40
        → project.options.unit ≡ Cmd → number.nano ≡ pos 1
        → map (λ head. holds_on project 1 0 (record {
          heads = head
              ∷ [];
          levels = [];
          flows = [];
          links = [];
        }) (Pressure 0) Less (Amount span number)) (pos 10039 ∷ pos 10040 ∷ pos 10041
        ∷ []) ≡ true ∷ false ∷ false ∷ [] }
    ensures metres_notmore { (project : Project) (junction : Junction) (span : Span) (number : Decimal)
        → length project.junctions.list ≡ 1 → length project.reservoirs.list ≡ 0
        → slice_get project.junctions.list 0 ≡ Some junction → junction.elevation ≡ pos 40
        → project.options.unit ≡ Cmd → number.nano ≡ pos 1
        → map (λ head. holds_on project 1 0 (record {
          heads = head
              ∷ [];
          levels = [];
          flows = [];
          links = [];
        }) (Pressure 0) NotMore (Amount span number)) (pos 10039 ∷ pos 10040 ∷ pos 10041
        ∷ []) ≡ true ∷ true ∷ false ∷ [] }
    ensures metres_more { (project : Project) (junction : Junction) (span : Span) (number : Decimal)
        → length project.junctions.list ≡ 1 → length project.reservoirs.list ≡ 0
        → slice_get project.junctions.list 0 ≡ Some junction → junction.elevation ≡ pos 40
        → project.options.unit ≡ Cmd → number.nano ≡ pos 1
        → map (λ head. holds_on project 1 0 (record {
          heads = head
              ∷ [];
          levels = [];
          flows = [];
          links = [];
        }) (Pressure 0) More (Amount span number)) (pos 10039 ∷ pos 10040 ∷ pos 10041
        ∷ []) ≡ false ∷ false ∷ true ∷ [] }
    ensures metres_notless { (project : Project) (junction : Junction) (span : Span) (number : Decimal)
        → length project.junctions.list ≡ 1 → length project.reservoirs.list ≡ 0
        → slice_get project.junctions.list 0 ≡ Some junction → junction.elevation ≡ pos 40
        → project.options.unit ≡ Cmd → number.nano ≡ pos 1
        → map (λ head. holds_on project 1 0 (record {
          heads = head
              ∷ [];
          levels = [];
          flows = [];
          links = [];
        }) (Pressure 0) NotLess (Amount span number)) (pos 10039 ∷ pos 10040 ∷ pos 10041
        ∷ []) ≡ false ∷ true ∷ true ∷ [] }
{}

/// What clauses measure: heads, pressures, levels, flows and settings.
pub fn measures()
    ensures junction_head { (project : Project) → length project.junctions.list ≡ 1 → length project.reservoirs.list
        ≡ 1 → measured project 1 (record {
          heads = pos 90
              ∷ pos 100 ∷ [];
          levels = whole (pos 33) ∷ [];
          flows = 7 ∷ [];
          links = Speed (pos 900000000)
              ∷ [];
        }) (Head 0) ≡ whole (pos 90) }
    ensures reservoir_head { (project : Project) → length project.junctions.list ≡ 1 → length project.reservoirs.list
        ≡ 1 → measured project 1 (record {
          heads = pos 90
              ∷ pos 100 ∷ [];
          levels = whole (pos 33) ∷ [];
          flows = 7 ∷ [];
          links = Speed (pos 900000000)
              ∷ [];
        }) (Head 1) ≡ whole (pos 100) }
    ensures tank_head { (project : Project) (tank : Tank) → length project.junctions.list ≡ 1
        → length project.reservoirs.list ≡ 1 → slice_get project.tanks.list 0 ≡ Some tank → tank.bottom ≡ pos 20
        → measured project 1 (record {
          heads = pos 90
              ∷ pos 100 ∷ [];
          levels = whole (pos 33) ∷ [];
          flows = 7 ∷ [];
          links = Speed (pos 900000000)
              ∷ [];
        }) (Head 2) ≡ whole (pos 53) }
    ensures junction_pressure { (project : Project) (junction : Junction) → length project.junctions.list ≡ 1
        → length project.reservoirs.list ≡ 1 → slice_get project.junctions.list 0 ≡ Some junction
        → junction.elevation ≡ pos 40 → measured project 1 (record {
          heads = pos 90
              ∷ pos 100 ∷ [];
          levels = whole (pos 33) ∷ [];
          flows = 7 ∷ [];
          links = Speed (pos 900000000)
              ∷ [];
        }) (Pressure 0) ≡ whole (pos 50) }
    ensures tank_pressure { (project : Project) → length project.junctions.list ≡ 1 → length project.reservoirs.list
        ≡ 1 → measured project 1 (record {
          heads = pos 90
              ∷ pos 100 ∷ [];
          levels = whole (pos 33) ∷ [];
          flows = 7 ∷ [];
          links = Speed (pos 900000000)
              ∷ [];
        }) (Pressure 2) ≡ whole (pos 33) }
    ensures level { (project : Project) → measured project 1 (record {
      heads = pos 90 ∷ pos 100 ∷ [];
      levels = whole (pos 33) ∷ [];
      flows = 7
          ∷ [];
      links = Speed (pos 900000000) ∷ [];
    }) (Level 0)
        ≡ whole (pos 33) }
    ensures flow { (project : Project) → measured project 1 (record {
      heads = pos 90 ∷ pos 100 ∷ [];
      levels = whole (pos 33) ∷ [];
      flows = 7
          ∷ [];
      links = Speed (pos 900000000) ∷ [];
    }) (Flow 0)
        ≡ whole (pos 7) }
    ensures setting { (project : Project) → measured project 1 (record {
      heads = pos 90 ∷ pos 100 ∷ [];
      levels = whole (pos 33) ∷ [];
      flows = 7
          ∷ [];
      links = Speed (pos 900000000) ∷ [];
    }) (Setting 0)
        ≡ whole (pos 900000000) }
{}
