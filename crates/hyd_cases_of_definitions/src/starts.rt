//! The start of a period: pump patterns and simple controls.
#![tactic(auto)]

ghost use Rattle.std.specs.Prelude.{◌≡◌, pos, neg_ℤ, true, false, List, [], ◌∷◌, map, Some, None};
ghost use Rattle.hyd_spec.specs.ProgramTypes.{Project, Capacity, ShutoffHead, Control, PumpLink, Tcv, Linear, Open};
ghost use Rattle.hyd_spec.specs.ProgramTypes.{Closed};
ghost use Rattle.hyd_spec.specs.ProgramTypes.{Speed, AtLevel, AtTime, AtClock};
ghost use Rattle.hyd_spec.specs.DemandsHeadsAndPumpLifts.{multipliers_of};
ghost use Rattle.hyd_spec.specs.PumpPatternsAndSimpleControls.{clock_at, speed_state, is_pattern_boundary, patterned};
ghost use Rattle.hyd_spec.specs.PumpPatternsAndSimpleControls.{controlled};
ghost use Rattle.hyd_spec.specs.declared.Source.TheVariants.{Control as ByControl};
ghost use Rattle.hyd_spec_certificates.specs.declared.Verdict.TheVariants.{Yes, No, Unknown};
ghost use Rattle.hyd_spec_certificates.specs.Decided.{control_truth, acts_on};
ghost use Rattle.hyd_spec_certificates.specs.PrintedIntervals.{is_report_time};
ghost use Rattle.hyd_spec_certificates.specs.ChangesAtStart.{control_changes};
ghost use Rattle.hyd_num.specs.declared.spans.Span.{Span};

/// A pump at speed 0 or below is closed.
pub fn speeds()
    ensures { map speed_state (pos 1000000000 ∷ pos 1 ∷ pos 0 ∷ neg_ℤ (pos 5) ∷ [])
        ≡ Speed (pos 1000000000) ∷ Speed (pos 1) ∷ Closed ∷ Closed ∷ [] }
{}

/// Where a step of hourly patterns that start half an hour in begins.
pub fn boundaries()
    ensures { (project : Project) → project.times.pattern ≡ 3600 → project.times.pattern_start ≡ 1800
        → map (is_pattern_boundary project) (0 ∷ 1 ∷ 1799 ∷ 1800 ∷ 3600 ∷ 5400 ∷ 5401 ∷ []) ≡ true ∷ false ∷ false
        ∷ true ∷ false
        ∷ true ∷ false ∷ [] }
{}

/// Report times every hour from half an hour on.
pub fn report_times()
    ensures { (project : Project) → project.times.report ≡ 3600 → project.times.report_start ≡ 1800
        → map (is_report_time project) (0 ∷ 1 ∷ 1799 ∷ 1800 ∷ 3600 ∷ 5400 ∷ 5401 ∷ []) ≡ false ∷ false ∷ false ∷ true
        ∷ false ∷ true
        ∷ false ∷ [] }
{}

/// What the clock of a run that starts at 23:00 shows.
pub fn clocks()
    ensures { (project : Project) → project.times.start_clock ≡ 82800
        → map (clock_at project) (0 ∷ 3599 ∷ 3600 ∷ 3601 ∷ 90000 ∷ []) ≡ 82800 ∷ 86399 ∷ 0 ∷ 1 ∷ 0 ∷ [] }
{}

/// A pump with a pattern takes its multiplier where a step begins; other links stay as they are.
pub fn patterns()
    ensures { (project : Project) (capacity : Capacity) (head : ShutoffHead) (shutoff : Span)
        → project.links.list ≡ (record {
          from = 0;
          to = 1;
          kind = PumpLink capacity shutoff head (Some 0);
          start = Closed;
        })
        ∷ (record { from = 0; to = 1; kind = PumpLink capacity shutoff head None; start = Closed })
        ∷ (record { from = 0; to = 1; kind = Tcv Linear; start = Open }) ∷ []
        → multipliers_of project 0 ≡ pos 1000000000 ∷ pos 0 ∷ pos 1200000000
        ∷ [] → project.times.pattern ≡ 3600 → project.times.pattern_start ≡ 1800
        → map (λ time. patterned project time (Open ∷ Speed (pos 500000000) ∷ Open ∷ [])) (0 ∷ 1 ∷ 1800 ∷ 5400 ∷ 7000
        ∷ 9000 ∷ [])
        ≡ (Speed (pos 1000000000) ∷ Speed (pos 500000000) ∷ Open ∷ []) ∷ (Open ∷ Speed (pos 500000000) ∷ Open ∷ [])
        ∷ (Closed
        ∷ Speed (pos 500000000) ∷ Open ∷ []) ∷ (Speed (pos 1200000000) ∷ Speed (pos 500000000) ∷ Open ∷ []) ∷ (Open
        ∷ Speed (pos 500000000) ∷ Open ∷ []) ∷ (Speed (pos 1000000000) ∷ Speed (pos 500000000) ∷ Open ∷ []) ∷ [] }
{}

/// Controls by time, by the clock and by level, carried out in order, a later one overriding: the states after them.
pub fn controls()
    ensures { (project : Project) → project.controls.list ≡ (record { link = 0; to = Closed; when = AtTime 7200 })
        ∷ (record { link = 0; to = Speed (pos 900000000); when = AtLevel 0 false (pos 50) })
        ∷ (record { link = 1; to = Closed; when = AtClock 3600 })
        ∷ (record { link = 0; to = Open; when = AtLevel 0 true (pos 90) }) ∷ (record {
          link = 1;
          to = Open;
          when = AtTime 7200;
        })
        ∷ []
        → project.times.start_clock ≡ 82800
        → controlled project 7200 (acts_on ((record { lo = pos 40; hi = pos 45 }) ∷ [])) (Open ∷ Open ∷ [])
        ∷ controlled project 7200 (acts_on ((record { lo = pos 95; hi = pos 99 }) ∷ [])) (Open ∷ Open ∷ [])
        ∷ controlled project 7201 (acts_on ((record { lo = pos 50; hi = pos 50 }) ∷ [])) (Open ∷ Open ∷ [])
        ∷ controlled project 7200 (acts_on ((record { lo = pos 51; hi = pos 89 }) ∷ [])) (Open ∷ Open ∷ [])
        ∷ controlled project 7201 (acts_on ((record { lo = pos 90; hi = pos 90 }) ∷ [])) (Open ∷ Open ∷ []) ∷ []
        ≡ (Speed (pos 900000000) ∷ Open ∷ []) ∷ (Open ∷ Open ∷ []) ∷ (Speed (pos 900000000) ∷ Open ∷ [])
        ∷ (Closed ∷ Open ∷ []) ∷ (Open
        ∷ Open ∷ []) ∷ [] }
{}

/// What the same controls change: each that acts and whose state differs from the link's at that moment.
pub fn changes()
    ensures { (project : Project) (controls : List Control) → controls ≡ (record {
      link = 0;
      to = Closed;
      when = AtTime 7200;
    })
        ∷ (record { link = 0; to = Speed (pos 900000000); when = AtLevel 0 false (pos 50) })
        ∷ (record { link = 1; to = Closed; when = AtClock 3600 })
        ∷ (record { link = 0; to = Open; when = AtLevel 0 true (pos 90) }) ∷ (record {
          link = 1;
          to = Open;
          when = AtTime 7200;
        })
        ∷ []
        → project.times.start_clock ≡ 82800
        → control_changes project 7200 (acts_on ((record {
          lo = pos 40;
          hi = pos 45;
        }) ∷ [])) 0 controls (Open ∷ Open ∷ [])
        ∷ control_changes project 7200 (acts_on ((record {
          lo = pos 95;
          hi = pos 99;
        }) ∷ [])) 0 controls (Open ∷ Open ∷ [])
        ∷ control_changes project 7201 (acts_on ((record {
          lo = pos 50;
          hi = pos 50;
        }) ∷ [])) 0 controls (Open ∷ Open ∷ [])
        ∷ control_changes project 7200 (acts_on ((record {
          lo = pos 51;
          hi = pos 89;
        }) ∷ [])) 0 controls (Open ∷ Open ∷ [])
        ∷ control_changes project 7201 (acts_on ((record {
          lo = pos 90;
          hi = pos 90;
        }) ∷ [])) 0 controls (Open ∷ Open ∷ []) ∷ []
        ≡ ((record { source = ByControl 0; link = 0; to = Closed }) ∷ (record {
          source = ByControl 1;
          link = 0;
          to = Speed (pos 900000000);
        })
        ∷ (record { source = ByControl 2; link = 1; to = Closed }) ∷ (record {
          source = ByControl 4;
          link = 1;
          to = Open;
        }) ∷ [])
        ∷ ((record { source = ByControl 0; link = 0; to = Closed }) ∷ (record {
          source = ByControl 2;
          link = 1;
          to = Closed;
        })
        ∷ (record { source = ByControl 3; link = 0; to = Open }) ∷ (record {
          source = ByControl 4;
          link = 1;
          to = Open;
        }) ∷ [])
        ∷ ((record { source = ByControl 1; link = 0; to = Speed (pos 900000000) }) ∷ []) ∷ ((record {
          source = ByControl 0;
          link = 0;
          to = Closed;
        })
        ∷ (record { source = ByControl 2; link = 1; to = Closed }) ∷ (record {
          source = ByControl 4;
          link = 1;
          to = Open;
        }) ∷ []) ∷ ([]) ∷ [] }
{}

/// A level control on a level interval: it acts at all levels, at none, or it is open.
pub fn level_controls()
    ensures above { map (λ level. control_truth level true (pos 50)) ((record {
      lo = pos 40;
      hi = pos 49;
    }) ∷ (record { lo = pos 40; hi = pos 50 })
        ∷ (record { lo = pos 50; hi = pos 50 }) ∷ (record { lo = pos 50; hi = pos 51 }) ∷ (record {
          lo = pos 51;
          hi = pos 60;
        })
        ∷ (record { lo = pos 49; hi = pos 51 }) ∷ [])
        ≡ No ∷ Unknown ∷ Yes ∷ Yes ∷ Yes ∷ Unknown ∷ [] }
    ensures below { map (λ level. control_truth level false (pos 50)) ((record {
      lo = pos 40;
      hi = pos 49;
    }) ∷ (record { lo = pos 40; hi = pos 50 })
        ∷ (record { lo = pos 50; hi = pos 50 }) ∷ (record { lo = pos 50; hi = pos 51 }) ∷ (record {
          lo = pos 51;
          hi = pos 60;
        })
        ∷ (record { lo = pos 49; hi = pos 51 }) ∷ [])
        ≡ Yes ∷ Yes ∷ Yes ∷ Unknown ∷ No ∷ Unknown ∷ [] }
{}
