//! Rules: clauses, premises, ranks and changes.
#![tactic(auto)]

ghost use Rattle.std.specs.Prelude.{◌≡◌, pos, neg_ℤ, true, false, [], ◌∷◌, map, Some, None};
ghost use Rattle.hyd_num.specs.Rational.{whole};
ghost use Rattle.hyd_num.specs.declared.spans.Span.{Span};
ghost use Rattle.hyd_spec.specs.ProgramTypes.{Project, Decimal, Rule, Clause, And, Or, Less, NotMore, More, NotLess};
ghost use Rattle.hyd_spec.specs.ProgramTypes.{Equal};
ghost use Rattle.hyd_spec.specs.ProgramTypes.{Unequal, Time, Clock, Amount, ValueOpen, ValueClosed, ValueActive};
ghost use Rattle.hyd_spec.specs.ProgramTypes.{Linear, Open};
ghost use Rattle.hyd_spec.specs.ProgramTypes.{Closed, Speed, Throttle, Limit};
ghost use Rattle.hyd_spec.specs.declared.Source.TheVariants.{Rule as ByRule};
ghost use Rattle.hyd_spec_certificates.specs.declared.Verdict.TheVariants.{Yes, No, Unknown};
ghost use Rattle.hyd_spec_certificates.specs.ThreeValuedLogic.{at_both_ends, some_holds, all_hold};
ghost use Rattle.hyd_spec.specs.Rules.{IsOpen, IsClosed, IsActive, state_word, setting_of, is_same_state, compares};
ghost use Rattle.hyd_spec.specs.Rules.{status_holds, holds_on, Readings, parts_of, groups_in, is_above, rule_changes};
ghost use Rattle.hyd_spec.specs.Rules.{acted};
ghost use Rattle.hyd_spec_certificates.specs.Decided.{least_magnitude, greatest_magnitude};

/// The word and the setting of a commanded state.
pub fn words()
    ensures words { map state_word (Open ∷ Closed ∷ Speed (pos 1200000000) ∷ Speed (pos 1000000000)
        ∷ Throttle (pos 5) Linear ∷ Throttle (pos 6) Linear
        ∷ Limit (pos 5) (pos 7) ∷ Limit (pos 6) (pos 7) ∷ [])
        ≡ IsOpen ∷ IsClosed ∷ IsOpen ∷ IsOpen ∷ IsActive ∷ IsActive ∷ IsActive ∷ IsActive ∷ [] }
    ensures settings { map setting_of (Open ∷ Closed ∷ Speed (pos 1200000000) ∷ Speed (pos 1000000000)
        ∷ Throttle (pos 5) Linear ∷ Throttle (pos 6) Linear
        ∷ Limit (pos 5) (pos 7) ∷ Limit (pos 6) (pos 7) ∷ [])
        ≡ pos 0 ∷ pos 0 ∷ pos 1200000000 ∷ pos 1000000000 ∷ pos 5 ∷ pos 6 ∷ pos 5 ∷ pos 6 ∷ [] }
{}

/// Which commanded states are the same.
pub fn same()
    ensures open { map (is_same_state (Open)) (Open ∷ Closed ∷ Speed (pos 1200000000) ∷ Speed (pos 1000000000)
        ∷ Throttle (pos 5) Linear
        ∷ Throttle (pos 6) Linear ∷ Limit (pos 5) (pos 7) ∷ Limit (pos 6) (pos 7) ∷ [])
        ≡ true ∷ false ∷ false ∷ false ∷ false ∷ false ∷ false ∷ false ∷ [] }
    ensures closed { map (is_same_state (Closed)) (Open ∷ Closed ∷ Speed (pos 1200000000) ∷ Speed (pos 1000000000)
        ∷ Throttle (pos 5) Linear
        ∷ Throttle (pos 6) Linear ∷ Limit (pos 5) (pos 7) ∷ Limit (pos 6) (pos 7) ∷ [])
        ≡ false ∷ true ∷ false ∷ false ∷ false ∷ false ∷ false ∷ false ∷ [] }
    ensures speed { map (is_same_state (Speed (pos 1000000000))) (Open ∷ Closed ∷ Speed (pos 1200000000)
        ∷ Speed (pos 1000000000) ∷ Throttle (pos 5) Linear
        ∷ Throttle (pos 6) Linear ∷ Limit (pos 5) (pos 7) ∷ Limit (pos 6) (pos 7) ∷ [])
        ≡ false ∷ false ∷ false ∷ true ∷ false ∷ false ∷ false ∷ false ∷ [] }
    ensures throttle { map (is_same_state (Throttle (pos 6) Linear)) (Open ∷ Closed ∷ Speed (pos 1200000000)
        ∷ Speed (pos 1000000000)
        ∷ Throttle (pos 5) Linear ∷ Throttle (pos 6) Linear ∷ Limit (pos 5) (pos 7) ∷ Limit (pos 6) (pos 7) ∷ [])
        ≡ false ∷ false ∷ false ∷ false ∷ false ∷ true ∷ false ∷ false ∷ [] }
    ensures limit { map (is_same_state (Limit (pos 5) (pos 7))) (Open ∷ Closed ∷ Speed (pos 1200000000)
        ∷ Speed (pos 1000000000) ∷ Throttle (pos 5) Linear
        ∷ Throttle (pos 6) Linear ∷ Limit (pos 5) (pos 7) ∷ Limit (pos 6) (pos 7) ∷ [])
        ≡ false ∷ false ∷ false ∷ false ∷ false ∷ false ∷ true ∷ false ∷ [] }
{}

/// Comparisons with 17/2 and with 8.
pub fn comparisons()
    ensures less { map (λ x. compares Less (whole x) (record {
      num = pos 17;
      den = 2;
    })) (pos 8 ∷ pos 9 ∷ neg_ℤ (pos 9) ∷ [])
        ≡ true ∷ false ∷ true ∷ [] }
    ensures notmore { map (λ x. compares NotMore (whole x) (record {
      num = pos 17;
      den = 2;
    })) (pos 8 ∷ pos 9 ∷ neg_ℤ (pos 9) ∷ [])
        ≡ true ∷ false ∷ true ∷ [] }
    ensures more { map (λ x. compares More (whole x) (record {
      num = pos 17;
      den = 2;
    })) (pos 8 ∷ pos 9 ∷ neg_ℤ (pos 9) ∷ [])
        ≡ false ∷ true ∷ false ∷ [] }
    ensures notless { map (λ x. compares NotLess (whole x) (record {
      num = pos 17;
      den = 2;
    })) (pos 8 ∷ pos 9 ∷ neg_ℤ (pos 9) ∷ [])
        ≡ false ∷ true ∷ false ∷ [] }
    ensures less_whole { map (λ x. compares Less (whole x) (whole (pos 8))) (pos 7 ∷ pos 8 ∷ pos 9 ∷ []) ≡ true
        ∷ false ∷ false ∷ [] }
    ensures notmore_whole { map (λ x. compares NotMore (whole x) (whole (pos 8))) (pos 7 ∷ pos 8 ∷ pos 9 ∷ []) ≡ true
        ∷ true ∷ false ∷ [] }
    ensures more_whole { map (λ x. compares More (whole x) (whole (pos 8))) (pos 7 ∷ pos 8 ∷ pos 9 ∷ []) ≡ false
        ∷ false ∷ true ∷ [] }
    ensures notless_whole { map (λ x. compares NotLess (whole x) (whole (pos 8))) (pos 7 ∷ pos 8 ∷ pos 9 ∷ []) ≡ false
        ∷ true ∷ true ∷ [] }
{}

/// Status clauses on an open, a closed, a running and a throttled link.
pub fn statuses()
    ensures equal_open { map (λ state. status_holds Equal (state_word state) ValueOpen)
        (Open ∷ Closed ∷ Speed (pos 1200000000) ∷ Speed (pos 1000000000)
        ∷ Throttle (pos 5) Linear ∷ [])
        ≡ true ∷ false ∷ true ∷ true ∷ false ∷ [] }
    ensures equal_closed { map (λ state. status_holds Equal (state_word state) ValueClosed)
        (Open ∷ Closed ∷ Speed (pos 1200000000) ∷ Speed (pos 1000000000)
        ∷ Throttle (pos 5) Linear ∷ [])
        ≡ false ∷ true ∷ false ∷ false ∷ false ∷ [] }
    ensures equal_active { map (λ state. status_holds Equal (state_word state) ValueActive)
        (Open ∷ Closed ∷ Speed (pos 1200000000) ∷ Speed (pos 1000000000)
        ∷ Throttle (pos 5) Linear ∷ [])
        ≡ false ∷ false ∷ false ∷ false ∷ true ∷ [] }
    ensures unequal_open { map (λ state. status_holds Unequal (state_word state) ValueOpen)
        (Open ∷ Closed ∷ Speed (pos 1200000000) ∷ Speed (pos 1000000000)
        ∷ Throttle (pos 5) Linear ∷ [])
        ≡ false ∷ true ∷ false ∷ false ∷ true ∷ [] }
    ensures unequal_closed { map (λ state. status_holds Unequal (state_word state) ValueClosed)
        (Open ∷ Closed ∷ Speed (pos 1200000000) ∷ Speed (pos 1000000000)
        ∷ Throttle (pos 5) Linear ∷ [])
        ≡ true ∷ false ∷ true ∷ true ∷ true ∷ [] }
    ensures unequal_active { map (λ state. status_holds Unequal (state_word state) ValueActive)
        (Open ∷ Closed ∷ Speed (pos 1200000000) ∷ Speed (pos 1000000000)
        ∷ Throttle (pos 5) Linear ∷ [])
        ≡ true ∷ true ∷ true ∷ true ∷ false ∷ [] }
{}

/// Clauses on the time, with a rule step of six minutes: it is equal to 2:00 at the first instant from then on.
pub fn times()
    ensures less { (project : Project) (readings : Readings) (span : Span) (number : Decimal)
        → project.times.rule ≡ 360 → span.lo ≡ pos 7200
        → map (λ time. holds_on project 1 time readings Time Less (Amount span number)) (6840 ∷ 7199 ∷ 7200 ∷ 7201
        ∷ 7559 ∷ 7560
        ∷ []) ≡ true ∷ true ∷ false ∷ false ∷ false ∷ false ∷ [] }
    ensures notmore { (project : Project) (readings : Readings) (span : Span) (number : Decimal)
        → project.times.rule ≡ 360 → span.lo ≡ pos 7200
        → map (λ time. holds_on project 1 time readings Time NotMore (Amount span number)) (6840 ∷ 7199 ∷ 7200 ∷ 7201
        ∷ 7559 ∷ 7560
        ∷ []) ≡ true ∷ true ∷ true ∷ false ∷ false ∷ false ∷ [] }
    ensures more { (project : Project) (readings : Readings) (span : Span) (number : Decimal)
        → project.times.rule ≡ 360 → span.lo ≡ pos 7200
        → map (λ time. holds_on project 1 time readings Time More (Amount span number)) (6840 ∷ 7199 ∷ 7200 ∷ 7201
        ∷ 7559 ∷ 7560
        ∷ []) ≡ false ∷ false ∷ false ∷ true ∷ true ∷ true ∷ [] }
    ensures notless { (project : Project) (readings : Readings) (span : Span) (number : Decimal)
        → project.times.rule ≡ 360 → span.lo ≡ pos 7200
        → map (λ time. holds_on project 1 time readings Time NotLess (Amount span number)) (6840 ∷ 7199 ∷ 7200 ∷ 7201
        ∷ 7559 ∷ 7560
        ∷ []) ≡ false ∷ false ∷ true ∷ true ∷ true ∷ true ∷ [] }
    ensures equal { (project : Project) (readings : Readings) (span : Span) (number : Decimal)
        → project.times.rule ≡ 360 → span.lo ≡ pos 7200
        → map (λ time. holds_on project 1 time readings Time Equal (Amount span number)) (6840 ∷ 7199 ∷ 7200 ∷ 7201
        ∷ 7559 ∷ 7560
        ∷ []) ≡ false ∷ false ∷ true ∷ true ∷ true ∷ false ∷ [] }
    ensures unequal { (project : Project) (readings : Readings) (span : Span) (number : Decimal)
        → project.times.rule ≡ 360 → span.lo ≡ pos 7200
        → map (λ time. holds_on project 1 time readings Time Unequal (Amount span number)) (6840 ∷ 7199 ∷ 7200 ∷ 7201
        ∷ 7559 ∷ 7560
        ∷ []) ≡ true ∷ true ∷ false ∷ false ∷ false ∷ true ∷ [] }
{}

/// Clauses on the clock of a run that starts at 23:00: it is equal to 0:00:10 after midnight, and to 23:59:50 across
/// it.
pub fn clock_times()
    ensures less_after { (project : Project) (readings : Readings) (span : Span) (number : Decimal)
        → project.times.rule ≡ 360 → project.times.start_clock ≡ 82800 → span.lo ≡ pos 10
        → map (λ time. holds_on project 1 time readings Clock Less (Amount span number)) (3599 ∷ 3600 ∷ 3601 ∷ 3650
        ∷ 3969 ∷ 3970
        ∷ 4019 ∷ 4020 ∷ []) ≡ false ∷ true ∷ true ∷ false ∷ false ∷ false ∷ false ∷ false ∷ [] }
    ensures less_across { (project : Project) (readings : Readings) (span : Span) (number : Decimal)
        → project.times.rule ≡ 360 → project.times.start_clock ≡ 82800 → span.lo ≡ pos 86390
        → map (λ time. holds_on project 1 time readings Clock Less (Amount span number)) (3599 ∷ 3600 ∷ 3601 ∷ 3650
        ∷ 3969 ∷ 3970
        ∷ 4019 ∷ 4020 ∷ []) ≡ false ∷ true ∷ true ∷ true ∷ true ∷ true ∷ true ∷ true ∷ [] }
    ensures notmore_after { (project : Project) (readings : Readings) (span : Span) (number : Decimal)
        → project.times.rule ≡ 360 → project.times.start_clock ≡ 82800 → span.lo ≡ pos 10
        → map (λ time. holds_on project 1 time readings Clock NotMore (Amount span number)) (3599 ∷ 3600 ∷ 3601 ∷ 3650
        ∷ 3969 ∷ 3970
        ∷ 4019 ∷ 4020 ∷ []) ≡ false ∷ true ∷ true ∷ false ∷ false ∷ false ∷ false ∷ false ∷ [] }
    ensures more_after { (project : Project) (readings : Readings) (span : Span) (number : Decimal)
        → project.times.rule ≡ 360 → project.times.start_clock ≡ 82800 → span.lo ≡ pos 10
        → map (λ time. holds_on project 1 time readings Clock More (Amount span number)) (3599 ∷ 3600 ∷ 3601 ∷ 3650
        ∷ 3969 ∷ 3970
        ∷ 4019 ∷ 4020 ∷ []) ≡ true ∷ false ∷ false ∷ true ∷ true ∷ true ∷ true ∷ true ∷ [] }
    ensures notless_after { (project : Project) (readings : Readings) (span : Span) (number : Decimal)
        → project.times.rule ≡ 360 → project.times.start_clock ≡ 82800 → span.lo ≡ pos 10
        → map (λ time. holds_on project 1 time readings Clock NotLess (Amount span number)) (3599 ∷ 3600 ∷ 3601 ∷ 3650
        ∷ 3969 ∷ 3970
        ∷ 4019 ∷ 4020 ∷ []) ≡ true ∷ false ∷ false ∷ true ∷ true ∷ true ∷ true ∷ true ∷ [] }
    ensures equal_after { (project : Project) (readings : Readings) (span : Span) (number : Decimal)
        → project.times.rule ≡ 360 → project.times.start_clock ≡ 82800 → span.lo ≡ pos 10
        → map (λ time. holds_on project 1 time readings Clock Equal (Amount span number)) (3599 ∷ 3600 ∷ 3601 ∷ 3650
        ∷ 3969 ∷ 3970
        ∷ 4019 ∷ 4020 ∷ []) ≡ false ∷ false ∷ false ∷ true ∷ true ∷ false ∷ false ∷ false ∷ [] }
    ensures equal_across { (project : Project) (readings : Readings) (span : Span) (number : Decimal)
        → project.times.rule ≡ 360 → project.times.start_clock ≡ 82800 → span.lo ≡ pos 86390
        → map (λ time. holds_on project 1 time readings Clock Equal (Amount span number)) (3599 ∷ 3600 ∷ 3601 ∷ 3650
        ∷ 3969 ∷ 3970
        ∷ 4019 ∷ 4020 ∷ []) ≡ true ∷ true ∷ true ∷ true ∷ false ∷ false ∷ false ∷ false ∷ [] }
    ensures unequal_after { (project : Project) (readings : Readings) (span : Span) (number : Decimal)
        → project.times.rule ≡ 360 → project.times.start_clock ≡ 82800 → span.lo ≡ pos 10
        → map (λ time. holds_on project 1 time readings Clock Unequal (Amount span number)) (3599 ∷ 3600 ∷ 3601 ∷ 3650
        ∷ 3969 ∷ 3970
        ∷ 4019 ∷ 4020 ∷ []) ≡ true ∷ true ∷ true ∷ false ∷ false ∷ true ∷ true ∷ true ∷ [] }
{}

/// OR binds tighter than AND, and the first clause begins a group however it is joined.
pub fn premises()
    ensures { (a b c d e : Clause) → groups_in (parts_of ((record {
      joined = Or;
      clause = a;
    }) ∷ (record { joined = Or; clause = b })
        ∷ (record { joined = And; clause = c })
        ∷ (record { joined = And; clause = d }) ∷ (record { joined = Or; clause = e }) ∷ []))
        ≡ (a ∷ b ∷ []) ∷ (c ∷ []) ∷ (d ∷ e ∷ []) ∷ [] }
{}

/// Verdict in three values: what is so at both ends, of some clauses, and of all groups.
pub fn truths()
    ensures ends { map (at_both_ends true) (true ∷ false ∷ []) ≡ Yes ∷ Unknown ∷ [] }
    ensures other_ends { map (at_both_ends false) (true ∷ false ∷ []) ≡ Unknown ∷ No ∷ [] }
    ensures some { map some_holds (([]) ∷ (Yes ∷ []) ∷ (No ∷ []) ∷ (Unknown ∷ []) ∷ (No ∷ Unknown ∷ [])
        ∷ (Unknown ∷ Yes ∷ []) ∷ (No ∷ No ∷ []) ∷ (Unknown
        ∷ Unknown ∷ No ∷ []) ∷ (No ∷ Yes ∷ Unknown ∷ []) ∷ [])
        ≡ No ∷ Yes ∷ No ∷ Unknown ∷ Unknown ∷ Yes ∷ No ∷ Unknown ∷ Yes ∷ [] }
    ensures all { map all_hold (([]) ∷ (Yes ∷ []) ∷ (No ∷ []) ∷ (Unknown ∷ []) ∷ (No ∷ Unknown ∷ [])
        ∷ (Unknown ∷ Yes ∷ []) ∷ (No ∷ No ∷ []) ∷ (Unknown
        ∷ Unknown ∷ No ∷ []) ∷ (No ∷ Yes ∷ Unknown ∷ []) ∷ [])
        ≡ Yes ∷ Yes ∷ No ∷ Unknown ∷ No ∷ Unknown ∷ No ∷ No ∷ No ∷ [] }
{}

/// The least and the greatest magnitude of the numbers of an interval.
pub fn magnitudes()
    ensures least { map least_magnitude ((record {
      lo = neg_ℤ (pos 5);
      hi = neg_ℤ (pos 2);
    }) ∷ (record { lo = neg_ℤ (pos 5); hi = pos 0 })
        ∷ (record { lo = neg_ℤ (pos 5); hi = pos 3 }) ∷ (record { lo = neg_ℤ (pos 3); hi = pos 5 })
        ∷ (record { lo = pos 0; hi = pos 5 }) ∷ (record { lo = pos 2; hi = pos 5 }) ∷ (record {
          lo = pos 0;
          hi = pos 0;
        }) ∷ [])
        ≡ 2 ∷ 0 ∷ 0 ∷ 0 ∷ 0 ∷ 2 ∷ 0 ∷ [] }
    ensures greatest { map greatest_magnitude ((record {
      lo = neg_ℤ (pos 5);
      hi = neg_ℤ (pos 2);
    }) ∷ (record { lo = neg_ℤ (pos 5); hi = pos 0 })
        ∷ (record { lo = neg_ℤ (pos 5); hi = pos 3 }) ∷ (record { lo = neg_ℤ (pos 3); hi = pos 5 })
        ∷ (record { lo = pos 0; hi = pos 5 }) ∷ (record { lo = pos 2; hi = pos 5 }) ∷ (record {
          lo = pos 0;
          hi = pos 0;
        }) ∷ [])
        ≡ 5 ∷ 5 ∷ 5 ∷ 5 ∷ 5 ∷ 5 ∷ 0 ∷ [] }
{}

/// Which priorities are above which.
pub fn ranks()
    ensures none { map (is_above None) (None ∷ (Some (pos 0)) ∷ (Some (neg_ℤ (pos 5))) ∷ (Some (pos 7)) ∷ [])
        ≡ false ∷ false ∷ false ∷ false ∷ [] }
    ensures negative { map (is_above (Some (neg_ℤ (pos 5)))) (None ∷ (Some (pos 0)) ∷ (Some (neg_ℤ (pos 5)))
        ∷ (Some (pos 7)) ∷ [])
        ≡ true ∷ false ∷ false ∷ false ∷ [] }
    ensures nothing { map (is_above (Some (pos 0))) (None ∷ (Some (pos 0)) ∷ (Some (neg_ℤ (pos 5))) ∷ (Some (pos 7))
        ∷ [])
        ≡ true ∷ false ∷ true ∷ false ∷ [] }
    ensures seven { map (is_above (Some (pos 7))) (None ∷ (Some (pos 0)) ∷ (Some (neg_ℤ (pos 5))) ∷ (Some (pos 7)) ∷ [])
        ≡ true ∷ true ∷ true ∷ false ∷ [] }
{}

/// What three rules change, two of equal priority and one without: of the offers to a link the one of highest rank
/// acts, of equal ranks the earliest. A link that already is in the state isn't changed.
pub fn changes()
    ensures changes { (project : Project) (a b c : Rule) → project.rules.list ≡ a ∷ b ∷ c ∷ []
        → a.priority ≡ None → b.priority ≡ Some (pos 5) → c.priority ≡ Some (pos 5)
        → a.yes.list ≡ (record { link = 0; to = Closed }) ∷ (record { link = 1; to = Speed (pos 1000000000) }) ∷ []
        → a.no.list ≡ (record { link = 0; to = Open }) ∷ []
        → b.yes.list ≡ (record { link = 0; to = Speed (pos 700000000) }) ∷ (record { link = 1; to = Closed }) ∷ []
        → b.no.list ≡ (record { link = 1; to = Open }) ∷ (record { link = 1; to = Closed }) ∷ []
        → c.yes.list ≡ (record { link = 0; to = Closed }) ∷ (record { link = 2; to = Closed }) ∷ []
        → c.no.list ≡ []
        → map (λ values. rule_changes project values (Open ∷ Speed (pos 1000000000) ∷ Closed ∷ []))
        ((true ∷ true ∷ true ∷ []) ∷ (true
        ∷ false ∷ true ∷ []) ∷ (false ∷ false ∷ false ∷ []) ∷ (false ∷ true ∷ true ∷ []) ∷ (true ∷ false ∷ false ∷ [])
        ∷ [])
        ≡ ((record { source = ByRule 1; link = 0; to = Speed (pos 700000000) }) ∷ (record {
          source = ByRule 1;
          link = 1;
          to = Closed;
        }) ∷ [])
        ∷ ((record { source = ByRule 2; link = 0; to = Closed }) ∷ (record {
          source = ByRule 1;
          link = 1;
          to = Open;
        }) ∷ [])
        ∷ ((record { source = ByRule 1; link = 1; to = Open }) ∷ []) ∷ ((record {
          source = ByRule 1;
          link = 0;
          to = Speed (pos 700000000);
        })
        ∷ (record { source = ByRule 1; link = 1; to = Closed }) ∷ []) ∷ ((record {
          source = ByRule 0;
          link = 0;
          to = Closed;
        })
        ∷ (record { source = ByRule 1; link = 1; to = Open }) ∷ []) ∷ [] }
    ensures acted { (project : Project) (a b c : Rule) → project.rules.list ≡ a ∷ b ∷ c ∷ []
        → a.priority ≡ None → b.priority ≡ Some (pos 5) → c.priority ≡ Some (pos 5)
        → a.yes.list ≡ (record { link = 0; to = Closed }) ∷ (record { link = 1; to = Speed (pos 1000000000) }) ∷ []
        → a.no.list ≡ (record { link = 0; to = Open }) ∷ []
        → b.yes.list ≡ (record { link = 0; to = Speed (pos 700000000) }) ∷ (record { link = 1; to = Closed }) ∷ []
        → b.no.list ≡ (record { link = 1; to = Open }) ∷ (record { link = 1; to = Closed }) ∷ []
        → c.yes.list ≡ (record { link = 0; to = Closed }) ∷ (record { link = 2; to = Closed }) ∷ []
        → c.no.list ≡ []
        → map (λ values. acted project values (Open ∷ Speed (pos 1000000000) ∷ Closed ∷ []))
        ((true ∷ true ∷ true ∷ []) ∷ (true ∷ false
        ∷ true ∷ []) ∷ (false ∷ false ∷ false ∷ []) ∷ (false ∷ true ∷ true ∷ []) ∷ (true ∷ false ∷ false ∷ []) ∷ [])
        ≡ (Speed (pos 700000000) ∷ Closed ∷ Closed ∷ []) ∷ (Closed ∷ Open ∷ Closed ∷ []) ∷ (Open ∷ Open ∷ Closed ∷ [])
        ∷ (Speed (pos 700000000) ∷ Closed ∷ Closed ∷ []) ∷ (Closed ∷ Open ∷ Closed ∷ []) ∷ [] }
{}
