//! What a record of a small network leaves decided and open.
#![tactic(auto)]

ghost use Rattle.std.specs.Prelude.{◌≡◌, pos, neg_ℤ, [], ◌∷◌, map, length, ℤ};
ghost use Rattle.hyd_num.specs.declared.spans.Span.{Span};
ghost use Rattle.hyd_spec.specs.ProgramTypes.{Project, Decimal, Rule, And, Or, Less, NotMore, More, NotLess, Head};
ghost use Rattle.hyd_spec.specs.ProgramTypes.{Level};
ghost use Rattle.hyd_spec.specs.ProgramTypes.{Flow, Amount};
ghost use Rattle.hyd_spec_certificates.specs.declared.Verdict.TheVariants.{Yes, No, Unknown};
ghost use Rattle.hyd_spec_certificates.specs.Decided.{flow_boxes, inflow_boxes, carried_at, clause_truth, rule_truth};
ghost use Rattle.hyd_spec_certificates.specs.Decided.{heads_below, heads_above};
ghost use Rattle.hyd_cases_of_definitions.specs.Cylinders.{cylinder};
ghost use Rattle.hyd_cases_of_definitions.specs.SmallGrid.{sample};
ghost use Rattle.hyd_cases_of_definitions.specs.Record.{row, standing};

/// Heads of all nodes below and above.
pub fn heads()
    ensures below { heads_below sample row ≡ pos 60 ∷ pos 55 ∷ pos 100 ∷ pos 50 ∷ [] }
    ensures above { heads_above sample row ≡ pos 95 ∷ pos 90 ∷ pos 100 ∷ pos 61 ∷ [] }
{}

/// Flow boxes and the inflow box of the tank.
pub fn boxes()
    ensures flows { flow_boxes sample row
        ≡ (record { lo = pos 40124; hi = pos 321083 }) ∷ (record { lo = neg_ℤ (pos 240815); hi = pos 20010 })
        ∷ (record { lo = neg_ℤ (pos 10); hi = pos 321083 }) ∷ (record { lo = neg_ℤ (pos 337137); hi = pos 10 })
        ∷ (record { lo = neg_ℤ (pos 10); hi = pos 10 }) ∷ [] }
    ensures inflow { (project : Project) → length project.junctions.list ≡ 2 → length project.reservoirs.list ≡ 1
        → inflow_boxes project sample row ≡ (record { lo = neg_ℤ (pos 20); hi = pos 698355 }) ∷ [] }
{}

/// The carried level interval two minutes after the start.
pub fn carried()
    ensures { (project : Project) (bottom initial : ℤ) (diameter : Decimal) → length project.junctions.list ≡ 2
        → length project.reservoirs.list ≡ 1
        → project.tanks.list ≡ cylinder bottom initial diameter ∷ []
        → carried_at project sample standing row 120 ≡ (record { lo = pos 0; hi = pos 96993791 }) ∷ [] }
{}

/// Clauses on a flow, a head, a level and a tank's head, by each comparison: true, false or open at the edges.
pub fn clauses()
    ensures flow_240815 { (project : Project) (span : Span) (number : Decimal) → span.lo ≡ pos 240815
        → map (λ relation. clause_truth project sample standing row 120 (record {
          what = Flow 1;
          relation = relation;
          value = Amount span number;
        })) (Less
        ∷ NotMore ∷ More ∷ NotLess ∷ [])
        ≡ Unknown ∷ Yes ∷ No ∷ Unknown ∷ [] }
    ensures flow_20010 { (project : Project) (span : Span) (number : Decimal) → span.lo ≡ pos 20010
        → map (λ relation. clause_truth project sample standing row 120 (record {
          what = Flow 1;
          relation = relation;
          value = Amount span number;
        })) (Less
        ∷ NotMore ∷ More ∷ NotLess ∷ [])
        ≡ Unknown ∷ Unknown ∷ Unknown ∷ Unknown ∷ [] }
    ensures flow_20011 { (project : Project) (span : Span) (number : Decimal) → span.lo ≡ pos 20011
        → map (λ relation. clause_truth project sample standing row 120 (record {
          what = Flow 1;
          relation = relation;
          value = Amount span number;
        })) (Less
        ∷ NotMore ∷ More ∷ NotLess ∷ [])
        ≡ Unknown ∷ Unknown ∷ Unknown ∷ Unknown ∷ [] }
    ensures head_60 { (project : Project) (span : Span) (number : Decimal) → length project.junctions.list ≡ 2
        → length project.reservoirs.list ≡ 1 → span.lo ≡ pos 60
        → map (λ relation. clause_truth project sample standing row 120 (record {
          what = Head 0;
          relation = relation;
          value = Amount span number;
        })) (Less
        ∷ NotMore ∷ More ∷ NotLess ∷ [])
        ≡ No ∷ Unknown ∷ Unknown ∷ Yes ∷ [] }
    ensures head_61 { (project : Project) (span : Span) (number : Decimal) → length project.junctions.list ≡ 2
        → length project.reservoirs.list ≡ 1 → span.lo ≡ pos 61
        → map (λ relation. clause_truth project sample standing row 120 (record {
          what = Head 0;
          relation = relation;
          value = Amount span number;
        })) (Less
        ∷ NotMore ∷ More ∷ NotLess ∷ [])
        ≡ Unknown ∷ Unknown ∷ Unknown ∷ Unknown ∷ [] }
    ensures head_95 { (project : Project) (span : Span) (number : Decimal) → length project.junctions.list ≡ 2
        → length project.reservoirs.list ≡ 1 → span.lo ≡ pos 95
        → map (λ relation. clause_truth project sample standing row 120 (record {
          what = Head 0;
          relation = relation;
          value = Amount span number;
        })) (Less
        ∷ NotMore ∷ More ∷ NotLess ∷ [])
        ≡ Unknown ∷ Yes ∷ No ∷ Unknown ∷ [] }
    ensures head_96 { (project : Project) (span : Span) (number : Decimal) → length project.junctions.list ≡ 2
        → length project.reservoirs.list ≡ 1 → span.lo ≡ pos 96
        → map (λ relation. clause_truth project sample standing row 120 (record {
          what = Head 0;
          relation = relation;
          value = Amount span number;
        })) (Less
        ∷ NotMore ∷ More ∷ NotLess ∷ [])
        ≡ Yes ∷ Yes ∷ No ∷ No ∷ [] }
    ensures level_0 { (project : Project) (bottom initial : ℤ) (diameter : Decimal) (span : Span) (number : Decimal)
        → project.tanks.list ≡ cylinder bottom initial diameter ∷ [] → length project.junctions.list ≡ 2
        → length project.reservoirs.list ≡ 1 → span.lo ≡ pos 0
        → map (λ relation. clause_truth project sample standing row 120 (record {
          what = Level 0;
          relation = relation;
          value = Amount span number;
        })) (Less
        ∷ NotMore ∷ More ∷ NotLess ∷ [])
        ≡ No ∷ Unknown ∷ Unknown ∷ Yes ∷ [] }
    ensures level_1 { (project : Project) (bottom initial : ℤ) (diameter : Decimal) (span : Span) (number : Decimal)
        → project.tanks.list ≡ cylinder bottom initial diameter ∷ [] → length project.junctions.list ≡ 2
        → length project.reservoirs.list ≡ 1 → span.lo ≡ pos 1
        → map (λ relation. clause_truth project sample standing row 120 (record {
          what = Level 0;
          relation = relation;
          value = Amount span number;
        })) (Less
        ∷ NotMore ∷ More ∷ NotLess ∷ [])
        ≡ Unknown ∷ Unknown ∷ Unknown ∷ Unknown ∷ [] }
    ensures level_96993791 { (project : Project) (bottom initial : ℤ) (diameter : Decimal) (span : Span)
        (number : Decimal)
        → project.tanks.list ≡ cylinder bottom initial diameter ∷ [] → length project.junctions.list ≡ 2
        → length project.reservoirs.list ≡ 1 → span.lo ≡ pos 96993791
        → map (λ relation. clause_truth project sample standing row 120 (record {
          what = Level 0;
          relation = relation;
          value = Amount span number;
        })) (Less
        ∷ NotMore ∷ More ∷ NotLess ∷ [])
        ≡ Unknown ∷ Yes ∷ No ∷ Unknown ∷ [] }
    ensures tank_head_20 { (project : Project) (initial : ℤ) (diameter : Decimal) (span : Span) (number : Decimal)
        → project.tanks.list ≡ cylinder (pos 20) initial diameter ∷ [] → length project.junctions.list ≡ 2
        → length project.reservoirs.list ≡ 1 → span.lo ≡ pos 20
        → map (λ relation. clause_truth project sample standing row 120 (record {
          what = Head 3;
          relation = relation;
          value = Amount span number;
        })) (Less
        ∷ NotMore ∷ More ∷ NotLess ∷ [])
        ≡ No ∷ Unknown ∷ Unknown ∷ Yes ∷ [] }
    ensures tank_head_96993811 { (project : Project) (initial : ℤ) (diameter : Decimal) (span : Span) (number : Decimal)
        → project.tanks.list ≡ cylinder (pos 20) initial diameter ∷ [] → length project.junctions.list ≡ 2
        → length project.reservoirs.list ≡ 1 → span.lo ≡ pos 96993811
        → map (λ relation. clause_truth project sample standing row 120 (record {
          what = Head 3;
          relation = relation;
          value = Amount span number;
        })) (Less
        ∷ NotMore ∷ More ∷ NotLess ∷ [])
        ≡ Unknown ∷ Yes ∷ No ∷ Unknown ∷ [] }
    ensures tank_head_96993812 { (project : Project) (initial : ℤ) (diameter : Decimal) (span : Span) (number : Decimal)
        → project.tanks.list ≡ cylinder (pos 20) initial diameter ∷ [] → length project.junctions.list ≡ 2
        → length project.reservoirs.list ≡ 1 → span.lo ≡ pos 96993812
        → map (λ relation. clause_truth project sample standing row 120 (record {
          what = Head 3;
          relation = relation;
          value = Amount span number;
        })) (Less
        ∷ NotMore ∷ More ∷ NotLess ∷ [])
        ≡ Yes ∷ Yes ∷ No ∷ No ∷ [] }
{}

/// Rules of clauses that are true, false or open.
pub fn rules()
    ensures true_rule { (project : Project) (rule : Rule) (number : Decimal) (s60 : Span) (s91 : Span)
        → length project.junctions.list ≡ 2 → length project.reservoirs.list ≡ 1
        → s60.lo ≡ pos 60 → s91.lo ≡ pos 91
        → rule.clauses.list ≡ (record {
          joined = And;
          clause = record {
            what = Head 0;
            relation = NotLess;
            value = Amount s60 number;
          };
        })
        ∷ (record { joined = Or; clause = record { what = Head 0; relation = Less; value = Amount s60 number } })
        ∷ (record { joined = And; clause = record { what = Head 1; relation = Less; value = Amount s91 number } }) ∷ []
        → rule_truth project sample standing row 120 rule ≡ Yes }
    ensures open_rule { (project : Project) (rule : Rule) (number : Decimal) (s60 : Span) (s91 : Span)
        → length project.junctions.list ≡ 2 → length project.reservoirs.list ≡ 1
        → s60.lo ≡ pos 60 → s91.lo ≡ pos 91
        → rule.clauses.list ≡ (record {
          joined = And;
          clause = record {
            what = Head 0;
            relation = More;
            value = Amount s60 number;
          };
        })
        ∷ (record { joined = Or; clause = record { what = Head 0; relation = Less; value = Amount s60 number } })
        ∷ (record { joined = And; clause = record { what = Head 1; relation = Less; value = Amount s91 number } }) ∷ []
        → rule_truth project sample standing row 120 rule ≡ Unknown }
    ensures false_rule { (project : Project) (rule : Rule) (number : Decimal) (s60 : Span) (s91 : Span)
        → length project.junctions.list ≡ 2 → length project.reservoirs.list ≡ 1
        → s60.lo ≡ pos 60 → s91.lo ≡ pos 91
        → rule.clauses.list ≡ (record {
          joined = And;
          clause = record {
            what = Head 0;
            relation = More;
            value = Amount s60 number;
          };
        })
        ∷ (record { joined = Or; clause = record { what = Head 0; relation = Less; value = Amount s60 number } })
        ∷ (record { joined = And; clause = record { what = Head 1; relation = More; value = Amount s91 number } }) ∷ []
        → rule_truth project sample standing row 120 rule ≡ No }
    ensures either_rule { (project : Project) (rule : Rule) (number : Decimal) (s54 : Span) (s60 : Span)
        → length project.junctions.list ≡ 2 → length project.reservoirs.list ≡ 1
        → s54.lo ≡ pos 54 → s60.lo ≡ pos 60
        → rule.clauses.list ≡ (record {
          joined = And;
          clause = record {
            what = Head 0;
            relation = More;
            value = Amount s60 number;
          };
        })
        ∷ (record { joined = Or; clause = record { what = Head 1; relation = More; value = Amount s54 number } }) ∷ []
        → rule_truth project sample standing row 120 rule ≡ Yes }
    ensures both_rule { (project : Project) (rule : Rule) (number : Decimal) (s54 : Span) (s60 : Span)
        → length project.junctions.list ≡ 2 → length project.reservoirs.list ≡ 1
        → s54.lo ≡ pos 54 → s60.lo ≡ pos 60
        → rule.clauses.list ≡ (record {
          joined = And;
          clause = record {
            what = Head 0;
            relation = More;
            value = Amount s60 number;
          };
        })
        ∷ (record { joined = And; clause = record { what = Head 1; relation = More; value = Amount s54 number } }) ∷ []
        → rule_truth project sample standing row 120 rule ≡ Unknown }
{}
