//! What links bring and take, heads and states of tanks at their levels, the start of the run, and the vectors of a
//! record.
#![tactic(auto)]

ghost use Rattle.std.specs.Prelude.{◌≡◌, pos, neg_ℤ, false, [], ◌∷◌, map, length};
ghost use Rattle.hyd_spec.specs.ProgramTypes.{Project, Tank, Tcv, Linear, Open, Closed, Throttle};
ghost use Rattle.hyd_spec.specs.declared.TankState.TheVariants.{Empty, Between, Full};
ghost use Rattle.hyd_spec_certificates.specs.declared.Side.TheVariants.{Upper, Lower};
ghost use Rattle.hyd_spec_certificates.specs.declared.Problem.TheVariants.{Main, Pinned};
ghost use Rattle.hyd_spec.specs.Assignment.{tank_heads, net_outflow};
ghost use Rattle.hyd_spec.specs.Tank.{tank_inflow};
ghost use Rattle.hyd_spec.specs.History.{tank_states, initial_levels};
ghost use Rattle.hyd_spec_certificates.specs.RecordAndStanding.{vector_of, initial_standing};
ghost use Rattle.hyd_cases_of_definitions.specs.Record.{row};

/// What links take out of nodes, and bring to tanks.
pub fn flows()
    ensures outflow { map (λ node. net_outflow node ((record { from = 0; to = 1; kind = Tcv Linear; start = Open })
        ∷ (record { from = 1; to = 2; kind = Tcv Linear; start = Closed })
        ∷ (record { from = 2; to = 0; kind = Tcv Linear; start = Open })
        ∷ (record { from = 1; to = 0; kind = Tcv Linear; start = Throttle (pos 5) Linear }) ∷ [])
        (pos 100 ∷ neg_ℤ (pos 30) ∷ pos 7
        ∷ pos 5 ∷ [])) (0 ∷ 1 ∷ 2 ∷ 3 ∷ [])
        ≡ pos 88 ∷ neg_ℤ (pos 125) ∷ pos 37 ∷ pos 0 ∷ [] }
    ensures inflow { (project : Project) → project.links.list ≡ (record {
      from = 0;
      to = 1;
      kind = Tcv Linear;
      start = Open;
    })
        ∷ (record { from = 1; to = 2; kind = Tcv Linear; start = Closed })
        ∷ (record { from = 2; to = 0; kind = Tcv Linear; start = Open })
        ∷ (record { from = 1; to = 0; kind = Tcv Linear; start = Throttle (pos 5) Linear }) ∷ []
        → length project.junctions.list ≡ 1 → length project.reservoirs.list ≡ 0
        → map (λ tank. tank_inflow project tank (pos 100 ∷ neg_ℤ (pos 30) ∷ pos 7 ∷ pos 5 ∷ [])) (0 ∷ 1 ∷ []) ≡ pos 125
        ∷ neg_ℤ (pos 37) ∷ [] }
{}

/// Heads and states of two tanks at their levels.
pub fn tanks()
    ensures heads { (a b : Tank) → a.bottom ≡ pos 70 → b.bottom ≡ neg_ℤ (pos 9)
        → tank_heads 3 (a ∷ b ∷ []) (pos 1 ∷ pos 2 ∷ []) ≡ pos 211 ∷ neg_ℤ (pos 25) ∷ [] }
    ensures states { (a b : Tank) → a.minimum ≡ pos 0 → a.maximum ≡ pos 15240000000 → b.minimum ≡ neg_ℤ (pos 5)
        → b.maximum ≡ pos 4572000000
        → tank_states 1 (a ∷ b ∷ []) (pos 13716000000 ∷ pos 1523999995 ∷ []) ≡ Full ∷ Empty ∷ [] }
{}

/// What is known at the start of the run: levels, tank states and the commanded states of the file.
pub fn start()
    ensures standing { (project : Project) (a b : Tank) → project.tanks.list ≡ a ∷ b
        ∷ [] → project.links.list ≡ (record { from = 0; to = 1; kind = Tcv Linear; start = Open })
        ∷ (record { from = 1; to = 2; kind = Tcv Linear; start = Closed })
        ∷ (record { from = 2; to = 0; kind = Tcv Linear; start = Open })
        ∷ (record { from = 1; to = 0; kind = Tcv Linear; start = Throttle (pos 5) Linear }) ∷ []
        → a.initial ≡ pos 6096000000 → b.initial ≡ neg_ℤ (pos 5)
        → a.minimum ≡ pos 0 → a.maximum ≡ pos 15240000000 → b.minimum ≡ neg_ℤ (pos 5) → b.maximum ≡ pos 4572000000
        → a.shape ≡ None → b.shape ≡ None
        → initial_standing project ≡ record {
          number = 0;
          time = 0;
          levels = (record { lo = pos 6096000000; hi = pos 6096000000 })
              ∷ (record { lo = neg_ℤ (pos 5); hi = neg_ℤ (pos 5) }) ∷ [];
          volumes = (record { lo = pos 0; hi = pos 0 }) ∷ (record { lo = pos 0; hi = pos 0 }) ∷ [];
          tanks = Between ∷ Empty ∷ [];
          commanded = Open ∷ Closed ∷ Open ∷ Throttle (pos 5) Linear ∷ [];
          finished = false;
        } }
    ensures levels { (project : Project) (a b : Tank) → project.tanks.list ≡ a ∷ b ∷ [] → a.initial ≡ pos 7
        → b.initial ≡ neg_ℤ (pos 5)
        → initial_levels project 3 ≡ pos 21 ∷ neg_ℤ (pos 15) ∷ [] }
{}

/// The vectors of a record by problem and side; a tank that isn't there has none.
pub fn vectors()
    ensures main { (vector_of row Main Upper ∷ vector_of row Main Lower ∷ [])
        ≡ (pos 95 ∷ pos 90 ∷ []) ∷ (pos 60 ∷ pos 55 ∷ []) ∷ [] }
    ensures pinned { (vector_of row (Pinned 0) Upper ∷ vector_of row (Pinned 0) Lower ∷ vector_of row (Pinned 1) Upper
        ∷ [])
        ≡ (pos 97 ∷ pos 93 ∷ []) ∷ (pos 58 ∷ pos 54 ∷ []) ∷ [] ∷ [] }
{}
