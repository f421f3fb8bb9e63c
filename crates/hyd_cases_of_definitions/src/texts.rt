//! Texts of certificates and reports.
#![tactic(auto)]

ghost use Rattle.std.specs.Prelude.{◌≡◌, pos, neg_ℤ, true, false, [], ◌∷◌, map, length, codes};
ghost use Rattle.hyd_spec.specs.ProgramTypes.{Project, Rule, Linear, Open, Closed, Speed, Throttle, Limit};
ghost use Rattle.hyd_spec_certificates.specs.declared.Problem.TheVariants.{Main, Pinned};
ghost use Rattle.hyd_spec_certificates.specs.declared.Side.TheVariants.{Upper, Lower};
ghost use Rattle.hyd_spec.specs.declared.TankState.TheVariants.{Between};
ghost use Rattle.hyd_spec_certificates.specs.declared.StatusWord.TheVariants.{Active as WordActive};
ghost use Rattle.hyd_spec_certificates.specs.CertificateText.{words, certificate_text};
ghost use Rattle.hyd_spec_certificates.specs.declared.StopCause.TheVariants.{Demand as DemandOutOfRange, NoCertificate};
ghost use Rattle.hyd_spec_certificates.specs.declared.StopCause.TheVariants.{RoundsSpent, RuleOpen, EventOpen};
ghost use Rattle.hyd_spec_certificates.specs.declared.StopCause.TheVariants.{TankOpen};
ghost use Rattle.hyd_spec_certificates.specs.declared.StopCause.TheVariants.{ControlOpen};
ghost use Rattle.hyd_spec_certificates.specs.declared.CertRefused.TheVariants.{Place, Demand as DemandRefused, Fails};
ghost use Rattle.hyd_spec_certificates.specs.declared.CertRefused.TheVariants.{Open as MatterOpen, Length, After};
ghost use Rattle.hyd_spec_reports.specs.ReportLine.{state_words, line_text, ControlLine, TimeLine, JunctionLine};
ghost use Rattle.hyd_spec_reports.specs.ReportLine.{ReservoirLine, TankLine, LinkLine, FilledLine, EmptiedLine};
ghost use Rattle.hyd_spec_reports.specs.ReportLine.{ReachedLine, RuleLine, stop_line, done_line, partial_line};
ghost use Rattle.hyd_spec_reports.specs.ReportLine.{refused_line, refused_end_line, report_text};

/// The text of a certificate: without records, of one record with two heads, and of two records with a tank.
pub fn certificates()
    ensures empty { certificate_text 1 3 0 ([]) 0 false
        ≡ codes "HYDCERT 1 3 0\nEND 0 STOPPED\n" }
    ensures heads { certificate_text 1 2 0 ((record {
      number = 0;
      time = 0;
      length = 0;
      main = record {
        upper = pos 5 ∷ neg_ℤ (pos 1000000000000000000)
            ∷ [];
        lower = pos 0 ∷ neg_ℤ (pos 7) ∷ [];
      };
      pinned = [];
    }) ∷ []) 1 true
        ≡ codes "HYDCERT 1 2 0\nPERIOD 0 0 0\nMU 5\nMU -1000000000000000000\nML 0\nML -7\nEND 1 FINISHED\n" }
    ensures tank { certificate_text 1 1 1 ((record {
      number = 0;
      time = 0;
      length = 3600;
      main = record {
        upper = pos 12 ∷ [];
        lower = neg_ℤ (pos 12)
            ∷ [];
      };
      pinned = (record { upper = pos 13 ∷ []; lower = neg_ℤ (pos 1) ∷ [] }) ∷ [];
    })
        ∷ (record {
          number = 1;
          time = 3600;
          length = 0;
          main = record {
            upper = pos 1 ∷ [];
            lower = pos 2
                ∷ [];
          };
          pinned = (record { upper = pos 3 ∷ []; lower = pos 4 ∷ [] }) ∷ [];
        }) ∷ []) 2 true
        ≡ codes "HYDCERT 1 1 1\nPERIOD 0 0 3600\nMU 12\nML -12\nPU 13\nPL -1\nPERIOD 1 3600 0\nMU 1\nML 2\nPU 3\nPL 4\nEND 2 FINISHED\n" }
{}

/// How the state that a link was given is printed.
pub fn states()
    ensures { map (λ state. words (state_words state)) (Open ∷ Closed ∷ Speed (pos 1200000000) ∷ Throttle (pos 5) Linear
        ∷ Limit (pos 1000000000000) (pos 7) ∷ [])
        ≡ codes "OPEN" ∷ codes "CLOSED" ∷ codes "SETTING 1.200000000" ∷ codes "SETTING 0.000000005"
        ∷ codes "SETTING 1000.000000000"
        ∷ [] }
{}

/// Each line of a report.
pub fn lines()
    ensures control { (project : Project) → project.link_ids ≡ codes "P" ∷ []
        → line_text project (ControlLine 3600 0 0 Open)
        ≡ codes "CONTROL 1 1:00:00 LINK P OPEN\n" }
    ensures control_setting { (project : Project) → project.link_ids ≡ codes "P" ∷ []
        → line_text project (ControlLine 3600 11 0 (Speed (pos 1200000000)))
        ≡ codes "CONTROL 12 1:00:00 LINK P SETTING 1.200000000\n" }
    ensures time { (project : Project)
        → line_text project (TimeLine 3600)
        ≡ codes "TIME 1:00:00\n" }
    ensures junction { (project : Project) → project.node_ids ≡ codes "J1" ∷ codes "R" ∷ codes "T" ∷ []
        → line_text project (JunctionLine 0 (record {
          lo = neg_ℤ (pos 5);
          hi = pos 20;
        }) (record { lo = neg_ℤ (pos 35); hi = neg_ℤ (pos 10) })
        (record { lo = neg_ℤ (pos 1); hi = pos 1234 }))
        ≡ codes "JUNCTION J1 head -0.0005 0.0020 pressure -0.0035 -0.0010 outflow -0.0001 0.1234\n" }
    ensures reservoir { (project : Project) → project.node_ids ≡ codes "J1" ∷ codes "R" ∷ codes "T" ∷ []
        → length project.junctions.list ≡ 1
        → line_text project (ReservoirLine 0 (record { lo = pos 1000001; hi = pos 1000001 }))
        ≡ codes "RESERVOIR R head 100.0001 100.0001\n" }
    ensures tank { (project : Project) → project.node_ids ≡ codes "J1" ∷ codes "R" ∷ codes "T"
        ∷ [] → length project.junctions.list ≡ 1 → length project.reservoirs.list ≡ 1
        → line_text project (TankLine 0 (record { lo = pos 9; hi = pos 30007 }) (record {
          lo = pos 2;
          hi = pos 30000;
        }) (record { lo = neg_ℤ (pos 1); hi = pos 1 }) Between)
        ≡ codes "TANK T head 0.0009 3.0007 level 0.0002 3.0000 inflow -0.0001 0.0001 state BETWEEN\n" }
    ensures link { (project : Project) → project.link_ids ≡ codes "P" ∷ []
        → line_text project (LinkLine 0 (record { lo = neg_ℤ (pos 5); hi = pos 123456789 }) WordActive)
        ≡ codes "LINK P flow -0.0005 12345.6789 status ACTIVE\n" }
    ensures filled { (project : Project) → project.node_ids ≡ codes "J1" ∷ codes "R" ∷ codes "T"
        ∷ [] → length project.junctions.list ≡ 1 → length project.reservoirs.list ≡ 1
        → line_text project (FilledLine 3725 0)
        ≡ codes "EVENT 1:02:05 TANK T FULL\n" }
    ensures emptied { (project : Project) → project.node_ids ≡ codes "J1" ∷ codes "R" ∷ codes "T"
        ∷ [] → length project.junctions.list ≡ 1 → length project.reservoirs.list ≡ 1
        → line_text project (EmptiedLine 3725 0)
        ≡ codes "EVENT 1:02:05 TANK T EMPTY\n" }
    ensures reached { (project : Project) → project.node_ids ≡ codes "J1" ∷ codes "R" ∷ codes "T"
        ∷ [] → length project.junctions.list ≡ 1 → length project.reservoirs.list ≡ 1
        → line_text project (ReachedLine 3725 0 1)
        ≡ codes "EVENT 1:02:05 TANK T CONTROL 2\n" }
    ensures rule { (project : Project) (rule : Rule) → project.rules.list ≡ rule ∷ [] → rule.id.list ≡ codes "U1"
        → project.link_ids ≡ codes "P" ∷ []
        → line_text project (RuleLine 3725 0 0 Closed)
        ≡ codes "RULE U1 1:02:05 LINK P CLOSED\n" }
{}

/// The last line of a run that stopped, for each cause.
pub fn stops()
    ensures no_certificate { (project : Project) → project.node_ids ≡ codes "J1" ∷ codes "R" ∷ codes "T" ∷ []
        → stop_line project 3725 (NoCertificate 3 Main Upper 0)
        ≡ codes "STOP period 3 time 1:02:05 NOCERT MAIN UPPER JUNCTION J1\n" }
    ensures no_certificate_pinned { (project : Project) → project.node_ids ≡ codes "J1" ∷ codes "R" ∷ codes "T"
        ∷ [] → length project.junctions.list ≡ 1 → length project.reservoirs.list ≡ 1
        → stop_line project 3725 (NoCertificate 3 (Pinned 0) Lower 0)
        ≡ codes "STOP period 3 time 1:02:05 NOCERT PINNED T LOWER JUNCTION J1\n" }
    ensures rounds { (project : Project)
        → stop_line project 3725 (RoundsSpent 3 Main Lower 200)
        ≡ codes "STOP period 3 time 1:02:05 ROUNDS MAIN LOWER 200\n" }
    ensures demand { (project : Project) → project.node_ids ≡ codes "J1" ∷ codes "R" ∷ codes "T" ∷ []
        → stop_line project 3725 (DemandOutOfRange 3 0 (neg_ℤ (pos 1000000000000001)))
        ≡ codes "STOP period 3 time 1:02:05 DEMAND J1 -1000000000000001\n" }
    ensures event { (project : Project)
        → stop_line project 3725 (EventOpen 3 107 108)
        ≡ codes "STOP period 3 time 1:02:05 EVENT 107 108\n" }
    ensures tank { (project : Project) → project.node_ids ≡ codes "J1" ∷ codes "R" ∷ codes "T"
        ∷ [] → length project.junctions.list ≡ 1 → length project.reservoirs.list ≡ 1
        → stop_line project 3725 (TankOpen 3 0 (neg_ℤ (pos 3)) (pos 1524000001))
        ≡ codes "STOP period 3 time 1:02:05 TANK T -3 1524000001\n" }
    ensures control { (project : Project)
        → stop_line project 3725 (ControlOpen 3 2 (pos 99) (pos 101))
        ≡ codes "STOP period 3 time 1:02:05 CONTROL 3 99 101\n" }
    ensures rule { (project : Project) (rule : Rule) → project.rules.list ≡ rule ∷ [] → rule.id.list ≡ codes "U1"
        → stop_line project 3725 (RuleOpen 3 0 1 (neg_ℤ (pos 9)) (pos 12))
        ≡ codes "STOP period 3 time 1:02:05 RULE U1 CLAUSE 2 -9 12\n" }
{}

/// The last line of a check that refused a record, for each cause, or the end line.
pub fn refusals()
    ensures place { (project : Project) → refused_line project (Place 0) ≡ codes "BADCERT period 0 PLACE\n" }
    ensures demand { (project : Project) → refused_line project (DemandRefused 2) ≡ codes "BADCERT period 2 DEMAND\n" }
    ensures fails { (project : Project) → project.node_ids ≡ codes "J" ∷ codes "R" ∷ []
        → refused_line project (Fails 0 Main Upper 0) ≡ codes "BADCERT period 0 FAILS MAIN UPPER JUNCTION J\n" }
    ensures open { (project : Project) → refused_line project (MatterOpen 7) ≡ codes "BADCERT period 7 OPEN\n" }
    ensures length { (project : Project) → refused_line project (Length 0) ≡ codes "BADCERT period 0 LENGTH\n" }
    ensures after { (project : Project) → refused_line project (After 1) ≡ codes "BADCERT period 1 AFTER\n" }
    ensures end { refused_end_line 5 ≡ codes "BADCERT line 5 END\n" }
{}

/// The last lines of the others, and a whole report of one line.
pub fn reports()
    ensures done { done_line 25 ≡ codes "DONE 25\n" }
    ensures partial { partial_line 0 ≡ codes "PARTIAL 0\n" }
    ensures report { (project : Project) → report_text project (TimeLine 0 ∷ []) (done_line 1)
        ≡ codes "HYD 1\nTIME 0:00:00\nDONE 1\n" }
{}
