//! A small network with a link of each kind, all of realistic size: its laws, heads, net outflows and boxes.
#![tactic(auto)]

ghost use Rattle.std.specs.Prelude.{◌≡◌, ℕ, pos, neg_ℤ, [], ◌∷◌, map, length, Option, true, false};
ghost use Rattle.hyd_num.specs.declared.spans.Span.{Span};
ghost use Rattle.hyd_spec.specs.ProgramTypes.{Project, Decimal, Tank, Origin, Cmd};
ghost use Rattle.hyd_spec.specs.ProgramTypes.{PipeLink, CheckPipe, PumpLink, Tcv, Fcv, Quadratic, Linear, FourThirds};
ghost use Rattle.hyd_spec.specs.ProgramTypes.{Manning, Open};
ghost use Rattle.hyd_spec.specs.ProgramTypes.{Speed, Throttle, Limit};
ghost use Rattle.hyd_spec.specs.declared.TankState.TheVariants.{Empty, Between, Full};
ghost use Rattle.hyd_spec_certificates.specs.declared.Problem.TheVariants.{Main, Pinned};
ghost use Rattle.hyd_spec_certificates.specs.declared.Side.TheVariants.{Upper, Lower};
ghost use Rattle.hyd_spec.specs.Law.{QuadraticLaw, ForwardOnly, ReverseOnly, Capped};
ghost use Rattle.hyd_spec_certificates.specs.PeriodNetwork.{grid_links, tank_intervals, fixed_heads, all_heads};
ghost use Rattle.hyd_spec_certificates.specs.NetOutflow.{net_low, net_high, margin};
ghost use Rattle.hyd_spec_certificates.specs.FlowIntervals.{flow_box, out_box, inflow_box};
ghost use Rattle.hyd_cases_of_definitions.specs.EachKindOfLink.{CityParts, city, first, second, pipe, check_pipe, pump};
ghost use Rattle.hyd_cases_of_definitions.specs.EachKindOfLink.{throttle_valve};
ghost use Rattle.hyd_cases_of_definitions.specs.EachKindOfLink.{control_valve};
ghost use Rattle.hyd_cases_of_definitions.specs.EachKindOfLink.{upper, lower, pinned_upper, pinned_lower, apart, sunk};

/// The laws of all links, with the tank between, full, full and overflowing, and empty.
pub fn laws()
    ensures between { (project : Project) (parts : CityParts) (shutoff : Span) (head : Decimal) (pattern : Option ℕ)
        → project.options.unit ≡ Cmd → length project.junctions.list ≡ 2 → length project.reservoirs.list ≡ 1
        → head.nano ≡ pos 40000000000
        → grid_links project (Between ∷ [])
        (record { from = 2; to = 0; kind = PipeLink (Manning parts.pipe); start = Open }
        ∷ record { from = 0; to = 1; kind = CheckPipe (Manning parts.check); start = Open }
        ∷ record { from = 2; to = 1; kind = PumpLink parts.pump shutoff (FourThirds head) pattern; start = Open }
        ∷ record { from = 0; to = 3; kind = Tcv Linear; start = Open }
        ∷ record {
          from = 1;
          to = 3;
          kind = Fcv (Quadratic parts.control);
          start = Open;
        } ∷ []) (Open ∷ Open ∷ Speed (pos 900000000)
        ∷ Throttle (pos 100000000000) (Quadratic parts.valve) ∷ Limit (pos 500000000000) (pos 5000000000) ∷ [])
        ≡ (city parts).links }
    ensures full { (project : Project) (parts : CityParts) (shutoff : Span) (head : Decimal) (pattern : Option ℕ)
        (tank : Tank)
        → project.options.unit ≡ Cmd → length project.junctions.list ≡ 2 → length project.reservoirs.list ≡ 1
        → head.nano ≡ pos 40000000000
        → project.tanks.list ≡ tank ∷ [] → tank.overflow ≡ false
        → grid_links project (Full ∷ [])
        (record { from = 2; to = 0; kind = PipeLink (Manning parts.pipe); start = Open }
        ∷ record { from = 0; to = 1; kind = CheckPipe (Manning parts.check); start = Open }
        ∷ record { from = 2; to = 1; kind = PumpLink parts.pump shutoff (FourThirds head) pattern; start = Open }
        ∷ record { from = 0; to = 3; kind = Tcv Linear; start = Open }
        ∷ record {
          from = 1;
          to = 3;
          kind = Fcv (Quadratic parts.control);
          start = Open;
        } ∷ []) (Open ∷ Open ∷ Speed (pos 900000000)
        ∷ Throttle (pos 100000000000) (Quadratic parts.valve) ∷ Limit (pos 500000000000) (pos 5000000000) ∷ [])
        ≡ pipe parts ∷ check_pipe parts ∷ pump parts ∷ record {
          from = 0;
          to = 3;
          law = ReverseOnly (QuadraticLaw parts.valve);
        }
        ∷ record { from = 1; to = 3; law = ReverseOnly (Capped (pos 5000000000) (QuadraticLaw parts.control)) } ∷ [] }
    ensures overflowing { (project : Project) (parts : CityParts) (shutoff : Span) (head : Decimal)
        (pattern : Option ℕ) (tank : Tank)
        → project.options.unit ≡ Cmd → length project.junctions.list ≡ 2 → length project.reservoirs.list ≡ 1
        → head.nano ≡ pos 40000000000
        → project.tanks.list ≡ tank ∷ [] → tank.overflow ≡ true
        → grid_links project (Full ∷ [])
        (record { from = 2; to = 0; kind = PipeLink (Manning parts.pipe); start = Open }
        ∷ record { from = 0; to = 1; kind = CheckPipe (Manning parts.check); start = Open }
        ∷ record { from = 2; to = 1; kind = PumpLink parts.pump shutoff (FourThirds head) pattern; start = Open }
        ∷ record { from = 0; to = 3; kind = Tcv Linear; start = Open }
        ∷ record {
          from = 1;
          to = 3;
          kind = Fcv (Quadratic parts.control);
          start = Open;
        } ∷ []) (Open ∷ Open ∷ Speed (pos 900000000)
        ∷ Throttle (pos 100000000000) (Quadratic parts.valve) ∷ Limit (pos 500000000000) (pos 5000000000) ∷ [])
        ≡ (city parts).links }
    ensures empty { (project : Project) (parts : CityParts) (shutoff : Span) (head : Decimal) (pattern : Option ℕ)
        → project.options.unit ≡ Cmd → length project.junctions.list ≡ 2 → length project.reservoirs.list ≡ 1
        → head.nano ≡ pos 40000000000
        → grid_links project (Empty ∷ [])
        (record { from = 2; to = 0; kind = PipeLink (Manning parts.pipe); start = Open }
        ∷ record { from = 0; to = 1; kind = CheckPipe (Manning parts.check); start = Open }
        ∷ record { from = 2; to = 1; kind = PumpLink parts.pump shutoff (FourThirds head) pattern; start = Open }
        ∷ record { from = 0; to = 3; kind = Tcv Linear; start = Open }
        ∷ record {
          from = 1;
          to = 3;
          kind = Fcv (Quadratic parts.control);
          start = Open;
        } ∷ []) (Open ∷ Open ∷ Speed (pos 900000000)
        ∷ Throttle (pos 100000000000) (Quadratic parts.valve) ∷ Limit (pos 500000000000) (pos 5000000000) ∷ [])
        ≡ pipe parts ∷ check_pipe parts ∷ pump parts ∷ record {
          from = 0;
          to = 3;
          law = ForwardOnly (QuadraticLaw parts.valve);
        }
        ∷ record { from = 1; to = 3; law = ForwardOnly (Capped (pos 5000000000) (QuadraticLaw parts.control)) } ∷ [] }
{}

/// The intervals of heads of two tanks, and where there is no level.
pub fn tank_heads()
    ensures both { (tank other : Tank) → tank.bottom ≡ pos 400000000000000 → other.bottom ≡ neg_ℤ (pos 30000000000000)
        → tank_intervals (tank ∷ other ∷ []) (record { lo = pos 50000000000000; hi = pos 51000000000000 }
        ∷ record { lo = pos 0; hi = pos 100000000000 } ∷ [])
        ≡ record { lo = pos 450000000000000; hi = pos 451000000000000 } ∷ record {
          lo = neg_ℤ (pos 30000000000000);
          hi = neg_ℤ (pos 29900000000000);
        }
        ∷ [] }
    ensures none { tank_intervals [] [] ≡ [] }
{}

/// The heads of the reservoir and the tank.
pub fn fixed_heads()
    ensures main_upper { (parts : CityParts) → fixed_heads (city parts) Main Upper ≡ pos 600000000000000
        ∷ pos 451000000000000 ∷ [] }
    ensures main_lower { (parts : CityParts) → fixed_heads (city parts) Main Lower ≡ pos 600000000000000
        ∷ pos 450000000000000 ∷ [] }
    ensures pinned_upper { (parts : CityParts) → fixed_heads (city parts) (Pinned 0) Upper ≡ pos 600000000000000
        ∷ pos 450000000000000 ∷ [] }
    ensures pinned_lower { (parts : CityParts) → fixed_heads (city parts) (Pinned 0) Lower ≡ pos 600000000000000
        ∷ pos 451000000000000 ∷ [] }
{}

/// The heads of all nodes.
pub fn all_heads()
    ensures main_upper { (parts : CityParts) → all_heads (city parts) Main Upper upper ≡ pos 526428225406959
        ∷ pos 1015580607643695
        ∷ pos 600000000000000 ∷ pos 451000000000000 ∷ [] }
    ensures main_lower { (parts : CityParts) → all_heads (city parts) Main Lower apart ≡ pos 700000000000000
        ∷ pos 300000000000000
        ∷ pos 600000000000000 ∷ pos 450000000000000 ∷ [] }
    ensures pinned_upper { (parts : CityParts) → all_heads (city parts) (Pinned 0) Upper upper ≡ pos 526428225406959
        ∷ pos 1015580607643695
        ∷ pos 600000000000000 ∷ pos 450000000000000 ∷ [] }
    ensures pinned_lower { (parts : CityParts) → all_heads (city parts) (Pinned 0) Lower apart ≡ pos 700000000000000
        ∷ pos 300000000000000
        ∷ pos 600000000000000 ∷ pos 451000000000000 ∷ [] }
{}

/// The net outflow of both junctions under the tight vectors and under heads far from them.
pub fn low_net_outflows()
    ensures main_first { (parts : CityParts) → map (λ u. net_low (city parts) Main u 0 (first parts))
        (upper ∷ lower ∷ apart ∷ sunk ∷ [])
        ≡ pos 61 ∷ neg_ℤ (pos 508423626) ∷ pos 336242735509 ∷ neg_ℤ (pos 321312967030) ∷ [] }
    ensures main_second { (parts : CityParts) → map (λ u. net_low (city parts) Main u 1 (second parts))
        (upper ∷ lower ∷ apart ∷ sunk ∷ [])
        ≡ pos 61 ∷ neg_ℤ (pos 63) ∷ neg_ℤ (pos 602765480438) ∷ neg_ℤ (pos 613495140505) ∷ [] }
    ensures pinned_first { (parts : CityParts) → map (λ u. net_low (city parts) (Pinned 0) u 0 (first parts))
        (upper ∷ lower ∷ apart ∷ sunk ∷ [])
        ≡ pos 506851022 ∷ neg_ℤ (pos 63) ∷ pos 336522340223 ∷ neg_ℤ (pos 321022066618) ∷ [] }
    ensures pinned_second { (parts : CityParts) → map (λ u. net_low (city parts) (Pinned 0) u 1 (second parts))
        (upper ∷ lower ∷ apart ∷ sunk ∷ [])
        ≡ pos 61 ∷ neg_ℤ (pos 63) ∷ neg_ℤ (pos 601233716000) ∷ neg_ℤ (pos 612229659544) ∷ [] }
{}

/// Its mirror.
pub fn high_net_outflows()
    ensures main_first { (parts : CityParts) → map (λ u. net_high (city parts) Main u 0 (first parts))
        (upper ∷ lower ∷ apart ∷ sunk ∷ [])
        ≡ pos 506851024 ∷ neg_ℤ (pos 61) ∷ pos 336522340226 ∷ neg_ℤ (pos 321022066615) ∷ [] }
    ensures main_second { (parts : CityParts) → map (λ u. net_high (city parts) Main u 1 (second parts))
        (upper ∷ lower ∷ apart ∷ sunk ∷ [])
        ≡ pos 63 ∷ neg_ℤ (pos 61) ∷ neg_ℤ (pos 601233715996) ∷ neg_ℤ (pos 612229659541) ∷ [] }
    ensures pinned_first { (parts : CityParts) → map (λ u. net_high (city parts) (Pinned 0) u 0 (first parts))
        (upper ∷ lower ∷ apart ∷ sunk ∷ [])
        ≡ pos 63 ∷ neg_ℤ (pos 508423624) ∷ pos 336242735512 ∷ neg_ℤ (pos 321312967027) ∷ [] }
    ensures pinned_second { (parts : CityParts) → map (λ u. net_high (city parts) (Pinned 0) u 1 (second parts))
        (upper ∷ lower ∷ apart ∷ sunk ∷ [])
        ≡ pos 63 ∷ neg_ℤ (pos 61) ∷ neg_ℤ (pos 602765480434) ∷ neg_ℤ (pos 613495140502) ∷ [] }
{}

/// The margins of both junctions.
pub fn margins()
    ensures { (parts : CityParts) → map (margin (city parts)) (0 ∷ 1 ∷ []) ≡ pos 60 ∷ pos 60 ∷ [] }
{}

/// The flow box of each link between the tight vectors.
pub fn flow_boxes()
    ensures pipe { (parts : CityParts) → flow_box (pipe parts) (pos 525959255858584 ∷ pos 1015580607115147
        ∷ pos 600000000000000 ∷ pos 450000000000000
        ∷ []) (pos 526428225406959 ∷ pos 1015580607643695 ∷ pos 600000000000000 ∷ pos 451000000000000 ∷ [])
        ≡ record { lo = pos 84714328178; hi = pos 84983897141 } }
    ensures check_pipe { (parts : CityParts) → flow_box (check_pipe parts) (pos 525959255858584 ∷ pos 1015580607115147
        ∷ pos 600000000000000
        ∷ pos 450000000000000 ∷ []) (pos 526428225406959 ∷ pos 1015580607643695 ∷ pos 600000000000000
        ∷ pos 451000000000000 ∷ [])
        ≡ record { lo = neg_ℤ (pos 10); hi = pos 10 } }
    ensures pump { (parts : CityParts) → flow_box (pump parts) (pos 525959255858584 ∷ pos 1015580607115147
        ∷ pos 600000000000000 ∷ pos 450000000000000
        ∷ []) (pos 526428225406959 ∷ pos 1015580607643695 ∷ pos 600000000000000 ∷ pos 451000000000000 ∷ [])
        ≡ record { lo = pos 7579890340; hi = pos 7579890484 } }
    ensures throttle_valve { (parts : CityParts) → flow_box (throttle_valve parts)
        (pos 525959255858584 ∷ pos 1015580607115147 ∷ pos 600000000000000
        ∷ pos 450000000000000 ∷ []) (pos 526428225406959 ∷ pos 1015580607643695 ∷ pos 600000000000000
        ∷ pos 451000000000000 ∷ [])
        ≡ record { lo = pos 76475473495; hi = pos 77221179222 } }
    ensures control_valve { (parts : CityParts) → flow_box (control_valve parts)
        (pos 525959255858584 ∷ pos 1015580607115147 ∷ pos 600000000000000
        ∷ pos 450000000000000 ∷ []) (pos 526428225406959 ∷ pos 1015580607643695 ∷ pos 600000000000000
        ∷ pos 451000000000000 ∷ [])
        ≡ record { lo = pos 4999999990; hi = pos 5000000010 } }
{}

/// The outflow box of each junction between the tight heads, and between 9 and 28 m.
pub fn out_boxes()
    ensures first_near { (parts : CityParts) → out_box (first parts) (pos 525959255858584) (pos 526428225406959)
        ≡ record { lo = pos 7999999990; hi = pos 8000000010 } }
    ensures first_apart { (parts : CityParts) → out_box (first parts) (pos 90000000000000) (pos 280000000000000)
        ≡ record { lo = neg_ℤ (pos 10); hi = pos 7447594701 } }
    ensures second_near { (parts : CityParts) → out_box (second parts) (pos 1015580607115147) (pos 1015580607643695)
        ≡ record { lo = pos 2579890391; hi = pos 2579890433 } }
    ensures second_apart { (parts : CityParts) → out_box (second parts) (pos 90000000000000) (pos 280000000000000)
        ≡ record { lo = neg_ℤ (pos 2928000021); hi = neg_ℤ (pos 451754031) } }
{}

/// The inflow box of the tank, between the tight vectors and between those with the tank pinned.
pub fn inflow_boxes()
    ensures main { (parts : CityParts) → inflow_box (city parts) 0 3 lower upper ≡ record {
      lo = pos 81475473485;
      hi = pos 82221179232;
    } }
    ensures pinned { (parts : CityParts) → inflow_box (city parts) 0 3 pinned_lower pinned_upper
        ≡ record { lo = pos 81714328172; hi = pos 81983897147 } }
{}

/// There are parts with these ends.
pub fn exist()
    ensures { (origin : Origin) → CityParts }
{}
