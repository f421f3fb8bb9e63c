//! Numbers of the file, units and printed numbers.
#![tactic(auto)]

ghost use Rattle.std.specs.Prelude.{◌≡◌, ℤ, pos, neg_ℤ, ◌*ℤ◌, ◌^◌, true, false, [], ◌∷◌, map, codes};
ghost use Rattle.hyd_num.specs.Numeral.{is_numeral, nano_of};
ghost use Rattle.hyd_num.specs.FileQuantity.{is_us_unit, flow_factor, head_ticks, flow_ticks, pressure_numerator};
ghost use Rattle.hyd_num.specs.FileQuantity.{pressure_denominator};
ghost use Rattle.hyd_num.specs.PrintedDecimals.{decimal_text, setting_text, head_quantity, pressure_quantity};
ghost use Rattle.hyd_num.specs.PrintedDecimals.{flow_quantity};
ghost use Rattle.hyd_num.specs.Rational.{floor, ceiling};
ghost use Rattle.hyd_num.specs.declared.flow_units.FlowUnit.TheVariants.{Cfs, Gpm, Mgd, Imgd, Afd, Lps, Lpm, Mld, Cmh};
ghost use Rattle.hyd_num.specs.declared.flow_units.FlowUnit.TheVariants.{Cmd};
ghost use Rattle.hyd_spec_reports.specs.ReportLine.{clock_text};

/// What texts of numbers are worth, in billionths: signs, points and exponents, cut toward zero.
pub fn values()
    ensures { map nano_of (codes "1" ∷ codes "-1" ∷ codes "+2.5" ∷ codes ".5" ∷ codes "5." ∷ codes "-0.0000000019"
        ∷ codes "1.9999999999"
        ∷ codes "12e-10" ∷ codes "-12E2" ∷ codes "1.5e3" ∷ codes "-.25e+1" ∷ codes "0" ∷ codes "-0" ∷ codes "000.10"
        ∷ codes "7e9"
        ∷ codes "3e-999" ∷ [])
        ≡ pos 1000000000 ∷ neg_ℤ (pos 1000000000) ∷ pos 2500000000 ∷ pos 500000000 ∷ pos 5000000000 ∷ neg_ℤ (pos 1)
        ∷ pos 1999999999
        ∷ pos 1 ∷ neg_ℤ (pos 1200000000000) ∷ pos 1500000000000 ∷ neg_ℤ (pos 2500000000) ∷ pos 0 ∷ pos 0 ∷ pos 100000000
        ∷ pos 7000000000000000000 ∷ pos 0 ∷ [] }
{}

/// Which texts are numbers.
pub fn numerals()
    ensures numbers { map is_numeral (codes "1" ∷ codes "-1" ∷ codes "+2.5" ∷ codes ".5" ∷ codes "5."
        ∷ codes "-0.0000000019" ∷ codes "1.9999999999"
        ∷ codes "12e-10" ∷ codes "-12E2" ∷ codes "1.5e3" ∷ codes "-.25e+1" ∷ codes "0" ∷ codes "-0" ∷ codes "000.10"
        ∷ codes "7e9"
        ∷ codes "3e-999" ∷ [])
        ≡ true ∷ true ∷ true ∷ true ∷ true ∷ true ∷ true ∷ true ∷ true ∷ true ∷ true ∷ true ∷ true ∷ true ∷ true
        ∷ true ∷ [] }
    ensures others { map is_numeral (codes "" ∷ codes "-" ∷ codes "." ∷ codes "+." ∷ codes "1e" ∷ codes "1e+"
        ∷ codes "1e1234" ∷ codes "1.2.3" ∷ codes "--1"
        ∷ codes "1e2.5" ∷ codes "1,5" ∷ codes "0x10" ∷ codes "e5" ∷ codes "1 " ∷ codes "1e-" ∷ [])
        ≡ false ∷ false ∷ false ∷ false ∷ false ∷ false ∷ false ∷ false ∷ false ∷ false ∷ false ∷ false ∷ false
        ∷ false ∷ false ∷ [] }
{}

/// Heads in feet and in metres, in head ticks.
pub fn heads()
    ensures feet { map (head_ticks true) (pos 0 ∷ pos 1 ∷ neg_ℤ (pos 1) ∷ pos 1000000000 ∷ neg_ℤ (pos 2500000000) ∷ [])
        ≡ pos 0 ∷ pos 3048 ∷ neg_ℤ (pos 3048) ∷ pos 3048000000000 ∷ neg_ℤ (pos 7620000000000) ∷ [] }
    ensures metres { map (head_ticks false) (pos 0 ∷ pos 1 ∷ neg_ℤ (pos 1) ∷ pos 1000000000 ∷ neg_ℤ (pos 2500000000)
        ∷ [])
        ≡ pos 0 ∷ pos 10000 ∷ neg_ℤ (pos 10000) ∷ pos 10000000000000 ∷ neg_ℤ (pos 25000000000000) ∷ [] }
{}

/// Flows in each unit, in flow ticks, cut toward zero.
pub fn flows()
    ensures cfs { map (flow_ticks Cfs) (pos 1000000000 ∷ neg_ℤ (pos 1000000000) ∷ pos 1 ∷ neg_ℤ (pos 1) ∷ pos 99
        ∷ neg_ℤ (pos 99) ∷ pos 100
        ∷ neg_ℤ (pos 101) ∷ pos 1234567891 ∷ neg_ℤ (pos 500000001) ∷ [])
        ≡ pos 24465755455 ∷ neg_ℤ (pos 24465755455) ∷ pos 24 ∷ neg_ℤ (pos 24) ∷ pos 2422 ∷ neg_ℤ (pos 2422) ∷ pos 2446
        ∷ neg_ℤ (pos 2471) ∷ pos 30204636114 ∷ neg_ℤ (pos 12232877752) ∷ [] }
    ensures gpm { map (flow_ticks Gpm) (pos 1000000000 ∷ neg_ℤ (pos 1000000000) ∷ pos 1 ∷ neg_ℤ (pos 1) ∷ pos 99
        ∷ neg_ℤ (pos 99) ∷ pos 100
        ∷ neg_ℤ (pos 101) ∷ pos 1234567891 ∷ neg_ℤ (pos 500000001) ∷ [])
        ≡ pos 54509929 ∷ neg_ℤ (pos 54509929) ∷ pos 0 ∷ pos 0 ∷ pos 5 ∷ neg_ℤ (pos 5) ∷ pos 5 ∷ neg_ℤ (pos 5)
        ∷ pos 67296208
        ∷ neg_ℤ (pos 27254964) ∷ [] }
    ensures mgd { map (flow_ticks Mgd) (pos 1000000000 ∷ neg_ℤ (pos 1000000000) ∷ pos 1 ∷ neg_ℤ (pos 1) ∷ pos 99
        ∷ neg_ℤ (pos 99) ∷ pos 100
        ∷ neg_ℤ (pos 101) ∷ pos 1234567891 ∷ neg_ℤ (pos 500000001) ∷ [])
        ≡ pos 37854117840 ∷ neg_ℤ (pos 37854117840) ∷ pos 37 ∷ neg_ℤ (pos 37) ∷ pos 3747 ∷ neg_ℤ (pos 3747) ∷ pos 3785
        ∷ neg_ℤ (pos 3823) ∷ pos 46733478427 ∷ neg_ℤ (pos 18927058957) ∷ [] }
    ensures imgd { map (flow_ticks Imgd) (pos 1000000000 ∷ neg_ℤ (pos 1000000000) ∷ pos 1 ∷ neg_ℤ (pos 1) ∷ pos 99
        ∷ neg_ℤ (pos 99) ∷ pos 100
        ∷ neg_ℤ (pos 101) ∷ pos 1234567891 ∷ neg_ℤ (pos 500000001) ∷ [])
        ≡ pos 45460900000 ∷ neg_ℤ (pos 45460900000) ∷ pos 45 ∷ neg_ℤ (pos 45) ∷ pos 4500 ∷ neg_ℤ (pos 4500) ∷ pos 4546
        ∷ neg_ℤ (pos 4591) ∷ pos 56124567435 ∷ neg_ℤ (pos 22730450045) ∷ [] }
    ensures afd { map (flow_ticks Afd) (pos 1000000000 ∷ neg_ℤ (pos 1000000000) ∷ pos 1 ∷ neg_ℤ (pos 1) ∷ pos 99
        ∷ neg_ℤ (pos 99) ∷ pos 100
        ∷ neg_ℤ (pos 101) ∷ pos 1234567891 ∷ neg_ℤ (pos 500000001) ∷ [])
        ≡ pos 12334818375 ∷ neg_ℤ (pos 12334818375) ∷ pos 12 ∷ neg_ℤ (pos 12) ∷ pos 1221 ∷ neg_ℤ (pos 1221) ∷ pos 1233
        ∷ neg_ℤ (pos 1245) ∷ pos 15228170707 ∷ neg_ℤ (pos 6167409200) ∷ [] }
    ensures lps { map (flow_ticks Lps) (pos 1000000000 ∷ neg_ℤ (pos 1000000000) ∷ pos 1 ∷ neg_ℤ (pos 1) ∷ pos 99
        ∷ neg_ℤ (pos 99) ∷ pos 100
        ∷ neg_ℤ (pos 101) ∷ pos 1234567891 ∷ neg_ℤ (pos 500000001) ∷ [])
        ≡ pos 864000000 ∷ neg_ℤ (pos 864000000) ∷ pos 0 ∷ pos 0 ∷ pos 85 ∷ neg_ℤ (pos 85) ∷ pos 86 ∷ neg_ℤ (pos 87)
        ∷ pos 1066666657
        ∷ neg_ℤ (pos 432000000) ∷ [] }
    ensures lpm { map (flow_ticks Lpm) (pos 1000000000 ∷ neg_ℤ (pos 1000000000) ∷ pos 1 ∷ neg_ℤ (pos 1) ∷ pos 99
        ∷ neg_ℤ (pos 99) ∷ pos 100
        ∷ neg_ℤ (pos 101) ∷ pos 1234567891 ∷ neg_ℤ (pos 500000001) ∷ [])
        ≡ pos 14400000 ∷ neg_ℤ (pos 14400000) ∷ pos 0 ∷ pos 0 ∷ pos 1 ∷ neg_ℤ (pos 1) ∷ pos 1 ∷ neg_ℤ (pos 1)
        ∷ pos 17777777
        ∷ neg_ℤ (pos 7200000) ∷ [] }
    ensures mld { map (flow_ticks Mld) (pos 1000000000 ∷ neg_ℤ (pos 1000000000) ∷ pos 1 ∷ neg_ℤ (pos 1) ∷ pos 99
        ∷ neg_ℤ (pos 99) ∷ pos 100
        ∷ neg_ℤ (pos 101) ∷ pos 1234567891 ∷ neg_ℤ (pos 500000001) ∷ [])
        ≡ pos 10000000000 ∷ neg_ℤ (pos 10000000000) ∷ pos 10 ∷ neg_ℤ (pos 10) ∷ pos 990 ∷ neg_ℤ (pos 990) ∷ pos 1000
        ∷ neg_ℤ (pos 1010)
        ∷ pos 12345678910 ∷ neg_ℤ (pos 5000000010) ∷ [] }
    ensures cmh { map (flow_ticks Cmh) (pos 1000000000 ∷ neg_ℤ (pos 1000000000) ∷ pos 1 ∷ neg_ℤ (pos 1) ∷ pos 99
        ∷ neg_ℤ (pos 99) ∷ pos 100
        ∷ neg_ℤ (pos 101) ∷ pos 1234567891 ∷ neg_ℤ (pos 500000001) ∷ [])
        ≡ pos 240000000 ∷ neg_ℤ (pos 240000000) ∷ pos 0 ∷ pos 0 ∷ pos 23 ∷ neg_ℤ (pos 23) ∷ pos 24 ∷ neg_ℤ (pos 24)
        ∷ pos 296296293
        ∷ neg_ℤ (pos 120000000) ∷ [] }
    ensures cmd { map (flow_ticks Cmd) (pos 1000000000 ∷ neg_ℤ (pos 1000000000) ∷ pos 1 ∷ neg_ℤ (pos 1) ∷ pos 99
        ∷ neg_ℤ (pos 99) ∷ pos 100
        ∷ neg_ℤ (pos 101) ∷ pos 1234567891 ∷ neg_ℤ (pos 500000001) ∷ [])
        ≡ pos 10000000 ∷ neg_ℤ (pos 10000000) ∷ pos 0 ∷ pos 0 ∷ pos 0 ∷ pos 0 ∷ pos 1 ∷ neg_ℤ (pos 1) ∷ pos 12345678
        ∷ neg_ℤ (pos 5000000) ∷ [] }
{}

/// Pressures in pounds a square inch and in metres of water, in head ticks, rounded down and up.
pub fn pressures()
    ensures pounds_down { map (λ v. floor (record {
      num = pressure_numerator true v;
      den = pressure_denominator true;
    })) (pos 0 ∷ pos 1 ∷ neg_ℤ (pos 1)
        ∷ pos 1000000000 ∷ neg_ℤ (pos 4333) ∷ [])
        ≡ pos 0 ∷ pos 7034 ∷ neg_ℤ (pos 7035) ∷ pos 7034387260558 ∷ neg_ℤ (pos 30480000) ∷ [] }
    ensures pounds_up { map (λ v. ceiling (record {
      num = pressure_numerator true v;
      den = pressure_denominator true;
    })) (pos 0 ∷ pos 1 ∷ neg_ℤ (pos 1)
        ∷ pos 1000000000 ∷ neg_ℤ (pos 4333) ∷ [])
        ≡ pos 0 ∷ pos 7035 ∷ neg_ℤ (pos 7034) ∷ pos 7034387260559 ∷ neg_ℤ (pos 30480000) ∷ [] }
    ensures metres { map (pressure_numerator false) (pos 0 ∷ pos 1 ∷ neg_ℤ (pos 1) ∷ pos 1000000000 ∷ neg_ℤ (pos 4333)
        ∷ [])
        ≡ pos 0 ∷ pos 10000 ∷ neg_ℤ (pos 10000) ∷ pos 10000000000000 ∷ neg_ℤ (pos 43330000) ∷ [] }
{}

/// Printed numbers of four decimals.
pub fn decimals()
    ensures { map decimal_text (pos 0 ∷ pos 1 ∷ neg_ℤ (pos 1) ∷ pos 9999 ∷ neg_ℤ (pos 10000) ∷ pos 10001
        ∷ neg_ℤ (pos 123456789)
        ∷ pos 100000000000000000000 ∷ [])
        ≡ codes "0.0000" ∷ codes "0.0001" ∷ codes "-0.0001" ∷ codes "0.9999" ∷ codes "-1.0000" ∷ codes "1.0001"
        ∷ codes "-12345.6789"
        ∷ codes "10000000000000000.0000" ∷ [] }
{}

/// Printed settings, of nine decimals.
pub fn settings()
    ensures { map setting_text (0 ∷ 1 ∷ 1000000000 ∷ 1200000000 ∷ 999999999 ∷ 65123456789 ∷ [])
        ≡ codes "0.000000000" ∷ codes "0.000000001" ∷ codes "1.000000000" ∷ codes "1.200000000" ∷ codes "0.999999999"
        ∷ codes "65.123456789" ∷ [] }
{}

/// Printed times.
pub fn clocks()
    ensures { map clock_text (0 ∷ 59 ∷ 60 ∷ 3599 ∷ 3600 ∷ 86399 ∷ 86400 ∷ 360000 ∷ 5025 ∷ [])
        ≡ codes "0:00:00" ∷ codes "0:00:59" ∷ codes "0:01:00" ∷ codes "0:59:59" ∷ codes "1:00:00" ∷ codes "23:59:59"
        ∷ codes "24:00:00"
        ∷ codes "100:00:00" ∷ codes "1:23:45" ∷ [] }
{}

/// Whole numbers at most and at least a fraction.
pub fn rounded()
    ensures down { map floor (record { num = pos 7; den = 2 } ∷ record {
      num = neg_ℤ (pos 7);
      den = 2;
    } ∷ record { num = pos 8; den = 4 }
        ∷ record { num = neg_ℤ (pos 8); den = 4 } ∷ record { num = pos 0; den = 5 } ∷ record {
          num = neg_ℤ (pos 1);
          den = 4333;
        }
        ∷ record { num = pos 1; den = 4333 } ∷ record { num = neg_ℤ (pos 12); den = 5 } ∷ [])
        ≡ pos 3 ∷ neg_ℤ (pos 4) ∷ pos 2 ∷ neg_ℤ (pos 2) ∷ pos 0 ∷ neg_ℤ (pos 1) ∷ pos 0 ∷ neg_ℤ (pos 3) ∷ [] }
    ensures up { map ceiling (record { num = pos 7; den = 2 } ∷ record {
      num = neg_ℤ (pos 7);
      den = 2;
    } ∷ record { num = pos 8; den = 4 }
        ∷ record { num = neg_ℤ (pos 8); den = 4 } ∷ record { num = pos 0; den = 5 } ∷ record {
          num = neg_ℤ (pos 1);
          den = 4333;
        }
        ∷ record { num = pos 1; den = 4333 } ∷ record { num = neg_ℤ (pos 12); den = 5 } ∷ [])
        ≡ pos 4 ∷ neg_ℤ (pos 3) ∷ pos 2 ∷ neg_ℤ (pos 2) ∷ pos 0 ∷ pos 0 ∷ pos 1 ∷ neg_ℤ (pos 2) ∷ [] }
{}

/// Heads and pressures as they are printed: the ends of an interval are rounded outward.
pub fn printed_heads()
    ensures head_feet_down { map (λ t. decimal_text (floor (record {
      num = pos (10 ^ 4) *ℤ (head_quantity true t).num;
      den = (head_quantity true t).den;
    }))) (pos 0
        ∷ pos 1 ∷ neg_ℤ (pos 1) ∷ pos 1000000000 ∷ neg_ℤ (pos 1000000001) ∷ pos 304800000 ∷ pos 304800001
        ∷ pos 10000000000005
        ∷ [])
        ≡ codes "0.0000" ∷ codes "0.0000" ∷ codes "-0.0001" ∷ codes "0.0003" ∷ codes "-0.0004" ∷ codes "0.0001"
        ∷ codes "0.0001"
        ∷ codes "3.2808" ∷ [] }
    ensures pressure_feet_down { map (λ t. decimal_text (floor (record {
      num = pos (10 ^ 4) *ℤ (pressure_quantity true t).num;
      den = (pressure_quantity true t).den;
    }))) (pos 0
        ∷ pos 1 ∷ neg_ℤ (pos 1) ∷ pos 1000000000 ∷ neg_ℤ (pos 1000000001) ∷ pos 304800000 ∷ pos 304800001
        ∷ pos 10000000000005
        ∷ [])
        ≡ codes "0.0000" ∷ codes "0.0000" ∷ codes "-0.0001" ∷ codes "0.0001" ∷ codes "-0.0002" ∷ codes "0.0000"
        ∷ codes "0.0000"
        ∷ codes "1.4215" ∷ [] }
    ensures head_feet_up { map (λ t. decimal_text (ceiling (record {
      num = pos (10 ^ 4) *ℤ (head_quantity true t).num;
      den = (head_quantity true t).den;
    }))) (pos 0
        ∷ pos 1 ∷ neg_ℤ (pos 1) ∷ pos 1000000000 ∷ neg_ℤ (pos 1000000001) ∷ pos 304800000 ∷ pos 304800001
        ∷ pos 10000000000005
        ∷ [])
        ≡ codes "0.0000" ∷ codes "0.0001" ∷ codes "0.0000" ∷ codes "0.0004" ∷ codes "-0.0003" ∷ codes "0.0001"
        ∷ codes "0.0002"
        ∷ codes "3.2809" ∷ [] }
    ensures pressure_feet_up { map (λ t. decimal_text (ceiling (record {
      num = pos (10 ^ 4) *ℤ (pressure_quantity true t).num;
      den = (pressure_quantity true t).den;
    }))) (pos 0
        ∷ pos 1 ∷ neg_ℤ (pos 1) ∷ pos 1000000000 ∷ neg_ℤ (pos 1000000001) ∷ pos 304800000 ∷ pos 304800001
        ∷ pos 10000000000005
        ∷ [])
        ≡ codes "0.0000" ∷ codes "0.0001" ∷ codes "0.0000" ∷ codes "0.0002" ∷ codes "-0.0001" ∷ codes "0.0001"
        ∷ codes "0.0001"
        ∷ codes "1.4216" ∷ [] }
    ensures head_metres_down { map (λ t. decimal_text (floor (record {
      num = pos (10 ^ 4) *ℤ (head_quantity false t).num;
      den = (head_quantity false t).den;
    }))) (pos 0
        ∷ pos 1 ∷ neg_ℤ (pos 1) ∷ pos 1000000000 ∷ neg_ℤ (pos 1000000001) ∷ pos 304800000 ∷ pos 304800001
        ∷ pos 10000000000005
        ∷ [])
        ≡ codes "0.0000" ∷ codes "0.0000" ∷ codes "-0.0001" ∷ codes "0.0001" ∷ codes "-0.0002" ∷ codes "0.0000"
        ∷ codes "0.0000"
        ∷ codes "1.0000" ∷ [] }
    ensures pressure_metres_down { map (λ t. decimal_text (floor (record {
      num = pos (10 ^ 4) *ℤ (pressure_quantity false t).num;
      den = (pressure_quantity false t).den;
    }))) (pos 0
        ∷ pos 1 ∷ neg_ℤ (pos 1) ∷ pos 1000000000 ∷ neg_ℤ (pos 1000000001) ∷ pos 304800000 ∷ pos 304800001
        ∷ pos 10000000000005
        ∷ [])
        ≡ codes "0.0000" ∷ codes "0.0000" ∷ codes "-0.0001" ∷ codes "0.0001" ∷ codes "-0.0002" ∷ codes "0.0000"
        ∷ codes "0.0000"
        ∷ codes "1.0000" ∷ [] }
    ensures head_metres_up { map (λ t. decimal_text (ceiling (record {
      num = pos (10 ^ 4) *ℤ (head_quantity false t).num;
      den = (head_quantity false t).den;
    }))) (pos 0
        ∷ pos 1 ∷ neg_ℤ (pos 1) ∷ pos 1000000000 ∷ neg_ℤ (pos 1000000001) ∷ pos 304800000 ∷ pos 304800001
        ∷ pos 10000000000005
        ∷ [])
        ≡ codes "0.0000" ∷ codes "0.0001" ∷ codes "0.0000" ∷ codes "0.0001" ∷ codes "-0.0001" ∷ codes "0.0001"
        ∷ codes "0.0001"
        ∷ codes "1.0001" ∷ [] }
    ensures pressure_metres_up { map (λ t. decimal_text (ceiling (record {
      num = pos (10 ^ 4) *ℤ (pressure_quantity false t).num;
      den = (pressure_quantity false t).den;
    }))) (pos 0
        ∷ pos 1 ∷ neg_ℤ (pos 1) ∷ pos 1000000000 ∷ neg_ℤ (pos 1000000001) ∷ pos 304800000 ∷ pos 304800001
        ∷ pos 10000000000005
        ∷ [])
        ≡ codes "0.0000" ∷ codes "0.0001" ∷ codes "0.0000" ∷ codes "0.0001" ∷ codes "-0.0001" ∷ codes "0.0001"
        ∷ codes "0.0001"
        ∷ codes "1.0001" ∷ [] }
{}

/// Flows as they are printed in each unit, rounded outward.
pub fn printed_flows()
    ensures cfs_down { map (λ t. decimal_text (floor (record {
      num = pos (10 ^ 4) *ℤ (flow_quantity Cfs t).num;
      den = (flow_quantity Cfs t).den;
    }))) (pos 0
        ∷ pos 1 ∷ neg_ℤ (pos 1) ∷ pos 999 ∷ neg_ℤ (pos 1000) ∷ pos 123456789 ∷ neg_ℤ (pos 24465755455488) ∷ [])
        ≡ codes "0.0000" ∷ codes "0.0000" ∷ codes "-0.0001" ∷ codes "0.0000" ∷ codes "-0.0001" ∷ codes "0.0050"
        ∷ codes "-1000.0000"
        ∷ [] }
    ensures cfs_up { map (λ t. decimal_text (ceiling (record {
      num = pos (10 ^ 4) *ℤ (flow_quantity Cfs t).num;
      den = (flow_quantity Cfs t).den;
    }))) (pos 0
        ∷ pos 1 ∷ neg_ℤ (pos 1) ∷ pos 999 ∷ neg_ℤ (pos 1000) ∷ pos 123456789 ∷ neg_ℤ (pos 24465755455488) ∷ [])
        ≡ codes "0.0000" ∷ codes "0.0001" ∷ codes "0.0000" ∷ codes "0.0001" ∷ codes "0.0000" ∷ codes "0.0051"
        ∷ codes "-1000.0000" ∷ [] }
    ensures gpm_down { map (λ t. decimal_text (floor (record {
      num = pos (10 ^ 4) *ℤ (flow_quantity Gpm t).num;
      den = (flow_quantity Gpm t).den;
    }))) (pos 0
        ∷ pos 1 ∷ neg_ℤ (pos 1) ∷ pos 999 ∷ neg_ℤ (pos 1000) ∷ pos 123456789 ∷ neg_ℤ (pos 24465755455488) ∷ [])
        ≡ codes "0.0000" ∷ codes "0.0000" ∷ codes "-0.0001" ∷ codes "0.0000" ∷ codes "-0.0001" ∷ codes "2.2648"
        ∷ codes "-448831.1689"
        ∷ [] }
    ensures gpm_up { map (λ t. decimal_text (ceiling (record {
      num = pos (10 ^ 4) *ℤ (flow_quantity Gpm t).num;
      den = (flow_quantity Gpm t).den;
    }))) (pos 0
        ∷ pos 1 ∷ neg_ℤ (pos 1) ∷ pos 999 ∷ neg_ℤ (pos 1000) ∷ pos 123456789 ∷ neg_ℤ (pos 24465755455488) ∷ [])
        ≡ codes "0.0000" ∷ codes "0.0001" ∷ codes "0.0000" ∷ codes "0.0001" ∷ codes "0.0000" ∷ codes "2.2649"
        ∷ codes "-448831.1688"
        ∷ [] }
    ensures mgd_down { map (λ t. decimal_text (floor (record {
      num = pos (10 ^ 4) *ℤ (flow_quantity Mgd t).num;
      den = (flow_quantity Mgd t).den;
    }))) (pos 0
        ∷ pos 1 ∷ neg_ℤ (pos 1) ∷ pos 999 ∷ neg_ℤ (pos 1000) ∷ pos 123456789 ∷ neg_ℤ (pos 24465755455488) ∷ [])
        ≡ codes "0.0000" ∷ codes "0.0000" ∷ codes "-0.0001" ∷ codes "0.0000" ∷ codes "-0.0001" ∷ codes "0.0032"
        ∷ codes "-646.3169"
        ∷ [] }
    ensures mgd_up { map (λ t. decimal_text (ceiling (record {
      num = pos (10 ^ 4) *ℤ (flow_quantity Mgd t).num;
      den = (flow_quantity Mgd t).den;
    }))) (pos 0
        ∷ pos 1 ∷ neg_ℤ (pos 1) ∷ pos 999 ∷ neg_ℤ (pos 1000) ∷ pos 123456789 ∷ neg_ℤ (pos 24465755455488) ∷ [])
        ≡ codes "0.0000" ∷ codes "0.0001" ∷ codes "0.0000" ∷ codes "0.0001" ∷ codes "0.0000" ∷ codes "0.0033"
        ∷ codes "-646.3168" ∷ [] }
    ensures imgd_down { map (λ t. decimal_text (floor (record {
      num = pos (10 ^ 4) *ℤ (flow_quantity Imgd t).num;
      den = (flow_quantity Imgd t).den;
    }))) (pos 0
        ∷ pos 1 ∷ neg_ℤ (pos 1) ∷ pos 999 ∷ neg_ℤ (pos 1000) ∷ pos 123456789 ∷ neg_ℤ (pos 24465755455488) ∷ [])
        ≡ codes "0.0000" ∷ codes "0.0000" ∷ codes "-0.0001" ∷ codes "0.0000" ∷ codes "-0.0001" ∷ codes "0.0027"
        ∷ codes "-538.1714"
        ∷ [] }
    ensures imgd_up { map (λ t. decimal_text (ceiling (record {
      num = pos (10 ^ 4) *ℤ (flow_quantity Imgd t).num;
      den = (flow_quantity Imgd t).den;
    }))) (pos 0
        ∷ pos 1 ∷ neg_ℤ (pos 1) ∷ pos 999 ∷ neg_ℤ (pos 1000) ∷ pos 123456789 ∷ neg_ℤ (pos 24465755455488) ∷ [])
        ≡ codes "0.0000" ∷ codes "0.0001" ∷ codes "0.0000" ∷ codes "0.0001" ∷ codes "0.0000" ∷ codes "0.0028"
        ∷ codes "-538.1713" ∷ [] }
    ensures afd_down { map (λ t. decimal_text (floor (record {
      num = pos (10 ^ 4) *ℤ (flow_quantity Afd t).num;
      den = (flow_quantity Afd t).den;
    }))) (pos 0
        ∷ pos 1 ∷ neg_ℤ (pos 1) ∷ pos 999 ∷ neg_ℤ (pos 1000) ∷ pos 123456789 ∷ neg_ℤ (pos 24465755455488) ∷ [])
        ≡ codes "0.0000" ∷ codes "0.0000" ∷ codes "-0.0001" ∷ codes "0.0000" ∷ codes "-0.0001" ∷ codes "0.0100"
        ∷ codes "-1983.4711"
        ∷ [] }
    ensures afd_up { map (λ t. decimal_text (ceiling (record {
      num = pos (10 ^ 4) *ℤ (flow_quantity Afd t).num;
      den = (flow_quantity Afd t).den;
    }))) (pos 0
        ∷ pos 1 ∷ neg_ℤ (pos 1) ∷ pos 999 ∷ neg_ℤ (pos 1000) ∷ pos 123456789 ∷ neg_ℤ (pos 24465755455488) ∷ [])
        ≡ codes "0.0000" ∷ codes "0.0001" ∷ codes "0.0000" ∷ codes "0.0001" ∷ codes "0.0000" ∷ codes "0.0101"
        ∷ codes "-1983.4710" ∷ [] }
    ensures lps_down { map (λ t. decimal_text (floor (record {
      num = pos (10 ^ 4) *ℤ (flow_quantity Lps t).num;
      den = (flow_quantity Lps t).den;
    }))) (pos 0
        ∷ pos 1 ∷ neg_ℤ (pos 1) ∷ pos 999 ∷ neg_ℤ (pos 1000) ∷ pos 123456789 ∷ neg_ℤ (pos 24465755455488) ∷ [])
        ≡ codes "0.0000" ∷ codes "0.0000" ∷ codes "-0.0001" ∷ codes "0.0000" ∷ codes "-0.0001" ∷ codes "0.1428"
        ∷ codes "-28316.8466"
        ∷ [] }
    ensures lps_up { map (λ t. decimal_text (ceiling (record {
      num = pos (10 ^ 4) *ℤ (flow_quantity Lps t).num;
      den = (flow_quantity Lps t).den;
    }))) (pos 0
        ∷ pos 1 ∷ neg_ℤ (pos 1) ∷ pos 999 ∷ neg_ℤ (pos 1000) ∷ pos 123456789 ∷ neg_ℤ (pos 24465755455488) ∷ [])
        ≡ codes "0.0000" ∷ codes "0.0001" ∷ codes "0.0000" ∷ codes "0.0001" ∷ codes "0.0000" ∷ codes "0.1429"
        ∷ codes "-28316.8465"
        ∷ [] }
    ensures lpm_down { map (λ t. decimal_text (floor (record {
      num = pos (10 ^ 4) *ℤ (flow_quantity Lpm t).num;
      den = (flow_quantity Lpm t).den;
    }))) (pos 0
        ∷ pos 1 ∷ neg_ℤ (pos 1) ∷ pos 999 ∷ neg_ℤ (pos 1000) ∷ pos 123456789 ∷ neg_ℤ (pos 24465755455488) ∷ [])
        ≡ codes "0.0000" ∷ codes "0.0000" ∷ codes "-0.0001" ∷ codes "0.0000" ∷ codes "-0.0001" ∷ codes "8.5733"
        ∷ codes "-1699010.7956"
        ∷ [] }
    ensures lpm_up { map (λ t. decimal_text (ceiling (record {
      num = pos (10 ^ 4) *ℤ (flow_quantity Lpm t).num;
      den = (flow_quantity Lpm t).den;
    }))) (pos 0
        ∷ pos 1 ∷ neg_ℤ (pos 1) ∷ pos 999 ∷ neg_ℤ (pos 1000) ∷ pos 123456789 ∷ neg_ℤ (pos 24465755455488) ∷ [])
        ≡ codes "0.0000" ∷ codes "0.0001" ∷ codes "0.0000" ∷ codes "0.0001" ∷ codes "0.0000" ∷ codes "8.5734"
        ∷ codes "-1699010.7955"
        ∷ [] }
    ensures mld_down { map (λ t. decimal_text (floor (record {
      num = pos (10 ^ 4) *ℤ (flow_quantity Mld t).num;
      den = (flow_quantity Mld t).den;
    }))) (pos 0
        ∷ pos 1 ∷ neg_ℤ (pos 1) ∷ pos 999 ∷ neg_ℤ (pos 1000) ∷ pos 123456789 ∷ neg_ℤ (pos 24465755455488) ∷ [])
        ≡ codes "0.0000" ∷ codes "0.0000" ∷ codes "-0.0001" ∷ codes "0.0000" ∷ codes "-0.0001" ∷ codes "0.0123"
        ∷ codes "-2446.5756"
        ∷ [] }
    ensures mld_up { map (λ t. decimal_text (ceiling (record {
      num = pos (10 ^ 4) *ℤ (flow_quantity Mld t).num;
      den = (flow_quantity Mld t).den;
    }))) (pos 0
        ∷ pos 1 ∷ neg_ℤ (pos 1) ∷ pos 999 ∷ neg_ℤ (pos 1000) ∷ pos 123456789 ∷ neg_ℤ (pos 24465755455488) ∷ [])
        ≡ codes "0.0000" ∷ codes "0.0001" ∷ codes "0.0000" ∷ codes "0.0001" ∷ codes "0.0000" ∷ codes "0.0124"
        ∷ codes "-2446.5755" ∷ [] }
    ensures cmh_down { map (λ t. decimal_text (floor (record {
      num = pos (10 ^ 4) *ℤ (flow_quantity Cmh t).num;
      den = (flow_quantity Cmh t).den;
    }))) (pos 0
        ∷ pos 1 ∷ neg_ℤ (pos 1) ∷ pos 999 ∷ neg_ℤ (pos 1000) ∷ pos 123456789 ∷ neg_ℤ (pos 24465755455488) ∷ [])
        ≡ codes "0.0000" ∷ codes "0.0000" ∷ codes "-0.0001" ∷ codes "0.0000" ∷ codes "-0.0001" ∷ codes "0.5144"
        ∷ codes "-101940.6478"
        ∷ [] }
    ensures cmh_up { map (λ t. decimal_text (ceiling (record {
      num = pos (10 ^ 4) *ℤ (flow_quantity Cmh t).num;
      den = (flow_quantity Cmh t).den;
    }))) (pos 0
        ∷ pos 1 ∷ neg_ℤ (pos 1) ∷ pos 999 ∷ neg_ℤ (pos 1000) ∷ pos 123456789 ∷ neg_ℤ (pos 24465755455488) ∷ [])
        ≡ codes "0.0000" ∷ codes "0.0001" ∷ codes "0.0000" ∷ codes "0.0001" ∷ codes "0.0000" ∷ codes "0.5145"
        ∷ codes "-101940.6477"
        ∷ [] }
    ensures cmd_down { map (λ t. decimal_text (floor (record {
      num = pos (10 ^ 4) *ℤ (flow_quantity Cmd t).num;
      den = (flow_quantity Cmd t).den;
    }))) (pos 0
        ∷ pos 1 ∷ neg_ℤ (pos 1) ∷ pos 999 ∷ neg_ℤ (pos 1000) ∷ pos 123456789 ∷ neg_ℤ (pos 24465755455488) ∷ [])
        ≡ codes "0.0000" ∷ codes "0.0000" ∷ codes "-0.0001" ∷ codes "0.0000" ∷ codes "-0.0001" ∷ codes "12.3456"
        ∷ codes "-2446575.5456" ∷ [] }
    ensures cmd_up { map (λ t. decimal_text (ceiling (record {
      num = pos (10 ^ 4) *ℤ (flow_quantity Cmd t).num;
      den = (flow_quantity Cmd t).den;
    }))) (pos 0
        ∷ pos 1 ∷ neg_ℤ (pos 1) ∷ pos 999 ∷ neg_ℤ (pos 1000) ∷ pos 123456789 ∷ neg_ℤ (pos 24465755455488) ∷ [])
        ≡ codes "0.0000" ∷ codes "0.0001" ∷ codes "0.0000" ∷ codes "0.0001" ∷ codes "-0.0001" ∷ codes "12.3457"
        ∷ codes "-2446575.5455"
        ∷ [] }
{}

/// Each unit in cubic metres a day, and which go with feet, inches and pounds a square inch.
pub fn units()
    ensures factors { map flow_factor (Cfs ∷ Gpm ∷ Mgd ∷ Imgd ∷ Afd ∷ Lps ∷ Lpm ∷ Mld ∷ Cmh ∷ Cmd ∷ [])
        ≡ (record { num = 24465755455488; den = 10000000000 }) ∷ (record { num = 545099296896; den = 100000000000 })
        ∷ (record { num = 3785411784; den = 1000000 }) ∷ (record { num = 454609; den = 100 })
        ∷ (record { num = 123348183754752; den = 100000000000 }) ∷ (record { num = 864; den = 10 })
        ∷ (record { num = 144; den = 100 }) ∷ (record { num = 1000; den = 1 }) ∷ (record { num = 24; den = 1 })
        ∷ (record { num = 1; den = 1 }) ∷ [] }
    ensures us { map is_us_unit (Cfs ∷ Gpm ∷ Mgd ∷ Imgd ∷ Afd ∷ Lps ∷ Lpm ∷ Mld ∷ Cmh ∷ Cmd ∷ [])
        ≡ true ∷ true ∷ true ∷ true ∷ true ∷ false ∷ false ∷ false ∷ false ∷ false ∷ [] }
{}
