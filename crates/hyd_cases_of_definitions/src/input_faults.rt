//! Small texts of input files, each with the line and cause of its fault, as an independent reader has them.
#![tactic(auto, unfolding(hyd_spec_lines::specs::Lines::items_of, hyd_spec_lines::specs::Lines::kind_of, hyd_spec_lines::specs::Headings::read_section, hyd_spec_lines::specs::Headings::is_passed_over, hyd_spec_lines::specs::Headings::heading_kind, hyd_spec_lines::specs::WordsOfLines::words_in, hyd_spec_lines::specs::WordsOfLines::is_keyword, hyd_num::specs::Numeral::is_numeral, hyd_num::specs::Numeral::magnitude_of, hyd_num::specs::Numeral::nano_of, hyd_spec_input::specs::Keywords::flow_unit, hyd_spec_input::specs::Keywords::option_word, hyd_spec_input::specs::Keywords::time_word, hyd_spec_input::specs::Keywords::link_word, hyd_spec_input::specs::Keywords::node_word, hyd_spec_input::specs::Keywords::object_word, hyd_spec_input::specs::Keywords::attribute_word, hyd_spec_input::specs::Keywords::relation_word, hyd_spec_input::specs::Keywords::rule_word, hyd_spec_input::specs::TimesAndClockTimes::unit_seconds))]

ghost use Rattle.std.specs.Prelude.{◌≡◌, ◌++◌, codes, replicate, Some, None};
ghost use Rattle.hyd_net.specs.declared.refusal_cause.Cause.TheVariants.{Syntax, Number, Range, DuplicateId};
ghost use Rattle.hyd_net.specs.declared.refusal_cause.Cause.TheVariants.{UnknownName};
ghost use Rattle.hyd_net.specs.declared.refusal_cause.Cause.TheVariants.{Unsupported, Limit, Missing};
ghost use Rattle.hyd_cases_of_definitions.specs.Input.{fault_of, front, one_valve, town, pump_with, valve_with};
ghost use Rattle.hyd_cases_of_definitions.specs.Input.{tank_with, tanks};
ghost use Rattle.hyd_cases_of_definitions.specs.Input.{every_section, great_emitter};
ghost use Rattle.hyd_spec_input.specs.Faults.{IsFault};

/// Texts without a fault: one that has every section and every kind of row, and a valve.
pub fn whole_texts()
    ensures every_section { fault_of every_section ≡ None }
    ensures one_valve { fault_of one_valve ≡ None }
{}

/// Faults of lines: a word before the first heading, headings of no section or of two words, bytes that aren't plain.
/// After [END] nothing is read.
pub fn lines()
    ensures no_section { fault_of (codes "J 0\n[JUNCTIONS]") ≡ Some (1, Syntax) }
    ensures unknown_section { fault_of (codes "[TITLE]\n[SEGMENTS]") ≡ Some (2, Syntax) }
    ensures two_words { fault_of (codes "[PIPES] x") ≡ Some (1, Syntax) }
    ensures delete { fault_of (codes "[PIPES]\nP\u{7f}") ≡ Some (2, Syntax) }
    ensures after_a_row { fault_of (codes "[JUNCTIONS]\nJ x\n[SEGMENTS]") ≡ Some (2, Number) }
    ensures after_the_end { fault_of (codes "[END]\n[SEGMENTS]") ≡ Some (0, Unsupported 1) }
{}

/// Rows of nodes that are wrong by themselves: too few and too many words, no number, an ID of 32 bytes, levels out
/// of order, a diameter out of range, another word than YES or NO.
pub fn nodes()
    ensures too_few { fault_of (codes "[JUNCTIONS]\nJ") ≡ Some (2, Syntax) }
    ensures too_many { fault_of (codes "[JUNCTIONS]\nJ 0 1 P x") ≡ Some (2, Syntax) }
    ensures no_number { fault_of (codes "[JUNCTIONS]\nJ x") ≡ Some (2, Number) }
    ensures great_number { fault_of (codes "[RESERVOIRS]\nR 1000000000001") ≡ Some (2, Number) }
    ensures long_id { fault_of (codes "[RESERVOIRS]\nIIIIIIIIIIIIIIIIIIIIIIIIIIIIIIII 1") ≡ Some (2, Limit 3) }
    ensures levels { fault_of (codes "[TANKS]\nT 0 5 6 10 20") ≡ Some (2, Range) }
    ensures negative_level { fault_of (codes "[TANKS]\nT 0 -1 0 10 20") ≡ Some (2, Range) }
    ensures small_diameter { fault_of (codes "[TANKS]\nT 0 5 0 10 0.09") ≡ Some (2, Range) }
    ensures any_diameter_with_a_curve { fault_of (tank_with (codes "C 0 0\nC 10 500\n")) ≡ None }
    ensures overflow { fault_of (codes "[TANKS]\nT 0 5 0 10 20 0 * MAYBE") ≡ Some (2, Syntax) }
{}

/// Rows of links that are wrong by themselves: ends that are one, a length of 0, another status, constant power, a
/// keyword twice, no curve, a speed above 10, valves that aren't supported, a loss coefficient below 0.
pub fn links()
    ensures one_end { fault_of (codes "[PIPES]\nP A A 1 1 1") ≡ Some (2, Range) }
    ensures no_length { fault_of (codes "[PIPES]\nP A B 0 1 1") ≡ Some (2, Range) }
    ensures status { fault_of (codes "[PIPES]\nP A B 1 1 1 0 SHUT") ≡ Some (2, Syntax) }
    ensures coefficient_or_status { fault_of (codes "[PIPES]\nP A B 1 1 1 SHUT") ≡ Some (2, Number) }
    ensures power { fault_of (codes "[PUMPS]\nU A B POWER 5") ≡ Some (2, Unsupported 3) }
    ensures twice { fault_of (codes "[PUMPS]\nU A B HEAD C HEAD C") ≡ Some (2, Syntax) }
    ensures no_curve { fault_of (codes "[PUMPS]\nU A B SPEED 1") ≡ Some (2, Syntax) }
    ensures speed { fault_of (codes "[PUMPS]\nU A B SPEED 11 HEAD C") ≡ Some (2, Range) }
    ensures unpaired { fault_of (codes "[PUMPS]\nU A B HEAD C SPEED") ≡ Some (2, Syntax) }
    ensures reducing { fault_of (codes "[VALVES]\nV A B 300 PRV 5") ≡ Some (2, Unsupported 2) }
    ensures unknown_type { fault_of (codes "[VALVES]\nV A B 300 XYZ 5") ≡ Some (2, Syntax) }
    ensures setting { fault_of (codes "[VALVES]\nV A B 300 TCV -1") ≡ Some (2, Range) }
{}

/// The roughness of a pipe, by the last line of HEADLOSS, wherever it stands in the text: a Hazen-Williams coefficient
/// is judged with the other rows.
pub fn roughness()
    ensures manning { fault_of (codes "[PIPES]\nP A B 1 1 100\n[OPTIONS]\nHEADLOSS C-M") ≡ Some (2, Range) }
    ensures last { fault_of (codes "[PIPES]\nP A B 1 1 100\n[OPTIONS]\nHEADLOSS H-W\nHEADLOSS C-M") ≡ Some (2, Range) }
    ensures behind_a_fault { fault_of (codes "[PIPES]\nP A B 1 1 100\n[X]\n[OPTIONS]\nHEADLOSS H-W") ≡ Some (3, Syntax) }
    ensures no_section { fault_of (codes "[PIPES]\nP A B 1 1 100\n[X]\nHEADLOSS H-W") ≡ Some (2, Range) }
    ensures great { fault_of (codes "[RESERVOIRS]\nA 1\nB 2\n[PIPES]\nP A B 1 1 10001\n[OPTIONS]\nHEADLOSS H-W")
        ≡ Some (5, Range) }
    ensures greatest { fault_of (codes "[RESERVOIRS]\nA 1\nB 2\n[PIPES]\nP A B 1 1 10000\n[OPTIONS]\nHEADLOSS H-W")
        ≡ None }
{}

/// Rows of demands, emitters, curves, patterns and states that are wrong by themselves.
pub fn belongings()
    ensures demand { fault_of (codes "[DEMANDS]\nJ 1 P c x") ≡ Some (2, Syntax) }
    ensures emitter { fault_of (codes "[EMITTERS]\nJ -1") ≡ Some (2, Range) }
    ensures curve { fault_of (codes "[CURVES]\nC 1") ≡ Some (2, Syntax) }
    ensures pattern { fault_of (codes "[PATTERNS]\nP 1 1000001") ≡ Some (2, Range) }
    ensures no_multiplier { fault_of (codes "[PATTERNS]\nP") ≡ Some (2, Syntax) }
    ensures state { fault_of (codes "[STATUS]\nP AJAR") ≡ Some (2, Number) }
{}

/// Lines of options that are wrong or not supported.
pub fn options()
    ensures no_option { fault_of (codes "[OPTIONS]\nSEGMENTS 1") ≡ Some (2, Syntax) }
    ensures unit { fault_of (codes "[OPTIONS]\nUNITS CMS") ≡ Some (2, Syntax) }
    ensures head_loss { fault_of (codes "[OPTIONS]\nHEADLOSS D-W") ≡ Some (2, Unsupported 1) }
    ensures multiplier { fault_of (codes "[OPTIONS]\nDEMAND MULTIPLIER -1") ≡ Some (2, Range) }
    ensures model { fault_of (codes "[OPTIONS]\nDEMAND MODEL PDD") ≡ Some (2, Syntax) }
    ensures pressure_exponent { fault_of (codes "[OPTIONS]\nPRESSURE EXPONENT 0.6") ≡ Some (2, Unsupported 6) }
    ensures emitter_exponent { fault_of (codes "[OPTIONS]\nEMITTER EXPONENT 0.6") ≡ Some (2, Unsupported 5) }
    ensures gravity { fault_of (codes "[OPTIONS]\nSPECIFIC GRAVITY 0.9") ≡ Some (2, Unsupported 7) }
    ensures kilopascals { fault_of (codes "[OPTIONS]\nPRESSURE KPA") ≡ Some (2, Unsupported 13) }
    ensures unused { fault_of (codes "[OPTIONS]\nMAP any words") ≡ Some (0, Unsupported 1) }
{}

/// Lines of times that are wrong: minutes of 60, another unit, a unit behind a colon, a time above 10^8 seconds, a
/// step of no second, 13 PM.
pub fn times()
    ensures minutes { fault_of (codes "[TIMES]\nDURATION 1:60") ≡ Some (2, Syntax) }
    ensures unit { fault_of (codes "[TIMES]\nDURATION 1 WEEK") ≡ Some (2, Syntax) }
    ensures unit_and_colon { fault_of (codes "[TIMES]\nDURATION 1:00 HOURS") ≡ Some (2, Syntax) }
    ensures long { fault_of (codes "[TIMES]\nDURATION 100000001 SEC") ≡ Some (2, Range) }
    ensures step { fault_of (codes "[TIMES]\nRULE TIMESTEP 0.9 SEC") ≡ Some (2, Range) }
    ensures hour { fault_of (codes "[TIMES]\nSTART CLOCKTIME 13 PM") ≡ Some (2, Range) }
    ensures range_before_a_further_word { fault_of (codes "[TIMES]\nDURATION -1 SEC x") ≡ Some (2, Range) }
    ensures unused { fault_of (codes "[TIMES]\nSTATISTIC NONE") ≡ Some (0, Unsupported 1) }
{}

/// Lines of controls that are wrong by themselves.
pub fn controls()
    ensures object { fault_of (codes "[CONTROLS]\nNODE P OPEN AT TIME 1") ≡ Some (2, Syntax) }
    ensures state { fault_of (codes "[CONTROLS]\nLINK P AJAR AT TIME 1") ≡ Some (2, Number) }
    ensures moment { fault_of (codes "[CONTROLS]\nLINK P OPEN AT NOON") ≡ Some (2, Syntax) }
    ensures time { fault_of (codes "[CONTROLS]\nLINK P OPEN AT TIME -1") ≡ Some (2, Range) }
    ensures level { fault_of (codes "[CONTROLS]\nLINK P OPEN IF NODE T ABOVE x") ≡ Some (2, Number) }
{}

/// Lines of rules that are wrong by themselves: out of order, without THEN, attributes and relations that their
/// object can't have or that aren't supported.
pub fn rules()
    ensures no_rule { fault_of (codes "[RULES]\nIF SYSTEM TIME > 1") ≡ Some (2, Syntax) }
    ensures no_if { fault_of (codes "[RULES]\nRULE 1\nTHEN PIPE P STATUS IS OPEN") ≡ Some (3, Syntax) }
    ensures no_then { fault_of (codes "[RULES]\nRULE 1\nIF SYSTEM TIME > x\nRULE 2") ≡ Some (2, Syntax) }
    ensures order { fault_of (
        codes "[RULES]\nRULE 1\nIF SYSTEM TIME > 1\nTHEN PIPE P STATUS IS OPEN\nIF SYSTEM TIME > 2")
        ≡ Some (5, Syntax) }
    ensures attribute { fault_of (codes "[RULES]\nRULE 1\nIF RESERVOIR R PRESSURE > 1\nTHEN PIPE P STATUS IS OPEN")
        ≡ Some (3, Syntax) }
    ensures unsupported_attribute { fault_of (
        codes "[RULES]\nRULE 1\nIF NODE J DEMAND > 1\nTHEN PIPE P STATUS IS OPEN")
        ≡ Some (3, Unsupported 10) }
    ensures equal_heads { fault_of (codes "[RULES]\nRULE 1\nIF NODE J HEAD = 1\nTHEN PIPE P STATUS IS OPEN")
        ≡ Some (3, Unsupported 10) }
    ensures greater_status { fault_of (codes "[RULES]\nRULE 1\nIF LINK P STATUS > OPEN\nTHEN PIPE P STATUS IS OPEN")
        ≡ Some (3, Syntax) }
    ensures setting_of_a_pipe { fault_of (codes "[RULES]\nRULE 1\nIF SYSTEM TIME > 1\nTHEN PIPE P SETTING IS 5")
        ≡ Some (4, Syntax) }
{}

/// Rows that are wrong with the others: an ID twice, names that nothing has or that something of another kind has.
pub fn names()
    ensures repeated_node { fault_of (front ++
        codes "[JUNCTIONS]\nJ 0 1000\nJ 0 0\n[RESERVOIRS]\nR 100\n[VALVES]\nV R J 304.8 TCV 100 0\n")
        ≡ Some (6, DuplicateId) }
    ensures no_node { fault_of (front ++
        codes "[JUNCTIONS]\nJ 0 1000\n[RESERVOIRS]\nR 100\n[VALVES]\nV R K 304.8 TCV 100 0\n")
        ≡ Some (9, UnknownName) }
    ensures no_pattern { fault_of (front ++ codes "[JUNCTIONS]\nJ 0 1 Q") ≡ Some (5, UnknownName) }
    ensures no_curve { fault_of (front ++ codes "[RESERVOIRS]\nA 0\nB 1\n[PUMPS]\nU A B HEAD C")
        ≡ Some (8, UnknownName) }
    ensures no_volume_curve { fault_of (front ++ codes "[TANKS]\nT 0 4 0 10 0 0 C") ≡ Some (5, UnknownName) }
    ensures demand_of_a_reservoir { fault_of (front ++ codes "[RESERVOIRS]\nR 1\n[DEMANDS]\nR 1")
        ≡ Some (7, UnknownName) }
    ensures other_kind { fault_of (town ++ codes "[CONTROLS]\nPUMP P OPEN AT TIME 1") ≡ Some (20, UnknownName) }
    ensures rule_twice { fault_of (town ++
        codes "[RULES]\nRULE 1\nIF SYSTEM TIME > 1\nTHEN PIPE P STATUS IS OPEN\nRULE 1\nIF SYSTEM TIME > 1\nTHEN PIPE P STATUS IS OPEN")
        ≡ Some (23, DuplicateId) }
    ensures level_of_a_junction { fault_of (town ++
        codes "[RULES]\nRULE 1\nIF TANK J LEVEL > 1\nTHEN PIPE P STATUS IS OPEN")
        ≡ Some (21, UnknownName) }
{}

/// States that a link can't have: a number for a pipe or a general purpose valve, any for a check valve, a speed
/// above 10; a control on a reservoir.
pub fn states()
    ensures number_for_a_pipe { fault_of (town ++ codes "[STATUS]\nP 1") ≡ Some (20, Syntax) }
    ensures number_for_a_general_valve { fault_of (valve_with (codes "G 0 0\nG 100 1\n") ++ codes "[STATUS]\nV 1")
        ≡ Some (13, Syntax) }
    ensures check_valve { fault_of (town ++ codes "[STATUS]\nC OPEN") ≡ Some (20, Unsupported 11) }
    ensures speed { fault_of (town ++ codes "[STATUS]\nU 10.5") ≡ Some (20, Range) }
    ensures coefficient { fault_of (town ++ codes "[STATUS]\nV -1") ≡ Some (20, Range) }
    ensures reservoir { fault_of (town ++ codes "[CONTROLS]\nLINK P OPEN IF NODE R ABOVE 1")
        ≡ Some (20, Unsupported 8) }
    ensures reservoir_before_check_valve { fault_of (town ++ codes "[CONTROLS]\nLINK C OPEN IF NODE R ABOVE 1")
        ≡ Some (20, Unsupported 8) }
    ensures number_before_reservoir { fault_of (town ++ codes "[CONTROLS]\nLINK C 1 IF NODE R ABOVE 1")
        ≡ Some (20, Syntax) }
{}

/// Quantities out of range with the file's units: an elevation above 10,000 m, a demand above 10^8 m3/d, levels that
/// are too close, pressures that are too close.
pub fn ranges()
    ensures elevation { fault_of (front ++ codes "[JUNCTIONS]\nJ 10001") ≡ Some (5, Range) }
    ensures demand { fault_of (front ++ codes "[JUNCTIONS]\nJ 0 100000001") ≡ Some (5, Range) }
    ensures flow_of_a_valve { fault_of (front ++
        codes "[JUNCTIONS]\nJ 0 1000\n[RESERVOIRS]\nR 100\n[VALVES]\nV R J 304.8 FCV 100000001 0\n")
        ≡ Some (9, Range) }
    ensures reservoir_times_multiplier { fault_of (front ++
        codes "[RESERVOIRS]\nR 10000 P\n[PATTERNS]\nP 1 1.000000001")
        ≡ Some (5, Range) }
    ensures close_levels { fault_of (front ++ codes "[TANKS]\nT 0 0 0 0.003 20") ≡ Some (5, Range) }
    ensures close_pressures { fault_of (front ++ codes "DEMAND MODEL PDA\nREQUIRED PRESSURE 0.099999999")
        ≡ Some (5, Range) }
    ensures level_of_a_control { fault_of (town ++ codes "[CONTROLS]\nLINK P OPEN IF NODE T ABOVE 10001")
        ≡ Some (20, Range) }
{}

/// Curves: of a pump with one point, three and four, of a general purpose valve, and of a tank.
pub fn curves()
    ensures one_point { fault_of (pump_with (codes "C 1 30\n")) ≡ None }
    ensures no_flow { fault_of (pump_with (codes "C 0 30\n")) ≡ Some (10, Unsupported 4) }
    ensures two_points { fault_of (pump_with (codes "C 0 40\nC 1 30\n")) ≡ Some (11, Unsupported 4) }
    ensures three_points { fault_of (pump_with (codes "C 0 40\nC 10 30\nC 20 0\n")) ≡ None }
    ensures no_parabola { fault_of (pump_with (codes "C 0 40\nC 10 30\nC 20 1\n")) ≡ Some (12, Unsupported 4) }
    ensures four_points { fault_of (pump_with (codes "C 0 40\nC 1000 30\nC 2000 15\nC 3000 0\n")) ≡ None }
    ensures rising_heads { fault_of (pump_with (codes "C 0 40\nC 1000 30\nC 2000 31\nC 3000 0\n"))
        ≡ Some (13, Range) }
    ensures high_start { fault_of (pump_with (codes "C 1000 900\nC 1001 800\nC 2000 15\nC 3000 0\n"))
        ≡ Some (13, Range) }
    ensures losses { fault_of (valve_with (codes "G 0 0\nG 100 1\nG 200 4\n")) ≡ None }
    ensures loss_at_no_flow { fault_of (valve_with (codes "G 0 1\nG 100 2\n")) ≡ Some (11, Range) }
    ensures one_loss { fault_of (valve_with (codes "G 0 0\n")) ≡ Some (10, Range) }
    ensures volumes { fault_of (tank_with (codes "C 0 0\nC 5 500\nC 10 2000\n")) ≡ None }
    ensures volumes_that_stay { fault_of (tank_with (codes "C 0 0\nC 5 0\nC 10 2000\n")) ≡ Some (9, Range) }
    ensures short_of_the_maximum { fault_of (tank_with (codes "C 0 0\nC 9.9 2000\n")) ≡ Some (8, Range) }
{}

/// Limits: a line of 1,024 bytes and one of 1,025, 32 tanks and one more.
pub fn limits()
    ensures longest_line { fault_of (codes "[TITLE]\n" ++ replicate 1024 120) ≡ Some (0, Unsupported 1) }
    ensures long_line { fault_of (codes "[TITLE]\n" ++ replicate 1025 120) ≡ Some (2, Limit 2) }
    ensures most_tanks { fault_of (tanks (codes "ABCDEFGHIJKLMNOPQRSTUVWXYZabcdef")) ≡ None }
    ensures more_tanks { fault_of (tanks (codes "ABCDEFGHIJKLMNOPQRSTUVWXYZabcdefg")) ≡ Some (37, Limit 6) }
{}

/// What a whole file lacks: a head loss formula, and a reservoir or tank.
pub fn lacks()
    ensures formula { fault_of (codes "") ≡ Some (0, Unsupported 1) }
    ensures source { fault_of front ≡ Some (0, Missing) }
{}

/// A capacity out of range: an emitter in millions of gallons a day with the greatest coefficient that a row may have.
pub fn capacity()
    ensures fault { IsFault great_emitter 7 (Limit 13) }
{}
