//! Small texts of input files with one more fault each: what a single word, a name or a number can be wrong in, as an
//! independent reader has it.
#![tactic(auto, unfolding(hyd_spec_lines::specs::Lines::items_of, hyd_spec_lines::specs::Lines::kind_of, hyd_spec_lines::specs::Headings::read_section, hyd_spec_lines::specs::Headings::is_passed_over, hyd_spec_lines::specs::Headings::heading_kind, hyd_spec_lines::specs::WordsOfLines::words_in, hyd_spec_lines::specs::WordsOfLines::is_keyword, hyd_num::specs::Numeral::is_numeral, hyd_num::specs::Numeral::magnitude_of, hyd_num::specs::Numeral::nano_of, hyd_spec_input::specs::Keywords::flow_unit, hyd_spec_input::specs::Keywords::option_word, hyd_spec_input::specs::Keywords::time_word, hyd_spec_input::specs::Keywords::link_word, hyd_spec_input::specs::Keywords::node_word, hyd_spec_input::specs::Keywords::object_word, hyd_spec_input::specs::Keywords::attribute_word, hyd_spec_input::specs::Keywords::relation_word, hyd_spec_input::specs::Keywords::rule_word, hyd_spec_input::specs::TimesAndClockTimes::unit_seconds))]

ghost use Rattle.std.specs.Prelude.{◌≡◌, ◌++◌, codes, Some};
ghost use Rattle.hyd_net.specs.declared.refusal_cause.Cause.TheVariants.{Syntax, Number, Range, DuplicateId};
ghost use Rattle.hyd_net.specs.declared.refusal_cause.Cause.TheVariants.{UnknownName};
ghost use Rattle.hyd_net.specs.declared.refusal_cause.Cause.TheVariants.{Unsupported, Limit};
ghost use Rattle.hyd_cases_of_definitions.specs.Input.{fault_of, front, town, pump_with, valve_with, tank_with};

/// Words of nodes: an ID of 32 bytes that is no first word, no number, levels out of order at the last of them, a
/// diameter above 1,000, a minimum volume below 0.
pub fn nodes()
    ensures pattern_id { fault_of (codes "[JUNCTIONS]\nJ 0 1 IIIIIIIIIIIIIIIIIIIIIIIIIIIIIIII") ≡ Some (2, Limit 3) }
    ensures head_of_a_reservoir { fault_of (codes "[RESERVOIRS]\nR high") ≡ Some (2, Number) }
    ensures maximum_below_initial { fault_of (codes "[TANKS]\nT 0 5 0 4 20") ≡ Some (2, Range) }
    ensures great_diameter { fault_of (codes "[TANKS]\nT 0 5 0 10 1001") ≡ Some (2, Range) }
    ensures negative_volume { fault_of (codes "[TANKS]\nT 0 5 0 10 20 -1") ≡ Some (2, Range) }
{}

/// Words of links: numbers out of range in each column of pipes and valves, another keyword of a pump, a speed that is
/// no number.
pub fn links()
    ensures diameter { fault_of (codes "[PIPES]\nP A B 1 10001 1") ≡ Some (2, Range) }
    ensures roughness { fault_of (codes "[PIPES]\nP A B 1 1 10.1") ≡ Some (2, Range) }
    ensures minor_loss { fault_of (codes "[PIPES]\nP A B 1 1 1 1000001") ≡ Some (2, Range) }
    ensures pump_keyword { fault_of (codes "[PUMPS]\nU A B CURVE C") ≡ Some (2, Syntax) }
    ensures speed_word { fault_of (codes "[PUMPS]\nU A B SPEED FULL HEAD C") ≡ Some (2, Number) }
    ensures diameter_of_a_valve { fault_of (codes "[VALVES]\nV A B 0 TCV 5") ≡ Some (2, Range) }
    ensures greatest_flow { fault_of (codes "[VALVES]\nV A B 300 FCV -1") ≡ Some (2, Range) }
    ensures minor_loss_of_a_valve { fault_of (codes "[VALVES]\nV A B 300 TCV 5 -1") ≡ Some (2, Range) }
{}

/// Words of demands and curves that are no numbers.
pub fn belongings()
    ensures amount_of_a_demand { fault_of (codes "[DEMANDS]\nJ all") ≡ Some (2, Number) }
    ensures point { fault_of (codes "[CURVES]\nC 1 x") ≡ Some (2, Number) }
{}

/// Words of options: another formula, no ID, another word behind the first, a pressure below 0, an exponent that is no
/// number.
pub fn options()
    ensures formula { fault_of (codes "[OPTIONS]\nHEADLOSS N-K") ≡ Some (2, Syntax) }
    ensures pattern { fault_of (codes "[OPTIONS]\nPATTERN") ≡ Some (2, Syntax) }
    ensures demand { fault_of (codes "[OPTIONS]\nDEMAND CHARGE 0") ≡ Some (2, Syntax) }
    ensures pressure { fault_of (codes "[OPTIONS]\nMINIMUM PRESSURE -1") ≡ Some (2, Range) }
    ensures bound { fault_of (codes "[OPTIONS]\nREQUIRED HEAD 20") ≡ Some (2, Syntax) }
    ensures pressure_unit { fault_of (codes "[OPTIONS]\nPRESSURE BAR") ≡ Some (2, Syntax) }
    ensures exponent { fault_of (codes "[OPTIONS]\nEMITTER EXPONENT half") ≡ Some (2, Number) }
{}

/// Words of times: another keyword, seven digits of hours, no number, neither AM nor PM, the hour 24.
pub fn times()
    ensures no_time { fault_of (codes "[TIMES]\nSEASON 1") ≡ Some (2, Syntax) }
    ensures no_step { fault_of (codes "[TIMES]\nHYDRAULIC 1:00") ≡ Some (2, Syntax) }
    ensures step_or_start { fault_of (codes "[TIMES]\nREPORT END 1:00") ≡ Some (2, Syntax) }
    ensures hours { fault_of (codes "[TIMES]\nDURATION 1000000:00") ≡ Some (2, Syntax) }
    ensures no_number { fault_of (codes "[TIMES]\nDURATION LONG") ≡ Some (2, Number) }
    ensures half_day { fault_of (codes "[TIMES]\nSTART CLOCKTIME 6 NOON") ≡ Some (2, Syntax) }
    ensures midnight { fault_of (codes "[TIMES]\nSTART CLOCKTIME 24") ≡ Some (2, Range) }
{}

/// Words of controls: neither IF nor AT, no node's word, neither ABOVE nor BELOW, the hour 13 in the morning.
pub fn controls()
    ensures condition { fault_of (codes "[CONTROLS]\nLINK P OPEN WHEN TIME 1") ≡ Some (2, Syntax) }
    ensures node { fault_of (codes "[CONTROLS]\nLINK P OPEN IF LEVEL T ABOVE 1") ≡ Some (2, Syntax) }
    ensures relation { fault_of (codes "[CONTROLS]\nLINK P OPEN IF NODE T OVER 1") ≡ Some (2, Syntax) }
    ensures clock { fault_of (codes "[CONTROLS]\nLINK P OPEN AT CLOCKTIME 13 AM") ≡ Some (2, Range) }
{}

/// Words of clauses: another object, attributes that it can't have or that nothing has, another relation, values that
/// are no number, no status, a time below 0, an hour above 24.
pub fn clauses()
    ensures keyword { fault_of (codes "[RULES]\nRULE 1\nWHEN SYSTEM TIME > 1") ≡ Some (2, Syntax) }
    ensures object { fault_of (codes "[RULES]\nRULE 1\nIF CANAL P FLOW > 1\nTHEN PIPE P STATUS IS OPEN")
        ≡ Some (3, Syntax) }
    ensures level_of_a_node { fault_of (codes "[RULES]\nRULE 1\nIF NODE T LEVEL > 1\nTHEN PIPE P STATUS IS OPEN")
        ≡ Some (3, Syntax) }
    ensures no_attribute { fault_of (codes "[RULES]\nRULE 1\nIF NODE T COLOUR > 1\nTHEN PIPE P STATUS IS OPEN")
        ≡ Some (3, Syntax) }
    ensures relation { fault_of (codes "[RULES]\nRULE 1\nIF LINK P FLOW OVER 1\nTHEN PIPE P STATUS IS OPEN")
        ≡ Some (3, Syntax) }
    ensures value { fault_of (codes "[RULES]\nRULE 1\nIF LINK P FLOW > all\nTHEN PIPE P STATUS IS OPEN")
        ≡ Some (3, Number) }
    ensures status { fault_of (codes "[RULES]\nRULE 1\nIF LINK P STATUS IS AJAR\nTHEN PIPE P STATUS IS OPEN")
        ≡ Some (3, Syntax) }
    ensures time { fault_of (codes "[RULES]\nRULE 1\nIF SYSTEM TIME > -1\nTHEN PIPE P STATUS IS OPEN")
        ≡ Some (3, Range) }
    ensures clock { fault_of (codes "[RULES]\nRULE 1\nIF SYSTEM CLOCKTIME > 25\nTHEN PIPE P STATUS IS OPEN")
        ≡ Some (3, Range) }
{}

/// Words of actions and of priorities: no link, an attribute that isn't set, no IS, a setting that is no number,
/// ACTIVE.
pub fn actions()
    ensures action_on_a_node { fault_of (codes "[RULES]\nRULE 1\nIF SYSTEM TIME > 1\nTHEN NODE J STATUS IS OPEN")
        ≡ Some (4, Syntax) }
    ensures flow_set { fault_of (codes "[RULES]\nRULE 1\nIF SYSTEM TIME > 1\nTHEN PIPE P FLOW IS 5")
        ≡ Some (4, Syntax) }
    ensures action_without_is { fault_of (codes "[RULES]\nRULE 1\nIF SYSTEM TIME > 1\nTHEN PIPE P STATUS TO OPEN")
        ≡ Some (4, Syntax) }
    ensures action_at_a_setting { fault_of (codes "[RULES]\nRULE 1\nIF SYSTEM TIME > 1\nTHEN PUMP U SETTING IS fast")
        ≡ Some (4, Number) }
    ensures active { fault_of (codes "[RULES]\nRULE 1\nIF SYSTEM TIME > 1\nTHEN VALVE V STATUS IS ACTIVE")
        ≡ Some (4, Syntax) }
    ensures priority { fault_of (
        codes "[RULES]\nRULE 1\nIF SYSTEM TIME > 1\nTHEN PIPE P STATUS IS OPEN\nPRIORITY high")
        ≡ Some (5, Number) }
{}

/// Names: a node's ID in another section, a link's, a first node, patterns, curves and links that nothing has, or that
/// another kind of thing has than the word before it says.
pub fn names()
    ensures node_of_another_kind { fault_of (front ++ codes "[JUNCTIONS]\nR 0\n[RESERVOIRS]\nR 100")
        ≡ Some (7, DuplicateId) }
    ensures repeated_link { fault_of (town ++ codes "[VALVES]\nP R J 300 TCV 10 0") ≡ Some (20, DuplicateId) }
    ensures first_node { fault_of (front ++ codes "[RESERVOIRS]\nR 1\n[PIPES]\nP J R 1 100 0.01")
        ≡ Some (7, UnknownName) }
    ensures pattern_of_a_reservoir { fault_of (front ++ codes "[RESERVOIRS]\nR 1 Q") ≡ Some (5, UnknownName) }
    ensures pattern_of_a_pump { fault_of (
        front ++ codes "[RESERVOIRS]\nA 0\nB 1\n[CURVES]\nC 1 30\n[PUMPS]\nU A B HEAD C PATTERN Q")
        ≡ Some (10, UnknownName) }
    ensures curve_of_a_valve { fault_of (valve_with (codes "")) ≡ Some (9, UnknownName) }
    ensures pattern_of_a_demand { fault_of (town ++ codes "[DEMANDS]\nJ 1 Q") ≡ Some (20, UnknownName) }
    ensures emitter_of_no_junction { fault_of (town ++ codes "[EMITTERS]\nK 1") ≡ Some (20, UnknownName) }
    ensures link_of_a_state { fault_of (town ++ codes "[STATUS]\nQ OPEN") ≡ Some (20, UnknownName) }
    ensures node_of_a_control { fault_of (town ++ codes "[CONTROLS]\nLINK P OPEN IF NODE Q ABOVE 1")
        ≡ Some (20, UnknownName) }
    ensures node_of_a_control_by_word { fault_of (town ++ codes "[CONTROLS]\nLINK P OPEN IF JUNCTION T ABOVE 1")
        ≡ Some (20, UnknownName) }
    ensures link_of_a_clause { fault_of (
        town ++ codes "[RULES]\nRULE 1\nIF LINK Q FLOW > 1\nTHEN PIPE P STATUS IS OPEN")
        ≡ Some (21, UnknownName) }
    ensures pressure_of_a_reservoir { fault_of (
        town ++ codes "[RULES]\nRULE 1\nIF NODE R PRESSURE > 1\nTHEN PIPE P STATUS IS OPEN")
        ≡ Some (21, UnknownName) }
    ensures link_of_an_action { fault_of (
        town ++ codes "[RULES]\nRULE 1\nIF SYSTEM TIME > 1\nTHEN PUMP P STATUS IS OPEN")
        ≡ Some (22, UnknownName) }
{}

/// States that a link can't have by a control or an action, and flows of a valve that are out of range.
pub fn states()
    ensures check_valve_in_a_control { fault_of (town ++ codes "[CONTROLS]\nLINK C OPEN AT TIME 1")
        ≡ Some (20, Unsupported 11) }
    ensures check_valve_in_an_action { fault_of (
        town ++ codes "[RULES]\nRULE 1\nIF SYSTEM TIME > 1\nTHEN PIPE C STATUS IS OPEN")
        ≡ Some (22, Unsupported 11) }
    ensures speed_in_an_action { fault_of (
        town ++ codes "[RULES]\nRULE 1\nIF SYSTEM TIME > 1\nTHEN PUMP U SETTING IS 11")
        ≡ Some (22, Range) }
    ensures negative_flow { fault_of (
        front ++ codes "[RESERVOIRS]\nA 12\nB 10\n[VALVES]\nF A B 300 FCV 5\n[STATUS]\nF -1")
        ≡ Some (10, Range) }
    ensures great_flow { fault_of (
        front ++ codes "[RESERVOIRS]\nA 12\nB 10\n[VALVES]\nF A B 300 FCV 5\n[STATUS]\nF 100000001")
        ≡ Some (10, Range) }
{}

/// Quantities out of range with the file's units: heads of reservoirs and tanks, demands, pressures, speeds by a
/// pattern.
pub fn ranges()
    ensures reservoir { fault_of (front ++ codes "[RESERVOIRS]\nR -10001") ≡ Some (5, Range) }
    ensures bottom_of_a_tank { fault_of (front ++ codes "[TANKS]\nT 10001 5 0 10 20") ≡ Some (5, Range) }
    ensures top_of_a_tank { fault_of (front ++ codes "[TANKS]\nT 9991 5 0 10 20") ≡ Some (5, Range) }
    ensures further_demand { fault_of (town ++ codes "[DEMANDS]\nJ -100000001") ≡ Some (20, Range) }
    ensures pressure { fault_of (front ++ codes "REQUIRED PRESSURE 1000001") ≡ Some (4, Range) }
    ensures speed_by_a_pattern { fault_of (
        front ++ codes "[RESERVOIRS]\nA 0\nB 1\n[CURVES]\nC 1 30\n[PATTERNS]\nQ 10.5\n[PUMPS]\nU A B HEAD C PATTERN Q")
        ≡ Some (12, Range) }
{}

/// Curves that are out of range or don't rise: flows, heads at no flow, losses, levels and volumes.
pub fn curves()
    ensures great_flow { fault_of (pump_with (codes "C 100000001 30\n")) ≡ Some (10, Range) }
    ensures great_shutoff { fault_of (pump_with (codes "C 1 751\n")) ≡ Some (10, Range) }
    ensures great_shutoff_of_three { fault_of (pump_with (codes "C 0 1001\nC 10 1000\nC 20 997\n"))
        ≡ Some (12, Range) }
    ensures negative_start { fault_of (pump_with (codes "C -1 40\nC 1000 30\nC 2000 15\nC 3000 0\n"))
        ≡ Some (13, Range) }
    ensures negative_end { fault_of (pump_with (codes "C 0 40\nC 1000 30\nC 2000 15\nC 3000 -1\n"))
        ≡ Some (13, Range) }
    ensures falling_losses { fault_of (valve_with (codes "G 0 0\nG 100 2\nG 200 1\n")) ≡ Some (12, Range) }
    ensures great_loss { fault_of (valve_with (codes "G 0 0\nG 100 10001\n")) ≡ Some (11, Range) }
    ensures above_the_minimum { fault_of (tank_with (codes "C 1 10\nC 10 2000\n")) ≡ Some (8, Range) }
    ensures negative_volume { fault_of (tank_with (codes "C 0 -1\nC 10 2000\n")) ≡ Some (8, Range) }
    ensures hardly_any_volume { fault_of (tank_with (codes "C 0 0\nC 10 0.000999999\n")) ≡ Some (8, Range) }
    ensures great_volume { fault_of (tank_with (codes "C 0 0\nC 10 1000000001\n")) ≡ Some (8, Range) }
{}
