//! What rows of links, of emitters and of times of day mean, as an independent reader has it.
#![tactic(auto, unfolding(hyd_spec_lines::specs::Lines::items_of, hyd_spec_lines::specs::Lines::kind_of, hyd_spec_lines::specs::Headings::read_section, hyd_spec_lines::specs::Headings::is_passed_over, hyd_spec_lines::specs::Headings::heading_kind, hyd_spec_lines::specs::WordsOfLines::words_in, hyd_spec_lines::specs::WordsOfLines::is_keyword, hyd_num::specs::Numeral::is_numeral, hyd_num::specs::Numeral::magnitude_of, hyd_num::specs::Numeral::nano_of, hyd_spec_input::specs::Keywords::flow_unit, hyd_spec_input::specs::Keywords::option_word, hyd_spec_input::specs::Keywords::time_word, hyd_spec_input::specs::Keywords::link_word, hyd_spec_input::specs::Keywords::node_word, hyd_spec_input::specs::Keywords::object_word, hyd_spec_input::specs::Keywords::attribute_word, hyd_spec_input::specs::Keywords::relation_word, hyd_spec_input::specs::Keywords::rule_word, hyd_spec_input::specs::TimesAndClockTimes::unit_seconds))]

ghost use Rattle.std.specs.Prelude.{◌≡◌, pos, true, false, [], ◌∷◌, map, codes, None};
ghost use Rattle.hyd_spec_lines.specs.WordsOfLines.{words_in};
ghost use Rattle.hyd_spec_lines.specs.declared.section.Section.TheVariants.{Pipes, Pumps, Valves};
ghost use Rattle.hyd_net.specs.declared.links.LinkState.TheVariants.{Closed, Speed};
ghost use Rattle.hyd_spec_input.specs.TimesAndClockTimes.{clock_seconds};
ghost use Rattle.hyd_spec_input.specs.NodeAndLinkRows.{has_check_valve, is_closed_pipe, pump_speed, is_throttle};
ghost use Rattle.hyd_spec_input.specs.NodeAndLinkRows.{is_general};
ghost use Rattle.hyd_spec_input.specs.Project.{speed_state};
ghost use Rattle.hyd_spec_input.specs.SectionsAndTables.{rows_of};
ghost use Rattle.hyd_cases_of_definitions.specs.Input.{fault_of};
ghost use Rattle.hyd_cases_of_definitions.specs.TextOfLinks.{plant, plant_rows, pipe_numbers, valve_numbers};
ghost use Rattle.hyd_cases_of_definitions.specs.TextOfLinks.{plant_drop};
ghost use Rattle.hyd_cases_of_definitions.specs.TextOfLinks.{plant_emitters};

/// Pipes: their numbers, where a status stands in place of the minor loss too; which have a check valve, and which are
/// closed.
pub fn pipes()
    ensures whole { fault_of plant ≡ None }
    ensures numbers { pipe_numbers
        ≡ (pos 1000000000000 ∷ pos 300000000000 ∷ pos 12000000 ∷ pos 2500000000 ∷ [])
        ∷ (pos 50500000000 ∷ pos 200000000000 ∷ pos 10000000 ∷ pos 0 ∷ [])
        ∷ (pos 1000000000 ∷ pos 2000000000 ∷ pos 10000000 ∷ pos 0 ∷ []) ∷ [] }
    ensures check_valves { map (λ row. has_check_valve row.words) (rows_of Pipes plant_rows) ≡ false ∷ true ∷ false
        ∷ [] }
    ensures closed { map (λ row. is_closed_pipe row.words) (rows_of Pipes plant_rows) ≡ false ∷ false ∷ true ∷ [] }
{}

/// Pumps: a curve of one point has a third of its head as drop at its flow, one of three the drop to its second point.
/// Speed 0 is closed.
pub fn pumps()
    ensures one_point { plant_drop (codes "H") ≡ record { flow = pos 30000000000; drop = pos 40000000000; thirds = 3 } }
    ensures three_points { plant_drop (codes "E")
        ≡ record { flow = pos 10000000000; drop = pos 10000000000; thirds = 1 } }
    ensures speeds { map (λ row. speed_state (pump_speed row.words)) (rows_of Pumps plant_rows)
        ≡ Speed (pos 1000000000) ∷ Speed (pos 900000000) ∷ [] }
    ensures speed_0 { speed_state (pump_speed (words_in (codes "U R J HEAD H SPEED 0"))) ≡ Closed }
{}

/// Valves: diameter, setting and minor loss, and their kinds.
pub fn valves()
    ensures numbers { valve_numbers
        ≡ (pos 300000000000 ∷ pos 5000000000 ∷ pos 300000000 ∷ [])
        ∷ (pos 250000000000 ∷ pos 40000000000 ∷ pos 0 ∷ []) ∷ [] }
    ensures throttles { map (λ row. is_throttle row.words) (rows_of Valves plant_rows) ≡ true ∷ false ∷ [] }
    ensures general { map (λ row. is_general row.words) (rows_of Valves plant_rows) ≡ false ∷ false ∷ [] }
{}

/// Emitters: the last row of a junction is in force, and a junction without one has the coefficient 0.
pub fn emitters()
    ensures coefficients { plant_emitters ≡ pos 3000000000 ∷ pos 0 ∷ [] }
{}

/// Times of day: 12 AM is midnight, 12 PM noon, and an hour with AM or PM runs to 12:59:59.
pub fn clocks()
    ensures seconds { map (clock_seconds 0) (map words_in (
        codes "0" ∷ codes "6 AM" ∷ codes "12 AM" ∷ codes "12 PM" ∷ codes "12:30 am" ∷ codes "1:15:30 PM" ∷
        codes "23:59:59" ∷ codes "7.5" ∷ []))
        ≡ 0 ∷ 21600 ∷ 0 ∷ 43200 ∷ 1800 ∷ 47730 ∷ 86399 ∷ 27000 ∷ [] }
{}
