//! Limits by counts: the first row that passes one, and the row before it, which has another fault or none.
#![tactic(auto, unfolding(hyd_spec_lines::specs::Lines::items_of, hyd_spec_lines::specs::Lines::kind_of, hyd_spec_lines::specs::Headings::read_section, hyd_spec_lines::specs::Headings::is_passed_over, hyd_spec_lines::specs::Headings::heading_kind, hyd_spec_lines::specs::WordsOfLines::words_in, hyd_spec_lines::specs::WordsOfLines::is_keyword, hyd_num::specs::Numeral::is_numeral, hyd_num::specs::Numeral::magnitude_of, hyd_num::specs::Numeral::nano_of, hyd_spec_input::specs::Keywords::flow_unit, hyd_spec_input::specs::Keywords::option_word, hyd_spec_input::specs::Keywords::time_word, hyd_spec_input::specs::Keywords::link_word, hyd_spec_input::specs::Keywords::node_word, hyd_spec_input::specs::Keywords::object_word, hyd_spec_input::specs::Keywords::attribute_word, hyd_spec_input::specs::Keywords::relation_word, hyd_spec_input::specs::Keywords::rule_word, hyd_spec_input::specs::TimesAndClockTimes::unit_seconds))]

ghost use Rattle.std.specs.Prelude.{◌≡◌, codes, Some, None};
ghost use Rattle.hyd_spec_lines.specs.declared.section.Section.TheVariants.{Junctions, Reservoirs, Pipes, Demands};
ghost use Rattle.hyd_spec_lines.specs.declared.section.Section.TheVariants.{Controls, Rules};
ghost use Rattle.hyd_net.specs.declared.refusal_cause.Cause.TheVariants.{DuplicateId, UnknownName, Limit};
ghost use Rattle.hyd_cases_of_definitions.specs.CountLimits.{last_of_equal, last_of_long, last_of_curves};

/// Nodes and links. Rows that are equal have one ID.
pub fn tables()
    ensures most_junctions { last_of_equal 10000 Junctions (codes "J 0") ≡ Some DuplicateId }
    ensures more_junctions { last_of_equal 10001 Junctions (codes "J 0") ≡ Some (Limit 4) }
    ensures most_reservoirs { last_of_equal 1000 Reservoirs (codes "R 0") ≡ Some DuplicateId }
    ensures more_reservoirs { last_of_equal 1001 Reservoirs (codes "R 0") ≡ Some (Limit 5) }
    ensures most_links { last_of_equal 20000 Pipes (codes "P A B 1 1 1") ≡ Some DuplicateId }
    ensures more_links { last_of_equal 20001 Pipes (codes "P A B 1 1 1") ≡ Some (Limit 7) }
{}

/// Demands and controls, of which none has a node or a link.
pub fn further()
    ensures most_demands { last_of_equal 100000 Demands (codes "J 0") ≡ Some UnknownName }
    ensures more_demands { last_of_equal 100001 Demands (codes "J 0") ≡ Some (Limit 10) }
    ensures most_controls { last_of_equal 10000 Controls (codes "LINK P OPEN AT TIME 1") ≡ Some UnknownName }
    ensures more_controls { last_of_equal 10001 Controls (codes "LINK P OPEN AT TIME 1") ≡ Some (Limit 11) }
{}

/// Rules, and their clauses and actions.
pub fn rules()
    ensures most_rules { last_of_equal 10000 Rules (codes "RULE 1") ≡ Some DuplicateId }
    ensures more_rules { last_of_equal 10001 Rules (codes "RULE 1") ≡ Some (Limit 12) }
    ensures most_clauses { last_of_equal 100000 Rules (codes "IF SYSTEM TIME > 1") ≡ None }
    ensures more_clauses { last_of_equal 100001 Rules (codes "IF SYSTEM TIME > 1") ≡ Some (Limit 12) }
{}

/// The multipliers of all patterns.
pub fn multipliers()
    ensures most { last_of_long 2000 ≡ None }
    ensures more { last_of_long 2001 ≡ Some (Limit 8) }
{}

/// Curves of different names.
pub fn curves()
    ensures most { last_of_curves 1000 ≡ None }
    ensures more { last_of_curves 1001 ≡ Some (Limit 9) }
{}
