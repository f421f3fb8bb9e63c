//! Numbers of names.
#![tactic(auto)]

ghost use Rattle.std.specs.Prelude.{◌≡◌, List, Some};
ghost use Rattle.hyd_spec_lines.specs.WordsOfLines.{text_of};
ghost use Rattle.hyd_spec_lines.specs.Lines.{Row};
ghost use Rattle.hyd_spec_input.specs.MeaningsAcrossRows.{number_in, pattern_ids, pattern_number as number_of_pattern};
ghost use Rattle.hyd_build_links_controls_and_rules.specs.RowsToBuildLinksFrom.{HasNumber};

use hyd_rows_and_tables::NumberedIds;

/// The number of a name that is there.
pub(crate) fn number(names: &NumberedIds, name: &[u8]) -> u32
    requires { HasNumber names.now name.now }
    ensures { number_in names.now name.now ≡ Some result }
{
    let Some(number) = names.number(name) else {
        unreachable!()
    };
    number
}

/// The number of a pattern that may be named.
pub(crate) fn pattern_number(patterns: &NumberedIds, name: Option<&[u8]>) -> Option<u32>
    ensures { (rows : List Row) → patterns.now ≡ pattern_ids rows
        → result ≡ number_of_pattern rows (text_of name.entry) }
{
    match name {
        Some(name) => patterns.number(name),
        None => None,
    }
}
