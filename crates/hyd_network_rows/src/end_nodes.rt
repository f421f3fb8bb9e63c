//! The first words of rows of links: an ID and two nodes (EPANET 2.2 User Manual, [PIPES], [PUMPS] and [VALVES]).
#![tactic(auto)]

ghost use Rattle.std.specs.Prelude.{◌≡◌, ℕ, List, Some, slice_get};
ghost use Rattle.hyd_spec_lines.specs.WordsOfLines.{text_of};
ghost use Rattle.hyd_lex.specs.FirstWords.{AreFirst};
ghost use Rattle.hyd_option_and_rule_lines.specs.FaultOrValue.{Judged};
ghost use Rattle.hyd_spec_input.specs.Columns as column;
ghost use Rattle.hyd_spec_input.specs.NodeAndLinkRows as row;
ghost use Rattle.hyd_network_rows.specs.Rows.{AreLinkEnds};

use hyd_lex::FirstWords;
use hyd_net::Cause;
use hyd_option_and_rule_lines::needed_id;

/// A link's ID and its two nodes, which differ.
#[derive(Clone, Copy, Drop)]
pub struct LinkEnds<'a> {
    pub id: &'a [u8],
    pub from: &'a [u8],
    pub to: &'a [u8],
}

// The second node, which has another ID than the first.
fn other_end<'a>(second: Option<&'a [u8]>, from: &[u8]) -> Result<&'a [u8], Cause>
    ensures { (words : List (List ℕ)) → slice_get words 1 ≡ Some from.now → text_of second.entry ≡ slice_get words 2
        → Judged (column.needed (row.other_end words) 2 words) result (λ word. slice_get words 2 ≡ Some word.now) }
{
    let second = needed_id(second)?;
    if second == from {
        return Err(Cause::Range);
    }
    Ok(second)
}

/// Reads the ID and the two nodes of a row of links, from its first words. Refused are, at the first word that is
/// wrong: a missing word (Syntax), an ID longer than 31 bytes (Limit 3), and a second node that is the first (Range).
pub(crate) fn read_ends<'a>(first: &FirstWords<'a>) -> Result<LinkEnds<'a>, Cause>
    ensures { (words : List (List ℕ)) → AreFirst words first.now
        → Judged (row.link_ends words) result (AreLinkEnds words) }
{
    let id = needed_id(first.word(0))?;
    let from = needed_id(first.word(1))?;
    let to = other_end(first.word(2), from)?;
    Ok(LinkEnds { id, from, to })
}
