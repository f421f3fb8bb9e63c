//! What pipes, pumps and valves are all asked: how many there are, their IDs and their two nodes.
#![tactic(auto)]

ghost use Rattle.std.specs.Prelude.{◌≡◌, List};
ghost use Rattle.hyd_spec_lines.specs.Lines.{Row};
ghost use Rattle.hyd_spec_input.specs.SectionsAndTables.{node_rows};
ghost use Rattle.hyd_rows_and_tables.specs.IdTables.{IsTable, IsEven};
ghost use Rattle.hyd_judge_links_controls_and_rules.specs.LinkFaults as links;

use hyd_lex::Lines;
use hyd_net::Cause;
use hyd_network_rows::LinkEnds;
use hyd_rows_and_tables::{Table, limit, unknown_node};

const MOST_LINKS: usize = 20_000;

/// What is wrong with a link's count, ID or nodes: Limit 7 where there are more than 20,000 links up to it,
/// DuplicateId where an earlier one has its ID, UnknownName where a node isn't there.
pub(crate) fn ends_fault(
    text: &Lines<'_>,
    count: usize,
    new: bool,
    ends: &LinkEnds<'_>,
    nodes: &Table,
) -> Option<Cause>
    requires { IsEven nodes.now }
    ensures { (rows : List Row) → IsTable text.now.text (node_rows rows) nodes.now
        → result ≡ links.ends_fault rows count new ends.now.from.now ends.now.to.now }
{
    if let Some(cause) = limit(MOST_LINKS, 7, count) {
        return Some(cause);
    }
    if !new {
        return Some(Cause::DuplicateId);
    }
    match unknown_node(text, nodes, ends.from) {
        Some(cause) => Some(cause),
        None => unknown_node(text, nodes, ends.to),
    }
}
