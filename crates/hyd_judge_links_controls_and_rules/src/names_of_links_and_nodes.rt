//! Links and nodes that commands name.
#![tactic(auto)]

ghost use Rattle.std.specs.Prelude.{◌≡◌, ◌==◌, List, Some};
ghost use Rattle.hyd_spec_lines.specs.Lines.{Row};
ghost use Rattle.hyd_option_and_rule_lines.specs.FaultOrValue.{Judged};
ghost use Rattle.hyd_spec_input.specs.SingleRows.{IsWrongByItself};
ghost use Rattle.hyd_spec_input.specs.Faults.{NoneIs};
ghost use Rattle.hyd_spec_input.specs.SectionsAndTables as table;
ghost use Rattle.hyd_spec_input.specs.SectionsAndTables.{link_rows, node_rows};
ghost use Rattle.hyd_spec_input.specs.FaultsWithOtherRows as others;
ghost use Rattle.hyd_rows_and_tables.specs.IdTables.{IsTable, IsEven};
ghost use Rattle.hyd_judge_links_controls_and_rules.specs.NamesOfLinksAndNodes.{IsNamedLink, IsNamedNode};

use hyd_lex::{Line, Lines, Section};
use hyd_net::Cause;
use hyd_rows_and_tables::Table;
use hyd_spec_input::{LinkWord, NodeWord};

// Whether the word before a link's ID allows a row of a section.
fn allows_link(kind: LinkWord, section: Section) -> bool
    ensures { (row : Row) → section ≡ row.section → result ≡ table.allows_link (Some kind) row }
{
    match kind {
        LinkWord::Link => true,
        LinkWord::Pipe => section == Section::Pipes,
        LinkWord::Pump => section == Section::Pumps,
        LinkWord::Valve => section == Section::Valves,
    }
}

// Whether the word before a node's ID allows a row of a section.
fn allows_node(kind: NodeWord, section: Section) -> bool
    ensures { (row : Row) → section ≡ row.section → result ≡ table.allows_node (Some kind) row }
{
    match kind {
        NodeWord::Node => true,
        NodeWord::Junction => section == Section::Junctions,
        NodeWord::Tank => section == Section::Tanks,
        NodeWord::Reservoir => section == Section::Reservoirs,
    }
}

/// The line of the link of a name: UnknownName where no link has it, or one that its word doesn't allow.
pub(crate) fn named_link(
    text: &Lines<'_>,
    links: &Table,
    kind: LinkWord,
    name: &[u8],
) -> Result<Line, Cause>
    requires { IsEven links.now }
    ensures { (rows : List Row) → IsTable text.now.text (link_rows rows) links.now
        → NoneIs (IsWrongByItself rows)
        → Judged (others.link_by_word rows (Some kind) name.now) result (IsNamedLink text.now.text rows name.now) }
{
    let Some(line) = links.find(text, name) else {
        return Err(Cause::UnknownName);
    };
    if allows_link(kind, line.section) {
        return Ok(line);
    }
    Err(Cause::UnknownName)
}

/// The line of the node of a name: UnknownName where no node has it, or one that its word doesn't allow.
pub(crate) fn named_node(
    text: &Lines<'_>,
    nodes: &Table,
    kind: NodeWord,
    name: &[u8],
) -> Result<Line, Cause>
    requires { IsEven nodes.now }
    ensures { (rows : List Row) → IsTable text.now.text (node_rows rows) nodes.now
        → Judged (others.node_by_word rows (Some kind) name.now) result (IsNamedNode text.now.text rows name.now) }
{
    let Some(line) = nodes.find(text, name) else {
        return Err(Cause::UnknownName);
    };
    if allows_node(kind, line.section) {
        return Ok(line);
    }
    Err(Cause::UnknownName)
}
