//! The links of a network: its pipes, then its pumps, then its valves.
#![tactic(auto)]

ghost use Rattle.std.specs.Prelude.{◌≡◌, ◌<◌, ◌+◌, ◌++◌, List, true, length, IfOk, OnOk};
ghost use Rattle.hyd_spec_lines.specs.Lines.{Row, row_of};
ghost use Rattle.hyd_spec_input.specs.Project.{IsKind, IsLink, Match, numbered_links};
ghost use Rattle.hyd_spec_input.specs.SectionsAndTables.{place as section_place, is_link, rows_of};
ghost use Rattle.hyd_build_links_controls_and_rules.specs.RowsToBuildLinksFrom.{AreRightRowsForLinks, IsRowOf, rows_from};
ghost use Rattle.hyd_build_links_controls_and_rules.specs.Statuses.{AreStatuses};
ghost use Rattle.hyd_judge_links_controls_and_rules.specs.AskedStatesOfLinks.{is_link_section};
ghost use Rattle.hyd_build_links_controls_and_rules.specs.LinksBuiltSoFar.{AreBuilt};

use crate::initial_states::start_of;
use crate::name_numbers::number;
use crate::pipes::pipe_kind;
use crate::pumps::pump_kind;
use crate::rows_to_build_links_from::RowsForLinks;
use crate::statuses::gather_statuses;
use crate::valves::valve_kind;
use hyd_kept_capacities::KeptCapacities;
use hyd_lex::{Line, Lines, Section};
use hyd_net::{Link, LinkKind, OutOfMemory};
use hyd_option_and_rule_lines::or_empty;
use std::alloc::Global;

// What the link of a row is.
fn kind_of(
    text: &Lines<'_>,
    line: &Line,
    given: &RowsForLinks<'_>,
    kept: &mut KeptCapacities,
) -> LinkKind
    requires { IsRowOf is_link text.now.text given.now line.now }
    ensures { IsKind (rows_from text.now.text given.now) (row_of text.now.text line.now) result }
{
    match line.section {
        Section::Pipes => pipe_kind(text, line, given, kept),
        Section::Pumps => pump_kind(text, line, given),
        _ => valve_kind(text, line, given),
    }
}

// The link of a row.
fn link_of(
    text: &Lines<'_>,
    line: &Line,
    given: &RowsForLinks<'_>,
    last: &[Option<Line>],
    kept: &mut KeptCapacities,
) -> Link
    requires row { IsRowOf is_link text.now.text given.now line.now }
    requires statuses { AreStatuses text.now.text (rows_from text.now.text given.now) (length given.now.lines.now)
        given.now.links.now.names last.now }
    ensures { IsLink (rows_from text.now.text given.now) (row_of text.now.text line.now) result }
{
    Link {
        from: number(given.nodes, or_empty(text, line, 1)),
        to: number(given.nodes, or_empty(text, line, 2)),
        kind: kind_of(text, line, given, kept),
        start: start_of(text, line, given, last),
    }
}

fn number_of(section: Section) -> u8
    ensures { result ≡ section_place section }
{
    match section {
        Section::Junctions => 0,
        Section::Reservoirs => 1,
        Section::Tanks => 2,
        Section::Pipes => 3,
        Section::Pumps => 4,
        Section::Valves => 5,
        Section::Demands => 6,
        Section::Emitters => 7,
        Section::Curves => 8,
        Section::Patterns => 9,
        Section::Status => 10,
        Section::Controls => 11,
        Section::Rules => 12,
        Section::Options => 13,
        Section::Times => 14,
    }
}

// The next row, where it is one of a section.
fn add(
    links: &mut hyd_net::List<Link>,
    text: &Lines<'_>,
    section: Section,
    place: usize,
    given: &RowsForLinks<'_>,
    last: &[Option<Line>],
    kept: &mut KeptCapacities,
) -> Result<(), OutOfMemory>
    requires within { place < length given.now.lines.now }
    requires right { AreRightRowsForLinks text.now.text given.now }
    requires section { is_link_section section ≡ true }
    requires statuses { AreStatuses text.now.text (rows_from text.now.text given.now) (length given.now.lines.now)
        given.now.links.now.names last.now }
    ensures { (before : List Row)
        → AreBuilt (rows_from text.now.text given.now) before section place links.old.list
        → OnOk result (AreBuilt (rows_from text.now.text given.now) before section (place + 1) links.new.list) }
{
    let line = &given.lines[place];
    if number_of(line.section) != number_of(section) {
        return Ok(());
    }
    links.push(link_of(text, line, given, last, kept))?;
    Ok(())
}

// Appends the links of a section, in the order of their rows.
fn add_section(
    links: &mut hyd_net::List<Link>,
    text: &Lines<'_>,
    section: Section,
    given: &RowsForLinks<'_>,
    last: &[Option<Line>],
    kept: &mut KeptCapacities,
) -> Result<(), OutOfMemory>
    requires right { AreRightRowsForLinks text.now.text given.now }
    requires section { is_link_section section ≡ true }
    requires statuses { AreStatuses text.now.text (rows_from text.now.text given.now) (length given.now.lines.now)
        given.now.links.now.names last.now }
    ensures { (before : List Row) → Match (IsLink (rows_from text.now.text given.now)) before links.old.list
        → OnOk result (Match (IsLink (rows_from text.now.text given.now))
        (before ++ rows_of section (rows_from text.now.text given.now)) links.new.list) }
{
    for place in 0..given.lines.len() {
        add(links, text, section, place, given, last, kept)?;
    }
    Ok(())
}

/// The links of a file whose rows are right by themselves and with the others: pipes, then pumps, then valves, each in
/// the order of its rows. A link starts in the state of the last row of [STATUS] that names it, else in that of its own
/// row. The capacities of pipes are taken from those that are kept, where they are there.
pub fn build_links(
    alloc: Global,
    text: &Lines<'_>,
    given: &RowsForLinks<'_>,
    kept: &mut KeptCapacities,
) -> Result<hyd_net::List<Link>, OutOfMemory>
    requires { AreRightRowsForLinks text.now.text given.now }
    ensures { IfOk result (λ links. Match (IsLink (rows_from text.now.text given.now))
        (numbered_links (rows_from text.now.text given.now)) links.list) }
{
    let last = gather_statuses(alloc, text, given.lines, given.links)?;
    let mut links = hyd_net::List::with_room(alloc, given.links.firsts.len())?;
    add_section(
        &mut links,
        text,
        Section::Pipes,
        given,
        last.as_slice(),
        kept,
    )?;
    add_section(
        &mut links,
        text,
        Section::Pumps,
        given,
        last.as_slice(),
        kept,
    )?;
    add_section(
        &mut links,
        text,
        Section::Valves,
        given,
        last.as_slice(),
        kept,
    )?;
    Ok(links)
}
