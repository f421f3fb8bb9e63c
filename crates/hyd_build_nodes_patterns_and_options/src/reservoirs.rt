//! Reservoirs, each with its head and its pattern.
#![tactic(auto)]

ghost use Rattle.std.specs.Prelude.{◌≡◌, ◌<◌, ◌≤◌, ◌+◌, ◌*◌, ◌==◌, None, length, take, unsigned_abs, IfOk, OnOk};
ghost use Rattle.std.specs.List.{All};
ghost use Rattle.hyd_num.specs.FileQuantity as quantity;
ghost use Rattle.hyd_num.specs.FileQuantity.{is_us_unit};
ghost use Rattle.hyd_net.specs.NumberRanges.{head_limit};
ghost use Rattle.hyd_spec_lines.specs.Lines.{LiesIn};
ghost use Rattle.hyd_spec_lines.specs.declared.section.Section.TheVariants.{Reservoirs};
ghost use Rattle.hyd_option_and_rule_lines.specs.FaultOrValue.{words_at};
ghost use Rattle.hyd_spec_input.specs.SingleRows.{IsWrongByItself};
ghost use Rattle.hyd_spec_input.specs.Columns.{amount};
ghost use Rattle.hyd_spec_input.specs.Faults.{NoneIs, IsWrongWithOthers};
ghost use Rattle.hyd_spec_input.specs.OptionsAndTimesInForce as force;
ghost use Rattle.hyd_spec_input.specs.MeaningsAcrossRows.{pattern_ids};
ghost use Rattle.hyd_spec_input.specs.NodeAndLinkRows as row;
ghost use Rattle.hyd_spec_input.specs.Project.{Match, IsReservoir};
ghost use Rattle.hyd_spec_input.specs.SectionsAndTables.{place as section_place, rows_of};
ghost use Rattle.hyd_rows_and_tables.specs.RowsOfLines.{rows_at};
ghost use Rattle.hyd_build_nodes_patterns_and_options.specs.ReservoirsAndTanks.{IsReservoirOf};

use crate::name_numbers_and_ticks::{head_of, number_named};
use hyd_lex::{Line, Lines, Section};
use hyd_net::{List, OutOfMemory, Reservoir};
use hyd_network_rows::read_reservoir;
use hyd_num::FlowUnit;
use hyd_rows_and_tables::NumberedIds;
use std::alloc::Global;

fn is_reservoirs(section: Section) -> bool
    ensures { result ≡ (section_place section == 1) }
{
    match section {
        Section::Reservoirs => true,
        _ => false,
    }
}

// The reservoir of a row.
fn reservoir_of(text: &Lines<'_>, line: &Line, patterns: &NumberedIds, unit: FlowUnit) -> Reservoir
    requires lies { LiesIn text.now.text line.now }
    requires right { row.reservoir (words_at text.now line.now) ≡ None }
    requires head { unsigned_abs (quantity.head_ticks (is_us_unit unit) (amount 1 (words_at text.now line.now)))
        ≤ 2 * head_limit }
    ensures { IsReservoirOf unit patterns.now (words_at text.now line.now) result }
{
    let Ok(row) = read_reservoir(text, line) else {
        unreachable!()
    };
    Reservoir {
        head: head_of(row.head, unit),
        pattern: number_named(patterns, row.pattern),
    }
}

// The next row.
fn add_row(
    list: &mut List<Reservoir>,
    text: &Lines<'_>,
    lines: &[Line],
    place: usize,
    patterns: &NumberedIds,
    unit: FlowUnit,
) -> Result<(), OutOfMemory>
    requires within { place < length lines.now }
    requires lie { All (LiesIn text.now.text) lines.now }
    requires by_itself { NoneIs (IsWrongByItself (rows_at text.now.text lines.now)) }
    requires with_others { NoneIs (IsWrongWithOthers (rows_at text.now.text lines.now)) }
    requires patterns { patterns.now ≡ pattern_ids (rows_at text.now.text lines.now) }
    requires unit { unit ≡ force.unit (rows_at text.now.text lines.now) }
    requires built { Match (IsReservoir (rows_at text.now.text lines.now))
        (rows_of Reservoirs (take place (rows_at text.now.text lines.now))) list.old.list }
    ensures { OnOk result (Match (IsReservoir (rows_at text.now.text lines.now))
        (rows_of Reservoirs (take (place + 1) (rows_at text.now.text lines.now))) list.new.list) }
{
    let line = &lines[place];
    if !is_reservoirs(line.section) {
        return Ok(());
    }
    list.push(reservoir_of(text, line, patterns, unit))?;
    Ok(())
}

/// The reservoirs of a file without a fault, in the order of their rows, where `patterns` numbers its patterns.
pub fn build_reservoirs(
    alloc: Global,
    text: &Lines<'_>,
    lines: &[Line],
    patterns: &NumberedIds,
    unit: FlowUnit,
) -> Result<List<Reservoir>, OutOfMemory>
    requires lie { All (LiesIn text.now.text) lines.now }
    requires by_itself { NoneIs (IsWrongByItself (rows_at text.now.text lines.now)) }
    requires with_others { NoneIs (IsWrongWithOthers (rows_at text.now.text lines.now)) }
    requires patterns { patterns.now ≡ pattern_ids (rows_at text.now.text lines.now) }
    requires unit { unit ≡ force.unit (rows_at text.now.text lines.now) }
    ensures { IfOk result (λ list. Match (IsReservoir (rows_at text.now.text lines.now))
        (rows_of Reservoirs (rows_at text.now.text lines.now)) list.list) }
{
    let mut list = List::new(alloc);
    for place in 0..lines.len() {
        add_row(&mut list, text, lines, place, patterns, unit)?;
    }
    Ok(list)
}
