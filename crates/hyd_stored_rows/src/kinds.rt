//! The kinds of rows.

use crate::capacities::{put_emitter, put_pipe, put_pressure_demand, put_pump, put_valve};
use crate::certificates::{
    put_cut, put_failing_read, put_first_version, put_printed, put_second_version,
};
use crate::desks_and_pens::{put_answers_of_pen, put_calls_of_pen, put_copy};
use crate::faults_of_texts::{
    put_fault_behind, put_fault_of_bytes, put_fault_of_many, put_first_row, put_kept,
    put_text_fault,
};
use crate::lines::{put_first_word, put_lines, put_long_line};
use crate::lines_of_sections::{Reader, put_line};
use crate::lists_and_factors::{put_great_loads, put_grid, put_many_items, put_two_nodes};
use crate::numbers::{
    put_decimal, put_factor, put_order, put_pair, put_root, put_roots_of_products, put_three_halves,
};
use crate::quantities::{
    put_flow_in, put_flow_ticks, put_head_ticks, put_height, put_pressure_ticks,
};
use std::alloc::{AllocError, Global};

/// What a row asks for.
#[derive(Clone, Copy, Drop)]
pub(crate) enum Kind {
    Number(OfNumbers),
    Quantity(OfQuantities),
    Text(OfTexts),
    Other(OfOthers),
    /// What the reader of the lines of a section says of one under its heading.
    Line(&'static str, Reader),
}

/// What a row of numbers asks for.
#[derive(Clone, Copy, Drop)]
pub(crate) enum OfNumbers {
    Decimal,
    Pair,
    Root,
    RootOfProduct,
    ThreeHalves,
    Order,
    Factor,
}

/// What a row of quantities asks for.
#[derive(Clone, Copy, Drop)]
pub(crate) enum OfQuantities {
    Height,
    Flow,
    FlowTicks,
    HeadTicks,
    PressureTicks,
    Valve,
    Pipe,
    Pump,
    Emitter,
    PressureDemand,
}

/// What a row of texts asks for.
#[derive(Clone, Copy, Drop)]
pub(crate) enum OfTexts {
    Lines,
    LongLine,
    FirstWord,
    FirstRow,
    Kept,
    FirstVersion,
    SecondVersion,
    Cut,
    FailingRead,
    Printed,
    Fault,
    FaultBehind,
    FaultOfMany,
    FaultOfBytes,
}

/// What a row of desks, pens, lists and factors asks for.
#[derive(Clone, Copy, Drop)]
pub(crate) enum OfOthers {
    Copy,
    CallsOfPen,
    AnswersOfPen,
    ManyItems,
    Grid,
    TwoNodes,
    GreatLoads,
}

/// The files of rows, and what they ask for.
pub(crate) const KINDS: [(&str, Kind); 56] = [
    ("decimals", Kind::Number(OfNumbers::Decimal)),
    ("pairs", Kind::Number(OfNumbers::Pair)),
    ("whole-roots", Kind::Number(OfNumbers::Root)),
    (
        "roots-of-capacities-times-heads",
        Kind::Number(OfNumbers::RootOfProduct),
    ),
    ("three-halves", Kind::Number(OfNumbers::ThreeHalves)),
    ("orders-of-squares", Kind::Number(OfNumbers::Order)),
    ("factors-of-units", Kind::Number(OfNumbers::Factor)),
    ("heights", Kind::Quantity(OfQuantities::Height)),
    ("flows", Kind::Quantity(OfQuantities::Flow)),
    ("ticks-of-flows", Kind::Quantity(OfQuantities::FlowTicks)),
    ("ticks-of-heads", Kind::Quantity(OfQuantities::HeadTicks)),
    (
        "ticks-of-pressures",
        Kind::Quantity(OfQuantities::PressureTicks),
    ),
    ("capacities-of-valves", Kind::Quantity(OfQuantities::Valve)),
    ("capacities-of-pipes", Kind::Quantity(OfQuantities::Pipe)),
    ("capacities-of-pumps", Kind::Quantity(OfQuantities::Pump)),
    (
        "capacities-of-emitters",
        Kind::Quantity(OfQuantities::Emitter),
    ),
    (
        "capacities-of-pressure-demands",
        Kind::Quantity(OfQuantities::PressureDemand),
    ),
    ("lines-and-words", Kind::Text(OfTexts::Lines)),
    ("long-lines", Kind::Text(OfTexts::LongLine)),
    ("first-words", Kind::Text(OfTexts::FirstWord)),
    ("junctions", Kind::Line("[JUNCTIONS]", Reader::OfSection)),
    ("reservoirs", Kind::Line("[RESERVOIRS]", Reader::OfSection)),
    ("tanks", Kind::Line("[TANKS]", Reader::OfSection)),
    ("pipes", Kind::Line("[PIPES]", Reader::OfSection)),
    ("pumps", Kind::Line("[PUMPS]", Reader::OfSection)),
    ("valves", Kind::Line("[VALVES]", Reader::OfSection)),
    ("demands", Kind::Line("[DEMANDS]", Reader::OfSection)),
    ("emitters", Kind::Line("[EMITTERS]", Reader::OfSection)),
    ("curves", Kind::Line("[CURVES]", Reader::OfSection)),
    ("patterns", Kind::Line("[PATTERNS]", Reader::OfSection)),
    ("statuses", Kind::Line("[STATUS]", Reader::OfSection)),
    ("options", Kind::Line("[OPTIONS]", Reader::OfSection)),
    ("lines-of-times", Kind::Line("[TIMES]", Reader::OfSection)),
    ("times", Kind::Line("[TIMES]", Reader::Time)),
    ("times-of-day", Kind::Line("[TIMES]", Reader::Clock)),
    ("controls", Kind::Line("[CONTROLS]", Reader::OfSection)),
    (
        "lines-of-rules-before-then",
        Kind::Line("[RULES]", Reader::BeforeThen),
    ),
    (
        "lines-of-rules-after-then",
        Kind::Line("[RULES]", Reader::AfterThen),
    ),
    ("first-rows-that-are-wrong", Kind::Text(OfTexts::FirstRow)),
    ("faults-that-are-kept", Kind::Text(OfTexts::Kept)),
    (
        "certificates-of-version-1",
        Kind::Text(OfTexts::FirstVersion),
    ),
    (
        "certificates-of-version-2",
        Kind::Text(OfTexts::SecondVersion),
    ),
    ("certificates-that-are-cut-off", Kind::Text(OfTexts::Cut)),
    (
        "certificates-whose-reading-fails",
        Kind::Text(OfTexts::FailingRead),
    ),
    (
        "certificates-that-are-printed",
        Kind::Text(OfTexts::Printed),
    ),
    ("faults-of-texts", Kind::Text(OfTexts::Fault)),
    (
        "faults-of-lines-behind-a-text",
        Kind::Text(OfTexts::FaultBehind),
    ),
    ("limits-of-rows", Kind::Text(OfTexts::FaultOfMany)),
    ("limits-of-bytes", Kind::Text(OfTexts::FaultOfBytes)),
    ("copies-whose-calls-fail", Kind::Other(OfOthers::Copy)),
    ("calls-of-pens", Kind::Other(OfOthers::CallsOfPen)),
    (
        "pens-that-answered-a-fault",
        Kind::Other(OfOthers::AnswersOfPen),
    ),
    (
        "lists-and-names-of-many-items",
        Kind::Other(OfOthers::ManyItems),
    ),
    ("factors-of-chains-and-grids", Kind::Other(OfOthers::Grid)),
    ("factors-of-two-nodes", Kind::Other(OfOthers::TwoNodes)),
    (
        "factors-under-great-loads",
        Kind::Other(OfOthers::GreatLoads),
    ),
];

/// Writes what is worked out for what a row asks.
pub(crate) fn write_answer(
    alloc: Global,
    kind: Kind,
    asked: &str,
    out: &mut String,
) -> Result<(), AllocError> {
    match kind {
        Kind::Number(of) => write_number(of, asked, out),
        Kind::Quantity(of) => write_quantity(of, asked, out),
        Kind::Text(of) => write_text(alloc, of, asked, out),
        Kind::Other(of) => write_other(alloc, of, asked, out),
        Kind::Line(heading, reader) => put_line(alloc, heading, reader, asked, out),
    }
}

/// The same of numbers.
fn write_number(of: OfNumbers, asked: &str, out: &mut String) -> Result<(), AllocError> {
    match of {
        OfNumbers::Decimal => put_decimal(asked, out),
        OfNumbers::Pair => put_pair(asked, out),
        OfNumbers::Root => put_root(asked, out),
        OfNumbers::RootOfProduct => put_roots_of_products(asked, out),
        OfNumbers::ThreeHalves => put_three_halves(asked, out),
        OfNumbers::Order => put_order(asked, out),
        OfNumbers::Factor => put_factor(asked, out),
    }
}

/// The same of quantities.
fn write_quantity(of: OfQuantities, asked: &str, out: &mut String) -> Result<(), AllocError> {
    match of {
        OfQuantities::Height => put_height(asked, out),
        OfQuantities::Flow => put_flow_in(asked, out),
        OfQuantities::FlowTicks => put_flow_ticks(asked, out),
        OfQuantities::HeadTicks => put_head_ticks(asked, out),
        OfQuantities::PressureTicks => put_pressure_ticks(asked, out),
        OfQuantities::Valve => put_valve(asked, out),
        OfQuantities::Pipe => put_pipe(asked, out),
        OfQuantities::Pump => put_pump(asked, out),
        OfQuantities::Emitter => put_emitter(asked, out),
        OfQuantities::PressureDemand => put_pressure_demand(asked, out),
    }
}

/// The same of texts.
fn write_text(alloc: Global, of: OfTexts, asked: &str, out: &mut String) -> Result<(), AllocError> {
    match of {
        OfTexts::Lines => put_lines(alloc, asked, out),
        OfTexts::LongLine => put_long_line(alloc, asked, out),
        OfTexts::FirstWord => put_first_word(alloc, asked, out),
        OfTexts::FirstRow => put_first_row(alloc, asked, out),
        OfTexts::Kept => put_kept(out),
        OfTexts::FirstVersion => put_first_version(alloc, asked, out),
        OfTexts::SecondVersion => put_second_version(alloc, asked, out),
        OfTexts::Cut => put_cut(alloc, asked, out),
        OfTexts::FailingRead => put_failing_read(alloc, asked, out),
        OfTexts::Printed => put_printed(alloc, out),
        OfTexts::Fault => put_text_fault(alloc, asked, out),
        OfTexts::FaultBehind => put_fault_behind(alloc, asked, out),
        OfTexts::FaultOfMany => put_fault_of_many(alloc, asked, out),
        OfTexts::FaultOfBytes => put_fault_of_bytes(alloc, asked, out),
    }
}

/// The same of desks, pens, lists and factors.
fn write_other(
    alloc: Global,
    of: OfOthers,
    asked: &str,
    out: &mut String,
) -> Result<(), AllocError> {
    match of {
        OfOthers::Copy => put_copy(alloc, asked, out),
        OfOthers::CallsOfPen => put_calls_of_pen(alloc, asked, out),
        OfOthers::AnswersOfPen => put_answers_of_pen(alloc, asked, out),
        OfOthers::ManyItems => put_many_items(alloc, asked, out),
        OfOthers::Grid => put_grid(alloc, asked, out),
        OfOthers::TwoNodes => put_two_nodes(alloc, out),
        OfOthers::GreatLoads => put_great_loads(alloc, out),
    }
}
