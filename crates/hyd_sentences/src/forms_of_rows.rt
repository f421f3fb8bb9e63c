//! The form of a row, by its section and its words.

use crate::forms::{
    CONTROL_BY_CLOCK, CONTROL_BY_LEVEL, CONTROL_BY_TIME, CURVE, DEMAND, EMITTER, Form,
    GENERAL_VALVE, JUNCTION, PATTERN, PIPE, PIPE_OF_SEVEN, PUMP, RESERVOIR, STATUS, TANK, THROTTLE,
    VALVE,
};
use crate::forms_of_options_and_times::{form_of_option, form_of_time};
use crate::forms_of_rules::form_of_rule_line;
use crate::rows::Row;
use crate::rule_lines::is_acting;
use hyd_spec_lines::Section;

fn form_of_pipe(row: &Row<'_>) -> Form {
    if row.count() == 7 {
        return PIPE_OF_SEVEN;
    }
    PIPE
}

fn form_of_valve(row: &Row<'_>) -> Form {
    if row.has(4, "TCV") {
        return THROTTLE;
    }
    if row.has(4, "GPV") {
        return GENERAL_VALVE;
    }
    VALVE
}

fn form_of_control(row: &Row<'_>) -> Form {
    if row.has(3, "IF") {
        return CONTROL_BY_LEVEL;
    }
    if row.has(4, "CLOCKTIME") {
        return CONTROL_BY_CLOCK;
    }
    CONTROL_BY_TIME
}

/// What the words of a row of a section are.
pub(crate) fn form_of(text: &[u8], row: &Row<'_>, section: Section) -> Form {
    match section {
        Section::Junctions => JUNCTION,
        Section::Reservoirs => RESERVOIR,
        Section::Tanks => TANK,
        Section::Pipes => form_of_pipe(row),
        Section::Pumps => PUMP,
        Section::Valves => form_of_valve(row),
        Section::Demands => DEMAND,
        Section::Emitters => EMITTER,
        Section::Curves => CURVE,
        Section::Patterns => PATTERN,
        Section::Status => STATUS,
        Section::Controls => form_of_control(row),
        Section::Rules => form_of_rule_line(row, is_acting(text, row.number)),
        Section::Options => form_of_option(row),
        Section::Times => form_of_time(row),
    }
}
