//! What is wrong with a row by itself, section by section.
#![tactic(auto)]

ghost use Rattle.std.specs.Prelude.{◌≡◌};
ghost use Rattle.std.specs.List.{All};
ghost use Rattle.hyd_spec_lines.specs.Lines.{LiesIn};
ghost use Rattle.hyd_option_and_rule_lines.specs.FaultOrValue.{words_at};
ghost use Rattle.hyd_network_rows.specs.RuleLineStages.{rule_lines, fault_at_stage};

use crate::demands_emitters_curves_and_statuses::{
    read_curve, read_demand, read_emitter, read_status,
};
use crate::junctions_and_reservoirs::{read_junction, read_reservoir};
use crate::patterns::read_pattern;
use crate::pipes::read_pipe_by;
use crate::pumps::read_pump;
use crate::rules::check_rule_line;
use crate::tanks::read_tank;
use crate::valves::read_valve;
use hyd_lex::{Line, Lines, Section};
use hyd_net::Cause;
use hyd_option_and_rule_lines::{read_control, read_option, read_time_line};
use hyd_spec_input::Stage;

/// What is wrong with a row by itself, where losses are by Hazen-Williams or not, the lines of rules before it end at a
/// stage and these rows are behind it.
pub(crate) fn row_fault(
    text: &Lines<'_>,
    line: &Line,
    by_power: bool,
    stage: Stage,
    later: &[Line],
) -> Option<Cause>
    requires lies { LiesIn text.now.text line.now }
    requires lie { All (LiesIn text.now.text) later.now }
    ensures { result ≡ fault_at_stage by_power line.now.section stage (words_at text.now line.now)
        (rule_lines text.now.text later.now) }
{
    match line.section {
        Section::Junctions => read_junction(text, line).err(),
        Section::Reservoirs => read_reservoir(text, line).err(),
        Section::Tanks => read_tank(text, line).err(),
        Section::Pipes => read_pipe_by(text, line, by_power).err(),
        Section::Pumps => read_pump(text, line).err(),
        Section::Valves => read_valve(text, line).err(),
        Section::Demands => read_demand(text, line).err(),
        Section::Emitters => read_emitter(text, line).err(),
        Section::Curves => read_curve(text, line).err(),
        Section::Patterns => read_pattern(text, line).err(),
        Section::Status => read_status(text, line).err(),
        Section::Controls => read_control(text, line).err(),
        Section::Rules => check_rule_line(text, line, stage, later).err(),
        Section::Options => read_option(text, line).err(),
        Section::Times => read_time_line(text, line).err(),
    }
}
