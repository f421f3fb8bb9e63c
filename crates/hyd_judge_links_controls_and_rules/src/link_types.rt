//! Types of links.
#![tactic(auto)]

ghost use Rattle.std.specs.Prelude.{◌≡◌, if◌then◌else◌};
ghost use Rattle.hyd_spec_lines.specs.Lines.{LiesIn, row_of};
ghost use Rattle.hyd_option_and_rule_lines.specs.FaultOrValue.{words_at};
ghost use Rattle.hyd_spec_input.specs.NodeAndLinkRows as row;
ghost use Rattle.hyd_judge_links_controls_and_rules.specs.AskedStatesOfLinks.{IsRightLink, IsType};

use hyd_lex::{Line, Lines, Section};
use hyd_network_rows::{PipeStatus, read_pipe_status};
use hyd_option_and_rule_lines::word_is;

/// What a link is, as far as its state depends on it.
#[derive(Clone, Copy, Drop)]
pub enum LinkType {
    Pipe,
    /// A pipe with a check valve.
    CheckPipe,
    Pump,
    /// A throttle control valve.
    Tcv,
    /// A flow control valve.
    Fcv,
    /// A general purpose valve.
    Gpv,
}

fn pipe_type(text: &Lines<'_>, link: &Line) -> LinkType
    requires { LiesIn text.now.text link.now }
    ensures { result ≡ (if row.has_check_valve (words_at text.now link.now) then LinkType.CheckPipe
        else LinkType.Pipe) }
{
    match read_pipe_status(text, link) {
        PipeStatus::CheckValve => LinkType::CheckPipe,
        _ => LinkType::Pipe,
    }
}

fn valve_type(text: &Lines<'_>, link: &Line) -> LinkType
    requires { LiesIn text.now.text link.now }
    ensures { result ≡ (if row.is_general (words_at text.now link.now) then LinkType.Gpv
        else (if row.is_throttle (words_at text.now link.now) then LinkType.Tcv else LinkType.Fcv)) }
{
    if word_is(text, link, 4, b"GPV") {
        return LinkType::Gpv;
    }
    if word_is(text, link, 4, b"TCV") {
        return LinkType::Tcv;
    }
    LinkType::Fcv
}

/// What a link is, by its row.
pub fn link_type(text: &Lines<'_>, link: &Line) -> LinkType
    requires lies { LiesIn text.now.text link.now }
    requires right { IsRightLink (row_of text.now.text link.now) }
    ensures { IsType (row_of text.now.text link.now) result }
{
    match link.section {
        Section::Pipes => pipe_type(text, link),
        Section::Pumps => LinkType::Pump,
        _ => valve_type(text, link),
    }
}
