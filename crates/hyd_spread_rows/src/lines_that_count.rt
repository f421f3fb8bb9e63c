//! The line of a text that counts for a node, subject by subject.
#![tactic(auto)]

ghost use Rattle.std.specs.Prelude.{◌≡◌, ◌<◌, ◌≤◌, ◌^◌, suc, length, Some, slice_get, if◌then◌else◌};
ghost use Rattle.std.specs.Option.{option_map};
ghost use Rattle.hyd_net.specs.Sound.{IsSound};
ghost use Rattle.hyd_spec.specs.NodeNumbers.{tank_count, tank_node};
ghost use Rattle.hyd_spec_lines.specs.WordsOfLines.{text_lines, words_in};
ghost use Rattle.hyd_spec_spread_rows.specs.declared.Subject.TheVariants.{Level as OfLevel};
ghost use Rattle.hyd_spec_spread_rows.specs.RowsOfSpreads.{subject_of};
ghost use Rattle.hyd_spec_spread_rows.specs.TextsOfSpreads as texts;
ghost use Rattle.hyd_spec_spread_rows.specs.TextsOfSpreads.{rows_of, is_subject};
ghost use Rattle.hyd_spec_spread_starts.specs.StartsOfSpreads.{place_for};
ghost use Rattle.hyd_spread_rows.specs.LinesThatCount.{AreLast};

use crate::lines::{body, first_line};
use crate::names::{is_all, subject as subject_of_row};
use crate::said::is_same;
use crate::words::or_empty;
use hyd_net::Project;
use hyd_spec_spread_rows::Subject;

/// The lines, counted from 1, of the last row about a subject that names a node, and of the last one for all.
#[derive(Clone, Copy, Drop)]
pub(crate) struct LastLines {
    pub(crate) named: Option<u32>,
    pub(crate) all: Option<u32>,
}

// Whether a row is about a subject.
fn is_about(body: &[u8], subject: Subject) -> bool
    ensures { result ≡ is_subject (subject_of (words_in body.now)) subject }
{
    match subject_of_row(body) {
        Some(own) => is_same(own, subject),
        None => false,
    }
}

// Whether it names the node of an ID.
fn names(id: &[u8], body: &[u8], subject: Subject) -> bool
    ensures { result ≡ texts.names subject id.now (words_in body.now) }
{
    let name = or_empty(body, 1);
    is_about(body, subject) && !is_all(name) && id == name
}

// Whether it is for all.
fn names_all(body: &[u8], subject: Subject) -> bool
    ensures { result ≡ texts.names_all subject (words_in body.now) }
{
    is_about(body, subject) && is_all(or_empty(body, 1))
}

impl LastLines {
    // Takes in a row of a line.
    fn hear(&mut self, subject: Subject, id: &[u8], body: &[u8], line: u32)
        ensures named { self.new.named
            ≡ (if texts.names subject id.now (words_in body.now) then Some line else self.old.named) }
        ensures all { self.new.all
            ≡ (if texts.names_all subject (words_in body.now) then Some line else self.old.all) }
    {
        if names(id, body, subject) {
            self.named = Some(line);
        }
        if names_all(body, subject) {
            self.all = Some(line);
        }
    }
}

// The last lines of a text of at most 64 MiB.
fn last_lines(text: &[u8], subject: Subject, id: &[u8]) -> LastLines
    requires { length text.now ≤ 2 ^ 26 }
    ensures { AreLast subject id.now (rows_of (text_lines text.now)) result }
{
    let mut last = LastLines {
        named: None,
        all: None,
    };
    let mut at = 0;
    let mut number = 0;
    while at < text.len() {
        let (line, used) = first_line(&text[at..]);
        number += 1;
        last.hear(subject, id, body(line), number);
        at += used;
    }
    last
}

/// The line, counted from 1, of the row about a subject that counts for a node, counted from 0: of the last row that
/// names the node, else of the last one for all; none where no row speaks of it. The text has at most 64 MiB.
pub fn line_for(project: &Project, text: &[u8], subject: Subject, node: u32) -> Option<u32>
    requires sound { IsSound project.now }
    requires node { node < length project.now.node_ids }
    requires short { length text.now ≤ 2 ^ 26 }
    ensures { result ≡ option_map (λ place. suc place) (place_for project.now subject (rows_of (text_lines text.now))
        node) }
{
    let last = last_lines(text, subject, project.node_ids.id(node));
    match last.named {
        Some(line) => Some(line),
        None => last.all,
    }
}

/// The line, counted from 1, of the row that counts for the level of a tank, counted from 0: of the last row that names
/// the tank, else of the last one for all; none where no row speaks of it. The text has at most 64 MiB.
pub fn level_line(project: &Project, text: &[u8], tank: u32) -> Option<u32>
    requires sound { IsSound project.now }
    requires tank { tank < tank_count project.now }
    requires short { length text.now ≤ 2 ^ 26 }
    ensures { result ≡ option_map (λ place. suc place) (place_for project.now OfLevel (rows_of (text_lines text.now))
        (tank_node project.now tank)) }
{
    let node = project.junctions.len() + project.reservoirs.len() + tank as usize;
    line_for(project, text, Subject::Level, node as u32)
}
