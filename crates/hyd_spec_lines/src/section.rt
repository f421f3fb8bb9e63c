//! Sections and the regions that headings open.
#![tactic(auto)]

use crate::fault::LexCause;

/// A section that is read, by its heading.
#[derive(Clone, Copy, Drop)]
pub enum Section {
    Junctions,
    Reservoirs,
    Tanks,
    Pipes,
    Pumps,
    Valves,
    Demands,
    Emitters,
    Curves,
    Patterns,
    Status,
    Controls,
    Rules,
    Options,
    Times,
}

/// What a line stands under.
#[derive(Clone, Copy, Drop)]
pub enum Region {
    /// No heading yet.
    BeforeHeadings,
    Read(Section),
    /// A section of which nothing is read.
    PassedOver,
    /// The end of the text: its last heading, or a fault.
    Ended,
}

/// What a line is.
#[derive(Clone, Copy, Drop)]
pub enum Kind {
    /// A blank line, or one that isn't read.
    Nothing,
    Wrong(LexCause),
    Row(Section),
    /// A heading.
    Opens(Region),
}
