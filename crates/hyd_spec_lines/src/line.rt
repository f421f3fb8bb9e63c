//! A line of a section that is read.
#![tactic(auto)]

use crate::section::Section;

/// A line with a word in a section that is read: its number, counted from 1, its section, and where it lies in the
/// text, from its first byte up to its comment or its end.
#[derive(Clone, Copy, Drop)]
pub struct Line {
    pub number: u32,
    pub section: Section,
    /// The place of its first byte.
    pub from: u32,
    /// The place behind its last byte before a comment.
    pub to: u32,
}
