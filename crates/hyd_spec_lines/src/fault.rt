//! Why a line is refused.
#![tactic(auto)]

/// The rule of lines that a line breaks. Of several, a line that is too long comes first, then a byte that isn't
/// plain, then what the heading is.
#[derive(Clone, Copy, Drop)]
pub enum LexCause {
    /// The line has more than 1,024 bytes, its end aside (this program's own limit).
    LongLine,
    /// A heading with more than one word, or of no section.
    UnknownSection,
    /// A byte outside printing ASCII, spaces and tabs, in a heading or in a section that is read, and not in a
    /// comment.
    NotAscii,
    /// A word before the first heading.
    NoSection,
}

/// The first line that breaks a rule of lines.
#[derive(Clone, Copy, Drop)]
pub struct LexFault {
    /// The line's number, counted from 1.
    pub line: u32,
    /// The rule that it breaks.
    pub cause: LexCause,
}
