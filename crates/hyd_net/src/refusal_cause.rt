//! Why an input file is refused.
#![tactic(auto)]

/// The cause for which a line of an input file is refused, or the file as a whole.
#[derive(Debug, Clone, Copy, PartialEq, Eq, Drop)]
pub enum Cause {
    /// A wrong keyword or form.
    Syntax,
    /// A word that is no number, or a number that is too large.
    Number,
    /// A value outside its range.
    Range,
    /// An ID that an earlier row has.
    DuplicateId,
    /// A name that nothing of the kind that is asked for has.
    UnknownName,
    /// A part of EPANET's input that isn't supported, by its number.
    Unsupported(u8),
    /// A limit that is passed, by its number.
    Limit(u8),
    /// A network without a reservoir or a tank.
    Missing,
}
