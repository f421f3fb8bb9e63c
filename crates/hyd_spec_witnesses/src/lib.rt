//! Definitions alone: the laws at a scale of parts of ticks, what makes a period of a witness met and which of its
//! clauses fails first, and the text of a witness. No function here has a body.
#![tactic(auto)]

/// What may fail of a period of a witness, in this order (this program's own).
#[derive(Clone, Copy, Drop)]
pub enum MetClause {
    /// Its number, its time, its levels and volumes don't follow from the period before, or from the file.
    Start,
    /// The flow of a link isn't what the heads at its ends give.
    Link,
    /// The demand flow of a junction isn't what its head gives, or its demand is out of range.
    Demand,
    /// The emitter flow of a junction isn't what its head gives.
    Emitter,
    /// The flows at a junction don't balance.
    Balance,
    /// It doesn't have its length.
    Length,
}

/// The first clause that fails of a period, with the link or the junction at which it does, counted from 0.
#[derive(Clone, Copy, Drop)]
pub struct Unmet {
    pub clause: MetClause,
    /// 0 where the clause names no place.
    pub number: u32,
}
