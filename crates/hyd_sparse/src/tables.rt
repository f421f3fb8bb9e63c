//! What a factor's tables hold. Columns and rows are numbered in the order of elimination.

/// A stretch of a table: its first place and the one past its last.
#[derive(Clone, Copy)]
pub(crate) struct Span {
    pub from: usize,
    pub to: usize,
}

/// How an earlier column changes a later one: the column, and the first of its entries that count, that of the later
/// one's row.
#[derive(Clone, Copy)]
pub(crate) struct Update {
    pub column: u32,
    pub from: u32,
}

/// A number of the matrix below its diagonal: its row, and the link that it is handed in for.
#[derive(Clone, Copy)]
pub(crate) struct Term {
    pub row: u32,
    pub link: u32,
}

/// A column of the factor: the node whose number stands on the matrix's diagonal, the column's
/// entries below it, the updates that it takes from earlier columns, and its terms.
#[derive(Clone, Copy)]
pub(crate) struct Column {
    pub node: u32,
    pub entries: Span,
    pub updates: Span,
    pub terms: Span,
}
