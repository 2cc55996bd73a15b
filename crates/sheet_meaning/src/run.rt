//! What an evaluation comes to and uses.

use sheet_columns::{Fault, Item, Sequence};

/// What an evaluation uses: the content of an item, or the outcome of the formula cell of an object
/// and a column.
#[derive(Clone, Copy, Debug, PartialEq, Eq)]
pub enum Use {
    Read(Item),
    Cell(u64, u32),
}

/// An evaluation: what it comes to, and what it used on the way, in order. That there is no outcome so
/// far is written as the fault `cycle`.
#[derive(Debug, Drop)]
pub struct Run<A> {
    pub outcome: Result<A, Fault>,
    pub uses: Sequence<Use>,
}
