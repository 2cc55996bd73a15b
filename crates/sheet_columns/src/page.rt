// What a view shows.
use crate::{Fault, Sequence};
use sheet_values::{Name, Set, Value};

/// The names of a table's slots, in order.
pub type Names = Sequence<Name>;

/// What a row shows in each slot, in order.
pub type Shows = Sequence<Result<Set, Fault>>;

/// The rows of a table, in the order of the values that they are for.
pub type Rows = Sequence<Row>;

/// The parts of a view, in order.
pub type Page = Sequence<Part>;

/// A part of a view.
#[derive(Debug, Drop)]
pub enum Part {
    /// One set.
    Show {
        name: Name,
        shown: Result<Set, Fault>,
    },
    /// One row for each value of a set.
    Table {
        name: Name,
        names: Names,
        rows: Result<Rows, Fault>,
    },
}

/// A row of a table.
#[derive(Debug, Drop)]
pub struct Row {
    /// The value that the row is for.
    pub of: Value,
    /// What it shows in each slot.
    pub shows: Shows,
}
