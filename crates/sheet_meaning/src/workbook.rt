//! A workbook as plain data.

use sheet_columns::{Columns, Core, Sequence};
use sheet_values::Values;

/// The formula of a formula column.
#[derive(Drop)]
pub struct ColumnFormula {
    pub column: u32,
    pub core: Core,
}

/// The columns, and the formulas of the formula columns in the order of their numbers.
#[derive(Drop)]
pub struct Schema {
    pub columns: Columns,
    pub formulas: Sequence<ColumnFormula>,
}

/// A live object.
#[derive(Clone, Copy, Debug, PartialEq, Eq)]
pub struct LiveObject {
    pub number: u64,
    pub column: u32,
    /// The object above it, which the root lacks.
    pub parent: Option<u64>,
}

/// A state cell and its set, as a list in order without doubles.
#[derive(Debug, Drop)]
pub struct StoredCell {
    pub object: u64,
    pub column: u32,
    pub set: Values,
}

/// What changes of a workbook: the live objects by number, the state cells by object and column, and
/// the next object number.
#[derive(Debug, Drop)]
pub struct State {
    pub objects: Sequence<LiveObject>,
    pub cells: Sequence<StoredCell>,
    pub next: u64,
}

#[derive(Drop)]
pub struct Workbook {
    pub schema: Schema,
    pub state: State,
}

/// Who calls a procedure or sees a view.
#[derive(Clone, Copy, Debug, PartialEq, Eq)]
pub struct Caller {
    /// The caller's object, live or not, which the operator lacks.
    pub object: Option<u64>,
    pub operator: bool,
}
