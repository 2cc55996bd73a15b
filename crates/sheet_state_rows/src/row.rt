// One row of each kind, and what is counted.
use sheet_values::Set;

/// An object that was made. Its row stays when the object goes, until nothing can be undone any more.
#[derive(Clone, Copy, Debug, PartialEq, Eq)]
pub struct ObjectRow {
    pub number: u64,
    pub column: u32,
    /// The object above it, which the root lacks.
    pub parent: Option<u64>,
    /// Whether the object is there.
    pub live: bool,
}

/// A set that belongs to an object and a column: a state cell's, or the objects under it.
#[derive(Debug, Drop)]
pub struct SetRow {
    pub object: u64,
    pub column: u32,
    /// Whether the object is there. The set of one that isn't is empty.
    pub live: bool,
    pub set: Set,
}

/// What is counted of a workbook.
#[derive(Clone, Copy, Debug, PartialEq, Eq)]
pub struct Counters {
    /// The number of the next object.
    pub next: u64,
    /// The live objects.
    pub objects: u64,
    /// The state and formula cells.
    pub cells: u64,
    /// The values in state cells.
    pub values: u64,
}
