// The content that formulas are evaluated over, as rows.
use crate::rows::{Row, held_at};
use sheet_columns::Fault;
use sheet_eval::Lookup;
use sheet_values::Set;

/// Sets of state cells and of extents, parents under column 0, and results of formula cells.
#[derive(Drop)]
pub struct Content {
    /// What cells and extents without a row hold.
    pub empty: Set,
    pub cells: Vec<Row<Set>>,
    pub children: Vec<Row<Set>>,
    pub parents: Vec<Row<u64>>,
    pub worked: Vec<Row<Result<Set, Fault>>>,
}

impl Lookup for Content {
    ghost use Rattle.test_eval.specs.Contents.{content_told};

    ghost told = { content_told };

    fn cell(&self, object: u64, column: u32) -> &Set {
        match held_at(self.cells.as_slice(), object, column) {
            Some(set) => set,
            None => &self.empty,
        }
    }

    fn children(&self, object: u64, column: u32) -> &Set {
        match held_at(self.children.as_slice(), object, column) {
            Some(set) => set,
            None => &self.empty,
        }
    }

    fn parent(&self, object: u64) -> Option<u64> {
        match held_at(self.parents.as_slice(), object, 0) {
            Some(parent) => Some(*parent),
            None => None,
        }
    }

    fn is_live(&self, object: u64) -> bool {
        object == 0 || held_at(self.parents.as_slice(), object, 0).is_some()
    }

    fn worked(&self, object: u64, column: u32) -> Option<&Result<Set, Fault>> {
        held_at(self.worked.as_slice(), object, column)
    }
}
