//! The rows of a workbook's objects, state cells and extents, which can be taken back to what they were.
#![tactic(auto)]

mod edit;
mod row;
mod rows;
mod tables;

pub use row::{Counters, ObjectRow, SetRow};
pub use tables::Tables;
