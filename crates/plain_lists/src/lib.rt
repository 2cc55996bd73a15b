//! Lists of values, and what a workbook's lists tell, worked out plainly and slowly as their definitions say, for tests.
#![tactic(auto)]

mod lists;
mod lookup;

pub use lists::{alone, combine, compare, copied, numbers, objects, texts, truths, union_of_all};
pub use lookup::{Way, WorkedCell, children, object_at, parent, set_in, variable, way_from};
