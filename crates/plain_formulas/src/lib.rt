//! A plain, slow program that works out formulas as their definitions say, for tests.
#![tactic(auto)]

mod evaluate;
mod forms;
mod parts;

pub use evaluate::work_out;
pub use parts::{appended, both, object, truth};
