//! Workbooks of definitions, whose procedures are called by name: what a call needs is judged first, so that it has no condition.
//! Meant for tests and measures only.
#![tactic(auto)]

mod filled;
mod reading;
mod refusing;

pub use filled::{Called, Filled};
pub use reading::workbook;
pub use refusing::refusal_of;
