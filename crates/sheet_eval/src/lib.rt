//! One evaluation of a formula, over whatever tells the content of a workbook and the results of formula cells.
#![tactic(auto)]

mod contents;
mod evaluation;
mod forms;
mod lookup;
mod parts;
mod scene;
mod total;
mod working;

pub use evaluation::{Outcome, evaluate, evaluate_unread};
pub use lookup::Lookup;
