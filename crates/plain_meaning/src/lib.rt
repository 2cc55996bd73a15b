//! A plain, slow program that works out workbooks and views as their definitions say, for tests.
#![tactic(auto)]

mod kept;
mod reaching;
mod resting;
mod rounds;
mod showing;
mod stop;

pub use kept::{kept_after, kept_with};
pub use reaching::{Cell, reached, support};
pub use resting::{kept_by_view, view_support};
pub use rounds::{CellRun, column_above, is_column, run_cells, settled, table_after, value_of};
pub use showing::{PlainPart, PlainRow, Shown, first_variables, page};
pub use stop::Stop;
