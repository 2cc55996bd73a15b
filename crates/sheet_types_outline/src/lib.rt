//! The columns, types, parameters and names of a definition, without a look at its formulas.
#![tactic(auto)]

mod contents;
mod law;
mod name_table;
mod naming;
mod open_columns;
mod orderly;
mod outline;
mod resolving;
mod types;

pub use law::{outlines_are_within, texts_are_orderly};
pub use orderly::is_orderly;
pub use outline::{Outline, outline_definition};
