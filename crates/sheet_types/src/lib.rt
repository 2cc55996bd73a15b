//! Books: definitions with their types and their names resolved.
#![tactic(auto)]

mod bodies;
mod columns;
mod elaboration;
mod law;

pub use elaboration::elaborate;
pub use law::books_are_well_typed;
pub use sheet_books::{Book, Procedure, View};
pub use sheet_types_formulas::TypeRefusal;
