//! The bodies of procedures and views with their names resolved.
#![tactic(auto)]

mod block;
mod body;
mod formula;
mod law;
mod part;
mod statement;
mod target;

pub use body::{resolve_procedure, resolve_view};
pub use law::{
    resolved_procedures_are_well_typed, resolved_statements_are_well_typed,
    resolved_views_are_well_typed,
};
pub use sheet_books::{Procedure, View};
pub use sheet_types_formulas::TypeRefusal;
