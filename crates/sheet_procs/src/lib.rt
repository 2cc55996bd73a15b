//! Procedures, run over an engine: whole, or not at all.
#![tactic(auto)]

mod arguments;
mod changes;
mod formulas;
mod procedure;
mod progress;
mod refusal;
mod statements;

pub use arguments::bad_argument;
pub use procedure::run_procedure;
pub use refusal::ProcedureRefusal;
