//! The type of a formula and its form with names resolved, or its first refusal.
#![tactic(auto)]

mod forms;
mod formula;
mod kinds;
mod law;
mod names;
mod refusal;
mod scope;

pub use forms::{
    called, choice, denied, gathered, negated, no_condition, operation, set_of, step, tested, up,
};
pub use formula::{line_of, type_formula};
pub use kinds::{
    agree, column_above_of, common_kind, kind_at, kind_text, object_column_of, ordered,
};
pub use law::typed_formulas_have_their_kinds;
pub use names::{named, with_variable, word};
pub use refusal::TypeRefusal;
pub use scope::{Scope, Typed, Variable};
