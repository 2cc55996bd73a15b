//! Formulas, statements and columns of examples, made of their texts for the plain program. In the tree of columns that they
//! are read by, no two columns share a name.
#![tactic(auto)]

mod column;
mod form;
mod formulas;
mod statement;
mod trouble;

pub use column::{Tree, root_column, with_column, with_formula, with_objects, with_state};
pub use formulas::{Built, Scope, built, column_named, formula};
pub use statement::{
    Body, Stated, add, bind, branch, check, delete, new, no_statements, remove, repeat, reply, set,
    then,
};
pub use trouble::Trouble;
