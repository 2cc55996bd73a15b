//! The arguments of procedures and views: which of them doesn't fit, and the variables that formulas begin with.
#![tactic(auto)]

mod fitting;
mod variables;

pub use fitting::bad_argument;
pub use variables::first_variables;
