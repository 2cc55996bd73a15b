//! The text that a definition is printed as.
#![tactic(auto)]

mod column;
mod definition;
mod head;
mod line;
mod statement;

pub use definition::{append_definition, print_definition};
