//! The types of formula columns, which rounds over all columns give them from their formulas.
#![tactic(auto)]

mod first;
mod known;
mod mentions;
mod rounds;
mod waiting;

pub use first::{column_kinds, formula_in};
pub use rounds::final_kinds;
