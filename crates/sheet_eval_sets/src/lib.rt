//! What an evaluation of a formula keeps on its way: sets that are made or only lent, unions of many sets, and the items and formula
//! cells that were used.
#![tactic(auto)]

mod gathering;
mod part;
mod uses;

pub use gathering::Gathering;
pub use part::{Part, alone};
pub use uses::Uses;
