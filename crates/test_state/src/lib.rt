//! States of workbooks tried against plain lists that are kept beside them, and measures of them. Meant for tests and measures
//! only: random changes, and what a way back leaves.
#![tactic(auto)]

mod chance;
mod exploring;
mod guarded;
mod plain;

pub use chance::Random;
pub use exploring::explore;
pub use guarded::{columns, delete, delete_all, make, refer};
pub use plain::Model;

#[cfg(test)]
mod tests;
