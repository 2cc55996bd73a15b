//! Calls of an engine, made only where their conditions hold: for tests and measurements.
#![tactic(auto)]

mod guarded;
mod starting;

pub use guarded::{delete, make, put, result_of};
pub use starting::{column_at, started};
