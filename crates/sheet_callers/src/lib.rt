//! Callers: their keys, their names, the rule of their numbers, and the accepted requests of theirs that are kept.
#![tactic(auto)]

mod account;
mod admission;
mod callers;
mod index;
mod judgement;

pub use admission::AdmitRefusal;
pub use callers::{Callers, MOST_CALLERS};
pub use judgement::Judgement;
