//! The engine: a book, the state of its workbook, and the settled results of its formula cells.
#![tactic(auto)]

mod engine;
mod scene;
mod settling;
mod standings;

pub use engine::{Engine, EngineMark};
