//! The lines of an input that is read in pieces, and whole texts for an output.
#![tactic(auto)]

mod definition;
mod line;
mod reader;
mod send;
mod stop;

pub use definition::read_to_divider;
pub use line::without_return;
pub use reader::{LONGEST_INPUT, LineEnd, LineReader};
pub use send::write_all;
pub use stop::ReadStop;
