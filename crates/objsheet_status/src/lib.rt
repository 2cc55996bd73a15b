//! How the program ends: its statuses, and the last line that a command writes before it ends with one.
#![tactic(auto)]

mod last_line;
mod status;

pub use last_line::write_last_line;
pub use status::{DISK_FAILED, DONE, OUT_OF_MEMORY, REFUSED, SINK_FAILED, SOURCE_FAILED, USAGE};
