//! The App: a book with its workbook and its callers, the answers to requests, and the journal of what was accepted.
#![tactic(auto)]

mod accepting;
mod acting;
mod admitting;
mod answered;
mod app;
mod calling;
mod held;
mod judging;
mod law;
mod looking;
mod opening;
mod recording;
mod starting;

pub use answered::Answered;
pub use app::App;
pub use law::{
    all_records_stand, crashes_are_recovered, what_is_recovered_is_opened,
    what_was_taken_is_recovered,
};
pub use opening::OpenRefusal;
pub use starting::StartRefusal;
