//! Books: definitions with their types and their names resolved.
#![tactic(auto)]

mod body;
mod book;
mod law;

pub use body::{Procedure, View};
pub use book::{Book, Contents};
pub use law::{books_start_well, kinds_are_within};
