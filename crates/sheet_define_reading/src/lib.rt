//! How definitions are read from tokens: the marks of their tokens, and reading from the left, which is proved to read what the productions allow.
#![tactic(auto)]

mod law;
mod mark;

pub use law::{
    texts_stand_for_one_definition, what_is_read_stands_there, what_stands_there_is_read,
};
pub use mark::{Mark, mark_of};
