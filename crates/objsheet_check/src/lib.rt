//! The commands that judge a definition, which is the whole input: `check`, which says what it holds or why it is refused, and `init`,
//! which begins its journal.
#![tactic(auto)]

mod checking;
mod initialising;
mod phrase;

pub use checking::check;
pub use initialising::init;
pub use phrase::{definition_line, type_line};
