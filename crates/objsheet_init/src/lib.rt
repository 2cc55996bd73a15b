//! What the command `init` does with a definition that was judged: it begins the journal.
#![tactic(auto)]

mod beginning;

pub use beginning::begin_journal;
