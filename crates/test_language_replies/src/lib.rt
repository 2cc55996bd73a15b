//! What the plain program comes to, as texts in the form of replies, for examples.
#![tactic(auto)]

mod printing;

pub use printing::{items_text, page_text, refusal_text, set_text, shown_text};
