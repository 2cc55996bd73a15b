//! Views: their pages, over the engine.
#![tactic(auto)]

mod allow;
mod parts;
mod refusal;
mod view;

pub use refusal::ViewRefusal;
pub use view::{bad_view_argument, see};
