//! What goes with objects: all that stands below them, and the state cells that may refer to them.
#![tactic(auto)]

mod below;
mod references;

pub use below::{families_of, own_places};
pub use references::{Reference, References};
