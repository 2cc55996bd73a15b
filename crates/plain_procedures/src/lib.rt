//! A plain, slow program that runs statements and procedures as their definitions say, for tests.
#![tactic(auto)]

mod changes;
mod filled;
mod point;
mod procedure;
mod statements;

pub use changes::started;
pub use filled::unfilled;
pub use point::{
    PlainPoint, answer, formula, go_on, is_present, make, remove_all, store, target_object,
    with_variable,
};
pub use procedure::{PlainBook, act, run_procedure};
pub use statements::{run_statement, run_statements};
