//! Where definitions are refused: at the first token that goes on with none, or at what is nested too deeply.
#![tactic(auto)]

mod law;

pub use law::{
    texts_are_refused_at_the_first_token_that_goes_on_with_no_definition,
    what_is_refused_for_nesting_is_nested_too_deeply,
};
