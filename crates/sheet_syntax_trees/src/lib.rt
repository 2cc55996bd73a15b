//! Formulas as they are written: the tokens of definitions and formulas, the trees that they stand for, and the grammar between
//! the two.
#![tactic(auto)]

mod bytes;
mod law;
mod lexer;
mod operators;
mod scan;
mod sign;
mod token;
mod tree;

pub use law::{
    refused_tokens_begin_no_formula, tokens_are_refused_at_the_first_that_goes_on_with_no_formula,
    tokens_are_taken_as_long_as_they_begin_a_formula, tokens_stand_for_one_tree,
    what_is_nested_too_deeply_is_a_bracket_or_a_form,
};
pub use lexer::lex;
pub use operators::{Function, Gathering, Level, Operator, Prefix, Quantifier};
pub use sign::{Sign, sign_of};
pub use token::{SyntaxRefusal, Token, TokenKind, Tokens};
pub use tree::{Formed, Tree};
