//! Formulas are read from texts, and printed.
#![tactic(auto)]

mod build;
mod front;
mod parser;
mod read;
mod waiting;

pub use front::{line_of, made, name_at, offset, step};
pub use parser::{atom_at, formula_at};
pub use read::{parse_at, parse_formula};
pub use sheet_syntax_print::print_formula;
pub use sheet_syntax_trees::{
    Formed, Function, Gathering, Level, Operator, Prefix, Quantifier, Sign, SyntaxRefusal, Token,
    TokenKind, Tokens, Tree, lex,
};
