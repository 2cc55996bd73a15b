//! Whole definitions are read from texts, and printed.
#![tactic(auto)]

mod column;
mod declaration;
mod front;
mod parameter;
mod read;
mod statement;
mod target;
mod types;
mod view;

pub use read::{DefinitionRefusal, read_definition};
pub use sheet_define_data::{
    Column, Content, Declaration, Definition, Literal, Parameter, Part, Path, Procedure, Show,
    Statement, Target, TypeName, View,
};
pub use sheet_define_length::printed_length;
pub use sheet_define_print::print_definition;
pub use sheet_syntax::SyntaxRefusal;
