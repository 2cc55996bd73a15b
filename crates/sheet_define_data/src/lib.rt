//! Definitions as they are written: their data, the grammar that they obey, and the text that they are printed as.
#![tactic(auto)]

ghost use Rattle.sheet_define_data.specs.Club.{ClubIsRead, ClubIsPrinted};
ghost use Rattle.sheet_define_data.specs.Examples.{ExamplesAreRead, ExamplesArePrinted};

mod definition;
mod statement;

pub use definition::{
    Column, Content, Declaration, Definition, Literal, Parameter, Part, Path, Procedure, Show,
    TypeName, View,
};
pub use statement::{Statement, Target};

/// The texts of two small definitions, in which each production stands, stand for them.
pub fn examples_are_read()
    ensures { ExamplesAreRead }
{}

/// Each of them is printed as its text.
pub fn examples_are_printed()
    ensures { ExamplesArePrinted }
{}

/// The text of the club stands for its definition.
pub fn club_is_read()
    ensures { ClubIsRead }
{}

/// The club is printed as that text, with parentheses round an operand that has an operator.
pub fn club_is_printed()
    ensures { ClubIsPrinted }
{}
