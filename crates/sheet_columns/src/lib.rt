//! The tree of columns, formulas, statements and views after names are resolved, and the plain data that several crates share.
#![tactic(auto)]

mod cells;
mod children;
mod fault;
mod formula;
mod item;
mod page;
mod parameters;
mod reads;
mod sequence;
mod statement;
mod tree;
mod variables;
mod view;

pub use cells::Cells;
pub use fault::{Fault, Place};
pub use formula::{
    ArithmeticOperator, Connective, Core, Extremum, OrderTest, Quantifier, SetOperator, SetTest,
};
pub use item::{Item, Items};
pub use page::{Names, Page, Part, Row, Rows, Shows};
pub use parameters::Parameters;
pub use reads::Reads;
pub use sequence::Sequence;
pub use statement::{Change, CoreStatement, Statements, Target};
pub use tree::{Column, ColumnRefusal, Columns};
pub use variables::Variables;
pub use view::{CoreParts, CoreSlot, CoreSlots, CoreView};
