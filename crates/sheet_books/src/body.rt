// Procedures and views.
use sheet_columns::{Core, CoreParts, Parameters, Statements};
use sheet_values::Name;

/// A procedure with its names resolved. In its formulas position 0 is `caller`, 1 is `operator`, and the parameters follow.
#[derive(Drop)]
pub struct Procedure {
    pub name: Name,
    /// The names and types of its parameters.
    pub parameters: Parameters,
    /// Who may call it. Where it was left out, it is `true`.
    pub allow: Core,
    /// Its statements, numbered from 1.
    pub body: Statements,
}

/// A view with its names resolved. In its formulas position 0 is `caller`, 1 is `operator`, and the parameters follow.
#[derive(Drop)]
pub struct View {
    pub name: Name,
    /// The names and types of its parameters.
    pub parameters: Parameters,
    /// Who may see it. Where it was left out, it is `true`.
    pub allow: Core,
    /// Its slots and tables, numbered from 1.
    pub parts: CoreParts,
}
