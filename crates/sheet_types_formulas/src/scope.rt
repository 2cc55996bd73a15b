// What formulas are typed under, and what they are then.
use sheet_columns::{Columns, Core};
use sheet_values::{Kind, Name};

/// A variable, and the type of its values.
#[derive(Debug, Drop)]
pub struct Variable {
    pub name: Name,
    pub kind: Kind,
}

/// What a formula's names are looked up in.
#[derive(Clone, Copy)]
pub struct Scope<'a> {
    /// The tree of columns.
    pub columns: &'a Columns,
    /// The types of state and formula columns, by number, as far as they are known. Those of object columns aren't read,
    /// and past the end nothing is known.
    pub kinds: &'a [Kind],
    /// The variables by position, an inner one behind those around it. `this`, `caller` and `operator` stand among them
    /// under these words, which are no names. Where `this` is one, columns are looked up under its column and those
    /// above, and else under the root alone.
    pub variables: &'a [Variable],
}

/// A formula with its names resolved.
#[derive(Drop)]
pub struct Typed {
    /// The line of its first token, from 1.
    pub line: u32,
    /// The formula, with column numbers for names and positions for variables.
    pub core: Core,
    /// The type of its values.
    pub kind: Kind,
}
