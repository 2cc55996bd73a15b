// Trees of columns.
ghost use Rattle.std.specs.Prelude.{◌≡◌, true};
ghost use Rattle.sheet_columns.specs.Tree.{HasFittingFirst, IsOfKind};

use crate::formulas::column_named;
use crate::trouble::Trouble;
use sheet_columns::{Column, Columns};
use sheet_values::{Kind, Name, Value};
use std::alloc::Global;

/// A tree of columns.
pub type Tree = Result<Columns, Trouble>;

/// The root alone.
pub fn root_column(alloc: Global) -> Tree {
    Ok(Columns::new(alloc)?)
}

/// A tree with one more column under the one of a name, `$` for the root. `UnknownName` where it can't stand there.
pub fn with_column(alloc: Global, tree: Tree, above: &str, title: &str, column: Column) -> Tree {
    let mut columns = tree?;
    if title.len() > 63 || !is_fitting(&column) {
        return Err(Trouble::UnknownName);
    }
    let name = Name::of(alloc, title)?;
    let Some(above) = column_named(&columns, above.as_bytes()) else {
        return Err(Trouble::UnknownName);
    };
    if !matches!(columns.get(above), Column::Object) {
        return Err(Trouble::UnknownName);
    }
    match columns.add(above, name, column) {
        Ok(_) => Ok(columns),
        Err(_) => Err(Trouble::UnknownName),
    }
}

// Whether a value is a first value of this type.
fn is_of_kind(kind: Kind, value: &Value) -> bool
    ensures { result ≡ true → IsOfKind kind value.now }
{
    match (kind, value) {
        (Kind::Truth, Value::Truth(_)) => true,
        (Kind::Number, Value::Number(_)) => true,
        (Kind::Text, Value::Text(_)) => true,
        _ => false,
    }
}

// Whether a first value is of its column's type.
fn is_fitting(column: &Column) -> bool
    ensures { result ≡ true → HasFittingFirst column.now }
{
    match column {
        Column::Object | Column::Formula { kind: _ } => true,
        Column::State {
            kind,
            one: _,
            first,
        } => match first {
            None => true,
            Some(value) => is_of_kind(*kind, value),
        },
    }
}

/// With an object column.
pub fn with_objects(alloc: Global, tree: Tree, above: &str, title: &str) -> Tree {
    with_column(alloc, tree, above, title, Column::Object)
}

/// With a state column that has no first value.
pub fn with_state(
    alloc: Global,
    tree: Tree,
    above: &str,
    title: &str,
    kind: Kind,
    one: bool,
) -> Tree {
    let column = Column::State {
        kind,
        one,
        first: None,
    };
    with_column(alloc, tree, above, title, column)
}

/// With a formula column.
pub fn with_formula(alloc: Global, tree: Tree, above: &str, title: &str, kind: Kind) -> Tree {
    with_column(alloc, tree, above, title, Column::Formula { kind })
}
