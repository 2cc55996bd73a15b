// The objects of a column.
ghost use Rattle.std.specs.Prelude.{◌≡◌, ◌++◌, [], ◌∷◌, Some, filter_map, IfOk, OnOk};
ghost use Rattle.sheet_columns.specs.Tree.{column_of, IsTree};
ghost use Rattle.sheet_columns.specs.declared.tree.Column.TheVariants.{Object as object_column};
ghost use Rattle.sheet_meaning.specs.Formula.{object_in as object_told};
ghost use Rattle.sheet_state.specs.Stored.{IsStored};
ghost use Rattle.sheet_print.specs.Books.{objects_of as objects_told};
ghost use Rattle.sheet_print.specs.Shown.{children_of as children_told};

use sheet_columns::Columns;
use sheet_eval_sets::{Gathering, Part};
use sheet_state::State;
use sheet_values::{NoMemory, Set, Value};
use std::alloc::Global;

/// The numbers of a column's objects.
pub(crate) fn objects_of(
    alloc: Global,
    state: &State,
    columns: &Columns,
    column: u32,
) -> Result<Vec<u64>, NoMemory>
    requires tree { IsTree columns.now }
    requires kept { IsStored columns.now state.now }
    requires object_column { column_of columns.now column ≡ Some object_column }
    ensures { IfOk result (λ numbers. numbers.items ≡ objects_told state.now.present.state.objects column) }
{
    if column == 0 {
        return root_alone(alloc);
    }
    let parents = objects_of(alloc, state, columns, columns.above(column))?;
    let objects = children_of(alloc, state, parents.as_slice(), column)?;
    numbers_in(alloc, objects.as_slice())
}

// The number of the root.
fn root_alone(alloc: Global) -> Result<Vec<u64>, NoMemory>
    ensures { IfOk result (λ numbers. numbers.items ≡ 0 ∷ []) }
{
    let numbers = Vec::from_slice(alloc, &[0])?;
    Ok(numbers)
}

// The objects of a column under any of these.
fn children_of(alloc: Global, state: &State, parents: &[u64], column: u32) -> Result<Set, NoMemory>
    ensures { IfOk result (λ set. set ≡ children_told state.now.present.state.objects column parents.now) }
{
    let mut children = Gathering::new(alloc);
    for parent in parents {
        children.join(Part::lent(state.children(*parent, column)))?;
    }
    let children = children.whole(alloc)?;
    children.into_set()
}

// The number of an object.
fn object_in(value: &Value) -> Option<u64>
    ensures { result ≡ object_told value.now }
{
    match value {
        Value::Object(object) => Some(*object),
        _ => None,
    }
}

// The number of an object, behind the others.
fn add_object(numbers: &mut Vec<u64>, value: &Value) -> Result<(), NoMemory>
    ensures { OnOk result (numbers.new.items ≡ numbers.old.items ++ filter_map object_told (value.now ∷ [])) }
{
    match object_in(value) {
        Some(object) => {
            numbers.push(object)?;
            Ok(())
        }
        None => Ok(()),
    }
}

// The numbers of the objects among these.
fn numbers_in(alloc: Global, values: &[Value]) -> Result<Vec<u64>, NoMemory>
    ensures { IfOk result (λ numbers. numbers.items ≡ filter_map object_told values.now) }
{
    let mut numbers = Vec::new(alloc);
    for value in values {
        add_object(&mut numbers, value)?;
    }
    Ok(numbers)
}
