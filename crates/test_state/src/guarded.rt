// Changes of a state where they may be made.
ghost use Rattle.std.specs.Prelude.{◌≡◌, ◌≤◌, length, IsTrue, IfOk};
ghost use Rattle.sheet_meaning.specs.WellFormed.{HasKind};
ghost use Rattle.sheet_state.specs.Stored.{IsStored};

use sheet_columns::{Column, Columns};
use sheet_state::{State, StateRefusal};
use sheet_values::{Kind, Name, NoMemory, Set, Value};
use std::alloc::Global;
use std::test::Fail;

// Adds a column without a first value, where that may be.
fn add(columns: &mut Columns, above: u32, name: Name, column: Column) -> Result<(), Fail> {
    let fits = above < columns.count()
        && matches!(columns.get(above), Column::Object)
        && name.bytes().len() <= 63;
    if fits && matches!(column, Column::Object | Column::State { first: None, .. }) {
        columns.add(above, name, column)?;
    }
    Ok(())
}

/// Shelves with boxes. A shelf refers to a shelf, and a box to a box: column 1 is that of shelves, 2 its reference, 3 that of
/// boxes, and 4 its reference.
pub fn columns(alloc: Global) -> Result<Columns, Fail> {
    let mut columns = Columns::new(alloc)?;
    let shelf = Column::State {
        kind: Kind::Object(1),
        one: false,
        first: None,
    };
    let crate_of = Column::State {
        kind: Kind::Object(3),
        one: false,
        first: None,
    };
    add(&mut columns, 0, Name::of(alloc, "Shelf")?, Column::Object)?;
    add(&mut columns, 1, Name::of(alloc, "next")?, shelf)?;
    add(&mut columns, 1, Name::of(alloc, "Box")?, Column::Object)?;
    add(&mut columns, 3, Name::of(alloc, "twin")?, crate_of)?;
    Ok(columns)
}

/// Makes an object where that may be; its number.
pub fn make(
    columns: &Columns,
    state: &mut State,
    column: u32,
    above: u64,
) -> Result<Option<u64>, StateRefusal>
    requires { IsStored columns.now state.old }
    ensures kept { IsStored columns.now state.new }
    ensures longer { length state.old.earlier ≤ length state.new.earlier }
{
    if column == 0 || column >= columns.count() {
        return Ok(None);
    }
    if !matches!(columns.get(column), Column::Object)
        || state.column_of(above) != Some(columns.above(column))
    {
        return Ok(None);
    }
    let (number, _) = state.new_object(columns, column, above)?;
    Ok(Some(number))
}

/// Lets a cell hold one object, where that may be; whether it does.
pub fn refer(
    alloc: Global,
    columns: &Columns,
    state: &mut State,
    object: u64,
    column: u32,
    held: u64,
) -> Result<bool, StateRefusal>
    requires { IsStored columns.now state.old }
    ensures kept { IsStored columns.now state.new }
    ensures longer { length state.old.earlier ≤ length state.new.earlier }
{
    if column == 0
        || column >= columns.count()
        || state.column_of(object) != Some(columns.above(column))
    {
        return Ok(false);
    }
    match columns.get(column) {
        Column::State {
            kind: Kind::Object(of),
            one: _,
            first: _,
        } => {
            if state.column_of(held) != Some(*of) {
                return Ok(false);
            }
            let set = Set::one(alloc, Value::Object(held))?;
            state.set_cell(columns, object, column, set)?;
            Ok(true)
        }
        _ => Ok(false),
    }
}

/// Takes an object away where that may be; whether it went.
pub fn delete(columns: &Columns, state: &mut State, object: u64) -> Result<bool, NoMemory>
    requires { IsStored columns.now state.old }
    ensures kept { IsStored columns.now state.new }
    ensures longer { length state.old.earlier ≤ length state.new.earlier }
{
    if object == 0 || !state.is_live(object) {
        return Ok(false);
    }
    state.delete(columns, object)?;
    Ok(true)
}

/// Takes the objects of a set away, where the root is none of them; whether they went.
pub fn delete_all(columns: &Columns, state: &mut State, objects: &Set) -> Result<bool, NoMemory>
    requires { IsStored columns.now state.old }
    ensures kept { IsStored columns.now state.new }
    ensures longer { length state.old.earlier ≤ length state.new.earlier }
{
    if objects.contains(&Value::Object(0)) {
        return Ok(false);
    }
    state.delete_all(columns, objects)?;
    Ok(true)
}
