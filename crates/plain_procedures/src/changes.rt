// The changes that statements make.
ghost use Rattle.std.specs.Prelude.{◌≡◌, ◌++◌, ◌<◌, not, IfOk, OnOk, map, filter, length};
ghost use Rattle.sheet_meaning.specs.Changes.{changed_set, with_set, first_set, has_number, has_parent_in, family, is_other, without_object};
ghost use Rattle.sheet_meaning.specs.Start.{start_state};
ghost use Rattle.plain_procedures.specs.Columns.{column_at, columns_under, new_cell, cell_with, cells_left, made_with};

use plain_lists::{alone, combine, copied};
use plain_meaning::{column_above, is_column};
use sheet_columns::{Change, Column, Columns, Sequence, SetOperator};
use sheet_meaning::{LiveObject, Schema, State, StoredCell};
use sheet_values::{NoMemory, Value, Values};
use std::alloc::Global;

/// A state column: its number, whether each cell must hold exactly one value, and the first value of a new cell.
#[derive(Debug, Drop)]
pub struct StateColumn {
    pub number: u32,
    pub one: bool,
    pub first: Option<Value>,
}

// The state column with this number, where it stands directly under an object column.
fn push_column(
    columns: &Columns,
    above: u32,
    number: u32,
    list: &mut Vec<StateColumn>,
) -> Result<(), NoMemory>
    requires { number < length columns.now }
    ensures { OnOk result (list.new.items ≡ list.old.items ++ column_at columns.now above number) }
{
    if is_column(above, column_above(columns, number)) {
        if let Column::State {
            kind: _,
            one,
            first,
        } = columns.get(number)
        {
            let first = match first {
                Some(value) => Some(value.copy()?),
                None => None,
            };
            list.push(StateColumn {
                number,
                one: *one,
                first,
            })?;
        }
    }
    Ok(())
}

/// The state columns directly under an object column.
pub fn state_columns(
    alloc: Global,
    columns: &Columns,
    above: u32,
) -> Result<Vec<StateColumn>, NoMemory>
    ensures { IfOk result (λ list. list.items ≡ columns_under columns.now above) }
{
    let mut list = Vec::new(alloc);
    for number in 0..columns.count() {
        push_column(columns, above, number, &mut list)?;
    }
    Ok(list)
}

/// What a state cell holds after `set`, `add` or `remove`.
pub fn changed_set(
    alloc: Global,
    change: Change,
    old: &[Value],
    set: &[Value],
) -> Result<Values, NoMemory>
    ensures { IfOk result (λ list. list ≡ changed_set change old.now set.now) }
{
    match change {
        Change::Set => copied(alloc, set),
        Change::Add => combine(alloc, SetOperator::Union, old, set),
        Change::Remove => combine(alloc, SetOperator::Except, old, set),
    }
}

fn copied_objects(alloc: Global, objects: &[LiveObject]) -> Result<Sequence<LiveObject>, NoMemory>
    ensures { IfOk result (λ list. list ≡ objects.now) }
{
    let mut list = Sequence::new(alloc);
    let mut rest = objects;
    while let Some((object, more)) = rest.split_first() {
        list.push(*object)?;
        rest = more;
    }
    Ok(list)
}

fn copied_cell(alloc: Global, cell: &StoredCell) -> Result<StoredCell, NoMemory>
    ensures { IfOk result (λ copy. copy ≡ cell.now) }
{
    Ok(StoredCell {
        object: cell.object,
        column: cell.column,
        set: copied(alloc, cell.set.as_slice())?,
    })
}

// A state cell, with another set where it is the cell of this object and column.
fn changed_cell(
    alloc: Global,
    cell: &StoredCell,
    object: u64,
    column: u32,
    set: &[Value],
) -> Result<StoredCell, NoMemory>
    ensures { IfOk result (λ copy. copy ≡ cell_with object column set.now cell.now) }
{
    if cell.object == object && cell.column == column {
        Ok(StoredCell {
            object,
            column,
            set: copied(alloc, set)?,
        })
    } else {
        copied_cell(alloc, cell)
    }
}

fn changed_cells(
    alloc: Global,
    cells: &[StoredCell],
    object: u64,
    column: u32,
    set: &[Value],
) -> Result<Sequence<StoredCell>, NoMemory>
    ensures { IfOk result (λ list. list ≡ map (cell_with object column set.now) cells.now) }
{
    let mut list = Sequence::new(alloc);
    let mut rest = cells;
    while let Some((cell, more)) = rest.split_first() {
        list.push(changed_cell(alloc, cell, object, column, set)?)?;
        rest = more;
    }
    Ok(list)
}

/// The state where a state cell holds a set.
pub fn with_set(
    alloc: Global,
    state: &State,
    object: u64,
    column: u32,
    set: &[Value],
) -> Result<State, NoMemory>
    ensures { IfOk result (λ next. next ≡ with_set state.now object column set.now) }
{
    Ok(State {
        objects: copied_objects(alloc, state.objects.as_slice())?,
        cells: changed_cells(alloc, state.cells.as_slice(), object, column, set)?,
        next: state.next,
    })
}

fn first_set(alloc: Global, first: &Option<Value>) -> Result<Values, NoMemory>
    ensures { IfOk result (λ set. set ≡ first_set first.now) }
{
    match first {
        Some(value) => alone(alloc, value.copy()?),
        None => Ok(Values::new(alloc)),
    }
}

// Adds the state cells of a new object.
fn push_new_cells(
    alloc: Global,
    cells: Sequence<StoredCell>,
    object: u64,
    columns: &[StateColumn],
) -> Result<Sequence<StoredCell>, NoMemory>
    ensures { IfOk result (λ list. list ≡ cells ++ map (new_cell object) columns.now) }
{
    let mut list = cells;
    let mut rest = columns;
    while let Some((column, more)) = rest.split_first() {
        list.push(StoredCell {
            object,
            column: column.number,
            set: first_set(alloc, &column.first)?,
        })?;
        rest = more;
    }
    Ok(list)
}

fn copied_cells(alloc: Global, cells: &[StoredCell]) -> Result<Sequence<StoredCell>, NoMemory>
    ensures { IfOk result (λ list. list ≡ cells.now) }
{
    let mut list = Sequence::new(alloc);
    let mut rest = cells;
    while let Some((cell, more)) = rest.split_first() {
        list.push(copied_cell(alloc, cell)?)?;
        rest = more;
    }
    Ok(list)
}

/// The state at the start: the root alone, with the first values of its state cells.
pub fn started(alloc: Global, schema: &Schema) -> Result<State, NoMemory>
    ensures { IfOk result (λ state. state ≡ start_state schema.now) }
{
    let columns = state_columns(alloc, &schema.columns, 0)?;
    let cells = push_new_cells(alloc, Sequence::new(alloc), 0, columns.as_slice())?;
    let mut objects = Sequence::new(alloc);
    objects.push(LiveObject {
        number: 0,
        column: 0,
        parent: None,
    })?;
    Ok(State {
        objects,
        cells,
        next: 1,
    })
}

/// The same state.
pub fn copied_state(alloc: Global, state: &State) -> Result<State, NoMemory>
    ensures { IfOk result (λ copy. copy ≡ state.now) }
{
    Ok(State {
        objects: copied_objects(alloc, state.objects.as_slice())?,
        cells: copied_cells(alloc, state.cells.as_slice())?,
        next: state.next,
    })
}

/// The state with a new object of a column, under an object, and with the next number that is given.
/// The new object's state cells hold their columns' first values.
pub fn with_object(
    alloc: Global,
    schema: &Schema,
    state: &State,
    column: u32,
    parent: u64,
    next: u64,
) -> Result<State, NoMemory>
    ensures { IfOk result (λ made. made ≡ made_with schema.now state.now column parent next) }
{
    let columns = state_columns(alloc, &schema.columns, column)?;
    let under = columns.as_slice();
    let stored = state.cells.as_slice();
    let old = copied_cells(alloc, stored)?;
    let cells = push_new_cells(alloc, old, state.next, under)?;
    let all = state.objects.as_slice();
    let mut objects = copied_objects(alloc, all)?;
    objects.push(LiveObject {
        number: state.next,
        column,
        parent: Some(parent),
    })?;
    Ok(State {
        objects,
        cells,
        next,
    })
}

fn has_number(numbers: &[u64], number: u64) -> bool
    ensures { result ≡ has_number numbers.now number }
{
    numbers.iter().any(|other| *other == number)
}

fn has_parent_in(numbers: &[u64], parent: Option<u64>) -> bool
    ensures { result ≡ has_parent_in numbers.now parent }
{
    match parent {
        Some(number) => has_number(numbers, number),
        None => false,
    }
}

// An object and all below it.
fn family(alloc: Global, objects: &[LiveObject], object: u64) -> Result<Vec<u64>, NoMemory>
    ensures { IfOk result (λ list. list.items ≡ family objects.now object) }
{
    let mut list = Vec::new(alloc);
    let mut rest = objects;
    while let Some((first, more)) = rest.split_first() {
        if first.number == object || has_parent_in(list.as_slice(), first.parent) {
            list.push(first.number)?;
        }
        rest = more;
    }
    Ok(list)
}

fn is_other(numbers: &[u64], value: &Value) -> bool
    ensures { result ≡ is_other numbers.now value.now }
{
    match value {
        Value::Object(object) => !has_number(numbers, *object),
        Value::Truth(_) | Value::Number(_) | Value::Text(_) => true,
    }
}

// The values that are none of these objects.
fn others(alloc: Global, numbers: &[u64], values: &[Value]) -> Result<Values, NoMemory>
    ensures { IfOk result (λ list. list ≡ filter (is_other numbers.now) values.now) }
{
    let mut list = Values::new(alloc);
    let mut rest = values;
    while let Some((value, more)) = rest.split_first() {
        if is_other(numbers, value) {
            list.push(value.copy()?)?;
        }
        rest = more;
    }
    Ok(list)
}

// The state cells of the objects that stay, without references to those that are gone.
fn cells_without(
    alloc: Global,
    numbers: &[u64],
    cells: &[StoredCell],
) -> Result<Sequence<StoredCell>, NoMemory>
    ensures { IfOk result (λ list. list ≡ cells_left numbers.now cells.now) }
{
    let mut list = Sequence::new(alloc);
    let mut rest = cells;
    while let Some((cell, more)) = rest.split_first() {
        if !has_number(numbers, cell.object) {
            list.push(StoredCell {
                object: cell.object,
                column: cell.column,
                set: others(alloc, numbers, cell.set.as_slice())?,
            })?;
        }
        rest = more;
    }
    Ok(list)
}

fn objects_without(
    alloc: Global,
    numbers: &[u64],
    objects: &[LiveObject],
) -> Result<Sequence<LiveObject>, NoMemory>
    ensures { IfOk result (λ list. list ≡ filter (λ x. not (has_number numbers.now x.number)) objects.now) }
{
    let mut list = Sequence::new(alloc);
    let mut rest = objects;
    while let Some((object, more)) = rest.split_first() {
        if !has_number(numbers, object.number) {
            list.push(*object)?;
        }
        rest = more;
    }
    Ok(list)
}

/// The state without an object and all below it, their cells and every reference to them.
pub fn without_object(alloc: Global, state: &State, object: u64) -> Result<State, NoMemory>
    ensures { IfOk result (λ next. next ≡ without_object state.now object) }
{
    let all = state.objects.as_slice();
    let gone = family(alloc, all, object)?;
    let numbers = gone.as_slice();
    let objects = objects_without(alloc, numbers, all)?;
    let stored = state.cells.as_slice();
    let cells = cells_without(alloc, numbers, stored)?;
    Ok(State {
        objects,
        cells,
        next: state.next,
    })
}
