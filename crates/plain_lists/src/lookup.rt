// What a state and its worked-out formula cells tell.
ghost use Rattle.std.specs.Prelude.{◌≡◌, ◌++◌, ◌∷◌, [], IfOk, OnOk, Ok, is_some, filter, map, slice_index_or};
ghost use Rattle.sheet_values.specs.declared.value.Value.TheVariants.{Object};
ghost use Rattle.sheet_meaning.specs.Formula.{is_read, live_reads, variable_read, objects_of, on_object, step};
ghost use Rattle.sheet_meaning.specs.Workbook.{object_at, column_in, parent_in, is_child, children_in, set_in};
ghost use Rattle.sheet_columns.specs.Tree.{is_number};
ghost use Rattle.plain_lists.specs.Told.{told, scene, way_of};

use crate::lists::{alone, copied};
use sheet_columns::{Fault, Item, Sequence};
use sheet_meaning::{LiveObject, Run, State, StoredCell, Use};
use sheet_values::{NoMemory, Value, Values};
use std::alloc::Global;

/// A formula cell that is worked out so far. That it has no outcome is written as the fault `cycle`.
#[derive(Debug, Drop)]
pub struct WorkedCell {
    pub object: u64,
    pub column: u32,
    pub outcome: Result<Values, Fault>,
}

/// How a step goes on from an object.
#[derive(Clone, Copy, Debug, PartialEq, Eq)]
pub enum Way {
    /// To its objects in an object column.
    Children(u32),
    /// To the values of its cell in a state column.
    OfState(u32),
    /// To the values of its cell in a formula column.
    OfFormula(u32),
    /// To the object above it.
    Parent,
}

/// The live object with a number.
pub fn object_at(objects: &[LiveObject], number: u64) -> Option<LiveObject>
    ensures { result ≡ object_at objects.now number }
{
    let Some((first, more)) = objects.split_first() else {
        return None;
    };
    if first.number == number {
        Some(*first)
    } else {
        object_at(more, number)
    }
}

// Whether an object is live.
fn is_live(state: &State, object: u64) -> bool
    ensures { result ≡ is_some (column_in (object_at state.now.objects object)) }
{
    match object_at(state.objects.as_slice(), object) {
        Some(_) => true,
        None => false,
    }
}

/// The object above an object.
pub fn parent(state: &State, object: u64) -> Option<u64>
    ensures { result ≡ parent_in (object_at state.now.objects object) }
{
    match object_at(state.objects.as_slice(), object) {
        Some(found) => found.parent,
        None => None,
    }
}

fn is_at(number: u64, place: Option<u64>) -> bool
    ensures { result ≡ is_number number place }
{
    match place {
        Some(found) => number == found,
        None => false,
    }
}

fn is_under(parent: u64, column: u32, object: &LiveObject) -> bool
    ensures { result ≡ is_child parent column object.now }
{
    object.column == column && is_at(parent, object.parent)
}

/// The objects of a column whose parent is an object.
pub fn children(
    alloc: Global,
    objects: &[LiveObject],
    parent: u64,
    column: u32,
) -> Result<Values, NoMemory>
    ensures { IfOk result (λ list. list ≡ children_in objects.now parent column) }
{
    let mut list = Values::new(alloc);
    let mut rest = objects;
    while let Some((first, more)) = rest.split_first() {
        if is_under(parent, column, first) {
            list.push(Value::Object(first.number))?;
        }
        rest = more;
    }
    Ok(list)
}

/// What a state cell holds, and nothing where there is no such cell.
pub fn set_in(
    alloc: Global,
    cells: &[StoredCell],
    object: u64,
    column: u32,
) -> Result<Values, NoMemory>
    ensures { IfOk result (λ list. list ≡ set_in cells.now object column) }
{
    let Some((first, more)) = cells.split_first() else {
        return Ok(Values::new(alloc));
    };
    if first.object == object && first.column == column {
        copied(alloc, first.set.as_slice())
    } else {
        set_in(alloc, more, object, column)
    }
}

// The outcome of a formula cell.
fn outcome_of(
    alloc: Global,
    worked: &[WorkedCell],
    object: u64,
    column: u32,
) -> Result<Result<Values, Fault>, NoMemory>
    ensures { IfOk result (λ o. o ≡ told worked.now object column) }
{
    let Some((first, more)) = worked.split_first() else {
        return Ok(Err(Fault::Cycle));
    };
    if first.object == object && first.column == column {
        match &first.outcome {
            Ok(set) => Ok(Ok(copied(alloc, set.as_slice())?)),
            Err(fault) => Ok(Err(*fault)),
        }
    } else {
        outcome_of(alloc, more, object, column)
    }
}

fn used(alloc: Global, one: Use) -> Result<Sequence<Use>, NoMemory>
    ensures { IfOk result (λ uses. uses ≡ one ∷ []) }
{
    let mut uses = Sequence::new(alloc);
    uses.push(one)?;
    Ok(uses)
}

fn parent_set(alloc: Global, parent: Option<u64>) -> Result<Values, NoMemory>
    ensures { IfOk result (λ list. list ≡ objects_of parent) }
{
    match parent {
        Some(object) => alone(alloc, Value::Object(object)),
        None => Ok(Values::new(alloc)),
    }
}

/// What a step from an object gives, and what it uses.
pub fn way_from(
    alloc: Global,
    state: &State,
    worked: &[WorkedCell],
    way: Way,
    object: u64,
) -> Result<Run<Values>, NoMemory>
    ensures { IfOk result (λ r. r ≡ way_of (scene state.now worked.now) way object) }
{
    match way {
        Way::Children(column) => {
            let objects = state.objects.as_slice();
            let set = children(alloc, objects, object, column)?;
            let uses = used(alloc, Use::Read(Item::Extent(object, column)))?;
            Ok(Run {
                outcome: Ok(set),
                uses,
            })
        }
        Way::OfState(column) => {
            let cells = state.cells.as_slice();
            let set = set_in(alloc, cells, object, column)?;
            let uses = used(alloc, Use::Read(Item::Stored(object, column)))?;
            Ok(Run {
                outcome: Ok(set),
                uses,
            })
        }
        Way::OfFormula(column) => {
            let outcome = outcome_of(alloc, worked, object, column)?;
            let uses = used(alloc, Use::Cell(object, column))?;
            Ok(Run { outcome, uses })
        }
        Way::Parent => {
            let set = parent_set(alloc, parent(state, object))?;
            let uses = used(alloc, Use::Read(Item::Up(object)))?;
            Ok(Run {
                outcome: Ok(set),
                uses,
            })
        }
    }
}

fn is_present(state: &State, value: &Value) -> bool
    ensures { result ≡ is_read (scene state.now []) value.now }
{
    match value {
        Value::Object(object) => is_live(state, *object),
        Value::Truth(_) | Value::Number(_) | Value::Text(_) => true,
    }
}

// Adds the use that reading a value is.
fn push_read(uses: &mut Sequence<Use>, value: &Value) -> Result<(), NoMemory>
    ensures { OnOk result (uses.new ≡ uses.old ++ live_reads (value.now ∷ [])) }
{
    if let Value::Object(object) = value {
        uses.push(Use::Read(Item::Live(*object)))?;
    }
    Ok(())
}

fn reads(alloc: Global, values: &[Value]) -> Result<Sequence<Use>, NoMemory>
    ensures { IfOk result (λ uses. uses ≡ live_reads values.now) }
{
    let mut uses = Sequence::new(alloc);
    for value in values {
        push_read(&mut uses, value)?;
    }
    Ok(uses)
}

fn present(alloc: Global, state: &State, values: &[Value]) -> Result<Values, NoMemory>
    ensures { IfOk result (λ list. list ≡ filter (is_read (scene state.now [])) values.now) }
{
    let mut list = Values::new(alloc);
    for value in values {
        if is_present(state, value) {
            list.push(value.copy()?)?;
        }
    }
    Ok(list)
}

/// What the variable at a position gives, of objects only the live ones.
pub fn variable(
    alloc: Global,
    state: &State,
    variables: &[Values],
    position: u32,
) -> Result<Run<Values>, NoMemory>
    ensures { IfOk result (λ r. r ≡ variable_read (scene state.now []) (slice_index_or variables.now position [])) }
{
    let values = match variables.get(position as usize) {
        Some(values) => values.as_slice(),
        None => &[],
    };
    let set = present(alloc, state, values)?;
    let uses = reads(alloc, values)?;
    Ok(Run {
        outcome: Ok(set),
        uses,
    })
}
