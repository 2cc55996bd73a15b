// Whether the two programs came to the same.
use plain_meaning::Stop;
use sheet_columns::Columns;
use sheet_meaning::{LiveObject, State as PlainState, StoredCell};
use sheet_procs::ProcedureRefusal;
use sheet_state::State;
use sheet_values::{NoMemory, Set, Value, Values};
use std::alloc::Global;
use test_language_replies::{refusal_text, set_text};
use test_procs_calls::refusal_of;

// What the engine came to.
fn engine_text(
    alloc: Global,
    columns: &Columns,
    end: Result<Set, ProcedureRefusal>,
) -> Result<String, NoMemory> {
    match end {
        Ok(reply) => set_text(alloc, reply.as_slice()),
        Err(refusal) => refused_text(alloc, columns, refusal),
    }
}

fn refused_text(
    alloc: Global,
    columns: &Columns,
    refusal: ProcedureRefusal,
) -> Result<String, NoMemory> {
    let refusal = refusal_of(refusal)?;
    refusal_text(alloc, columns, &refusal)
}

// What the plain program came to.
fn plain_text(
    alloc: Global,
    columns: &Columns,
    end: &Result<Values, Stop>,
) -> Result<String, NoMemory> {
    match end {
        Ok(reply) => set_text(alloc, reply.as_slice()),
        Err(Stop::Refused(refusal)) => refusal_text(alloc, columns, refusal),
        Err(Stop::NoMemory) => Err(NoMemory),
    }
}

/// Whether both came to the same reply or the same refusal.
pub fn is_same_end(
    alloc: Global,
    columns: &Columns,
    end: Result<Set, ProcedureRefusal>,
    plain: &Result<Values, Stop>,
) -> Result<bool, NoMemory> {
    let left = engine_text(alloc, columns, end)?;
    let right = plain_text(alloc, columns, plain)?;
    Ok(left.as_str() == right.as_str())
}

// Whether a set has exactly these values, which differ.
fn is_same_set(set: &Set, values: &[Value]) -> bool {
    for value in values {
        if !set.contains(value) {
            return false;
        }
    }
    set.len() == values.len()
}

// Whether a state tells the same of a live object, and of what it stands under.
fn is_same_object(state: &State, object: &LiveObject) -> bool {
    let is_below = match object.parent {
        Some(parent) => state
            .children(parent, object.column)
            .contains(&Value::Object(object.number)),
        None => true,
    };
    is_below
        && state.column_of(object.number) == Some(object.column)
        && state.parent(object.number) == object.parent
}

// How many objects a state lists below an object.
fn children(state: &State, columns: u32, object: u64) -> u64 {
    let mut count: u64 = 0;
    for column in 0..columns {
        count = count.saturating_add(state.children(object, column).len() as u64);
    }
    count
}

// Whether a state has exactly these live objects, each listed once below another but the root.
fn are_same_objects(state: &State, columns: u32, objects: &[LiveObject]) -> bool {
    let mut below: u64 = 1;
    for object in objects {
        if !is_same_object(state, object) {
            return false;
        }
        below = below.saturating_add(children(state, columns, object.number));
    }
    let count = objects.len() as u64;
    state.objects() == count && below == count
}

// Whether a state's cells hold the same.
fn are_same_cells(state: &State, cells: &[StoredCell]) -> bool {
    for cell in cells {
        if !is_same_set(state.cell(cell.object, cell.column), cell.set.as_slice()) {
            return false;
        }
    }
    true
}

/// Whether a state is that of the plain program.
pub fn is_same_state(state: &State, columns: u32, plain: &PlainState) -> bool {
    are_same_objects(state, columns, plain.objects.as_slice())
        && are_same_cells(state, plain.cells.as_slice())
}
