// An engine's state as the lists of the plain program.
use sheet_columns::Sequence;
use sheet_engine::Engine;
use sheet_meaning::{LiveObject, State, StoredCell};
use sheet_values::{NoMemory, Set, Values};
use std::alloc::Global;

// The state columns, each with the column above it.
const STATES: [(u32, u32); 5] = [(2, 1), (3, 1), (5, 4), (6, 4), (14, 0)];

/// The state, whose objects have numbers below the bound.
pub fn listed(alloc: Global, engine: &Engine, bound: u64) -> Result<State, NoMemory> {
    let mut objects = Sequence::new(alloc);
    let mut cells = Sequence::new(alloc);
    for number in 0..bound {
        if let Some(column) = engine.state().column_of(number) {
            let parent = engine.state().parent(number);
            objects.push(LiveObject {
                number,
                column,
                parent,
            })?;
            add_cells(alloc, engine, number, column, &mut cells)?;
        }
    }
    Ok(State {
        objects,
        cells,
        next: bound,
    })
}

// The state cells of an object.
fn add_cells(
    alloc: Global,
    engine: &Engine,
    object: u64,
    above: u32,
    cells: &mut Sequence<StoredCell>,
) -> Result<(), NoMemory> {
    for (column, of) in STATES {
        if of == above {
            let set = values_of(alloc, engine.state().cell(object, column))?;
            cells.push(StoredCell {
                object,
                column,
                set,
            })?;
        }
    }
    Ok(())
}

// The values of a set.
fn values_of(alloc: Global, set: &Set) -> Result<Values, NoMemory> {
    let mut values = Values::new(alloc);
    for value in set.as_slice() {
        values.push(value.copy()?)?;
    }
    Ok(values)
}
