// One object of many that goes and comes back.
ghost use Rattle.std.specs.Prelude.{◌≡◌, ◌≤◌, IfOk, length};
ghost use Rattle.sheet_state.specs.Stored.{IsStored};

use sheet_columns::Columns;
use sheet_state::{State, StateRefusal};
use sheet_values::NoMemory;
use std::alloc::Global;
use std::test::Fail;
use test_state::{columns, delete, delete_all, make, refer};

// A shelf with that many boxes.
fn fill(columns: &Columns, state: &mut State, boxes: u32) -> Result<(), StateRefusal>
    requires { IsStored columns.now state.old }
    ensures { IsStored columns.now state.new }
{
    let Some(shelf) = make(columns, state, 1, 0)? else {
        return Ok(());
    };
    for _ in 0..boxes {
        make(columns, state, 3, shelf)?;
    }
    Ok(())
}

// That many shelves, with that many boxes each.
fn build(columns: &Columns, state: &mut State, shelves: u64, boxes: u32) -> Result<(), StateRefusal>
    requires { IsStored columns.now state.old }
    ensures { IsStored columns.now state.new }
{
    for _ in 0..shelves {
        fill(columns, state, boxes)?;
    }
    state.forget();
    Ok(())
}

// Lets an object go and come back that many times.
fn let_go(columns: &Columns, state: &mut State, object: u64, times: u32) -> Result<(), StateRefusal>
    requires { IsStored columns.now state.old }
    ensures { IsStored columns.now state.new }
{
    for _ in 0..times {
        delete_and_undo(columns, state, object)?;
    }
    Ok(())
}

// Lets an object go and come back.
fn delete_and_undo(columns: &Columns, state: &mut State, object: u64) -> Result<(), StateRefusal>
    requires { IsStored columns.now state.old }
    ensures { IsStored columns.now state.new }
{
    let mark = state.mark();
    delete(columns, state, object)?;
    state.undo_to(mark);
    Ok(())
}

/// Makes about that many objects, in shelves of that many boxes. One in the middle, to which the next refers, is taken away and
/// comes back, that many times; how many objects there are.
pub fn deleted(alloc: Global, objects: u32, times: u32, boxes: u32) -> Result<u64, Fail> {
    let columns = columns(alloc)?;
    let mut state = State::new(alloc, &columns)?;
    let shelves = objects as u64 / (boxes as u64 + 1);
    build(&columns, &mut state, shelves, boxes)?;
    let leaf = objects as u64 / 2 + 2;
    refer(alloc, &columns, &mut state, leaf + 1, 4, leaf)?;
    state.forget();
    let_go(&columns, &mut state, leaf, times)?;
    Ok(state.objects())
}

// Lets all boxes of the first shelf go at once and come back, that many times.
fn let_all_go(columns: &Columns, state: &mut State, times: u32) -> Result<(), NoMemory>
    requires { IsStored columns.now state.old }
    ensures { IsStored columns.now state.new }
{
    for _ in 0..times {
        delete_all_and_undo(columns, state)?;
    }
    Ok(())
}

// Lets all boxes of the first shelf go at once and come back.
fn delete_all_and_undo(columns: &Columns, state: &mut State) -> Result<(), NoMemory>
    requires { IsStored columns.now state.old }
    ensures { IsStored columns.now state.new }
{
    let boxes = state.children(1, 3).copy()?;
    let mark = state.mark();
    delete_all(columns, state, &boxes)?;
    state.undo_to(mark);
    Ok(())
}

/// Makes a shelf of that many boxes, which all go at once and come back, that many times; how many objects there are.
pub fn all_deleted(alloc: Global, boxes: u32, times: u32) -> Result<u64, Fail> {
    let columns = columns(alloc)?;
    let mut state = State::new(alloc, &columns)?;
    build(&columns, &mut state, 1, boxes)?;
    let_all_go(&columns, &mut state, times)?;
    Ok(state.objects())
}
