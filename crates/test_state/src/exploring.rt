// Random changes and the way back from them.
ghost use Rattle.std.specs.Prelude.{◌≡◌, ◌≤◌, ◌<◌, length};
ghost use Rattle.sheet_state.specs.Stored.{IsStored};

use crate::{Model, Random, delete, delete_all, make, refer};
use sheet_columns::Columns;
use sheet_state::{State, StateRefusal};
use sheet_values::{NoMemory, Set, Value};
use std::alloc::Global;

const OBJECT_COLUMNS: [u32; 2] = [1, 3];

const STATE_COLUMNS: [u32; 2] = [2, 4];

// Makes an object under a random one.
fn grow(
    columns: &Columns,
    state: &mut State,
    model: &mut Model,
    random: &mut Random,
) -> Result<(), StateRefusal>
    requires { IsStored columns.now state.old }
    ensures kept { IsStored columns.now state.new }
    ensures longer { length state.old.earlier ≤ length state.new.earlier }
{
    let above = random.below(model.next().saturating_add(1));
    let column = if above == 0 { 1 } else { 3 };
    if let Some(_) = make(columns, state, column, above)? {
        model.make(column, above)?;
    }
    Ok(())
}

// Lets a random cell hold a random object.
fn link(
    alloc: Global,
    columns: &Columns,
    state: &mut State,
    model: &mut Model,
    random: &mut Random,
) -> Result<(), StateRefusal>
    requires { IsStored columns.now state.old }
    ensures kept { IsStored columns.now state.new }
    ensures longer { length state.old.earlier ≤ length state.new.earlier }
{
    let bound = model.next().saturating_add(1);
    let object = random.below(bound);
    let held = random.below(bound);
    let column = if random.below(2) == 0 { 2 } else { 4 };
    if refer(alloc, columns, state, object, column, held)? {
        model.refer(object, column, held)?;
    }
    Ok(())
}

// Takes a random object away.
fn cut(
    alloc: Global,
    columns: &Columns,
    state: &mut State,
    model: &mut Model,
    random: &mut Random,
) -> Result<(), StateRefusal>
    requires { IsStored columns.now state.old }
    ensures kept { IsStored columns.now state.new }
    ensures longer { length state.old.earlier ≤ length state.new.earlier }
{
    let object = random.below(model.next().saturating_add(1));
    if delete(columns, state, object)? {
        model.delete(alloc, object)?;
    }
    Ok(())
}

// Three random numbers, of which some may be those of objects.
fn three(alloc: Global, random: &mut Random, bound: u64) -> Result<Set, NoMemory>
    requires { 0 < bound }
{
    let mut set = Set::empty(alloc);
    for _ in 0..3 {
        set.insert(Value::Object(random.below(bound)))?;
    }
    Ok(set)
}

// Takes some random objects away at once.
fn cut_some(
    alloc: Global,
    columns: &Columns,
    state: &mut State,
    model: &mut Model,
    random: &mut Random,
) -> Result<(), StateRefusal>
    requires { IsStored columns.now state.old }
    ensures kept { IsStored columns.now state.new }
    ensures longer { length state.old.earlier ≤ length state.new.earlier }
{
    let objects = three(alloc, random, model.next().saturating_add(1))?;
    if delete_all(columns, state, &objects)? {
        model.delete_all(alloc, &objects)?;
    }
    Ok(())
}

// One random change.
fn change(
    alloc: Global,
    columns: &Columns,
    state: &mut State,
    model: &mut Model,
    random: &mut Random,
) -> Result<(), StateRefusal>
    requires { IsStored columns.now state.old }
    ensures kept { IsStored columns.now state.new }
    ensures longer { length state.old.earlier ≤ length state.new.earlier }
{
    match random.below(9) {
        0 => cut(alloc, columns, state, model, random),
        1 => cut_some(alloc, columns, state, model, random),
        2 | 3 | 4 => link(alloc, columns, state, model, random),
        _ => grow(columns, state, model, random),
    }
}

/// Makes random changes, goes that much deeper, and takes all back; whether the state agreed with the model all the way.
pub fn explore(
    alloc: Global,
    columns: &Columns,
    state: &mut State,
    model: &Model,
    random: &mut Random,
    depth: u32,
) -> Result<bool, StateRefusal>
    requires { IsStored columns.now state.old }
    ensures kept { IsStored columns.now state.new }
    ensures longer { length state.old.earlier ≤ length state.new.earlier }
{
    if depth == 0 {
        return Ok(true);
    }
    let mark = state.mark();
    let mut changed = model.copy()?;
    change(alloc, columns, state, &mut changed, random)?;
    change(alloc, columns, state, &mut changed, random)?;
    let there = changed.agrees(state, OBJECT_COLUMNS.as_slice(), STATE_COLUMNS.as_slice());
    let deeper = explore(alloc, columns, state, &changed, random, depth - 1)?;
    state.undo_to(mark);
    let back = model.agrees(state, OBJECT_COLUMNS.as_slice(), STATE_COLUMNS.as_slice());
    Ok(there && deeper && back)
}
