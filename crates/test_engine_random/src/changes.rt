// Random changes of a workbook.
use sheet_engine::Engine;
use sheet_state::StateRefusal;
use sheet_values::{NoMemory, Set, Value};
use std::alloc::Global;
use test_engine_calls::{delete, make, put};
use test_state::Random;

/// Objects have lower numbers.
pub const BOUND: u64 = 12;

/// Makes some random changes; those that may not be made are left out.
pub fn change_some(
    alloc: Global,
    engine: &mut Engine,
    random: &mut Random,
) -> Result<(), StateRefusal> {
    for _ in 0..6u32 {
        change(alloc, engine, random)?;
    }
    Ok(())
}

// Makes a random change, where it may be made.
fn change(alloc: Global, engine: &mut Engine, random: &mut Random) -> Result<(), StateRefusal> {
    match random.below(10) {
        0 | 1 => make_some(engine, 1, 0),
        2 | 3 => make_some(engine, 4, random.below(6)),
        4 => {
            let object = random.below(BOUND);
            delete_some(engine, object, random)
        }
        _ => put_some(alloc, engine, random),
    }
}

// Makes an object, while there are few.
fn make_some(engine: &mut Engine, column: u32, above: u64) -> Result<(), StateRefusal> {
    if engine.state().objects() < 7 {
        make(engine, column, above)?;
    }
    Ok(())
}

// Takes an object away now and then.
fn delete_some(engine: &mut Engine, object: u64, random: &mut Random) -> Result<(), StateRefusal> {
    if random.below(3) == 0 {
        delete(engine, object)?;
    }
    Ok(())
}

// Fills a random state cell.
fn put_some(alloc: Global, engine: &mut Engine, random: &mut Random) -> Result<(), StateRefusal> {
    let object = random.below(BOUND);
    match random.below(5) {
        0 => put_set(engine, 0, 14, numbers(alloc, random)?),
        1 => put_set(engine, object, 2, one(alloc, random)?),
        2 => put_set(engine, object, 5, numbers(alloc, random)?),
        3 => put_set(engine, object, 3, objects(alloc, random)?),
        _ => put_set(engine, object, 6, objects(alloc, random)?),
    }
}

fn put_set(engine: &mut Engine, object: u64, column: u32, set: Set) -> Result<(), StateRefusal> {
    put(engine, object, column, set)?;
    Ok(())
}

// A small number.
fn small(random: &mut Random) -> i64 {
    match random.below(4) {
        0 => 0,
        1 => 1,
        2 => 2,
        _ => -1,
    }
}

// One small number.
fn one(alloc: Global, random: &mut Random) -> Result<Set, NoMemory> {
    Set::one(alloc, Value::Number(small(random)))
}

// None to two small numbers.
fn numbers(alloc: Global, random: &mut Random) -> Result<Set, NoMemory> {
    let mut set = Set::empty(alloc);
    for _ in 0..random.below(3) {
        set.insert(Value::Number(small(random)))?;
    }
    Ok(set)
}

// None to two numbers of objects, which may be none.
fn objects(alloc: Global, random: &mut Random) -> Result<Set, NoMemory> {
    let mut set = Set::empty(alloc);
    for _ in 0..random.below(3) {
        set.insert(Value::Object(random.below(BOUND)))?;
    }
    Ok(set)
}
