// Workbooks of many objects.
use sheet_engine::Engine;
use sheet_state::StateRefusal;
use sheet_values::{Set, Value};
use std::alloc::Global;
use test_engine_calls::{make, put};

/// Makes that many objects of a column under the root.
pub fn fill(engine: &mut Engine, size: u32) -> Result<(), StateRefusal> {
    for _ in 0..size {
        make(engine, 1, 0)?;
    }
    Ok(())
}

/// Makes an object with that many objects below it.
pub fn fill_below(engine: &mut Engine, size: u32) -> Result<(), StateRefusal> {
    if let Some(above) = make(engine, 1, 0)? {
        for _ in 0..size {
            make(engine, 3, above)?;
        }
    }
    Ok(())
}

/// Makes that many objects, each of which refers to the one before it.
pub fn fill_chain(alloc: Global, engine: &mut Engine, size: u32) -> Result<(), StateRefusal> {
    let mut last = make(engine, 1, 0)?;
    for _ in 1..size {
        last = make_behind(alloc, engine, last)?;
    }
    Ok(())
}

// Makes an object that refers to another one.
fn make_behind(
    alloc: Global,
    engine: &mut Engine,
    last: Option<u64>,
) -> Result<Option<u64>, StateRefusal> {
    let next = make(engine, 1, 0)?;
    if let (Some(object), Some(held)) = (next, last) {
        put(engine, object, 2, Set::one(alloc, Value::Object(held))?)?;
    }
    Ok(next)
}

/// Makes that many objects, each with another number.
pub fn fill_numbered(alloc: Global, engine: &mut Engine, size: u32) -> Result<(), StateRefusal> {
    for number in 0..size {
        make_numbered(alloc, engine, i64::from(number))?;
    }
    Ok(())
}

// Makes an object with that number.
fn make_numbered(alloc: Global, engine: &mut Engine, number: i64) -> Result<(), StateRefusal> {
    if let Some(object) = make(engine, 1, 0)? {
        put(engine, object, 2, Set::one(alloc, Value::Number(number))?)?;
    }
    Ok(())
}
