// Steps that change a workbook.
use crate::words::{number, set_of};
use sheet_engine::Engine;
use sheet_state::StateRefusal;
use sheet_values::NoMemory;
use std::alloc::Global;
use test_cases::word_and_text;
use test_engine_calls::{column_at, delete, make, put};

/// Makes the changes of some lines. A line that isn't right changes nothing.
pub fn change_all(alloc: Global, engine: &mut Engine, lines: &[u8]) -> Result<(), NoMemory> {
    let lines = lines_of(alloc, lines)?;
    for line in lines.as_slice() {
        change(alloc, engine, line)?;
    }
    Ok(())
}

// The lines of a text.
fn lines_of(alloc: Global, text: &[u8]) -> Result<Vec<&[u8]>, NoMemory> {
    let mut lines = Vec::new(alloc);
    for line in text.split(|byte| *byte == b'\n') {
        lines.push(line)?;
    }
    Ok(lines)
}

// Makes the change of a line.
fn change(alloc: Global, engine: &mut Engine, line: &[u8]) -> Result<(), NoMemory> {
    let (word, rest) = word_and_text(line);
    match word {
        b"new" => make_one(engine, rest),
        b"set" => set(alloc, engine, rest),
        b"delete" => delete_one(engine, rest),
        _ => Ok(()),
    }
}

// Makes an object.
fn make_one(engine: &mut Engine, rest: &[u8]) -> Result<(), NoMemory> {
    let (path, above) = word_and_text(rest);
    let Some(column) = column_at(engine.book(), path) else {
        return Ok(());
    };
    match make(engine, column, number(above)) {
        Err(StateRefusal::NoMemory) => Err(NoMemory),
        _ => Ok(()),
    }
}

// Lets a state cell hold values.
fn set(alloc: Global, engine: &mut Engine, rest: &[u8]) -> Result<(), NoMemory> {
    let (object, rest) = word_and_text(rest);
    let (path, words) = word_and_text(rest);
    let set = set_of(alloc, words)?;
    let Some(column) = column_at(engine.book(), path) else {
        return Ok(());
    };
    match put(engine, number(object), column, set) {
        Err(StateRefusal::NoMemory) => Err(NoMemory),
        _ => Ok(()),
    }
}

// Takes an object away.
fn delete_one(engine: &mut Engine, rest: &[u8]) -> Result<(), NoMemory> {
    delete(engine, number(rest))?;
    Ok(())
}
