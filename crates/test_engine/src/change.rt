// Steps that change a workbook.
ghost use Rattle.std.specs.Prelude.{◌≤◌, length};

use crate::words::{number, set_of};
use sheet_engine::Engine;
use sheet_meaning::Refusal;
use sheet_state::StateRefusal;
use sheet_values::NoMemory;
use std::alloc::Global;
use test_cases::word_and_text;
use test_engine_calls::{column_at, delete, make, put};
use test_language_replies::refusal_text;

// The text of a refusal.
fn refused(alloc: Global, engine: &Engine, refusal: StateRefusal) -> Result<String, NoMemory> {
    match refusal {
        StateRefusal::Full(which, limit) => {
            refusal_text(alloc, engine.book().columns(), &Refusal::Full(which, limit))
        }
        StateRefusal::NoMemory => Err(NoMemory),
    }
}

/// Makes an object.
pub fn made(alloc: Global, engine: &mut Engine, rest: &[u8]) -> Result<String, NoMemory>
    ensures longer { length engine.old.state.earlier ≤ length engine.new.state.earlier }
{
    let (path, above) = word_and_text(rest);
    let Some(column) = column_at(engine.book(), path) else {
        return Ok(String::from_str(alloc, "no such column")?);
    };
    match make(engine, column, number(above)) {
        Ok(Some(object)) => Ok(format!(in alloc; "{{\"object\":{object}}}")?),
        Ok(None) => Ok(String::from_str(alloc, "not there")?),
        Err(refusal) => refused(alloc, engine, refusal),
    }
}

// Makes that many objects, up to a refusal.
fn make_many(engine: &mut Engine, count: u64, column: u32, above: u64) -> Result<(), StateRefusal>
    ensures longer { length engine.old.state.earlier ≤ length engine.new.state.earlier }
{
    for _ in 0..count {
        make(engine, column, above)?;
    }
    Ok(())
}

/// Makes many objects.
pub fn made_many(alloc: Global, engine: &mut Engine, rest: &[u8]) -> Result<String, NoMemory>
    ensures longer { length engine.old.state.earlier ≤ length engine.new.state.earlier }
{
    let (count, rest) = word_and_text(rest);
    let (path, above) = word_and_text(rest);
    let Some(column) = column_at(engine.book(), path) else {
        return Ok(String::from_str(alloc, "no such column")?);
    };
    match make_many(engine, number(count), column, number(above)) {
        Ok(()) => Ok(String::from_str(alloc, "done")?),
        Err(refusal) => refused(alloc, engine, refusal),
    }
}

/// Lets a state cell hold values.
pub fn set(alloc: Global, engine: &mut Engine, rest: &[u8]) -> Result<String, NoMemory>
    ensures longer { length engine.old.state.earlier ≤ length engine.new.state.earlier }
{
    let (object, rest) = word_and_text(rest);
    let (path, words) = word_and_text(rest);
    let set = set_of(alloc, words)?;
    let Some(column) = column_at(engine.book(), path) else {
        return Ok(String::from_str(alloc, "no such column")?);
    };
    match put(engine, number(object), column, set) {
        Ok(true) => Ok(String::from_str(alloc, "done")?),
        Ok(false) => Ok(String::from_str(alloc, "not there")?),
        Err(refusal) => refused(alloc, engine, refusal),
    }
}

/// Takes an object away.
pub fn deleted(alloc: Global, engine: &mut Engine, rest: &[u8]) -> Result<String, NoMemory>
    ensures longer { length engine.old.state.earlier ≤ length engine.new.state.earlier }
{
    if delete(engine, number(rest))? {
        Ok(String::from_str(alloc, "done")?)
    } else {
        Ok(String::from_str(alloc, "not there")?)
    }
}
