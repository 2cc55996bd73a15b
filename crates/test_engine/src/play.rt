// Steps, and what they come to.
ghost use Rattle.std.specs.Prelude.{◌≤◌, length};

use crate::change::{deleted, made, made_many, set};
use crate::page::shown;
use crate::words::{number, told_result};
use sheet_engine::Engine;
use sheet_values::{NoMemory, Steps};
use std::alloc::Global;
use std::sync::ledger::Ledger;
use test_cases::word_and_text;
use test_engine_calls::{column_at, result_of};

/// Makes the steps of some lines; a line for each, with what it comes to.
pub fn play_all<G: Ledger>(
    alloc: Global,
    engine: &mut Engine,
    lines: &[u8],
    steps: &mut Steps<G>,
) -> Result<String, NoMemory> {
    let mut text = String::new(alloc);
    let lines = lines_of(alloc, lines)?;
    for line in lines.as_slice() {
        play_line(alloc, &mut text, engine, line, steps)?;
    }
    Ok(text)
}

// The lines of a text.
fn lines_of(alloc: Global, text: &[u8]) -> Result<Vec<&[u8]>, NoMemory> {
    let mut lines = Vec::new(alloc);
    for line in text.split(|byte| *byte == b'\n') {
        lines.push(line)?;
    }
    Ok(lines)
}

// The steps between semicolons.
fn steps_of(alloc: Global, text: &[u8]) -> Result<Vec<&[u8]>, NoMemory> {
    let mut steps = Vec::new(alloc);
    for step in text.split(|byte| *byte == b';') {
        steps.push(step)?;
    }
    Ok(steps)
}

// Makes the step of a line, or the steps that are undone.
fn play_line<G: Ledger>(
    alloc: Global,
    text: &mut String,
    engine: &mut Engine,
    line: &[u8],
    steps: &mut Steps<G>,
) -> Result<(), NoMemory> {
    let (word, rest) = word_and_text(line);
    if word == b"undone".as_slice() {
        let mark = engine.mark();
        play_some(alloc, text, engine, rest, steps)?;
        engine.undo_to(mark);
        text.push_str("  undone\n")?;
        Ok(())
    } else if word == b"forget".as_slice() {
        engine.forget();
        Ok(())
    } else {
        play(alloc, text, engine, line, steps)
    }
}

// Makes the steps between semicolons.
fn play_some<G: Ledger>(
    alloc: Global,
    text: &mut String,
    engine: &mut Engine,
    lines: &[u8],
    steps: &mut Steps<G>,
) -> Result<(), NoMemory>
    ensures longer { length engine.old.state.earlier ≤ length engine.new.state.earlier }
{
    let lines = steps_of(alloc, lines)?;
    for line in lines.as_slice() {
        play(alloc, text, engine, line, steps)?;
    }
    Ok(())
}

// Makes a step, unless the line is empty.
fn play<G: Ledger>(
    alloc: Global,
    text: &mut String,
    engine: &mut Engine,
    line: &[u8],
    steps: &mut Steps<G>,
) -> Result<(), NoMemory>
    ensures longer { length engine.old.state.earlier ≤ length engine.new.state.earlier }
{
    if line.is_empty() {
        return Ok(());
    }
    let outcome = outcome(alloc, engine, line, steps)?;
    let step = str::from_utf8(line).unwrap_or("?");
    let told = format!(in alloc; "  {step} => {outcome}\n")?;
    text.push_str(told.as_str())?;
    Ok(())
}

// What a step comes to.
fn outcome<G: Ledger>(
    alloc: Global,
    engine: &mut Engine,
    line: &[u8],
    steps: &mut Steps<G>,
) -> Result<String, NoMemory>
    ensures longer { length engine.old.state.earlier ≤ length engine.new.state.earlier }
{
    let (word, rest) = word_and_text(line);
    if word == b"new".as_slice() {
        made(alloc, engine, rest)
    } else if word == b"many".as_slice() {
        made_many(alloc, engine, rest)
    } else if word == b"set".as_slice() {
        set(alloc, engine, rest)
    } else if word == b"delete".as_slice() {
        deleted(alloc, engine, rest)
    } else {
        asked(alloc, engine, word, rest, steps)
    }
}

// What a question comes to.
fn asked<G: Ledger>(
    alloc: Global,
    engine: &mut Engine,
    word: &[u8],
    rest: &[u8],
    steps: &mut Steps<G>,
) -> Result<String, NoMemory>
    ensures longer { length engine.old.state.earlier ≤ length engine.new.state.earlier }
{
    if word == b"value".as_slice() {
        value(alloc, engine, rest, steps)
    } else if word == b"show".as_slice() {
        shown(alloc, engine, rest, steps)
    } else {
        counted(alloc, engine)
    }
}

// How many objects and kept results there are.
fn counted(alloc: Global, engine: &Engine) -> Result<String, NoMemory> {
    let (objects, kept) = (engine.state().objects(), engine.kept());
    Ok(format!(in alloc; "{objects} objects, {kept} kept results")?)
}

// The result of a formula cell.
fn value<G: Ledger>(
    alloc: Global,
    engine: &mut Engine,
    rest: &[u8],
    steps: &mut Steps<G>,
) -> Result<String, NoMemory>
    ensures longer { length engine.old.state.earlier ≤ length engine.new.state.earlier }
{
    let (object, path) = word_and_text(rest);
    let Some(column) = column_at(engine.book(), path) else {
        return Ok(String::from_str(alloc, "no such column")?);
    };
    match result_of(engine, number(object), column, steps)? {
        Some(result) => told_result(alloc, engine.book().columns(), &result),
        None => Ok(String::from_str(alloc, "no such cell")?),
    }
}
