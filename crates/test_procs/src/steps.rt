// Steps, and what they come to.
use crate::arguments::{number, values};
use crate::content::state_text;
use crate::telling::called_text;
use sheet_values::{NoMemory, Steps};
use std::alloc::Global;
use std::sync::ledger::Ledger;
use test_procs_calls::{Called, Filled};

/// Plays steps, a line each; an empty line is none.
pub fn play_all<G: Ledger>(
    alloc: Global,
    filled: &mut Filled,
    lines: &[u8],
    steps: &mut Steps<G>,
) -> Result<String, NoMemory> {
    let mut out = String::new(alloc);
    for line in pieces(alloc, lines, b'\n')?.as_slice() {
        let told = step(alloc, filled, line, steps)?;
        out.push_str(told.as_str())?;
    }
    Ok(out)
}

// The pieces of a text between bytes of one kind, without the empty ones.
fn pieces<'a>(alloc: Global, text: &'a [u8], mark: u8) -> Result<Vec<&'a [u8]>, NoMemory> {
    let mut list = Vec::new(alloc);
    for piece in text.split(|byte| *byte == mark) {
        if !piece.is_empty() {
            list.push(piece)?;
        }
    }
    Ok(list)
}

// What a step comes to.
fn step<G: Ledger>(
    alloc: Global,
    filled: &mut Filled,
    line: &[u8],
    steps: &mut Steps<G>,
) -> Result<String, NoMemory> {
    if line == b"state".as_slice() {
        let state = state_text(alloc, filled.book().columns(), filled.state())?;
        return Ok(format!(in alloc; "  state\n{state}")?);
    }
    let told = call(alloc, filled, line, steps)?;
    let line = str::from_utf8(line).unwrap_or("?");
    Ok(format!(in alloc; "  {line} => {told}\n")?)
}

// What a call comes to, and whether the state is as before where it didn't run to its end.
fn call<G: Ledger>(
    alloc: Global,
    filled: &mut Filled,
    line: &[u8],
    steps: &mut Steps<G>,
) -> Result<String, NoMemory> {
    let before = state_text(alloc, filled.book().columns(), filled.state())?;
    let called = called(alloc, filled, line, steps)?;
    let was_run = matches!(&called, Called::Ran(Ok(_)));
    let told = called_text(alloc, filled.book().columns(), called)?;
    if was_run {
        return Ok(told);
    }
    let after = state_text(alloc, filled.book().columns(), filled.state())?;
    let change = if before.as_str() == after.as_str() {
        "as before"
    } else {
        "changed"
    };
    Ok(format!(in alloc; "{told}; {change}")?)
}

// Calls what a line names.
fn called<G: Ledger>(
    alloc: Global,
    filled: &mut Filled,
    line: &[u8],
    steps: &mut Steps<G>,
) -> Result<Called, NoMemory> {
    let words = pieces(alloc, line, b' ')?;
    let [name, caller, arguments @ ..] = words.as_slice() else {
        return Ok(Called::NoProcedure);
    };
    let object = if *caller == b"-".as_slice() {
        None
    } else {
        Some(number(caller))
    };
    let arguments = values(alloc, arguments)?;
    Ok(filled.call(name, object, &arguments, steps))
}
