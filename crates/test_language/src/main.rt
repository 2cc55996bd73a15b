//! Worked examples of the language, run through the plain program. Each line that is printed has the text or the name of an
//! example and what it comes to, in the form of replies; `stdout` holds what it must come to.
#![tactic(auto)]

mod club;
mod cycles;
mod formulas;
mod names;
mod sheet;
mod steps;
mod views;

use std::alloc::Global;
use std::process::ExitCode;
use test_language_words::Trouble;

fn main(rt: HostRuntime) -> ExitCode {
    let alloc = rt.alloc();
    let Ok(text) = examples(alloc) else {
        return ExitCode::FAILURE;
    };
    match print!(rt; "{text}") {
        Ok(()) => ExitCode::SUCCESS,
        Err(_) => ExitCode::FAILURE,
    }
}

// All examples, a line for each.
fn examples(alloc: Global) -> Result<String, Trouble> {
    let mut text = String::new(alloc);
    club::add_lines(alloc, &mut text)?;
    cycles::add_lines(alloc, &mut text)?;
    formulas::add_lines(alloc, &mut text)?;
    names::add_lines(alloc, &mut text)?;
    steps::add_lines(alloc, &mut text)?;
    views::add_lines(alloc, &mut text)?;
    Ok(text)
}
