//! Reads the cases in the files that are named, and prints each in a line with what it comes to: the tokens of a text with their
//! places, the printed text of a formula, how long that is, or the formula that begins at each token.
#![tactic(auto)]

mod formulas;
mod refused;
mod tokens;

use crate::formulas::{from_each, length, printed};
use crate::tokens::listed;
use sheet_values::NoMemory;
use std::alloc::Global;
use std::test::Fail;
use std::{env, fs};
use test_cases::{text_of, word_and_text};

fn main(rt: HostRuntime) -> Result<(), Fail> {
    let alloc = rt.alloc();
    for name in env::args(&rt)?.skip(1) {
        let table = fs::read(&rt, name.as_str())?;
        for line in table.as_slice().split(|byte| *byte == b'\n') {
            if let Some(told) = told(alloc, line)? {
                println!(rt; "{told}")?;
            }
        }
    }
    Ok(())
}

// A case and what it comes to; an empty line is no case.
fn told(alloc: Global, line: &[u8]) -> Result<Option<String>, NoMemory> {
    if line.is_empty() {
        return Ok(None);
    }
    let (word, written) = word_and_text(line);
    let text = text_of(alloc, written)?;
    let outcome = outcome(alloc, word, text.as_slice())?;
    let case = str::from_utf8(line).unwrap_or("?");
    Ok(Some(format!(in alloc; "{case} => {outcome}")?))
}

// What a text comes to; one of over a million bytes isn't read.
fn outcome(alloc: Global, word: &[u8], text: &[u8]) -> Result<String, NoMemory> {
    if text.len() > 1_000_000 {
        return Ok(format!(in alloc; "too long a text")?);
    }
    match word {
        b"tokens" => listed(alloc, text),
        b"formula" => printed(alloc, text),
        b"length" => length(alloc, text),
        b"from_each" => from_each(alloc, text),
        _ => Ok(format!(in alloc; "no case")?),
    }
}
