//! Elaborates the definitions of the cases in the files that are named, and prints each in a line with what its book holds, or why it
//! has none.
#![tactic(auto)]

mod books;
mod refused;

use crate::books::held;
use crate::refused::{refused, unread};
use sheet_define::read_definition;
use sheet_types::elaborate;
use sheet_types_outline::is_orderly;
use sheet_values::NoMemory;
use std::alloc::Global;
use std::test::Fail;
use std::{env, fs};
use test_cases::{text_of, word_and_text};

fn main(rt: HostRuntime) -> Result<(), Fail> {
    let alloc = rt.alloc();
    for name in env::args(&rt)?.skip(1) {
        let table = fs::read(&rt, name.as_str())?;
        for line in table.as_slice().split(|byte| *byte == b'\n') {
            if let Some(told) = case(alloc, line)? {
                println!(rt; "{told}")?;
            }
        }
    }
    Ok(())
}

// A case and what it comes to; an empty line is no case.
fn case(alloc: Global, line: &[u8]) -> Result<Option<String>, NoMemory> {
    if line.is_empty() {
        return Ok(None);
    }
    let (_, written) = word_and_text(line);
    let text = text_of(alloc, written)?;
    let outcome = outcome(alloc, text.as_slice())?;
    let case = str::from_utf8(line).unwrap_or("?");
    Ok(Some(format!(in alloc; "{case} => {outcome}")?))
}

fn outcome(alloc: Global, text: &[u8]) -> Result<String, NoMemory> {
    match read_definition(alloc, text) {
        Ok(definition) if is_orderly(&definition) => match elaborate(alloc, &definition) {
            Ok(book) => held(alloc, &book),
            Err(refusal) => refused(alloc, &refusal),
        },
        Ok(_) => Ok(format!(in alloc; "disorderly")?),
        Err(refusal) => unread(alloc, &refusal),
    }
}
