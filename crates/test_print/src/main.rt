//! Prints the workbooks of examples. An example `E` is a definition, `E.sheet`, and steps that change its workbook, a line each,
//! `E.steps`. Behind its text stand how many bytes are written where each write fails in turn, and that these are a front of it.
//!
//! `new C O` makes an object of the column with the path C under object O. `set O C V..` lets a state cell hold these values: truths,
//! numbers, `#N` for objects, and other words as the texts that they stand for in cases. `delete O` takes an object away.
#![tactic(auto)]

ghost use Rattle.std.specs.Prelude.{◌≡◌, ◌<◌};

mod changes;
mod printing;
mod words;

use crate::changes::change_all;
use crate::printing::printed;
use sheet_values::{NoMemory, Steps};
use std::alloc::Global;
use std::marker::Brand;
use std::sync::ledger::{Blank, Ledger};
use std::test::Fail;
use std::{env, fs};
use test_engine_calls::started;

fn main(rt: HostRuntime) -> Result<(), Fail> {
    let alloc = rt.alloc();
    for name in env::args(&rt)?.skip(1) {
        let definition = format!(in alloc; "{name}.sheet")?;
        let definition = fs::read(&rt, definition.as_str())?;
        let steps = format!(in alloc; "{name}.steps")?;
        let steps = fs::read(&rt, steps.as_str())?;
        let told = told(alloc, definition.as_slice(), steps.as_slice())?;
        print!(rt; "{name}\n{told}")?;
    }
    Ok(())
}

// The text of an example's workbook.
fn told(alloc: Global, definition: &[u8], lines: &[u8]) -> Result<String, NoMemory> {
    counted::<Brand>(alloc, Blank::new(1), definition, lines)
}

// The same, with its evaluations counted.
fn counted<G: Ledger>(
    alloc: Global,
    blank: Blank,
    definition: &[u8],
    lines: &[u8],
) -> Result<String, NoMemory>
    requires name { blank.name ≡ G.name }
    requires parts { blank.parts ≡ G.parts }
    requires some { 0 < blank.parts }
{
    let mut steps = Steps::<G>::start(blank);
    match started(alloc, definition)? {
        Some(mut engine) => {
            change_all(alloc, &mut engine, lines)?;
            printed(alloc, &mut engine, &mut steps)
        }
        None => Ok(String::from_str(alloc, "no book\n")?),
    }
}
